//! `labels --bibtex`: labels as the style `alpha` makes them.

ghost use Rattle.std.specs.Prelude.{◌≡◌, ◌≢◌, ◌++◌, List, Ok, Err, map, codes, IfOk, IfErr, OnOk};
ghost use Rattle.bib_spec.specs.Records.{entries_of};
ghost use Rattle.bib_store.specs.Readings.{OfReading};
ghost use Rattle.bib_names.specs.declared.fault.NameFault.TheVariants.{Memory};
ghost use Rattle.bibtex_spec.specs.Listed.{ListedRecord};
ghost use Rattle.bibtex_spec.specs.ListLaws.{bare};
ghost use Rattle.bibtex_lists.specs.Records.{record_as_listed};
ghost use Rattle.bibtex_labels.specs.Label.{label_names, labelled, all_labelled};
ghost use Rattle.bibtex_labels.specs.Order.{in_order};
ghost use Rattle.bibtex_answers.specs.Entries.{HaveRecords};
ghost use Rattle.bibtex_answers.specs.Labels.{ordered_lines, labels_told, labels_answer};
ghost use Rattle.bibtex_answers.specs.Opened.{AnswersAsBibtex};

use crate::json::MIN_CROSSREFS;
use crate::lines::add_all;
use crate::messages::too_deep;
use crate::opening::answer_file;
use bib_answers::{Answer, done, name_fault_answer, no_such_entry};
use bib_store::{Database, Paged};
use bib_text::Text;
use bibtex_labels::{Alpha, Labelled, in_order, label_names, lettered};
use bibtex_lists::{BibtexEntry, BibtexFault, listed_as_bibtex, record_as_bibtex_with};
use bibtex_names::NameFault;
use std::alloc::{AllocError, Global};

/// The labels that the style `alpha` makes for the records that BibTeX lists for the keys, each with its key, in the order in which the
/// style prints them; or that no entry has a key, or that a name is refused.
pub fn answer_labels_as_bibtex(
    alloc: Global,
    file: Vec<u8>,
    keys: &[Text],
) -> Result<Answer, AllocError>
    ensures { IfOk result (AnswersAsBibtex (labels_answer keys.now) file.items) }
{
    answer_file(alloc, file, |db| labels_in(alloc, db, keys))
}

/// What is answered for a plain file that is open after the macros of the style.
fn labels_in(alloc: Global, db: &Database<Paged>, keys: &[Text]) -> Result<Answer, AllocError>
    ensures { IfOk result (λ answer. OfReading db.now (λ r. answer ≡ labels_answer keys.now r)) }
{
    match listed_as_bibtex(alloc, db, keys, MIN_CROSSREFS) {
        Ok(list) => {
            if list.unknown.as_slice().is_empty() {
                labels_told(alloc, db, list.listed.as_slice())
            } else {
                no_such_entry(alloc)
            }
        }
        Err(BibtexFault::TooDeep) => too_deep(alloc),
        Err(BibtexFault::Memory) => Err(AllocError),
    }
}

/// The labels of these listed entries, or why a name is refused.
fn labels_told(
    alloc: Global,
    db: &Database<Paged>,
    list: &[BibtexEntry],
) -> Result<Answer, AllocError>
    ensures { IfOk result (λ answer. OfReading db.now (λ r. (records : List ListedRecord) → HaveRecords (entries_of r) list.now records → answer ≡ labels_told (map bare records))) }
{
    match all_labelled(alloc, db, list) {
        Ok(entries) => Ok(done(alloc, lines_of(alloc, entries)?)),
        Err(fault) => name_fault_answer(alloc, fault),
    }
}

/// The listed entries as they are labelled, in the order of the list.
fn all_labelled(
    alloc: Global,
    db: &Database<Paged>,
    list: &[BibtexEntry],
) -> Result<Vec<Labelled>, NameFault>
    ensures entries { IfOk result (λ entries. OfReading db.now (λ r. all_labelled (map (record_as_listed (entries_of r)) list.now) ≡ Ok entries.items)) }
    ensures fault { IfErr result (λ fault. fault ≢ Memory → OfReading db.now (λ r. all_labelled (map (record_as_listed (entries_of r)) list.now) ≡ Err fault)) }
{
    let alpha = Alpha::new(alloc)?;
    let names = label_names(alloc)?;
    let mut entries = Vec::with_capacity(alloc, list.len())?;
    'entries: for entry in list {
        let one = entry_labelled(alloc, &alpha, db, names.as_slice(), entry)?;
        entries.push(one)?;
    }
    Ok(entries)
}

/// A listed entry as it is labelled. Of the entries that give it fields, only those with these names are read.
fn entry_labelled(
    alloc: Global,
    alpha: &Alpha,
    db: &Database<Paged>,
    names: &[&[u8]],
    entry: &BibtexEntry,
) -> Result<Labelled, NameFault>
    requires { map (λ name. name.now) names.now ≡ label_names }
    ensures labelled { IfOk result (λ one. OfReading db.now (λ r. labelled (record_as_listed (entries_of r) entry.now) ≡ Ok one)) }
    ensures fault { IfErr result (λ fault. fault ≢ Memory → OfReading db.now (λ r. labelled (record_as_listed (entries_of r) entry.now) ≡ Err fault)) }
{
    let rec = record_as_bibtex_with(alloc, db, entry, names)?;
    match alpha.labelled(alloc, &rec) {
        Ok(one) => Ok(one),
        Err(fault) => Err(fault),
    }
}

/// A line for each of these entries, in the order of the bibliography.
fn lines_of(alloc: Global, entries: Vec<Labelled>) -> Result<Text, AllocError>
    ensures { IfOk result (λ text. text ≡ ordered_lines (in_order entries.items)) }
{
    let ordered = in_order(entries)?;
    ordered_lines(alloc, ordered.as_slice())
}

/// A line for each of these entries, in their order, with its label and its key.
fn ordered_lines(alloc: Global, entries: &[Labelled]) -> Result<Text, AllocError>
    ensures { IfOk result (λ text. text ≡ ordered_lines entries.now) }
{
    let labels = lettered(alloc, entries)?;
    let labels = labels.as_slice();
    let mut out = Vec::new(alloc);
    'lines: for n in 0..labels.len().min(entries.len()) {
        add_label(&mut out, labels[n].as_slice(), entries[n].key.as_slice())?;
    }
    Ok(Text::from_vec(out))
}

fn add_label(out: &mut Vec<u8>, label: &[u8], key: &[u8]) -> Result<(), AllocError>
    ensures { OnOk result (out.new.items ≡ out.old.items ++ (label.now ++ (codes "\t" ++ (key.now ++ codes "\n")))) }
{
    add_all(out, &[label, b"\t", key, b"\n"])
}

//! `names --bibtex`: the names of an entry, as BibTeX takes them apart and prints them.

ghost use Rattle.std.specs.Prelude.{◌≡◌, ◌≢◌, List, Ok, Err, map, IfOk, IfErr};
ghost use Rattle.bib_spec.specs.Records.{entries_of};
ghost use Rattle.bib_store.specs.Readings.{OfReading};
ghost use Rattle.bib_names.specs.declared.fault.NameFault.TheVariants.{Memory};
ghost use Rattle.bibtex_names.specs.NamesInLists.{printed_as_bibtex, template_in};
ghost use Rattle.bibtex_spec.specs.Listed.{ListedRecord};
ghost use Rattle.bib_answers.specs.Names.{persons, lines_answer};
ghost use Rattle.bibtex_answers.specs.Entries.{HaveRecords, HasRecord};
ghost use Rattle.bibtex_answers.specs.Names.{line_of, name_lines, lines_by, first_names, names_answer};
ghost use Rattle.bibtex_answers.specs.Opened.{AnswersAsBibtex};

use crate::messages::too_deep;
use crate::opening::answer_file;
use bib_answers::{Answer, done, name_fault_answer, no_such_entry, persons};
use bib_data::Record;
use bib_store::{Database, Paged};
use bib_text::{Text, copied};
use bibtex_lists::{BibtexEntry, BibtexFault, listed_as_bibtex, record_as_bibtex};
use bibtex_names::{NameFault, Template};
use std::alloc::{AllocError, Global};

/// The names of the record that BibTeX gives to a style for this key, if it alone is cited, printed by the template that the bytes
/// spell; or why they are not printed.
pub fn answer_names_as_bibtex(
    alloc: Global,
    file: Vec<u8>,
    key: &[u8],
    template: &[u8],
) -> Result<Answer, AllocError>
    ensures { IfOk result (AnswersAsBibtex (names_answer key.now template.now) file.items) }
{
    answer_file(alloc, file, |db| names_in(alloc, db, key, template))
}

/// What is answered for a plain file that is open after the macros of the style.
fn names_in(
    alloc: Global,
    db: &Database<Paged>,
    key: &[u8],
    template: &[u8],
) -> Result<Answer, AllocError>
    ensures { IfOk result (λ answer. OfReading db.now (λ r. answer ≡ names_answer key.now template.now r)) }
{
    if key == b"*".as_slice() {
        return no_such_entry(alloc);
    }
    let mut keys = Vec::new(alloc);
    keys.push(copied(alloc, key)?)?;
    match listed_as_bibtex(alloc, db, keys.as_slice(), 1) {
        Ok(list) => first_names(alloc, db, list.listed.as_slice(), template),
        Err(BibtexFault::TooDeep) => too_deep(alloc),
        Err(BibtexFault::Memory) => Err(AllocError),
    }
}

/// The names of the first of these entries, or that there is none.
fn first_names(
    alloc: Global,
    db: &Database<Paged>,
    list: &[BibtexEntry],
    template: &[u8],
) -> Result<Answer, AllocError>
    ensures { IfOk result (λ answer. OfReading db.now (λ r. (records : List ListedRecord) → HaveRecords (entries_of r) list.now records → answer ≡ first_names template.now records)) }
{
    match list.first() {
        Some(entry) => entry_names(alloc, db, entry, template),
        None => no_such_entry(alloc),
    }
}

/// The names of an entry.
fn entry_names(
    alloc: Global,
    db: &Database<Paged>,
    entry: &BibtexEntry,
    template: &[u8],
) -> Result<Answer, AllocError>
    ensures { IfOk result (λ answer. OfReading db.now (λ r. (listed : ListedRecord) → HasRecord (entries_of r) entry.now listed → answer ≡ lines_answer (lines_by (template_in template.now) listed.fields))) }
{
    let rec = record_as_bibtex(alloc, db, entry)?;
    record_names(alloc, &rec, template)
}

/// The names of a record.
fn record_names(alloc: Global, rec: &Record, template: &[u8]) -> Result<Answer, AllocError>
    ensures { IfOk result (λ answer. answer ≡ lines_answer (lines_by (template_in template.now) rec.now.fields)) }
{
    match lines_by(alloc, rec, template) {
        Ok(lines) => Ok(done(alloc, lines)),
        Err(fault) => name_fault_answer(alloc, fault),
    }
}

/// A line for each author; or for each editor, if there is no author.
fn lines_by(alloc: Global, rec: &Record, template: &[u8]) -> Result<Text, NameFault>
    ensures lines { IfOk result (λ text. lines_by (template_in template.now) rec.now.fields ≡ Ok text) }
    ensures fault { IfErr result (λ fault. fault ≢ Memory → lines_by (template_in template.now) rec.now.fields ≡ Err fault) }
{
    let template = Template::read(alloc, template)?;
    let names = persons(alloc, rec.fields.as_slice())?;
    name_lines(alloc, &template, names.as_slice())
}

/// A line for each name.
fn name_lines(alloc: Global, template: &Template, names: &[&[u8]]) -> Result<Text, NameFault>
    ensures lines { IfOk result (λ text. name_lines template.now (map (λ n. n.now) names.now) ≡ Ok text) }
    ensures fault { IfErr result (λ fault. fault ≢ Memory → name_lines template.now (map (λ n. n.now) names.now) ≡ Err fault) }
{
    let mut out = Vec::new(alloc);
    'print: for name in names {
        out.extend_from_slice(name_line(template, name)?.as_slice())?;
    }
    Ok(Text::from_vec(out))
}

/// The print of a name, a line.
fn name_line(template: &Template, name: &[u8]) -> Result<Text, NameFault>
    ensures line { IfOk result (λ line. line_of (printed_as_bibtex template.now name.now) ≡ Ok line) }
    ensures fault { IfErr result (λ fault. fault ≢ Memory → line_of (printed_as_bibtex template.now name.now) ≡ Err fault) }
{
    let mut line = template.print_name(name)?.into_vec();
    line.extend_from_slice(b"\n")?;
    Ok(Text::from_vec(line))
}

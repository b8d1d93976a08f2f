//! `show --bibtex`: an entry as BibTeX gives it to a style.

ghost use Rattle.std.specs.Prelude.{◌≡◌, ◌++◌, List, [], IfOk, OnOk};
ghost use Rattle.std.specs.List.{flat_map};
ghost use Rattle.bib_spec.specs.Records.{entries_of};
ghost use Rattle.bib_store.specs.Readings.{OfReading};
ghost use Rattle.bibtex_spec.specs.Listed.{ListedRecord};
ghost use Rattle.bib_answers.specs.Show.{head_line, shown_field, record_lines};
ghost use Rattle.bibtex_answers.specs.Entries.{HaveRecords, HasRecord};
ghost use Rattle.bibtex_answers.specs.Opened.{AnswersAsBibtex};
ghost use Rattle.bibtex_answers.specs.Show.{crossref_line, shown_record, first_shown, show_answer};

use crate::lines::add_all;
use crate::messages::too_deep;
use crate::opening::answer_file;
use bib_answers::{Answer, done, no_such_entry};
use bib_data::Record;
use bib_store::{Database, Paged};
use bib_text::{Text, copied};
use bibtex_lists::{BibtexEntry, BibtexFault, listed_as_bibtex, record_as_bibtex};
use std::alloc::{AllocError, Global};

/// The record that BibTeX gives to a style for this key, if it alone is cited, with its crossref if the parent is found; or that no
/// entry has the key.
pub fn answer_show_as_bibtex(alloc: Global, file: Vec<u8>, key: &[u8]) -> Result<Answer, AllocError>
    ensures { IfOk result (AnswersAsBibtex (show_answer key.now) file.items) }
{
    answer_file(alloc, file, |db| show_in(alloc, db, key))
}

/// What is answered for a plain file that is open after the macros of the style.
fn show_in(alloc: Global, db: &Database<Paged>, key: &[u8]) -> Result<Answer, AllocError>
    ensures { IfOk result (λ answer. OfReading db.now (λ r. answer ≡ show_answer key.now r)) }
{
    if key == b"*".as_slice() {
        return no_such_entry(alloc);
    }
    let mut keys = Vec::new(alloc);
    keys.push(copied(alloc, key)?)?;
    match listed_as_bibtex(alloc, db, keys.as_slice(), 1) {
        Ok(list) => first_shown(alloc, db, list.listed.as_slice()),
        Err(BibtexFault::TooDeep) => too_deep(alloc),
        Err(BibtexFault::Memory) => Err(AllocError),
    }
}

/// The first of these entries, or that there is none.
fn first_shown(
    alloc: Global,
    db: &Database<Paged>,
    list: &[BibtexEntry],
) -> Result<Answer, AllocError>
    ensures { IfOk result (λ answer. OfReading db.now (λ r. (records : List ListedRecord) → HaveRecords (entries_of r) list.now records → answer ≡ first_shown records)) }
{
    match list.first() {
        Some(entry) => Ok(done(alloc, Text::from_vec(entry_text(alloc, db, entry)?))),
        None => no_such_entry(alloc),
    }
}

/// The record of an entry, and its crossref.
fn entry_text(
    alloc: Global,
    db: &Database<Paged>,
    entry: &BibtexEntry,
) -> Result<Vec<u8>, AllocError>
    ensures { IfOk result (λ text. OfReading db.now (λ r. (listed : ListedRecord) → HasRecord (entries_of r) entry.now listed → text.items ≡ shown_record listed)) }
{
    let rec = record_as_bibtex(alloc, db, entry)?;
    let mut out = Vec::new(alloc);
    add_record(&mut out, &rec)?;
    add_crossref(&mut out, &entry.named)?;
    Ok(out)
}

fn add_crossref(out: &mut Vec<u8>, named: &Option<Text>) -> Result<(), AllocError>
    ensures { OnOk result (out.new.items ≡ out.old.items ++ crossref_line named.now) }
{
    let Some(key) = named else {
        return Ok(());
    };
    add_field(out, b"crossref", key.as_slice())
}

fn add_record(out: &mut Vec<u8>, rec: &Record) -> Result<(), AllocError>
    ensures { OnOk result (out.new.items ≡ out.old.items ++ record_lines rec.now) }
{
    add_head(out, rec.kind_name.as_slice(), rec.key.as_slice())?;
    add_fields(out, rec.fields.as_slice())
}

fn add_head(out: &mut Vec<u8>, kind_name: &[u8], key: &[u8]) -> Result<(), AllocError>
    ensures { OnOk result (out.new.items ≡ out.old.items ++ head_line (record { kind_name = kind_name.now; key = key.now; fields = [] })) }
{
    add_all(out, &[b"@", kind_name, b" ", key, b"\n"])
}

fn add_fields(out: &mut Vec<u8>, fields: &[(Text, Text)]) -> Result<(), AllocError>
    ensures { OnOk result (out.new.items ≡ out.old.items ++ flat_map shown_field fields.now) }
{
    'fields: for field in fields {
        add_field(out, field.0.as_slice(), field.1.as_slice())?;
    }
    Ok(())
}

fn add_field(out: &mut Vec<u8>, name: &[u8], text: &[u8]) -> Result<(), AllocError>
    ensures { OnOk result (out.new.items ≡ out.old.items ++ shown_field (name.now, text.now)) }
{
    add_all(out, &[name, b" = ", text, b"\n"])
}

//! `json --bibtex`: the records that BibTeX lists, as values of JSON, a line each.

ghost use Rattle.std.specs.Prelude.{◌≡◌, ◌≢◌, ◌++◌, List, [], map, true, false, IfOk, IfErr};
ghost use Rattle.std.specs.Option.{option_copied};
ghost use Rattle.bib_spec.specs.Records.{entries_of};
ghost use Rattle.bib_store.specs.Readings.{OfReading};
ghost use Rattle.bibtex_spec.specs.Listed.{ListedRecord};
ghost use Rattle.entry_json.specs.declared.fault.JsonFault.TheVariants.{Memory};
ghost use Rattle.bib_answers.specs.Json.{not_utf8_line, told_answer, told_line, is_told_in_utf8};
ghost use Rattle.bib_answers.specs.Outcome.{answer_of};
ghost use Rattle.bibtex_answers.specs.Entries.{HaveRecords, HasRecord};
ghost use Rattle.bibtex_answers.specs.Opened.{AnswersAsBibtex};
ghost use Rattle.bibtex_answers.specs.Records.{told_record, json_answer};

use crate::lines::add_all;
use crate::messages::too_deep;
use crate::opening::answer_file;
use bib_answers::{Answer, done, no_such_entry, refused};
use bib_store::{Database, Paged};
use bib_text::Text;
use bibtex_lists::{BibtexEntry, BibtexFault, listed_as_bibtex, record_as_bibtex};
use entry_json::{JsonFault, add_line_in};
use std::alloc::{AllocError, Global};

/// How many entries must name a parent that is not cited before it is listed too. (btxdoc 2.1)
pub const MIN_CROSSREFS: u32 = 2;

/// The records that BibTeX lists for the keys, each with its crossref as its parent; or that no entry has a key, or that a text is
/// not UTF-8.
pub fn answer_json_as_bibtex(
    alloc: Global,
    file: Vec<u8>,
    keys: &[Text],
) -> Result<Answer, AllocError>
    ensures { IfOk result (AnswersAsBibtex (json_answer keys.now) file.items) }
{
    answer_file(alloc, file, |db| json_in(alloc, db, keys))
}

/// What is answered for a plain file that is open after the macros of the style.
fn json_in(alloc: Global, db: &Database<Paged>, keys: &[Text]) -> Result<Answer, AllocError>
    ensures { IfOk result (λ answer. OfReading db.now (λ r. answer ≡ json_answer keys.now r)) }
{
    match listed_as_bibtex(alloc, db, keys, MIN_CROSSREFS) {
        Ok(list) => {
            if list.unknown.as_slice().is_empty() {
                lines_of(alloc, db, list.listed.as_slice())
            } else {
                no_such_entry(alloc)
            }
        }
        Err(BibtexFault::TooDeep) => too_deep(alloc),
        Err(BibtexFault::Memory) => Err(AllocError),
    }
}

/// A line for each of these entries, or that a text of one is not UTF-8.
fn lines_of(alloc: Global, db: &Database<Paged>, list: &[BibtexEntry]) -> Result<Answer, AllocError>
    ensures { IfOk result (λ answer. OfReading db.now (λ r. (records : List ListedRecord) → HaveRecords (entries_of r) list.now records → answer ≡ told_answer (map told_record records))) }
{
    let mut lines = Vec::new(alloc);
    'entries: for entry in list {
        lines = match with_entry(alloc, lines, db, entry) {
            Ok(more) => more,
            Err(JsonFault::NotUtf8) => return not_utf8(alloc, entry.key.as_slice()),
            Err(JsonFault::Memory) => return Err(AllocError),
        };
    }
    Ok(done(alloc, Text::from_vec(lines)))
}

/// Nothing is output, and the message says in which entry a text is not UTF-8.
fn not_utf8(alloc: Global, key: &[u8]) -> Result<Answer, AllocError>
    ensures { IfOk result (λ answer. answer ≡ answer_of [] (not_utf8_line key.now) 1) }
{
    let mut message = Vec::new(alloc);
    add_all(&mut message, &[b"bibkeep: 24 NotUtf8 in ", key, b"\n"])?;
    Ok(refused(alloc, Text::from_vec(message)))
}

/// The lines, with the line of a listed entry after them.
fn with_entry(
    alloc: Global,
    lines: Vec<u8>,
    db: &Database<Paged>,
    entry: &BibtexEntry,
) -> Result<Vec<u8>, JsonFault>
    ensures line { IfOk result (λ more. OfReading db.now (λ r. (listed : ListedRecord) → HasRecord (entries_of r) entry.now listed → (is_told_in_utf8 (told_record listed) ≡ true) × (more.items ≡ lines.items ++ told_line (told_record listed)))) }
    ensures fault { IfErr result (λ fault. fault ≢ Memory → OfReading db.now (λ r. (listed : ListedRecord) → HasRecord (entries_of r) entry.now listed → is_told_in_utf8 (told_record listed) ≡ false)) }
{
    let rec = record_as_bibtex(alloc, db, entry)?;
    add_line_in(lines, &rec, crossref_of(entry), None)
}

/// The key that the crossref of a listed entry names, if that key is listed too.
fn crossref_of(entry: &BibtexEntry) -> Option<&[u8]>
    ensures { option_copied result ≡ entry.now.named }
{
    match &entry.named {
        Some(key) => Some(key.as_slice()),
        None => None,
    }
}

//! `ris --bibtex`: the records that BibTeX lists, for other programs.

ghost use Rattle.std.specs.Prelude.{◌≡◌, [], map, IfOk};
ghost use Rattle.bib_spec.specs.Records.{entries_of};
ghost use Rattle.bib_store.specs.Readings.{OfReading};
ghost use Rattle.bib_answers.specs.Outcome.{answer_of};
ghost use Rattle.bibtex_lists.specs.Records.{record_as_listed};
ghost use Rattle.bibtex_answers.specs.Opened.{AnswersAsBibtex};
ghost use Rattle.bibtex_ris.specs.Fitting.{AreFitting};
ghost use Rattle.bibtex_ris.specs.Ris.{ris_told, ris_answer};

use crate::dropping::entries_dropped;
use crate::exporting::{entries_plain, entries_ris};
use crate::laws::listed_records_fit;
use bib_answers::{Answer, done, no_such_entry};
use bib_store::{Database, Paged};
use bib_text::Text;
use bibtex_answers::{MIN_CROSSREFS, answer_file, too_deep};
use bibtex_lists::{BibtexEntry, BibtexFault, listed_as_bibtex};
use std::alloc::{AllocError, Global};

/// The RIS text of the records that BibTeX lists for the keys, with texts as they are or plain, or the fields that it leaves out; or
/// that no entry has a key.
pub fn answer_ris_as_bibtex(
    alloc: Global,
    file: Vec<u8>,
    keys: &[Text],
    dropped: bool,
    plain: bool,
) -> Result<Answer, AllocError>
    ensures { IfOk result (AnswersAsBibtex (ris_answer dropped plain keys.now) file.items) }
{
    answer_file(alloc, file, |db| ris_in(alloc, db, keys, dropped, plain))
}

/// What is answered for a plain file that is open after the macros of the style.
fn ris_in(
    alloc: Global,
    db: &Database<Paged>,
    keys: &[Text],
    dropped: bool,
    plain: bool,
) -> Result<Answer, AllocError>
    ensures { IfOk result (λ answer. OfReading db.now (λ r. answer ≡ ris_answer dropped plain keys.now r)) }
{
    listed_records_fit();
    match listed_as_bibtex(alloc, db, keys, MIN_CROSSREFS) {
        Ok(list) => {
            if list.unknown.as_slice().is_empty() {
                told(alloc, db, list.listed.as_slice(), dropped, plain)
            } else {
                no_such_entry(alloc)
            }
        }
        Err(BibtexFault::TooDeep) => too_deep(alloc),
        Err(BibtexFault::Memory) => Err(AllocError),
    }
}

/// The answer with the RIS text of these listed entries.
fn told(
    alloc: Global,
    db: &Database<Paged>,
    list: &[BibtexEntry],
    dropped: bool,
    plain: bool,
) -> Result<Answer, AllocError>
    requires { AreFitting db.now list.now }
    ensures { IfOk result (λ answer. OfReading db.now (λ r. answer ≡ answer_of (ris_told dropped plain (map (record_as_listed (entries_of r)) list.now)) [] 0)) }
{
    let text = text_of(alloc, db, list, dropped, plain)?;
    Ok(done(alloc, text))
}

/// The RIS text of these listed entries, with texts as they are or plain, or the fields that it leaves out.
fn text_of(
    alloc: Global,
    db: &Database<Paged>,
    list: &[BibtexEntry],
    dropped: bool,
    plain: bool,
) -> Result<Text, AllocError>
    requires { AreFitting db.now list.now }
    ensures { IfOk result (λ text. OfReading db.now (λ r. text ≡ ris_told dropped plain (map (record_as_listed (entries_of r)) list.now))) }
{
    if dropped {
        entries_dropped(alloc, db, list)
    } else if plain {
        entries_plain(alloc, db, list)
    } else {
        entries_ris(alloc, db, list)
    }
}

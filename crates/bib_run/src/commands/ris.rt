//! `ris`: entries for other programs.

ghost use Rattle.std.specs.Prelude.{◌≡◌, IfOk};
ghost use Rattle.bib_spec.specs.Records.{entries_of, IsDepth};
ghost use Rattle.bib_store.specs.Readings.{OfReading};
ghost use Rattle.bib_answers.specs.Marks.{AreEntryNumbers};
ghost use Rattle.bib_answers.specs.Opened.{AnswersFile};
ghost use Rattle.bib_run.specs.Ris.{ris_told, ris_answer};

use bib_answers::{Answer, all_cited, done, no_such_entry, open, unread};
use bib_ris::{entries_dropped, entries_plain, entries_ris};
use bib_store::{Database, Paged};
use bib_text::Text;
use std::alloc::{AllocError, Global};

/// The RIS text of the entries that the keys cite, at this depth, with texts as they are or plain, or the fields that it leaves
/// out; or that a key finds no entry.
pub fn answer_ris(
    alloc: Global,
    file: Vec<u8>,
    keys: &[Text],
    depth: u8,
    dropped: bool,
    plain: bool,
) -> Result<Answer, AllocError>
    requires { IsDepth depth }
    ensures { IfOk result (AnswersFile (ris_answer dropped plain depth keys.now) file.items) }
{
    match open(alloc, file) {
        Ok(db) => ris_in(alloc, &db, keys, depth, dropped, plain),
        Err(fault) => unread(alloc, fault),
    }
}

/// What `answer_ris` answers, for a file that is open. It takes time and memory for the records of the entries that the keys cite.
pub fn ris_in(
    alloc: Global,
    db: &Database<Paged>,
    keys: &[Text],
    depth: u8,
    dropped: bool,
    plain: bool,
) -> Result<Answer, AllocError>
    requires { IsDepth depth }
    ensures { IfOk result (λ answer. OfReading db.now (λ r. answer ≡ ris_answer dropped plain depth keys.now r)) }
{
    match all_cited(db, keys)? {
        Some(list) => {
            let text = text_of(alloc, db, list.as_slice(), depth, dropped, plain)?;
            Ok(done(alloc, text))
        }
        None => no_such_entry(alloc),
    }
}

/// The RIS text of these entries, with texts as they are or plain, or the fields that it leaves out.
fn text_of(
    alloc: Global,
    db: &Database<Paged>,
    list: &[usize],
    depth: u8,
    dropped: bool,
    plain: bool,
) -> Result<Text, AllocError>
    requires numbers { AreEntryNumbers db.now list.now }
    requires depth { IsDepth depth }
    ensures { IfOk result (λ text. OfReading db.now (λ r. text ≡ ris_told dropped plain depth (entries_of r) list.now)) }
{
    let text = if dropped {
        entries_dropped(alloc, db, list, depth)
    } else if plain {
        entries_plain(alloc, db, list, depth)
    } else {
        entries_ris(alloc, db, list, depth)
    };
    match text {
        Ok(text) => Ok(text),
        Err(_) => Err(AllocError),
    }
}

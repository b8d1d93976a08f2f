//! `extract`: the part of a file that keys need.

ghost use Rattle.std.specs.Prelude.{◌≡◌, [], slice_index_or, IfOk};
ghost use Rattle.bib_store.specs.Readings.{OfReading};
ghost use Rattle.bib_answers.specs.Opened.{AnswersFile};
ghost use Rattle.bib_answers.specs.Extract.{extract_answer, IsExtractRefusal};

use crate::answers::{Answer, done, refused};
use crate::messages::{TOO_LONG, no_such_entry_in};
use crate::opening::answer_file;
use bib_extract::{ExtractFault, extract};
use bib_store::{Database, Paged};
use bib_text::{Text, copied};
use std::alloc::{AllocError, Global};

/// The extract of the file for these keys, or which key is the first that finds no entry, or that the extract is longer than a
/// file may be.
pub fn answer_extract(alloc: Global, file: Vec<u8>, keys: &[Text]) -> Result<Answer, AllocError>
    ensures { IfOk result (AnswersFile (extract_answer keys.now) file.items) }
{
    answer_file(alloc, file, |db| extract_in(alloc, db, keys))
}

/// What `answer_extract` answers, for a file that is open. It takes time in the number of items and keys, and memory for the extract.
pub fn extract_in(alloc: Global, db: &Database<Paged>, keys: &[Text]) -> Result<Answer, AllocError>
    ensures { IfOk result (λ answer. OfReading db.now (λ r. answer ≡ extract_answer keys.now r)) }
{
    db.opens();
    match extract(alloc, db, keys) {
        Ok(text) => Ok(done(alloc, text)),
        Err(fault) => unextracted(alloc, keys, fault),
    }
}

/// Why there is no extract.
fn unextracted(alloc: Global, keys: &[Text], fault: ExtractFault) -> Result<Answer, AllocError>
    ensures { IfOk result (IsExtractRefusal keys.now fault) }
{
    match fault {
        ExtractFault::NoSuchEntry(position) => {
            let message = no_such_entry_in(alloc, key_at(keys, position))?;
            Ok(refused(alloc, message))
        }
        ExtractFault::FileTooLong => {
            let message = copied(alloc, TOO_LONG)?;
            Ok(refused(alloc, message))
        }
        ExtractFault::Memory => Err(AllocError),
    }
}

/// The key at this position.
fn key_at(keys: &[Text], position: usize) -> &[u8]
    ensures { result.now ≡ slice_index_or keys.now position [] }
{
    match keys.get(position) {
        Some(key) => key.as_slice(),
        None => b"",
    }
}

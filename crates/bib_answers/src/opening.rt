//! Answers to what an open file says.

ghost use Rattle.std.specs.Prelude.{◌≡◌, IfOk, IfErr, OnOk};
ghost use Rattle.bib_spec.specs.Reading.{Reading};
ghost use Rattle.bib_spec.specs.Texts.{IsOpenable};
ghost use Rattle.bib_store.specs.Readings.{IsOpenFault};
ghost use Rattle.bib_answers.specs.declared.answers.Answer.{Answer};
ghost use Rattle.bib_answers.specs.Opened.{AnswersFile, AnswersReading};

use crate::answers::{Answer, unread};
use bib_scan::ReadFault;
use bib_store::{Database, Paged};
use std::alloc::{AllocError, Global};

/// Opens the file, and gives what `answer` makes of it; or says why the file is not read.
pub(crate) fn answer_file<F: FnOnce(&Database<Paged>) -> Result<Answer, AllocError>>(
    alloc: Global,
    file: Vec<u8>,
    answer: F,
) -> Result<Answer, AllocError>
    requires { F.IsAlwaysCallable answer }
    ensures { (answers : Reading → Answer) → AnswersReading F.FnOnce answer answers → IfOk result (AnswersFile answers file.items) }
{
    match open(alloc, file) {
        Ok(db) => answer(&db),
        Err(fault) => unread(alloc, fault),
    }
}

/// Opens the file. The bytes are kept once, where they were read.
pub fn open(alloc: Global, file: Vec<u8>) -> Result<Database<Paged>, ReadFault>
    ensures opened { IfOk result (λ db. db ≡ file.items) }
    ensures file { OnOk result (IsOpenable file.items) }
    ensures fault { IfErr result (λ fault. IsOpenFault file.items fault.kind fault.place) }
{
    Database::open_file(alloc, file, Paged::new(alloc))
}

//! Answers to what an open file says to BibTeX.

ghost use Rattle.std.specs.Prelude.{◌≡◌, ◌≢◌, IfOk, IfErr, OnOk};
ghost use Rattle.bib_spec.specs.Text.{Text as FileText};
ghost use Rattle.bib_spec.specs.Reading.{Reading};
ghost use Rattle.bib_spec.specs.Texts.{IsOpenable};
ghost use Rattle.bib_store.specs.Readings.{IsOpenFault, OfReading};
ghost use Rattle.bib_answers.specs.declared.answers.Answer.{Answer};
ghost use Rattle.bib_answers.specs.Opened.{AnswersReading};
ghost use Rattle.bibtex_answers.specs.Opened.{AnswersAsBibtex, if_plain};
ghost use Rattle.bibtex_answers.specs.StyleMacros.{with_style, place_in_file};

use crate::messages::not_plain as not_plain_answer;
use crate::style::{place_in_file, style_macros, with_style};
use bib_answers::{Answer, unread};
use bib_scan::ReadFault;
use bib_store::{Database, Paged, Unopened};
use bibtex_plain::not_plain;
use std::alloc::{AllocError, Global};

/// Opens the file after the macros of the style, and gives what `answer` makes of it if it is plain; or says why there is no answer.
pub fn answer_file<F: FnOnce(&Database<Paged>) -> Result<Answer, AllocError>>(
    alloc: Global,
    file: Vec<u8>,
    answer: F,
) -> Result<Answer, AllocError>
    requires { F.IsAlwaysCallable answer }
    ensures { (answers : Reading → Answer) → AnswersReading F.FnOnce answer answers → IfOk result (AnswersAsBibtex answers file.items) }
{
    let text = with_style(file)?;
    match Database::open_or_return(alloc, text, Paged::new(alloc)) {
        Ok(db) => answer_plain(alloc, &db, answer),
        Err(unopened) => refusal(alloc, unopened),
    }
}

/// What `answer` makes of the file if it is plain, or where it is not.
fn answer_plain<F: FnOnce(&Database<Paged>) -> Result<Answer, AllocError>>(
    alloc: Global,
    db: &Database<Paged>,
    answer: F,
) -> Result<Answer, AllocError>
    requires { F.IsAlwaysCallable answer }
    ensures { (answers : Reading → Answer) → AnswersReading F.FnOnce answer answers → IfOk result (λ answer. OfReading db.now (λ r. answer ≡ if_plain answers r)) }
{
    match not_plain(db) {
        Some(place) => not_plain_answer(alloc, place_in_file(place)),
        None => answer(db),
    }
}

/// The answer that says why the file was not opened after the macros of the style: its own fault, if it has one, or else that of the
/// text with the macros.
fn refusal(alloc: Global, unopened: Unopened) -> Result<Answer, AllocError>
    requires { unopened.fault.kind ≢ 10 → (file : FileText) × (unopened.file ≡ with_style file) }
    ensures { (answers : Reading → Answer) (file : FileText) → (unopened.fault.kind ≢ 10 → unopened.file ≡ with_style file) → IsOpenFault (with_style file) unopened.fault.kind unopened.fault.place
        → IfOk result (AnswersAsBibtex answers file) }
{
    let Unopened { fault, file: text } = unopened;
    if fault.is_memory() {
        return Err(AllocError);
    }
    let file = text.as_slice().split_at(style_macros().len()).1;
    match open_alone(alloc, file) {
        Ok(()) => unread(alloc, in_file(fault)),
        Err(own) => unread(alloc, own),
    }
}

/// Whether the file alone can be opened.
fn open_alone(alloc: Global, file: &[u8]) -> Result<(), ReadFault>
    ensures file { OnOk result (IsOpenable file.now) }
    ensures fault { IfErr result (λ fault. IsOpenFault file.now fault.kind fault.place) }
{
    match Database::open_bytes(alloc, file, Paged::new(alloc)) {
        Ok(_) => Ok(()),
        Err(fault) => Err(fault),
    }
}

/// The fault with its place in the file, if it has a place after the macros of the style.
fn in_file(fault: ReadFault) -> ReadFault
    ensures { (result.kind ≡ fault.kind) × (result.place ≡ place_in_file fault.place) }
{
    ReadFault {
        kind: fault.kind,
        place: place_in_file(fault.place),
    }
}

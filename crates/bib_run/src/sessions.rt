//! A session over a file and its journal: how it is opened, why none is opened, and what a session leaves.

ghost use Rattle.std.specs.Prelude.{◌≡◌, true, Option, None, IfOk, IfErr, option_map};
ghost use Rattle.bib_spec.specs.Text.{Text as FileText};
ghost use Rattle.bib_journal.specs.Session.{RefusesOpen};
ghost use Rattle.bib_answers.specs.Messages.{fault_name};
ghost use Rattle.bib_run.specs.Sessions.{IsUnopenedAnswer, OpensWith, judged_journal, is_of_journal, bad_journal_line, fault_line, outcome_after};
ghost use Rattle.bib_run.specs.Shown.{SavesUpTo};
ghost use Rattle.bib_run.specs.SessionNames.{session_fault_name};

use crate::messages::JOURNAL_MISMATCH;
use bib_answers::{Answer, Outcome, fault_name, outcome_of, refused, unread};
use bib_journal::{Saved, Session, SessionFault};
use bib_store::Paged;
use bib_text::{Text, copied};
use bib_words::status;
use std::alloc::{AllocError, Global};

/// Opens the file with its journal. With `--new-journal` it makes a copy of the file, and leaves out a journal that is
/// unfit: the session has no steps then.
pub fn open_with(
    alloc: Global,
    file: Vec<u8>,
    journal: Option<&[u8]>,
    new_journal: bool,
) -> Result<Session<Paged>, SessionFault>
    ensures opened { IfOk result (OpensWith new_journal file.items (option_map (λ text. text.now) journal.entry)) }
    ensures refused { IfErr result (λ fault. RefusesOpen fault file.items (judged_journal new_journal (option_map (λ text. text.now) journal.entry))) }
{
    if !new_journal {
        return Session::open_file(alloc, file, journal, Paged::new(alloc));
    }
    match Session::open(alloc, file.as_slice(), journal, Paged::new(alloc)) {
        Ok(session) => Ok(session),
        Err(fault) => open_anew(alloc, file, fault),
    }
}

/// Opens the file without its journal, as a file without steps, if the journal is at fault.
fn open_anew(
    alloc: Global,
    file: Vec<u8>,
    fault: SessionFault,
) -> Result<Session<Paged>, SessionFault>
    ensures opened { IfOk result (λ session. (journal : Option FileText) → RefusesOpen fault file.items journal → OpensWith true file.items journal session) }
    ensures refused { IfErr result (λ why. (journal : Option FileText) → RefusesOpen fault file.items journal → RefusesOpen why file.items None) }
{
    if is_of_journal(fault) {
        return Session::open_file(alloc, file, None, Paged::new(alloc));
    }
    Err(fault)
}

/// Whether the journal is at fault, and not the file.
fn is_of_journal(fault: SessionFault) -> bool
    ensures { result ≡ is_of_journal fault }
{
    match fault {
        SessionFault::BadJournal(_) | SessionFault::JournalMismatch => true,
        _ => false,
    }
}

/// The answer when no session is opened: no output, and the message says why. Want of memory is no answer.
pub fn unopened(alloc: Global, fault: SessionFault) -> Result<Answer, AllocError>
    ensures { IfOk result (λ answer. (file : FileText) (journal : Option FileText) → RefusesOpen fault file journal → IsUnopenedAnswer file journal answer) }
{
    match fault {
        SessionFault::Unopened(fault) => unread(alloc, fault),
        SessionFault::BadJournal(place) => Ok(refused(alloc, bad_journal_line(alloc, place)?)),
        SessionFault::JournalMismatch => Ok(refused(alloc, copied(alloc, JOURNAL_MISMATCH)?)),
        _ => Err(AllocError),
    }
}

/// The file and the journal that a session leaves. A journal that is not kept is not made: in its place is an empty text.
pub fn saved_up_to(
    alloc: Global,
    session: &Session<Paged>,
    no_journal: bool,
) -> Result<Saved, AllocError>
    ensures { IfOk result (SavesUpTo no_journal session.now.steps) }
{
    session.is_sound();
    if no_journal {
        return file_alone(alloc, session);
    }
    match session.saved() {
        Ok(saved) => Ok(saved),
        Err(_) => Err(AllocError),
    }
}

/// The file that a session leaves, without its journal.
fn file_alone(alloc: Global, session: &Session<Paged>) -> Result<Saved, AllocError>
    ensures { IfOk result (λ saved. saved.file ≡ session.now.steps.present) }
{
    match session.bytes() {
        Ok(file) => Ok(Saved {
            file,
            journal: Text::empty(alloc),
        }),
        Err(_) => Err(AllocError),
    }
}

/// The outcome after `done` changes: file and journal are stored. If something stopped the changes, the message says
/// what; then nothing is stored if there was no change.
pub fn outcome_after(alloc: Global, done: usize, message: Option<Text>, saved: Saved) -> Outcome
    ensures { result ≡ outcome_after done message saved }
{
    match message {
        None => Outcome {
            file: Some(saved.file),
            journal: Some(saved.journal),
            message: Text::empty(alloc),
            status: status::DONE,
        },
        Some(message) if done == 0 => outcome_of(message, status::REFUSED),
        Some(message) => Outcome {
            file: Some(saved.file),
            journal: Some(saved.journal),
            message,
            status: status::REFUSED,
        },
    }
}

/// The line `bibkeep: 53 BadJournal at P`.
fn bad_journal_line(alloc: Global, place: usize) -> Result<Text, AllocError>
    ensures { IfOk result (λ line. line ≡ bad_journal_line place) }
{
    let line = format!(in alloc; "bibkeep: 53 BadJournal at {}\n", place)?;
    Ok(Text::from_vec(line.into_bytes()))
}

/// The line `bibkeep: N Name`.
pub fn fault_line(alloc: Global, fault: SessionFault) -> Result<Text, AllocError>
    ensures { IfOk result (λ line. line ≡ fault_line fault) }
{
    let number = fault.number();
    let name = session_fault_name(number);
    let line = format!(in alloc; "bibkeep: {} {}\n", number, name)?;
    Ok(Text::from_vec(line.into_bytes()))
}

/// The message of a refusal, if there is one.
pub fn message_of(alloc: Global, fault: Option<SessionFault>) -> Result<Option<Text>, AllocError>
    ensures { IfOk result (λ message. message ≡ option_map fault_line fault) }
{
    match fault {
        Some(fault) => Ok(Some(fault_line(alloc, fault)?)),
        None => Ok(None),
    }
}

/// The name of a fault of an edit or a session, by its number.
pub fn session_fault_name(number: u16) -> &'static str
    ensures { result.now ≡ session_fault_name number }
{
    match number {
        31 => "BadKey",
        32 => "BadName",
        33 => "BadValue",
        34 => "BadPosition",
        35 => "NotFound",
        36 => "Ambiguous",
        37 => "KeyInUse",
        38 => "NameInUse",
        39 => "Referred",
        40 => "WouldMerge",
        41 => "JournalFull",
        51 => "NothingToUndo",
        52 => "NothingToRedo",
        53 => "BadJournal",
        54 => "JournalMismatch",
        55 => "StepOpen",
        56 => "NoOpenStep",
        _ => other_fault_name(number),
    }
}

/// The name of a fault of reading, by its number.
fn other_fault_name(number: u16) -> &'static str
    ensures { result.now ≡ fault_name number }
{
    match u8::try_from(number) {
        Ok(kind) => fault_name(kind),
        Err(_) => "Memory",
    }
}

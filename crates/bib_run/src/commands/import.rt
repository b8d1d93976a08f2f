//! `import`: what a RIS text adds to a file.

ghost use Rattle.std.specs.Prelude.{◌≡◌, ◌≢◌, List, [], IfOk, IfErr, OnOk, option_map};
ghost use Rattle.bib_data.specs.declared.edit.Edit.TheVariants.{AddMany};
ghost use Rattle.bib_journal.specs.Session.{MakesEdit, RefusesEdit};
ghost use Rattle.bib_journal.specs.declared.fault.SessionFault.TheVariants.{Memory};
ghost use Rattle.bib_ris.specs.declared.fault.ImportFault.TheVariants.{Memory as ImportMemory};
ghost use Rattle.ris_text.specs.Lines.{Line};
ghost use Rattle.ris_text.specs.Skipped.{AreSkipped};
ghost use Rattle.bib_answers.specs.Outcome.{answer_of};
ghost use Rattle.bib_run.specs.Sessions.{fault_line};
ghost use Rattle.bib_run.specs.Inputs.{AnswersInput};
ghost use Rattle.bib_run.specs.Shown.{IsUpTo};
ghost use Rattle.bib_run.specs.ImportAnswer.{added_line, import_told, unread_line, import_fault_line, HasAdded, HasImported, IsImportAnswer};

use crate::commands::skipping::with_skipped;
use crate::sessions::{fault_line, open_with, outcome_after, saved_up_to, unopened};
use bib_answers::{Answer, placed_line, refused, too_long};
use bib_data::{Edit, NewEntry};
use bib_journal::{Session, SessionFault};
use bib_ris::{Additions, ImportFault, import};
use bib_scan::FILE_LIMIT;
use bib_store::Paged;
use bib_text::{Seq, Text, copied};
use bib_words::Command;
use ris_text::RisFault;
use std::alloc::{AllocError, Global};

/// The message of a RIS text where the braces of a record's text do not balance.
const UNBALANCED_TEXT: &[u8] = b"bibkeep: 64 UnbalancedText\n";

/// Adds the records of the input to the file, all at once, with the options `--latex`, `--strict` and `--skipped` of the command.
pub fn answer_import(
    alloc: Global,
    command: &Command,
    file: Vec<u8>,
    journal: Option<&[u8]>,
    no_journal: bool,
    input: &[u8],
) -> Result<Answer, AllocError>
    ensures { IfOk result (IsUpTo no_journal (IsImportAnswer command.now file.items (option_map (λ text. text.now) journal.entry) input.now)) }
{
    match open_with(alloc, file, journal, command.new_journal) {
        Ok(mut session) => {
            let answer = answer_records(alloc, command, &mut session, no_journal, input);
            session.close();
            answer
        }
        Err(fault) => unopened(alloc, fault),
    }
}

/// Adds the records of the input to the file of a session, unless the input is too long.
fn answer_records(
    alloc: Global,
    command: &Command,
    session: &mut Session<Paged>,
    no_journal: bool,
    input: &[u8],
) -> Result<Answer, AllocError>
    ensures { IfOk result (IsUpTo no_journal (AnswersInput (HasImported command.now) input.now session.old)) }
{
    if input.len() > FILE_LIMIT {
        return too_long(alloc);
    }
    import_into(alloc, command, session, no_journal, input)
}

/// Adds the records of a text to the file of a session.
fn import_into(
    alloc: Global,
    command: &Command,
    session: &mut Session<Paged>,
    no_journal: bool,
    text: &[u8],
) -> Result<Answer, AllocError>
    ensures { IfOk result (IsUpTo no_journal (HasImported command.now text.now session.old)) }
{
    let (latex, strict) = (command.latex, command.strict);
    match import(alloc, session.database(), text, latex, strict) {
        Ok(additions) => {
            let told = told_of(alloc, command.skipped, &additions, text)?;
            add(alloc, session, no_journal, additions, told)
        }
        Err(fault) => unread(alloc, fault),
    }
}

/// What an import prints of these additions of a text: how many entries are added and how many lines are skipped; and with
/// `listed` the lines that are skipped.
fn told_of(
    alloc: Global,
    listed: bool,
    additions: &Additions,
    text: &[u8],
) -> Result<Text, AllocError>
    ensures { IfOk result (λ told. (lines : List Line) → AreSkipped text.now lines → told ≡ import_told listed additions.now text.now lines) }
{
    let counts = added_line(alloc, additions.entries.as_slice().len(), additions.skipped)?;
    if listed {
        return with_skipped(counts, text);
    }
    Ok(counts)
}

/// Adds the entries, or says why they cannot be added.
fn add(
    alloc: Global,
    session: &mut Session<Paged>,
    no_journal: bool,
    additions: Additions,
    told: Text,
) -> Result<Answer, AllocError>
    ensures { IfOk result (IsUpTo no_journal (HasAdded additions told session.old)) }
{
    if let Err(fault) = add_entries(session, additions.entries) {
        return unadded(alloc, fault);
    }
    let saved = saved_up_to(alloc, session, no_journal)?;
    let outcome = outcome_after(alloc, 1, None, saved);
    Ok(Answer {
        output: told,
        outcome,
    })
}

/// Adds the entries by one edit, and drops them before anything else is made of the file.
fn add_entries(session: &mut Session<Paged>, entries: Seq<NewEntry>) -> Result<(), SessionFault>
    ensures made { OnOk result (MakesEdit (AddMany entries) session.old session.new) }
    ensures refused { IfErr result (λ fault. RefusesEdit fault (AddMany entries) session.old) }
{
    session.edit(&Edit::AddMany { entries })
}

/// The line `added N skipped M`.
fn added_line(alloc: Global, added: usize, skipped: u64) -> Result<Text, AllocError>
    ensures { IfOk result (λ line. line ≡ added_line added skipped) }
{
    let line = format!(in alloc; "added {} skipped {}\n", added, skipped)?;
    Ok(Text::from_vec(line.into_bytes()))
}

/// The answer when no entry is added: no output, and the message says why. Want of memory is no answer.
fn unadded(alloc: Global, fault: SessionFault) -> Result<Answer, AllocError>
    ensures { IfOk result (λ answer. (fault ≢ Memory) × (answer ≡ answer_of [] (fault_line fault) 1)) }
{
    if fault == SessionFault::Memory {
        return Err(AllocError);
    }
    Ok(refused(alloc, fault_line(alloc, fault)?))
}

/// The answer when the text gives no entries: no output, and the message says why. Want of memory is no answer.
fn unread(alloc: Global, fault: ImportFault) -> Result<Answer, AllocError>
    ensures { IfOk result (λ answer. (fault ≢ ImportMemory) × (answer ≡ answer_of [] (import_fault_line fault) 1)) }
{
    match fault {
        ImportFault::Unread(fault) => Ok(refused(alloc, unread_line(alloc, fault)?)),
        ImportFault::UnbalancedText => Ok(refused(alloc, copied(alloc, UNBALANCED_TEXT)?)),
        ImportFault::SkippedLine(place) => {
            let line = placed_line(alloc, 65, "SkippedLine", place)?;
            Ok(refused(alloc, line))
        }
        ImportFault::Memory => Err(AllocError),
    }
}

/// A line that says why a text is not read.
fn unread_line(alloc: Global, fault: RisFault) -> Result<Text, AllocError>
    ensures { IfOk result (λ line. line ≡ unread_line fault) }
{
    match fault {
        RisFault::NoStart(place) => placed_line(alloc, 61, "NoStart", place),
        RisFault::NoEnd(place) => placed_line(alloc, 62, "NoEnd", place),
        RisFault::EmptyType(place) => placed_line(alloc, 63, "EmptyType", place),
        RisFault::Memory => Err(AllocError),
    }
}

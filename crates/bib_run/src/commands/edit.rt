//! `edit`: what a script, or the words of one edit, make of a file.

ghost use Rattle.std.specs.Prelude.{◌≡◌, ◌≢◌, ◌≤◌, length, Some, All, IfOk, option_map};
ghost use Rattle.bib_data.specs.Depths.{AsksWithDepth};
ghost use Rattle.bib_journal.specs.Session.{Performs};
ghost use Rattle.bib_journal.specs.declared.fault.SessionFault.TheVariants.{Memory};
ghost use Rattle.bib_answers.specs.Outcome.{answer_of};
ghost use Rattle.bib_run.specs.Inputs.{AnswersInput};
ghost use Rattle.bib_run.specs.Shown.{IsUpTo};
ghost use Rattle.bib_run.specs.EditAnswer.{script_line, refused_line, bad_line, stop_line, applied_line, changes_of, edits_in, edited_answer, bad_words_line, fault_message, HasEdited, HasEditedBy, HasEditedByWords, IsEditAnswer, IsWordsAnswer, taken_back, whole};

use crate::sessions::{
    message_of, open_with, outcome_after, saved_up_to, session_fault_name, unopened,
};
use bib_answers::{Answer, Outcome, outcome_of, too_long};
use bib_data::Request;
use bib_journal::{Performed, Saved, Session, SessionFault, perform};
use bib_scan::FILE_LIMIT;
use bib_script::{Script, read_script, read_words};
use bib_store::Paged;
use bib_text::{Text, copied};
use bib_words::status;
use std::alloc::{AllocError, Global};

/// The fault number of a line that is no request.
const BAD_SCRIPT: u16 = 71;

/// The message of words that say no edit.
const BAD_WORDS: &[u8] = b"bibkeep: 71 BadScript\n";

/// What the script makes of the file, up to its first line that is refused or is no request.
pub fn answer_edit(
    alloc: Global,
    file: Vec<u8>,
    journal: Option<&[u8]>,
    new_journal: bool,
    no_journal: bool,
    input: &[u8],
) -> Result<Answer, AllocError>
    ensures { IfOk result (IsUpTo no_journal (IsEditAnswer new_journal file.items (option_map (λ text. text.now) journal.entry) input.now)) }
{
    match open_with(alloc, file, journal, new_journal) {
        Ok(mut session) => {
            let answer = answer_script(alloc, &mut session, no_journal, input);
            session.close();
            answer
        }
        Err(fault) => unopened(alloc, fault),
    }
}

/// What the script makes of the file of a session, unless the script is too long.
fn answer_script(
    alloc: Global,
    session: &mut Session<Paged>,
    no_journal: bool,
    input: &[u8],
) -> Result<Answer, AllocError>
    ensures { IfOk result (IsUpTo no_journal (AnswersInput HasEditedBy input.now session.old)) }
{
    if input.len() > FILE_LIMIT {
        return too_long(alloc);
    }
    edit(alloc, session, no_journal, input)
}

/// What the script makes of the file of a session.
fn edit(
    alloc: Global,
    session: &mut Session<Paged>,
    no_journal: bool,
    input: &[u8],
) -> Result<Answer, AllocError>
    ensures { IfOk result (IsUpTo no_journal (HasEditedBy input.now session.old)) }
{
    let script = read_script(alloc, input)?;
    let requests = script.requests.as_slice();
    let performed = perform_told(session, requests)?;
    let saved = saved_up_to(alloc, session, no_journal)?;
    let message = stop_line(alloc, &script, performed.done, performed.fault)?;
    edited_answer(alloc, requests, performed.done, message, saved)
}

/// What the words of one edit make of the file.
pub fn answer_words(
    alloc: Global,
    file: Vec<u8>,
    journal: Option<&[u8]>,
    new_journal: bool,
    no_journal: bool,
    words: &[Text],
) -> Result<Answer, AllocError>
    ensures { IfOk result (IsUpTo no_journal (IsWordsAnswer new_journal words.now file.items (option_map (λ text. text.now) journal.entry))) }
{
    match open_with(alloc, file, journal, new_journal) {
        Ok(mut session) => {
            let answer = edit_by_words(alloc, &mut session, no_journal, words);
            session.close();
            answer
        }
        Err(fault) => unopened(alloc, fault),
    }
}

/// What the words of one edit make of the file of a session.
fn edit_by_words(
    alloc: Global,
    session: &mut Session<Paged>,
    no_journal: bool,
    words: &[Text],
) -> Result<Answer, AllocError>
    ensures { IfOk result (IsUpTo no_journal (HasEditedByWords words.now session.old)) }
{
    match read_words(alloc, words)? {
        Some(requests) => edit_alone(alloc, session, no_journal, requests.as_slice()),
        None => bad_words(alloc),
    }
}

/// What the requests of one edit make of the file of a session.
fn edit_alone(
    alloc: Global,
    session: &mut Session<Paged>,
    no_journal: bool,
    requests: &[Request],
) -> Result<Answer, AllocError>
    requires { All AsksWithDepth requests.now }
    ensures { IfOk result (IsUpTo no_journal (HasEdited requests.now fault_message session.old)) }
{
    let performed = perform_told(session, requests)?;
    let saved = saved_up_to(alloc, session, no_journal)?;
    let message = message_of(alloc, performed.fault)?;
    edited_answer(alloc, requests, performed.done, message, saved)
}

/// No edit is made, and the message says that the words say no edit.
fn bad_words(alloc: Global) -> Result<Answer, AllocError>
    ensures { IfOk result (λ answer. answer ≡ answer_of (applied_line 0) bad_words_line 1) }
{
    let message = copied(alloc, BAD_WORDS)?;
    Ok(Answer {
        output: applied_line(alloc, 0)?,
        outcome: outcome_of(message, status::REFUSED),
    })
}

/// The answer, with `--all-or-nothing` or without: with it all is taken back if anything was refused.
pub fn whole(alloc: Global, all_or_nothing: bool, answer: Answer) -> Result<Answer, AllocError>
    ensures { IfOk result (λ made. made ≡ whole all_or_nothing answer) }
{
    if all_or_nothing && answer.outcome.status != status::DONE {
        return taken_back(alloc, answer);
    }
    Ok(answer)
}

/// The answer when what was done is taken back: nothing is stored, and nothing was applied.
fn taken_back(alloc: Global, answer: Answer) -> Result<Answer, AllocError>
    ensures { IfOk result (λ made. made ≡ taken_back answer) }
{
    let output = if answer.output.as_slice().is_empty() {
        Text::empty(alloc)
    } else {
        applied_line(alloc, 0)?
    };
    let Outcome {
        file: _file,
        journal: _journal,
        message,
        status,
    } = answer.outcome;
    Ok(Answer {
        output,
        outcome: outcome_of(message, status),
    })
}

/// Does the requests in order, up to the first that is refused; want of memory is no refusal.
fn perform_told(session: &mut Session<Paged>, requests: &[Request]) -> Result<Performed, AllocError>
    requires { All AsksWithDepth requests.now }
    ensures told { IfOk result (λ performed. performed.fault ≢ Some Memory) }
    ensures performs { IfOk result (λ performed. Performs requests.now performed.done performed.fault session.old session.new) }
{
    let performed = perform(session, requests);
    if performed.fault == Some(SessionFault::Memory) {
        return Err(AllocError);
    }
    Ok(performed)
}

/// How many changes the request is: one if it is an edit or puts a text in.
fn changes_of(request: &Request) -> usize
    ensures value { result ≡ changes_of request.now }
    ensures small { result ≤ 1 }
{
    match request {
        Request::Edit(_) | Request::Place(_, _) | Request::Insert(_, _) => 1,
        _ => 0,
    }
}

/// How many edits there are among the requests.
fn edits_in(requests: &[Request]) -> usize
    ensures { result ≡ edits_in requests.now }
{
    let mut edits: usize = 0;
    'request: for request in requests {
        edits += changes_of(request);
    }
    edits
}

/// The answer after the first `done` requests.
fn edited_answer(
    alloc: Global,
    requests: &[Request],
    done: usize,
    message: Option<Text>,
    saved: Saved,
) -> Result<Answer, AllocError>
    requires { done ≤ length requests.now }
    ensures { IfOk result (λ answer. answer ≡ edited_answer requests.now done message saved) }
{
    let made = edits_in(requests.split_at(done).0);
    let output = applied_line(alloc, made)?;
    let outcome = outcome_after(alloc, made, message, saved);
    Ok(Answer { output, outcome })
}

/// The line `applied N`.
fn applied_line(alloc: Global, done: usize) -> Result<Text, AllocError>
    ensures { IfOk result (λ line. line ≡ applied_line done) }
{
    let line = format!(in alloc; "applied {}\n", done)?;
    Ok(Text::from_vec(line.into_bytes()))
}

/// Why a script stopped after its first `done` requests, if it did.
fn stop_line(
    alloc: Global,
    script: &Script,
    done: usize,
    fault: Option<SessionFault>,
) -> Result<Option<Text>, AllocError>
    ensures { IfOk result (λ line. line ≡ stop_line script.now done fault) }
{
    match (fault, script.bad_line) {
        (Some(fault), _) => {
            let line = script.lines.as_slice().get(done).copied().unwrap_or(0);
            Ok(Some(refused_line(alloc, line, fault)?))
        }
        (None, Some(line)) => Ok(Some(script_line(alloc, line, BAD_SCRIPT, "BadScript")?)),
        (None, None) => Ok(None),
    }
}

/// The message of a refused request: its line in the script, and the fault.
fn refused_line(alloc: Global, line: usize, fault: SessionFault) -> Result<Text, AllocError>
    ensures { IfOk result (λ text. text ≡ refused_line line fault) }
{
    let number = fault.number();
    script_line(alloc, line, number, session_fault_name(number))
}

/// The line `bibkeep: line L: N Name`.
fn script_line(alloc: Global, line: usize, number: u16, name: &str) -> Result<Text, AllocError>
    ensures { IfOk result (λ text. text ≡ script_line line number name.now) }
{
    let text = format!(in alloc; "bibkeep: line {}: {} {}\n", line, number, name)?;
    Ok(Text::from_vec(text.into_bytes()))
}

//! `insert`: a text is put into a file.

ghost use Rattle.std.specs.Prelude.{◌≡◌, ◌≢◌, [], None, Some, IfOk, option_map};
ghost use Rattle.bib_edit.specs.declared.fault.EditFault.TheVariants.{BadPosition};
ghost use Rattle.bib_journal.specs.declared.fault.SessionFault.TheVariants.{Refused, Memory};
ghost use Rattle.bib_answers.specs.Outcome.{answer_of};
ghost use Rattle.bib_run.specs.Inputs.{AnswersInput};
ghost use Rattle.bib_run.specs.Sessions.{fault_line};
ghost use Rattle.bib_run.specs.InsertAnswer.{position_asked, inserted_line, uninserted_line, HasPutIn, AreNews, HasPutNews, HasInserted, IsInsertAnswer};

use crate::sessions::{fault_line, open_with, outcome_after, unopened};
use bib_answers::{Answer, refusal_in, refused, too_long};
use bib_data::Position;
use bib_edit::{EditFault, place_of};
use bib_journal::{Session, SessionFault};
use bib_paste::news_of;
use bib_scan::FILE_LIMIT;
use bib_script::read_position;
use bib_store::{Database, Paged};
use bib_text::Text;
use std::alloc::{AllocError, Global};

/// How a message calls the text.
const INPUT_NAME: &[u8] = b"standard input";

/// Puts the input into the file, at the position that the words say.
pub fn answer_insert(
    alloc: Global,
    file: Vec<u8>,
    journal: Option<&[u8]>,
    new_journal: bool,
    words: &[Text],
    input: &[u8],
) -> Result<Answer, AllocError>
    ensures { IfOk result (IsInsertAnswer new_journal words.now file.items (option_map (λ text. text.now) journal.entry) input.now) }
{
    match open_with(alloc, file, journal, new_journal) {
        Ok(mut session) => {
            let answer = insert_input(alloc, &mut session, words, input);
            session.close();
            answer
        }
        Err(fault) => unopened(alloc, fault),
    }
}

/// Puts the input into the file of a session, unless the input is too long.
fn insert_input(
    alloc: Global,
    session: &mut Session<Paged>,
    words: &[Text],
    input: &[u8],
) -> Result<Answer, AllocError>
    ensures { IfOk result (AnswersInput (HasInserted words.now) input.now session.old) }
{
    if input.len() > FILE_LIMIT {
        return too_long(alloc);
    }
    insert_text(alloc, session, words, input)
}

/// Puts a text into the file of a session, at the position that the words say, if they say one.
fn insert_text(
    alloc: Global,
    session: &mut Session<Paged>,
    words: &[Text],
    text: &[u8],
) -> Result<Answer, AllocError>
    ensures { IfOk result (HasInserted words.now text.now session.old) }
{
    let asked = position_asked(alloc, words)?;
    match asked {
        Some(position) => insert_at(alloc, session, &position, text),
        None => no_position(alloc),
    }
}

/// The answer when words say no position.
fn no_position(alloc: Global) -> Result<Answer, AllocError>
    ensures { IfOk result (λ answer. answer ≡ answer_of [] (fault_line (Refused BadPosition)) 1) }
{
    let fault = SessionFault::Refused(EditFault::BadPosition);
    Ok(refused(alloc, fault_line(alloc, fault)?))
}

/// The position for which the words ask: the end, if there are none.
fn position_asked(alloc: Global, words: &[Text]) -> Result<Option<Position>, AllocError>
    ensures { IfOk result (λ position. position ≡ position_asked words.now) }
{
    match words {
        [] => Ok(Some(Position::End)),
        [word, ..] => read_position(alloc, word.as_slice()),
    }
}

/// What came of a text that was to be put in: the answer, and the reason against the text if there was one.
#[derive(Drop)]
struct Attempt {
    answer: Answer,
    fault: Option<SessionFault>,
}

/// Puts a text into the file of a session at this position. If it defines a macro that the file defines, only what is new of it is
/// put in.
fn insert_at(
    alloc: Global,
    session: &mut Session<Paged>,
    position: &Position,
    text: &[u8],
) -> Result<Answer, AllocError>
    ensures { IfOk result (HasPutNews position.now text.now session.old) }
{
    let whole = try_put(alloc, session, position, text)?;
    if whole.fault != Some(SessionFault::Refused(EditFault::NameInUse)) {
        return Ok(whole.answer);
    }
    let news = news_in(alloc, session.database(), position, text)?;
    let new = try_put(alloc, session, position, news.as_slice())?;
    Ok(new.answer)
}

/// The bytes of what is new of a text at this position.
fn news_in(
    alloc: Global,
    db: &Database<Paged>,
    position: &Position,
    text: &[u8],
) -> Result<Text, AllocError>
    ensures { IfOk result (AreNews position.now db.now text.now) }
{
    let Ok(place) = place_of(db, position) else {
        return Err(AllocError);
    };
    // The position and the text were good, so only want of memory refuses them.
    let Ok(new) = Database::open_bytes(alloc, text, Paged::new(alloc)) else {
        return Err(AllocError);
    };
    news_of(alloc, db, place, &new)
}

/// Puts a text into the file of a session at this position, or says why it can't be put in. A refusal changes nothing.
fn try_put(
    alloc: Global,
    session: &mut Session<Paged>,
    position: &Position,
    text: &[u8],
) -> Result<Attempt, AllocError>
    ensures put { IfOk result (λ made. HasPutIn position.now text.now session.old made.answer made.fault) }
    ensures same { IfOk result (λ made. made.fault ≢ None → session.new ≡ session.old) }
{
    let before = session.database().entry_count();
    if let Err(fault) = session.insert(position, text) {
        return uninserted(alloc, fault);
    }
    let added = session.database().entry_count().saturating_sub(before);
    let Ok(saved) = session.saved() else {
        return Err(AllocError);
    };
    Ok(Attempt {
        answer: Answer {
            output: inserted_line(alloc, added)?,
            outcome: outcome_after(alloc, 1, None, saved),
        },
        fault: None,
    })
}

/// The line `added N`.
fn inserted_line(alloc: Global, added: usize) -> Result<Text, AllocError>
    ensures { IfOk result (λ line. line ≡ inserted_line added) }
{
    let line = format!(in alloc; "added {}\n", added)?;
    Ok(Text::from_vec(line.into_bytes()))
}

/// What came of a text that is not put in: no output, and the message says why. Want of memory is no answer.
fn uninserted(alloc: Global, fault: SessionFault) -> Result<Attempt, AllocError>
    ensures { IfOk result (λ made. (fault ≢ Memory) × (made.answer ≡ answer_of [] (uninserted_line fault) 1) × (made.fault ≡ Some fault)) }
{
    if fault == SessionFault::Memory {
        return Err(AllocError);
    }
    Ok(Attempt {
        answer: refused(alloc, uninserted_line(alloc, fault)?),
        fault: Some(fault),
    })
}

/// A line that says why a text is not put in.
fn uninserted_line(alloc: Global, fault: SessionFault) -> Result<Text, AllocError>
    ensures { IfOk result (λ line. line ≡ uninserted_line fault) }
{
    match fault {
        SessionFault::Unopened(fault) => refusal_in(alloc, fault.kind, fault.place, INPUT_NAME),
        fault => fault_line(alloc, fault),
    }
}

//! What a command answers.

ghost use Rattle.std.specs.Prelude.{◌≡◌, ◌≢◌, [], IfOk};
ghost use Rattle.bib_spec.specs.Bytes.{file_limit};
ghost use Rattle.bib_answers.specs.Messages.{no_such_entry_line, refusal_line};
ghost use Rattle.bib_answers.specs.Outcome.{outcome_of, answer_of};

use crate::messages::{NO_SUCH_ENTRY, refusal_line};
use bib_scan::ReadFault;
use bib_text::{Text, copied};
use bib_words::status;
use std::alloc::{AllocError, Global};

/// What the program writes besides its output, and its exit status.
#[derive(Drop)]
pub struct Outcome {
    pub file: Option<Text>,
    pub journal: Option<Text>,
    pub message: Text,
    pub status: u8,
}

/// What a command writes to its output, and its outcome.
#[derive(Drop)]
pub struct Answer {
    pub output: Text,
    pub outcome: Outcome,
}

/// The outcome with this message and status, which leaves file and journal unwritten.
pub fn outcome_of(message: Text, status: u8) -> Outcome
    ensures { result ≡ outcome_of message status }
{
    Outcome {
        file: None,
        journal: None,
        message,
        status,
    }
}

/// The answer with this output, and no message.
pub fn done(alloc: Global, output: Text) -> Answer
    ensures { result ≡ answer_of output [] 0 }
{
    Answer {
        output,
        outcome: outcome_of(Text::empty(alloc), status::DONE),
    }
}

/// The answer with this message and no output.
pub fn refused(alloc: Global, message: Text) -> Answer
    ensures { result ≡ answer_of [] message 1 }
{
    Answer {
        output: Text::empty(alloc),
        outcome: outcome_of(message, status::REFUSED),
    }
}

/// The answer whose message says that no entry has the key.
pub fn no_such_entry(alloc: Global) -> Result<Answer, AllocError>
    ensures { IfOk result (λ answer. answer ≡ answer_of [] no_such_entry_line 1) }
{
    let message = copied(alloc, NO_SUCH_ENTRY)?;
    Ok(refused(alloc, message))
}

/// The answer whose message says that the input is too long.
pub fn too_long(alloc: Global) -> Result<Answer, AllocError>
    ensures { IfOk result (λ answer. answer ≡ answer_of [] (refusal_line 9 file_limit) 1) }
{
    Ok(refused(alloc, refusal_line(alloc, ReadFault::TOO_LONG)?))
}

/// The answer whose message says why the file is not read. If memory ran out, there is no answer.
pub fn unread(alloc: Global, fault: ReadFault) -> Result<Answer, AllocError>
    ensures { IfOk result (λ answer. (fault.kind ≢ 10) × (answer ≡ answer_of [] (refusal_line fault.kind fault.place) 1)) }
{
    if fault.is_memory() {
        return Err(AllocError);
    }
    Ok(refused(alloc, refusal_line(alloc, fault)?))
}

//! Writing what a command answers.

ghost use Rattle.bib_run.specs.Views.{view_of};
ghost use Rattle.bib_run.specs.Written.{IsWritten};

use crate::Tap;
use crate::messages::WRITE_FAULT;
use crate::sink::write_whole;
use bib_answers::{Answer, Outcome, outcome_of};
use bib_text::{Text, copied};
use bib_words::status;
use std::alloc::Global;
use std::io::Write;

/// Writes an answer's output. The outcome is the answer's, or the outcome of a write fault. It makes interrupted calls
/// again, up to 100 times, and runs out of memory only before it writes.
pub fn write_answer<W: Write>(alloc: Global, answer: Answer, out: &mut Tap<W>) -> Outcome
    ensures { IsWritten answer (view_of W.contents out.old) (view_of W.contents out.new) result }
{
    // the message is there before the output can fail
    let Ok(write_fault) = copied(alloc, WRITE_FAULT) else {
        return outcome_of(Text::empty(alloc), status::MEMORY);
    };
    if !write_whole(out, answer.output.as_slice()) {
        return outcome_of(write_fault, status::FAULT);
    }
    answer.outcome
}

//! One run of `merge`: the answer is made, then it is written.

ghost use Rattle.bib_run.specs.Views.{view_of};
ghost use Rattle.merge_run.specs.Runs.{IsMergeRun};

use crate::answering::answer_merge;
use bib_answers::{Outcome, outcome_of};
use bib_run::{Tap, write_answer};
use bib_text::Text;
use bib_words::{Command, status};
use std::alloc::Global;
use std::io::Write;

/// Runs `merge` over a common file, ours and theirs, whose names are the words of the command, and its output. The files were read
/// by the caller, and the outcome has the merged file, which the caller stores. It makes interrupted calls again, up to 100 times.
/// It runs out of memory only before anything is written.
pub fn run_merge<W: Write>(
    alloc: Global,
    command: &Command,
    base: Vec<u8>,
    ours: Vec<u8>,
    theirs: Vec<u8>,
    out: &mut Tap<W>,
) -> Outcome
    ensures { IsMergeRun command.now base.items ours.items theirs.items (view_of W.contents out.old) (view_of W.contents out.new) result }
{
    let names = command.words.as_slice();
    match answer_merge(alloc, command.print, names, base, ours, theirs) {
        Ok(answer) => write_answer(alloc, answer, out),
        Err(_) => outcome_of(Text::empty(alloc), status::MEMORY),
    }
}

//! One run of a command over several files: the answer is made, then it is written.

ghost use Rattle.std.specs.Prelude.{◌≡◌, true, List};
ghost use Rattle.bib_spec.specs.Text.{Text as FileText};
ghost use Rattle.bib_words.specs.Command.{IsCommand, has_others};
ghost use Rattle.bib_shelf.specs.Joined.{AreJoined};
ghost use Rattle.bib_run.specs.Views.{view_of};
ghost use Rattle.shelf_run.specs.Runs.{IsShelfRun};

use crate::answering::answer_shelf;
use bib_answers::{Outcome, outcome_of};
use bib_run::{Tap, write_answer};
use bib_shelf::Joined;
use bib_text::Text;
use bib_words::{Command, status};
use std::alloc::Global;
use std::io::Write;

/// Runs a command that names other files over all its files, which have these names, in the order in which they are read, and
/// its output. The files were read by the caller; their text is kept once, and once more for `lint`. It makes interrupted
/// calls again, up to 100 times. It runs out of memory only before anything is written.
pub fn run_shelf<W: Write>(
    alloc: Global,
    command: &Command,
    names: &[Text],
    files: Joined,
    out: &mut Tap<W>,
) -> Outcome
    requires command { IsCommand command.now }
    requires others { has_others command.now ≡ true }
    requires joined { (texts : List FileText) × AreJoined texts files }
    ensures { (texts : List FileText) → AreJoined texts files → IsShelfRun command.now names.now texts (view_of W.contents out.old) (view_of W.contents out.new) result }
{
    match answer_shelf(alloc, command, names, files) {
        Ok(answer) => write_answer(alloc, answer, out),
        Err(_) => outcome_of(Text::empty(alloc), status::MEMORY),
    }
}

//! One run of a command: all sources are read, then the answer is made, then it is written.

ghost use Rattle.std.specs.Prelude.{◌≡◌, option_map};
ghost use Rattle.bib_words.specs.Command.{IsCommand, ReadsJournal, TakesInput};
ghost use Rattle.bib_run.specs.Lent.{held_before, held_after};
ghost use Rattle.bib_run.specs.Views.{view_of, held};
ghost use Rattle.bib_run.specs.Runs.{IsRun, IsRunOver, taps};

use crate::Tap;
use crate::answering::answer;
use crate::reading::{Sources, read_beside};
use crate::writing::write_answer;
use bib_answers::{Outcome, outcome_of};
use bib_text::Text;
use bib_words::{Command, status};
use std::alloc::Global;
use std::io::{Read, Write};

/// Runs a command over its file, its journal, its input and its output. It reads the file to its end or to one byte
/// past the limit, and keeps one copy of it in memory, beside what the command makes of it. It does the same with the
/// journal, if there is one, and the input, for the commands that read them. It makes interrupted calls again, up to
/// 100 times on each tap. It runs out of memory only before anything is written. It reads no aux files, and no files that
/// are named before or after F: whoever runs a command that names aux files adds the keys that they cite to its words first, or for
/// `lint` hands on the keys with their places, and a command over several files is run by `run_shelf` of `shelf_run`.
pub fn run<F: Read, J: Read, I: Read, W: Write>(
    alloc: Global,
    command: &Command,
    file: &mut Tap<F>,
    journal: Option<&mut Tap<J>>,
    input: &mut Tap<I>,
    out: &mut Tap<W>,
) -> Outcome
    requires { IsCommand command.now }
    ensures ran { IsRun command.now
        (taps (view_of F.remaining file.old) (option_map (view_of J.remaining) (held_before journal.entry)) (view_of I.remaining input.old) (view_of W.contents out.old))
        (taps (view_of F.remaining file.new) (option_map (view_of J.remaining) (held_after journal.exit)) (view_of I.remaining input.new) (view_of W.contents out.new)) result }

    // A command that does not read its journal leaves it alone, and one that takes no input leaves the input alone.
    ensures journal { ¬ ReadsJournal command.now → held_after journal.exit ≡ held_before journal.entry }
    ensures input { ¬ TakesInput command.now → input.new ≡ input.old }
{
    match journal {
        Some(journal) => run_beside(alloc, command, file, true, journal, input, out),
        None => {
            let nothing = &mut Tap::new(b"".as_slice());
            run_beside(alloc, command, file, false, nothing, input, out)
        }
    }
}

/// The run of a command. If there is no journal, no call is made on the tap in its place.
fn run_beside<F: Read, J: Read, I: Read, W: Write>(
    alloc: Global,
    command: &Command,
    file: &mut Tap<F>,
    has_journal: bool,
    journal: &mut Tap<J>,
    input: &mut Tap<I>,
    out: &mut Tap<W>,
) -> Outcome
    requires { IsCommand command.now }
    ensures ran { IsRun command.now
        (taps (view_of F.remaining file.old) (held has_journal (view_of J.remaining journal.old)) (view_of I.remaining input.old) (view_of W.contents out.old))
        (taps (view_of F.remaining file.new) (held has_journal (view_of J.remaining journal.new)) (view_of I.remaining input.new) (view_of W.contents out.new)) result }
    ensures journal { ¬ ReadsJournal command.now → journal.new ≡ journal.old }
    ensures input { ¬ TakesInput command.now → input.new ≡ input.old }
{
    match read_beside(alloc, command, file, has_journal, journal, input) {
        Ok(sources) => run_read(alloc, command, sources, out),
        Err(outcome) => outcome,
    }
}

/// Runs a command over sources that the caller has read, as the two files of `diff`, and its output. Of each no more is needed than
/// one byte past its limit. It makes interrupted calls again, up to 100 times. It runs out of memory only before anything is written.
pub fn run_read<W: Write>(
    alloc: Global,
    command: &Command,
    sources: Sources,
    out: &mut Tap<W>,
) -> Outcome
    requires { IsCommand command.now }
    ensures { IsRunOver command.now sources (view_of W.contents out.old) (view_of W.contents out.new) result }
{
    match answer(alloc, command, sources) {
        Ok(answer) => write_answer(alloc, answer, out),
        Err(_) => outcome_of(Text::empty(alloc), status::MEMORY),
    }
}

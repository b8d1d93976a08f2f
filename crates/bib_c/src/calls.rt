//! Each call on the state that is behind a handle, with its report.

ghost use Rattle.std.specs.Prelude.{◌≡◌, ◌↔◌, IsTrue, Some, OnOk, OnErr};
ghost use Rattle.bib_spec.specs.Records.{IsDepth};
ghost use Rattle.bib_data.specs.declared.request.Request.TheVariants.{Undo, Redo};
ghost use Rattle.bib_words.specs.Command.{IsCommand};
ghost use Rattle.bib_run.specs.Answers.{IsAnswer};
ghost use Rattle.bib_c.specs.Asking.{asked_of};
ghost use Rattle.bib_c.specs.Calls.{forgotten, journal_if, Opens, Edits, RunsScript, BeginsStep, EndsStep, TurnsSteps, SavesFile, SavesBoth, TellsEntry, TellsKeys, Runs};

use crate::asking::{Options, asked_of};
use crate::report::Report;
use crate::words::words_of;
use bib_data::DEPTH_LIMIT;
use bib_journal::SessionFault;
use bib_run::Command;
use bib_state::{CallFault, State};
use bib_words::status;
use std::alloc::{AllocError, Global};

/// Opens a session over these bytes.
pub fn open(
    alloc: Global,
    state: &mut State,
    file: &[u8],
    has_journal: bool,
    journal: &[u8],
) -> Report
    ensures { Opens file.now (journal_if has_journal journal.now) result state.old state.new }
{
    if has_journal {
        return Report::of_opened(state.open(alloc, file, Some(journal)));
    }
    Report::of_opened(state.open(alloc, file, None))
}

/// Makes the edit that the words say.
pub fn edit(alloc: Global, state: &mut State, words: &[u8], lens: &[usize]) -> Report
    ensures { Edits words.now lens.now result state.old state.new }
{
    match words_of(alloc, words, lens) {
        Ok(Some(words)) => Report::of_made(state.edit(alloc, words.as_slice())),
        Ok(None) => Report::refused(CallFault::Misuse),
        Err(AllocError) => Report::refused(CallFault::Session(SessionFault::Memory)),
    }
}

/// Does what the lines of a script say.
pub fn script(alloc: Global, state: &mut State, script: &[u8]) -> Report
    ensures { RunsScript script.now result state.old state.new }
{
    Report::of_scripted(state.script(alloc, script))
}

/// Begins a step of several edits.
pub fn begin(state: &mut State, label: &[u8]) -> Report
    ensures { BeginsStep label.now result state.old state.new }
{
    Report::of_made(state.begin(label))
}

/// Ends the step that is open.
pub fn end(state: &mut State) -> Report
    ensures { EndsStep result state.old state.new }
{
    Report::of_made(state.end())
}

/// Takes `times` steps back.
pub fn undo(state: &mut State, times: usize) -> Report
    ensures { TurnsSteps Undo times result state.old state.new }
{
    Report::of_turned(state.undo(times))
}

/// Makes `times` steps again.
pub fn redo(state: &mut State, times: usize) -> Report
    ensures { TurnsSteps Redo times result state.old state.new }
{
    Report::of_turned(state.redo(times))
}

/// Gives the present file.
pub fn file(alloc: Global, state: &mut State) -> Report
    ensures { SavesFile result state.old state.new }
{
    Report::of_made(state.file(alloc))
}

/// Gives the present file and its journal.
pub fn save(alloc: Global, state: &mut State) -> Report
    ensures { SavesBoth result state.old state.new }
{
    Report::of_made(state.save(alloc))
}

/// Gives the keys of all entries.
pub fn keys(alloc: Global, state: &mut State) -> Report
    ensures { TellsKeys result state.old state.new }
{
    Report::of_made(state.keys(alloc))
}

/// Gives the line of JSON of an entry.
pub fn entry(alloc: Global, state: &mut State, key: &[u8], depth: u8) -> Report
    ensures { TellsEntry key.now depth result state.old state.new }
{
    if !is_depth(depth) {
        return Report::refused(CallFault::Misuse);
    }
    Report::of_made(state.entry(alloc, key, depth))
}

/// Whether an entry may be told at this depth.
fn is_depth(depth: u8) -> bool
    ensures { IsTrue result ↔ IsDepth depth }
{
    depth >= 1 && depth <= DEPTH_LIMIT
}

/// Runs the command with this name, these arguments and options over these bytes, and gives its exit status.
pub fn run(
    alloc: Global,
    state: &mut State,
    name: &[u8],
    words: &[u8],
    lens: &[usize],
    aux: &[u8],
    aux_lens: &[usize],
    options: &Options,
    file: &[u8],
    has_journal: bool,
    journal: &[u8],
    input: &[u8],
) -> u8
    ensures { Runs (asked_of name.now words.now lens.now aux.now aux_lens.now options.now) file.now (journal_if has_journal journal.now) input.now result state.old state.new }
{
    match asked_of(alloc, name, words, lens, aux, aux_lens, options) {
        Ok(Some(command)) => run_command(alloc, state, &command, file, has_journal, journal, input),
        Ok(None) => refuse(alloc, state, status::COMMAND_LINE),
        Err(AllocError) => refuse(alloc, state, status::MEMORY),
    }
}

/// Runs a command over these bytes, if the program has it, and gives its exit status.
fn run_command(
    alloc: Global,
    state: &mut State,
    command: &Command,
    file: &[u8],
    has_journal: bool,
    journal: &[u8],
    input: &[u8],
) -> u8
    ensures { Runs (Some command.now) file.now (journal_if has_journal journal.now) input.now result state.old state.new }
{
    if !command.is_known() {
        return refuse(alloc, state, status::COMMAND_LINE);
    }
    match run_known(alloc, state, command, file, has_journal, journal, input) {
        Ok(()) => state.answer.outcome.status,
        Err(AllocError) => refuse(alloc, state, status::MEMORY),
    }
}

/// Runs a command of the program over these bytes.
fn run_known(
    alloc: Global,
    state: &mut State,
    command: &Command,
    file: &[u8],
    has_journal: bool,
    journal: &[u8],
    input: &[u8],
) -> Result<(), AllocError>
    requires { IsCommand command.now }
    ensures answered { OnOk result (IsAnswer command.now file.now (journal_if has_journal journal.now) input.now state.new.answer) }
    ensures session { state.new.session ≡ state.old.session }
    ensures err { OnErr result (state.new ≡ state.old) }
{
    if has_journal {
        return state.run(alloc, command, file, Some(journal), input);
    }
    state.run(alloc, command, file, None, input)
}

/// Forgets the texts of the call before, and gives this status.
pub(crate) fn refuse(alloc: Global, state: &mut State, status: u8) -> u8
    ensures status { result ≡ status }
    ensures forgotten { state.new ≡ forgotten state.old }
{
    state.forget(alloc);
    status
}

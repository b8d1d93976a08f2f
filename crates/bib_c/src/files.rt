//! A command over several files that are read as one, on the state that is behind a handle.

ghost use Rattle.std.specs.Prelude.{◌↔◌, IsTrue, Some};
ghost use Rattle.bib_c.specs.Asking.{asked_among};
ghost use Rattle.bib_c.specs.Words.{words_of};
ghost use Rattle.bib_c.specs.Calls.{IsOverFiles, RunsFiles};

use crate::asking::{Options, asked_among};
use crate::calls::refuse;
use crate::words::words_of;
use bib_run::Command;
use bib_state::State;
use bib_text::Text;
use bib_words::status;
use std::alloc::{AllocError, Global};

/// Runs the command with this name, these arguments and options over files with these names and bytes, and gives its exit status.
pub fn run_files(
    alloc: Global,
    state: &mut State,
    name: &[u8],
    words: &[u8],
    lens: &[usize],
    aux: &[u8],
    aux_lens: &[usize],
    options: &Options,
    names: &[u8],
    name_lens: &[usize],
    files: &[u8],
    file_lens: &[usize],
) -> u8
    ensures { RunsFiles (asked_among name.now words.now lens.now aux.now aux_lens.now names.now name_lens.now options.now) (words_of names.now name_lens.now) (words_of files.now file_lens.now) result state.old state.new }
{
    match asked_among(
        alloc, name, words, lens, aux, aux_lens, names, name_lens, options,
    ) {
        Ok(Some(command)) => {
            run_named(alloc, state, &command, names, name_lens, files, file_lens)
        }
        Ok(None) => refuse(alloc, state, status::COMMAND_LINE),
        Err(AllocError) => refuse(alloc, state, status::MEMORY),
    }
}

/// Runs a command over files whose names and bytes are each one text and lengths.
fn run_named(
    alloc: Global,
    state: &mut State,
    command: &Command,
    names: &[u8],
    name_lens: &[usize],
    files: &[u8],
    file_lens: &[usize],
) -> u8
    ensures { RunsFiles (Some command.now) (words_of names.now name_lens.now) (words_of files.now file_lens.now) result state.old state.new }
{
    match words_of(alloc, names, name_lens) {
        Ok(Some(names)) => run_texts(alloc, state, command, names.as_slice(), files, file_lens),
        Ok(None) => refuse(alloc, state, status::COMMAND_LINE),
        Err(AllocError) => refuse(alloc, state, status::MEMORY),
    }
}

/// Runs a command over files with these names, whose bytes are one text and lengths.
fn run_texts(
    alloc: Global,
    state: &mut State,
    command: &Command,
    names: &[Text],
    files: &[u8],
    file_lens: &[usize],
) -> u8
    ensures { RunsFiles (Some command.now) (Some names.now) (words_of files.now file_lens.now) result state.old state.new }
{
    match words_of(alloc, files, file_lens) {
        Ok(Some(files)) => run_over(alloc, state, command, names, files.as_slice()),
        Ok(None) => refuse(alloc, state, status::COMMAND_LINE),
        Err(AllocError) => refuse(alloc, state, status::MEMORY),
    }
}

/// Runs a command over files with these names and bytes, if the program has it.
fn run_over(
    alloc: Global,
    state: &mut State,
    command: &Command,
    names: &[Text],
    files: &[Text],
) -> u8
    ensures { RunsFiles (Some command.now) (Some names.now) (Some files.now) result state.old state.new }
{
    if !is_over_files(command) {
        return refuse(alloc, state, status::COMMAND_LINE);
    }
    match state.run_files(alloc, command, names, files) {
        Ok(()) => state.answer.outcome.status,
        Err(AllocError) => refuse(alloc, state, status::MEMORY),
    }
}

/// Whether the program has this command, and it names other files.
fn is_over_files(command: &Command) -> bool
    ensures { IsTrue result ↔ IsOverFiles command.now }
{
    command.is_known() && command.has_others()
}

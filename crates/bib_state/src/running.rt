//! The commands of the program over bytes.

ghost use Rattle.std.specs.Prelude.{◌≡◌, true, IfOk, OnOk, OnErr, option_map};
ghost use Rattle.bib_shelf.specs.Joined.{AreJoined};
ghost use Rattle.bib_words.specs.Command.{IsCommand, has_others};
ghost use Rattle.bib_run.specs.Answers.{IsAnswer};
ghost use Rattle.shelf_run.specs.Answers.{IsShelfAnswer};

use crate::state::State;
use bib_run::{Answer, Command, Sources, answer};
use bib_text::{Text, copied};
use shelf_run::{Joined, answer_shelf};
use std::alloc::{AllocError, Global};

impl State {
    /// Runs a command of the program over these bytes. What it gives is the command's answer to them. It takes a copy of
    /// the texts, and time and memory as the command does. It is refused only if memory runs out; then it changes nothing.
    pub fn run(
        &mut self,
        alloc: Global,
        command: &Command,
        file: &[u8],
        journal: Option<&[u8]>,
        input: &[u8],
    ) -> Result<(), AllocError>
        requires { IsCommand command.now }
        ensures answered { OnOk result (IsAnswer command.now file.now (option_map (λ text. text.now) journal.entry) input.now self.new.answer) }
        ensures session { self.new.session ≡ self.old.session }
        ensures err { OnErr result (self.new ≡ self.old) }
    {
        self.answer = answer_of(alloc, command, file, journal, input)?;
        Ok(())
    }

    /// Runs a command of the program over files with these names and bytes, which are read as one. What it gives is the command's
    /// answer to them. It takes a copy of the bytes, and time and memory as the command does. It is refused only if memory runs
    /// out; then it changes nothing.
    pub fn run_files(
        &mut self,
        alloc: Global,
        command: &Command,
        names: &[Text],
        files: &[Text],
    ) -> Result<(), AllocError>
        requires command { IsCommand command.now }
        requires others { has_others command.now ≡ true }
        ensures answered { OnOk result (IsShelfAnswer command.now names.now files.now self.new.answer) }
        ensures session { self.new.session ≡ self.old.session }
        ensures err { OnErr result (self.new ≡ self.old) }
    {
        self.answer = files_answer(alloc, command, names, files)?;
        Ok(())
    }
}

/// What a command answers to files with these names and bytes.
fn files_answer(
    alloc: Global,
    command: &Command,
    names: &[Text],
    files: &[Text],
) -> Result<Answer, AllocError>
    requires command { IsCommand command.now }
    requires others { has_others command.now ≡ true }
    ensures { IfOk result (IsShelfAnswer command.now names.now files.now) }
{
    let joined = joined(alloc, files)?;
    answer_shelf(alloc, command, names, joined)
}

/// The files in one text.
fn joined(alloc: Global, files: &[Text]) -> Result<Joined, AllocError>
    ensures { IfOk result (AreJoined files.now) }
{
    let mut joined = Joined::empty(alloc);
    'files: for file in files {
        joined = joined.with(file.as_slice())?;
    }
    Ok(joined)
}

/// What a command answers to a copy of these bytes.
fn answer_of(
    alloc: Global,
    command: &Command,
    file: &[u8],
    journal: Option<&[u8]>,
    input: &[u8],
) -> Result<Answer, AllocError>
    requires { IsCommand command.now }
    ensures { IfOk result (IsAnswer command.now file.now (option_map (λ text. text.now) journal.entry) input.now) }
{
    let sources = Sources {
        file: copied(alloc, file)?,
        journal: copied_if_there(alloc, journal)?,
        input: copied(alloc, input)?,
    };
    answer(alloc, command, sources)
}

/// A copy of a text, if there is one.
fn copied_if_there(alloc: Global, text: Option<&[u8]>) -> Result<Option<Text>, AllocError>
    ensures { IfOk result (λ copy. copy ≡ option_map (λ text. text.now) text.entry) }
{
    match text {
        Some(text) => Ok(Some(copied(alloc, text)?)),
        None => Ok(None),
    }
}

//! What the program says below its messages.

use crate::endings::{end, errors};
use bib_answers::Outcome;
use bib_hints::{
    Asked, Ended, Trouble, hints, hints_of_storing, hints_of_trouble, hints_of_usage, invitation,
};
use bib_run::Tap;
use bib_streams::{Heard, Kept, Shown};
use bib_text::Text;
use bib_words::{Command, status};
use std::alloc::{AllocError, Global};
use std::io;
use std::io::{ErrorKind, IsTerminal, Stdout};

/// How a run ended, and what its streams tell.
#[derive(Drop)]
pub struct Ran {
    pub outcome: Outcome,
    pub streams: Streams,
}

/// What was kept of the file and of standard input, and why the last call on each stream that failed did.
#[derive(Drop)]
pub struct Streams {
    file: Option<Vec<u8>>,
    input: Option<Vec<u8>>,
    file_error: Option<io::Error>,
    input_error: Option<io::Error>,
    output_error: Option<io::Error>,
}

impl Streams {
    /// What the file, standard input and standard output of a run tell.
    pub fn of<F, I>(
        file: Kept<Heard<F>>,
        input: Kept<Heard<I>>,
        output: Shown<Heard<Stdout>>,
    ) -> Streams
    where
        F: Drop,
        I: Drop,
    {
        let (file, file_bytes) = file.into_parts();
        let (input, input_bytes) = input.into_parts();
        Streams {
            file: file_bytes,
            input: input_bytes,
            file_error: file.error(),
            input_error: input.error(),
            output_error: output.into_inner().error(),
        }
    }

    /// Whether the output's reader was gone before its end.
    pub fn is_closed(&self) -> bool {
        is_closed_by(&self.output_error)
    }

    /// On which stream a call failed, and why.
    fn trouble<'a>(&self, file: &'a [u8]) -> Option<Trouble<'a>> {
        if let Some(error) = &self.file_error {
            return Some(Trouble {
                on: file,
                kind: error.kind(),
            });
        }
        if let Some(error) = &self.input_error {
            return Some(Trouble {
                on: b"standard input",
                kind: error.kind(),
            });
        }
        match &self.output_error {
            Some(error) => Some(Trouble {
                on: b"standard output",
                kind: error.kind(),
            }),
            None => None,
        }
    }
}

/// Whether the reader of standard output was gone before its end.
pub fn is_closed(output: Tap<Shown<Heard<Stdout>>>) -> bool {
    is_closed_by(&output.into_inner().into_inner().error())
}

/// Whether the last call on the output that failed says that its reader was gone before its end.
pub fn is_closed_by(error: &Option<io::Error>) -> bool {
    match error {
        Some(error) => error.kind() == ErrorKind::BrokenPipe,
        None => false,
    }
}

/// Whether hints are printed: if they are asked for, or standard error is a terminal.
pub fn may_hint(rt: &HostRuntime, asked: bool) -> bool {
    asked || rt.stderr().is_terminal()
}

/// Says what to type, if the command waits for it at a terminal.
pub fn invite(rt: &HostRuntime, alloc: Global, command: &Command, may_hint: bool) {
    let reads = command.takes_input() || command.words.as_slice().is_empty();
    if may_hint && reads && rt.stdin().is_terminal() {
        say(rt, invitation(alloc, command));
    }
}

/// Says the hints about a run.
pub fn say_hints(rt: &HostRuntime, alloc: Global, command: &Command, may_hint: bool, ran: &Ran) {
    if !may_hint || ran.outcome.status == status::MEMORY {
        return;
    }
    if ran.outcome.status == status::FAULT {
        if !ran.streams.is_closed() {
            say_fault(rt, alloc, command, ran);
        }
        return;
    }
    let asked = Asked {
        command,
        file: bytes_in(&ran.streams.file),
        input: bytes_in(&ran.streams.input),
    };
    let ended = Ended {
        status: ran.outcome.status,
        message: ran.outcome.message.as_slice(),
        file: match &ran.outcome.file {
            Some(file) => Some(file.as_slice()),
            None => None,
        },
    };
    say(rt, hints(alloc, &asked, &ended));
}

fn bytes_in(bytes: &Option<Vec<u8>>) -> &[u8] {
    match bytes {
        Some(bytes) => bytes.as_slice(),
        None => b"",
    }
}

fn say_fault(rt: &HostRuntime, alloc: Global, command: &Command, ran: &Ran) {
    if let Some(trouble) = ran.streams.trouble(file_of(command)) {
        say(rt, hints_of_trouble(alloc, command, trouble));
    }
}

/// The name of the file that the command is run over: for `merge`, of the file that the merged one replaces.
fn file_of(command: &Command) -> &[u8] {
    let n = if command.is_named(b"merge") { 1 } else { 0 };
    match command.words.as_slice().get(n) {
        Some(word) => word.as_slice(),
        None => b"standard input",
    }
}

/// Says why the file or its journal could not be opened.
pub fn say_trouble(
    rt: &HostRuntime,
    alloc: Global,
    command: &Command,
    may_hint: bool,
    on: &[u8],
    kind: ErrorKind,
) {
    if may_hint && kind != ErrorKind::OutOfMemory {
        say(rt, hints_of_trouble(alloc, command, Trouble { on, kind }));
    }
}

/// Says why the file or its journal could not be stored, if it could not.
pub fn say_unstored(
    rt: &HostRuntime,
    alloc: Global,
    command: &Command,
    may_hint: bool,
    error: Option<io::Error>,
) {
    if let Some(error) = error {
        if may_hint {
            let trouble = Trouble {
                on: file_of(command),
                kind: error.kind(),
            };
            say(rt, hints_of_storing(alloc, trouble));
        }
    }
}

/// Says the hints about words that are no command.
pub fn say_usage(rt: &HostRuntime, alloc: Global, words: &[String], status: u8) {
    if status == status::COMMAND_LINE && may_hint(rt, asks_for_hints(words)) {
        say(rt, hints_of_usage(alloc, words));
    }
}

/// Whether one of the words is `--hints`.
fn asks_for_hints(words: &[String]) -> bool {
    'words: for word in words {
        if word.as_str() == "--hints" {
            return true;
        }
    }
    false
}

/// Prints hints on standard error, if there was memory for them.
fn say(rt: &HostRuntime, hints: Result<Text, AllocError>) {
    if let Ok(text) = hints {
        let _status = end(&mut errors(rt), text.as_slice(), status::DONE);
    }
}

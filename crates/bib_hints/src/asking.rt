//! What hints are asked about.

use bib_words::Command;
use std::io::ErrorKind;

/// A command that was run, and what was read of its file and of its input, if that is known.
#[derive(Clone, Copy)]
pub struct Asked<'a> {
    pub command: &'a Command,
    pub file: &'a [u8],
    pub input: &'a [u8],
}

/// How a run ended: its status and message, and the file that it left, if it left a new one.
#[derive(Clone, Copy)]
pub struct Ended<'a> {
    pub status: u8,
    pub message: &'a [u8],
    pub file: Option<&'a [u8]>,
}

/// A call that failed: on what, and the system's reason.
#[derive(Clone, Copy)]
pub struct Trouble<'a> {
    pub on: &'a [u8],
    pub kind: ErrorKind,
}

impl<'a> Asked<'a> {
    /// The word of the command with this number, counted from 0; empty if there is none.
    pub(crate) fn word(&self, n: usize) -> &'a [u8] {
        match self.command.words.as_slice().get(n) {
            Some(word) => word.as_slice(),
            None => b"",
        }
    }

    /// The file as the user named it.
    pub(crate) fn name(&self) -> &'a [u8] {
        match self.command.words.as_slice().first() {
            Some(word) => word.as_slice(),
            None => b"standard input",
        }
    }
}

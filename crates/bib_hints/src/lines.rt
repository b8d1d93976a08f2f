//! Lines of hints.

ghost use Rattle.std.specs.Prelude.{◌≡◌, ◌++◌, ◌≤◌, length, IfOk, OnOk};
ghost use Rattle.std.specs.List.{flat_map};
ghost use Rattle.bib_hints.specs.Hints.{visible, hint_line, line_limit, AreHints};

use crate::parts::{Part, append};
use bib_text::{Seq, Text};
use std::alloc::{AllocError, Global};

/// Hints have at most so many lines.
const LINE_LIMIT: usize = 8;

/// Lines that are being written.
#[derive(Drop)]
pub struct Lines {
    alloc: Global,
    lines: Vec<Text>,
}

impl Lines {
    /// No line yet.
    pub fn new(alloc: Global) -> Self {
        Lines {
            alloc,
            lines: Vec::new(alloc),
        }
    }

    /// The allocator of the lines.
    pub fn alloc(&self) -> Global {
        self.alloc
    }

    /// Whether there is no line yet.
    pub fn is_empty(&self) -> bool {
        self.lines.is_empty()
    }

    /// Adds a line: these words, in which each `%` stands for the next part.
    pub fn say(&mut self, words: &[u8], parts: &[Part<'_>]) -> Result<(), AllocError> {
        let mut line = Vec::new(self.alloc);
        let mut rest = parts;
        'words: for byte in words {
            match rest {
                [part, others @ ..] if *byte == b'%' => {
                    append(self.alloc, &mut line, part)?;
                    rest = others;
                }
                _ => line.push(*byte)?,
            }
        }
        self.lines.push(Seq::from_vec(line))?;
        Ok(())
    }

    /// The first lines, as they are printed.
    pub fn laid_out(&self) -> Result<Text, AllocError>
        ensures { IfOk result AreHints }
    {
        laid_out(self.alloc, few(self.lines.as_slice()))
    }
}

/// The first lines, at most the greatest number.
fn few(lines: &[Text]) -> &[Text]
    ensures { length result.now ≤ line_limit }
{
    lines.split_at(lines.len().min(LINE_LIMIT)).0
}

/// The lines as they are printed.
fn laid_out(alloc: Global, lines: &[Text]) -> Result<Text, AllocError>
    ensures { IfOk result (λ text. text ≡ flat_map hint_line lines.now) }
{
    let mut text = Vec::new(alloc);
    'lines: for line in lines {
        add_line(&mut text, line.as_slice())?;
    }
    Ok(Seq::from_vec(text))
}

/// Adds a line with these words.
fn add_line(text: &mut Vec<u8>, words: &[u8]) -> Result<(), AllocError>
    ensures { OnOk result (text.new.items ≡ text.old.items ++ hint_line words.now) }
{
    text.push(b' ')?;
    text.push(b' ')?;
    add_words(text, words)?;
    text.push(b'\n')?;
    Ok(())
}

/// Adds the words, with their control bytes made visible.
fn add_words(text: &mut Vec<u8>, words: &[u8]) -> Result<(), AllocError>
    ensures { OnOk result (text.new.items ≡ text.old.items ++ flat_map visible words.now) }
{
    'bytes: for byte in words {
        add_visible(text, *byte)?;
    }
    Ok(())
}

/// Adds a byte, or a caret and a letter if it is a control byte.
fn add_visible(text: &mut Vec<u8>, byte: u8) -> Result<(), AllocError>
    ensures { OnOk result (text.new.items ≡ text.old.items ++ visible byte) }
{
    if byte == 127 {
        text.push(b'^')?;
        text.push(b'?')?;
    } else if byte < 32 {
        text.push(b'^')?;
        text.push(byte + 64)?;
    } else {
        text.push(byte)?;
    }
    Ok(())
}

//! The lines of a cited list.

ghost use Rattle.std.specs.Prelude.{◌≡◌, ◌++◌, OnOk};
ghost use Rattle.std.specs.List.{flat_map};
ghost use Rattle.bib_answers.specs.Cite.{line_bytes, parent_bytes};

use std::alloc::{AllocError, Global};
use std::marker::Model;

/// As long as most lines are, in bytes.
const LINE: usize = 16;

/// How many lines wait before they are written.
const BATCH: usize = 64;

/// An entry's number, and its key.
#[derive(Clone, Copy)]
pub(crate) struct Keyed<'a> {
    pub n: usize,
    pub key: &'a [u8],
}

/// The key of an entry, and its parent where that is listed too.
#[derive(Clone, Copy)]
pub(crate) struct Line<'a> {
    pub key: &'a [u8],
    pub parent: Option<Keyed<'a>>,
}

/// A text to which lines are added. Lines are written 64 at a time, since their keys lie far apart in the file: the processor
/// then waits for several keys at once, and not for one after another. A contract sees the text with all lines.
#[derive(Drop)]
pub(crate) struct Listing<'a> {
    text: Vec<u8>,
    waiting: Vec<Line<'a>>,
}

impl<'a> Model for Listing<'a> {
    ghost use Rattle.std.specs.Prelude.{◌++◌};
    ghost use Rattle.std.specs.List.{flat_map};
    ghost use Rattle.bib_spec.specs.Text.{Text};
    ghost use Rattle.bib_answers.specs.Cite.{line_bytes};

    ghost Value = { Text };

    ghost view = { λ l. l.text.items ++ flat_map line_bytes l.waiting.items };
}

impl<'a> Listing<'a> {
    ghost use Rattle.std.specs.Prelude.{◌≡◌, ◌++◌, [], IfOk, OnOk};
    ghost use Rattle.bib_answers.specs.Cite.{line_bytes};

    /// No text, with room for `lines` lines of the usual length.
    pub(crate) fn new(alloc: Global, lines: usize) -> Result<Self, AllocError>
        ensures { IfOk result (λ listing. listing ≡ []) }
    {
        Ok(Listing {
            text: Vec::with_capacity(alloc, lines.saturating_mul(LINE))?,
            waiting: Vec::with_capacity(alloc, BATCH)?,
        })
    }

    /// Adds a line.
    pub(crate) fn push(&mut self, line: Line<'a>) -> Result<(), AllocError>
        ensures { OnOk result (self.new ≡ self.old ++ line_bytes line.entry) }
    {
        if self.waiting.len() == BATCH {
            write_lines(&mut self.text, self.waiting.as_slice())?;
            self.waiting.clear();
        }
        self.waiting.push(line)?;
        Ok(())
    }

    /// The text with all lines.
    pub(crate) fn into_text(self) -> Result<Vec<u8>, AllocError>
        ensures { IfOk result (λ text. text.items ≡ self.entry) }
    {
        let mut text = self.text;
        write_lines(&mut text, self.waiting.as_slice())?;
        Ok(text)
    }
}

/// Writes lines, one after another.
fn write_lines(text: &mut Vec<u8>, lines: &[Line<'_>]) -> Result<(), AllocError>
    ensures { OnOk result (text.new.items ≡ text.old.items ++ flat_map line_bytes lines.now) }
{
    'lines: for line in lines {
        write_line(text, *line)?;
    }
    Ok(())
}

fn write_line(text: &mut Vec<u8>, line: Line<'_>) -> Result<(), AllocError>
    ensures { OnOk result (text.new.items ≡ text.old.items ++ line_bytes line.entry) }
{
    text.extend_from_slice(line.key)?;
    write_parent(text, line.parent)?;
    text.extend_from_slice(b"\n")
}

/// Writes a tab and the key of the parent, if there is one.
fn write_parent(text: &mut Vec<u8>, parent: Option<Keyed<'_>>) -> Result<(), AllocError>
    ensures { OnOk result (text.new.items ≡ text.old.items ++ parent_bytes parent.entry) }
{
    let Some(parent) = parent else {
        return Ok(());
    };
    text.extend_from_slice(b"\t")?;
    text.extend_from_slice(parent.key)
}

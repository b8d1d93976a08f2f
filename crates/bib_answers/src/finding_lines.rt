//! Findings that are written as lines.

ghost use Rattle.std.specs.Prelude.{◌≡◌, ◌+◌, ◌++◌, IfSome, OnOk};
ghost use Rattle.bib_answers.specs.Lint.{placed_at, is_ignored, warning_line, error_line};

use crate::lines::add_all;
use crate::messages::fault_name;
use crate::named_files::{NamedFiles, Reached, first_reached, reached_at};
use crate::positions::Position;
use crate::warnings::Warning;
use bib_text::Text;
use itoa::Buffer;
use std::alloc::{AllocError, Global};
use std::marker::Model;

/// The lines of findings in files that are open as one. Each position is counted from the last one: if the places come in order,
/// all of them together take time in the length of the files, and a search in the list of files each. A finding whose code is
/// ignored gets no line. A contract sees the ignored codes, the names and bytes of the files, the place of the item in which
/// something is found, and the lines so far.
#[derive(Drop)]
pub struct FindingLines<'a> {
    ignored: &'a [Text],
    files: &'a NamedFiles<'a>,
    start: usize,
    text: Vec<u8>,
    reached: Reached,
}

impl<'a> Model for FindingLines<'a> {
    ghost use Rattle.std.specs.Prelude.{[], slice_index_or};
    ghost use Rattle.bib_answers.specs.FindingLines.{Written};
    ghost use Rattle.bib_answers.specs.Positions.{IsKnown};

    ghost Value = { Written };

    ghost view = { λ l. record { ignored = l.ignored.now; names = l.files.now.names; files = l.files.now.files; start = l.start; text = l.text.items } };

    ghost invariant = { λ l. IsKnown (slice_index_or l.files.now.files l.reached.file []) l.reached.known };
}

impl<'a> FindingLines<'a> {
    ghost use Rattle.std.specs.Prelude.{◌≡◌, ◌++◌, ◌+◌, [], OnOk};
    ghost use Rattle.bib_answers.specs.Lint.{found};
    ghost use Rattle.bib_answers.specs.FindingLines.{Written, at_item, with_findings};

    /// No lines yet, of these files, for findings with other codes than these.
    pub fn new(alloc: Global, ignored: &'a [Text], files: &'a NamedFiles<'a>) -> Self
        ensures { result ≡ (record { ignored = ignored.now; names = files.now.names; files = files.now.files; start = 0; text = [] }) }
    {
        FindingLines {
            ignored,
            files,
            start: 0,
            text: Vec::new(alloc),
            reached: first_reached(),
        }
    }

    /// Begins an item at this place: the places of what is found next count from there.
    pub fn begin_item(&mut self, start: usize)
        ensures { self.new ≡ at_item self.old start }
    {
        self.start = start;
    }

    /// Adds the line of a finding `more` bytes after a place in the item, about this name, key or text. If its code is ignored,
    /// nothing is added. A place that is past every count is refused like want of memory: no text in memory has one.
    pub fn add_after(
        &mut self,
        kind: Warning,
        at: usize,
        more: usize,
        name: &[u8],
    ) -> Result<(), AllocError>
        ensures { OnOk result (self.new ≡ with_findings self.old (found kind (at + more) name.now)) }
    {
        if is_ignored(self.ignored, kind) {
            return Ok(());
        }
        let Some(place) = place_after(self.start, at, more) else {
            return Err(AllocError);
        };
        self.reached = reached_at(self.files, self.reached, place);
        let file = self.files.name_at(place);
        add_warning(&mut self.text, file, self.reached.known.at, kind, name)
    }

    /// Adds the line of a finding at a place in the item, about this name, key or text.
    pub fn add(&mut self, kind: Warning, at: usize, name: &[u8]) -> Result<(), AllocError>
        ensures { OnOk result (self.new ≡ with_findings self.old (found kind at name.now)) }
    {
        self.add_after(kind, at, 0, name)
    }

    /// The lines.
    pub fn into_text(self) -> Vec<u8>
        ensures { result.items ≡ self.entry.text }
    {
        self.text
    }
}

/// The place so many bytes after another that is so many bytes after the start of an item, if it can be counted.
fn place_after(start: usize, at: usize, more: usize) -> Option<usize>
    ensures { IfSome result (λ place. place ≡ start + (at + more)) }
{
    start.checked_add(at)?.checked_add(more)
}

/// Adds the line of a finding at this position, about this name, key or text.
pub fn add_warning(
    out: &mut Vec<u8>,
    file: &[u8],
    at: Position,
    kind: Warning,
    name: &[u8],
) -> Result<(), AllocError>
    ensures { OnOk result (out.new.items ≡ out.old.items ++ warning_line file.now at kind name.now) }
{
    add_place(out, file, at)?;
    let before = kind.words_before().as_bytes();
    let after = kind.words_after().as_bytes();
    let code = kind.code().as_bytes();
    add_all(out, &[b"warning: ", before])?;
    out.extend_from_slice(name)?;
    add_all(out, &[after, b" [", code, b"]\n"])
}

/// Adds the line of a fault of reading at this position, which has this number.
pub fn add_error(out: &mut Vec<u8>, file: &[u8], at: Position, kind: u8) -> Result<(), AllocError>
    ensures { OnOk result (out.new.items ≡ out.old.items ++ error_line file.now at kind) }
{
    add_place(out, file, at)?;
    let mut number = Buffer::new();
    let number = number.format(kind).as_bytes();
    let name = fault_name(kind).as_bytes();
    add_all(out, &[b"error: ", number, b" ", name, b"\n"])
}

/// Whether the code of this kind is among those that are ignored.
pub fn is_ignored(ignored: &[Text], kind: Warning) -> bool
    ensures { result ≡ is_ignored ignored.now kind }
{
    let code = kind.code().as_bytes();
    ignored.iter().any(|other| code == other.as_slice())
}

/// Adds the file's name and a position.
fn add_place(out: &mut Vec<u8>, file: &[u8], at: Position) -> Result<(), AllocError>
    ensures { OnOk result (out.new.items ≡ out.old.items ++ placed_at file.now at) }
{
    let mut line = Buffer::new();
    let mut column = Buffer::new();
    let line = line.format(at.line).as_bytes();
    let column = column.format(at.column).as_bytes();
    add_all(out, &[file, b":", line, b":", column, b": "])
}

//! The lines of a file that are skipped, one by one.

ghost use Rattle.std.specs.Prelude.{◌≡◌, ◌≤◌, length};
ghost use Rattle.ris_text.specs.Skipped.{bytes_at};
ghost use Rattle.ris_text.specs.Skipping.{inside_after, is_skipped};

use crate::lines::{Class, line_at, line_len, mark_len};
use std::marker::Model;

/// A line that is skipped: its number in the file, from 1, the place of its first byte, and its bytes without its line
/// feed.
#[derive(Clone, Copy, Debug)]
pub struct SkippedLine<'a> {
    pub number: usize,
    pub place: usize,
    pub bytes: &'a [u8],
}

/// Whether a line of this class is skipped, inside a record or outside.
fn is_skipped(inside: bool, class: Class) -> bool
    ensures { result ≡ is_skipped inside class }
{
    if inside {
        return matches!(class, Class::Other);
    }
    matches!(class, Class::Untagged)
}

/// Whether the lines after a line of this class are inside a record.
fn inside_after(inside: bool, class: Class) -> bool
    ensures { result ≡ inside_after inside class }
{
    match class {
        Class::Begin => true,
        Class::End => false,
        Class::Known(_) | Class::Other | Class::Blank | Class::Untagged => inside,
    }
}

/// The bytes of the line at this place, without its line feed.
fn bytes_at(file: &[u8], place: usize) -> &[u8]
    requires { place ≤ length file.now }
    ensures { result.now ≡ bytes_at file.now place }
{
    let rest = file.split_at(place).1;
    rest.split_at(line_len(rest)).0
}

/// The skipped lines of a file that are still to come, from the front. They take no memory.
#[derive(Drop)]
pub struct SkippedLines<'a> {
    file: &'a [u8],
    place: usize,
    number: usize,
    inside: bool,
}

impl<'a> Model for SkippedLines<'a> {
    ghost use Rattle.std.specs.Prelude.{List};
    ghost use Rattle.ris_text.specs.Skipped.{Standing};
    ghost use Rattle.ris_text.specs.Skipping.{skips_at, IsNumbered};

    ghost Value = { List Standing };

    ghost view = { λ s. skips_at s.file.now s.inside s.place };

    ghost invariant = { λ s. IsNumbered s.file.now s.place s.number };
}

impl<'a> SkippedLines<'a> {
    ghost use Rattle.std.specs.Prelude.{◌≡◌, List, [], ◌∷◌, map, IfSome, IfNone};
    ghost use Rattle.ris_text.specs.Lines.{Line};
    ghost use Rattle.ris_text.specs.Skipped.{AreSkipped, standing, stands};

    /// The skipped lines of a file that says something. Of a file that goes wrong they mean nothing.
    pub fn of(file: &'a [u8]) -> Self
        ensures { (lines : List Line) → AreSkipped file.now lines → result ≡ map (standing file.now) lines }
    {
        SkippedLines {
            file,
            place: mark_len(file),
            number: 1,
            inside: false,
        }
    }

    /// The first skipped line, and those after it. It takes time in the length of what it passes over, and no memory.
    pub fn next(self) -> Option<(SkippedLine<'a>, SkippedLines<'a>)>
        ensures some { IfSome result (λ r. self.entry ≡ stands r.0 ∷ r.1) }
        ensures none { IfNone result (self.entry ≡ []) }
    {
        let file = self.file;
        let mut place = self.place;
        let mut number = self.number;
        let mut inside = self.inside;
        'line: while place < file.len() {
            let bytes = bytes_at(file, place);
            let class = line_at(place, bytes).class;
            let line = SkippedLine {
                number,
                place,
                bytes,
            };
            let skipped = is_skipped(inside, class);
            inside = inside_after(inside, class);
            place += (file.len() - place).min(bytes.len() + 1);
            number += 1;
            if skipped {
                let after = SkippedLines {
                    file,
                    place,
                    number,
                    inside,
                };
                return Some((line, after));
            }
        }
        None
    }
}

//! Records whose text is read back.

ghost use Rattle.std.specs.Prelude.{◌≡◌};
ghost use Rattle.std.specs.List.{list_all, list_any};
ghost use Rattle.ris_text.specs.Writing.{ends_line, fits_line, is_well_formed_line, is_well_formed};

use crate::records::{RisLine, RisRecord};
use crate::tags::is_known;
use bib_text::trimmed;

/// Whether a line ends at the byte.
fn ends_line(byte: u8) -> bool
    ensures { result ≡ ends_line byte }
{
    byte == b'\n' || byte == b'\r'
}

/// Whether a line ends in the text.
fn has_line_end(text: &[u8]) -> bool
    ensures { result ≡ list_any ends_line text.now }
{
    text.iter().any(|b| ends_line(*b))
}

/// Whether the text fits a line: no line ends in it, and it has no white space at its ends.
#[tactic(auto, unfolding(crate::specs::Writing::fits_line))]
fn fits_line(text: &[u8]) -> bool
    ensures { result ≡ fits_line text.now }
{
    !has_line_end(text) && trimmed(text) == text
}

/// Whether the line has a known tag and a value that fits a line.
fn is_well_formed_line(line: &RisLine) -> bool
    ensures { result ≡ is_well_formed_line line.now }
{
    let tag = line.tag;
    is_known(tag) && fits_line(line.value.as_slice())
}

/// Whether all lines are well formed.
fn are_well_formed_lines(lines: &[RisLine]) -> bool
    ensures { result ≡ list_all is_well_formed_line lines.now }
{
    lines.iter().all(|line| is_well_formed_line(line))
}

/// Whether a record can be written and read back: it has a type, its tags are known (docs/FORMAT-RIS.md), and type and
/// values fit a line. It takes time in the record's size, and no memory.
#[tactic(auto, unfolding(crate::specs::Writing::is_well_formed))]
pub fn is_well_formed(rec: &RisRecord) -> bool
    ensures { result ≡ is_well_formed rec.now }
{
    let kind_name = rec.kind_name.as_slice();
    !kind_name.is_empty() && fits_line(kind_name) && are_well_formed_lines(rec.lines.as_slice())
}

/// Whether all records can be written and read back. It takes time in their size, and no memory.
pub fn are_well_formed(records: &[RisRecord]) -> bool
    ensures { result ≡ list_all is_well_formed records.now }
{
    records.iter().all(|rec| is_well_formed(rec))
}

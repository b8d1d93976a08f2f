//! The lines of a RIS text that are skipped, as `import --skipped` lists them.

ghost use Rattle.std.specs.Prelude.{◌≡◌, ◌++◌, List, IfOk, OnOk};
ghost use Rattle.ris_text.specs.Lines.{Line};
ghost use Rattle.ris_text.specs.Skipped.{AreSkipped, stands};
ghost use Rattle.bib_run.specs.ImportAnswer.{skipped_line, skipped_lines};

use bib_text::{Seq, Text};
use itoa::Buffer;
use ris_text::{SkippedLine, SkippedLines};
use std::alloc::AllocError;

/// Adds the line `skipped N: LINE`.
fn add_line(told: &mut Vec<u8>, line: SkippedLine<'_>) -> Result<(), AllocError>
    ensures { OnOk result (told.new.items ≡ told.old.items ++ skipped_line (stands line.entry)) }
{
    let mut number = Buffer::new();
    let number = number.format(line.number).as_bytes();
    told.extend_from_slice(b"skipped ")?;
    told.extend_from_slice(number)?;
    told.extend_from_slice(b": ")?;
    told.extend_from_slice(line.bytes)?;
    told.extend_from_slice(b"\n")
}

/// Adds a line for each line of the text that is skipped.
fn add_lines(told: &mut Vec<u8>, text: &[u8]) -> Result<(), AllocError>
    ensures { OnOk result ((lines : List Line) → AreSkipped text.now lines → told.new.items ≡ told.old.items ++ skipped_lines text.now lines) }
{
    let mut rest = SkippedLines::of(text);
    'lines: loop {
        let Some((line, after)) = rest.next() else {
            return Ok(());
        };
        add_line(told, line)?;
        rest = after;
    }
}

/// This text, and after it a line for each line of a RIS text that is skipped.
pub fn with_skipped(front: Text, text: &[u8]) -> Result<Text, AllocError>
    ensures { IfOk result (λ told. (lines : List Line) → AreSkipped text.now lines → told ≡ front ++ skipped_lines text.now lines) }
{
    let mut told = front.into_vec();
    add_lines(&mut told, text)?;
    Ok(Seq::from_vec(told))
}

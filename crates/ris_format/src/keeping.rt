//! The lines of a RIS record are kept as lines, or as the bytes of their text.

ghost use Rattle.std.specs.Prelude.{◌≡◌, ◌++◌, ◌∷◌, [], List, OnOk};
ghost use Rattle.ris_text.specs.declared.records.RisLine.{RisLine as Line};
ghost use Rattle.ris_text.specs.Writing.{written, ended};
ghost use Rattle.ris_format.specs.Lines.{line};

use bib_text::copied;
use ris_text::{RisLine, write_line};
use std::alloc::{AllocError, Global};

/// A form in which lines are kept: each line becomes members of a list.
pub(crate) trait Kept: Drop {
    /// The members that a line is kept as.
    ghost kept: { Line → List Self };

    /// Adds a line to the lines that are kept.
    fn keep(
        alloc: Global,
        lines: &mut Vec<Self>,
        tag: [u8; 2],
        value: &[u8],
    ) -> Result<(), AllocError>
        ensures { OnOk result (lines.new.items ≡ lines.old.items ++ kept (line tag value.now)) };
}

impl Kept for RisLine {
    ghost kept = { λ l. l ∷ [] };

    fn keep(
        alloc: Global,
        lines: &mut Vec<RisLine>,
        tag: [u8; 2],
        value: &[u8],
    ) -> Result<(), AllocError> {
        let value = copied(alloc, value)?;
        lines.push(RisLine { tag, value })?;
        Ok(())
    }
}

impl Kept for u8 {
    ghost kept = { λ l. ended (written l.tag l.value) };

    fn keep(
        _alloc: Global,
        text: &mut Vec<u8>,
        tag: [u8; 2],
        value: &[u8],
    ) -> Result<(), AllocError> {
        write_line(text, tag.as_slice(), value)
    }
}

//! What is found in a text between items.

ghost use Rattle.std.specs.Prelude.{◌≡◌, OnOk};
ghost use Rattle.bib_answers.specs.Lint.{warning_of, gap_findings};
ghost use Rattle.bib_answers.specs.FindingLines.{with_findings};
ghost use Rattle.bib_answers.specs.Plain.{is_line_feeds};

use crate::finding_lines::FindingLines;
use crate::warnings::Warning;
use bib_strays::{StrayKind, Strays};
use std::alloc::AllocError;

/// The kind of finding for what a line looks like.
fn warning_of(kind: StrayKind) -> Warning
    ensures { result ≡ warning_of kind }
{
    match kind {
        StrayKind::ConflictMarker => Warning::ConflictMarker,
        StrayKind::LostEntry => Warning::LostEntry,
        StrayKind::LoneBrace => Warning::LoneBrace,
    }
}

/// Whether the text is one line feed or two.
fn is_line_feeds(text: &[u8]) -> bool
    ensures { result ≡ is_line_feeds text.now }
{
    text == b"\n".as_slice() || text == b"\n\n".as_slice()
}

/// Adds the findings in a text between items that begins at this place of an item, and that may be the text after a comment. Most
/// such texts are line feeds, in which nothing is found.
pub fn add_gap_findings(
    lines: &mut FindingLines<'_>,
    commented: bool,
    at: usize,
    text: &[u8],
) -> Result<(), AllocError>
    ensures { OnOk result (lines.new ≡ with_findings lines.old (gap_findings commented at text.now)) }
{
    if is_line_feeds(text) {
        return Ok(());
    }
    let mut strays = Strays::of(commented, text);
    'strays: while let Some(stray) = strays.next() {
        let kind = warning_of(stray.kind);
        lines.add_after(kind, at, stray.place, stray.text)?;
    }
    Ok(())
}

//! Lines of a RIS record by their tags.

ghost use Rattle.std.specs.Prelude.{◌≡◌, ◌++◌, OnOk, IfOk, map};
ghost use Rattle.std.specs.List.{flat_map};
ghost use Rattle.ris_format.specs.Lines.{are_neat_lines, spaced, line, single, read_lines, has_tag, values_at, value_at, or_else};

use crate::keeping::Kept;
use crate::kinds::is;
use crate::text::has_bytes;
use bib_value::{field_text, is_neat};
use ris_text::RisLine;
use std::alloc::{AllocError, Global};

/// Adds a line with the text if the text is not empty.
pub(crate) fn push_single<T: Kept>(
    alloc: Global,
    lines: &mut Vec<T>,
    tag: [u8; 2],
    text: &[u8],
) -> Result<(), AllocError>
    ensures { OnOk result (lines.new.items ≡ lines.old.items ++ flat_map T.kept (map (line tag) (single text.now))) }
{
    if has_bytes(text) {
        T::keep(alloc, lines, tag, text)?;
    }
    Ok(())
}

/// Whether each value is words with one space between each two, and none at its ends.
pub(crate) fn are_neat_lines(lines: &[RisLine]) -> bool
    ensures { result ≡ are_neat_lines lines.now }
{
    lines.iter().all(|line| is_neat(line.value.as_slice()))
}

/// The value as a field text.
fn spaced(alloc: Global, line: &RisLine) -> Result<RisLine, AllocError>
    ensures { IfOk result (λ l. l ≡ spaced line.now) }
{
    let tag = line.tag;
    match field_text(alloc, line.value.as_slice()) {
        Ok(value) => Ok(RisLine { tag, value }),
        Err(_) => Err(AllocError),
    }
}

/// The lines as they are read: each value as a field text, empty ones left out.
pub(crate) fn read_lines(alloc: Global, lines: &[RisLine]) -> Result<Vec<RisLine>, AllocError>
    ensures { IfOk result (λ ls. ls.items ≡ read_lines lines.now) }
{
    let mut out = Vec::with_capacity(alloc, lines.len())?;
    for line in lines {
        let line = spaced(alloc, line)?;
        if has_bytes(line.value.as_slice()) {
            out.push(line)?;
        }
    }
    Ok(out)
}

/// Whether the line has one of these tags.
fn has_tag(tags: &[[u8; 2]], line: &RisLine) -> bool
    ensures { result ≡ has_tag tags.now line.now }
{
    for tag in tags {
        if is(tag.as_slice(), line.tag.as_slice()) {
            return true;
        }
    }
    false
}

/// The values after these tags, in the order of the lines.
pub(crate) fn values_at<'a>(
    alloc: Global,
    tags: &[[u8; 2]],
    lines: &'a [RisLine],
) -> Result<Vec<&'a [u8]>, AllocError>
    ensures { IfOk result (λ values. map (λ v. v.now) values.items ≡ values_at tags.now lines.now) }
{
    let mut values = Vec::new(alloc);
    for line in lines {
        if has_tag(tags, line) {
            values.push(line.value.as_slice())?;
        }
    }
    Ok(values)
}

/// The first value after these tags, empty if there is none.
pub(crate) fn value_at<'a>(tags: &[[u8; 2]], lines: &'a [RisLine]) -> &'a [u8]
    ensures { result.now ≡ value_at tags.now lines.now }
{
    for line in lines {
        if has_tag(tags, line) {
            return line.value.as_slice();
        }
    }
    b""
}

/// The text, or the other text if it is empty.
pub(crate) fn or_else<'a>(text: &'a [u8], other: &'a [u8]) -> &'a [u8]
    ensures { result.now ≡ or_else text.now other.now }
{
    if has_bytes(text) { text } else { other }
}

//! Texts as LaTeX prints them.

ghost use Rattle.std.specs.Prelude.{◌≡◌, ◌==◌, ◌++◌, OnOk, IfOk, map, find, option_map};
ghost use Rattle.std.specs.Option.{option_copied};
ghost use Rattle.ris_format.specs.Lines.{read_lines};
ghost use Rattle.ris_format.specs.Escapes.{escapes, escape_of, escaped, is_copied, escaped_value, escaped_line};

use crate::kinds::is;
use crate::lines::{are_neat_lines, read_lines};
use bib_text::{Seq, Text, copied};
use ris_text::RisLine;
use std::alloc::{AllocError, Global};

/// How the byte is written, none if it is written as it is.
fn escape_in(byte: u8) -> Option<&'static [u8]>
    ensures { option_copied result ≡ option_map (λ e. e.written) (find (λ e. e.byte == byte) escapes) }
{
    match byte {
        b'&' => Some(b"\\&"),
        b'%' => Some(b"\\%"),
        b'$' => Some(b"\\$"),
        b'#' => Some(b"\\#"),
        b'_' => Some(b"\\_"),
        b'{' => Some(b"{\\textbraceleft}"),
        b'}' => Some(b"{\\textbraceright}"),
        b'~' => Some(b"{\\textasciitilde}"),
        b'^' => Some(b"{\\textasciicircum}"),
        b'\\' => Some(b"{\\textbackslash}"),
        _ => None,
    }
}

/// Adds a byte to a text as LaTeX prints it.
fn push_escaped(text: &mut Vec<u8>, byte: u8) -> Result<(), AllocError>
    ensures { OnOk result (text.new.items ≡ text.old.items ++ escape_of byte) }
{
    match escape_in(byte) {
        Some(written) => text.extend_from_slice(written),
        None => Ok(text.push(byte)?),
    }
}

/// The text as LaTeX prints it, with room for braces around it.
fn escaped(alloc: Global, text: &[u8]) -> Result<Text, AllocError>
    ensures { IfOk result (λ t. t ≡ escaped text.now) }
{
    let mut out = Vec::with_capacity(alloc, text.len() + 2)?;
    'bytes: for byte in text {
        push_escaped(&mut out, *byte)?;
    }
    Ok(Seq::from_vec(out))
}

/// Whether the values of this tag are copied: a URL, a DOI and an ID are no texts to print.
fn is_copied(tag: &[u8]) -> bool
    ensures { result ≡ is_copied tag.now }
{
    is(b"UR", tag) || is(b"DO", tag) || is(b"ID", tag)
}

/// The value of a line as LaTeX prints it, or as it is if values of its tag are copied.
fn escaped_value(alloc: Global, line: &RisLine) -> Result<Text, AllocError>
    ensures { IfOk result (λ value. value ≡ escaped_value line.now) }
{
    if is_copied(line.tag.as_slice()) {
        return copied(alloc, line.value.as_slice());
    }
    escaped(alloc, line.value.as_slice())
}

/// The line with its value as LaTeX prints it.
fn escaped_line(alloc: Global, line: &RisLine) -> Result<RisLine, AllocError>
    ensures { IfOk result (λ l. l ≡ escaped_line line.now) }
{
    let tag = line.tag;
    let value = escaped_value(alloc, line)?;
    Ok(RisLine { tag, value })
}

/// The lines with their values as LaTeX prints them.
fn all_escaped(alloc: Global, lines: &[RisLine]) -> Result<Vec<RisLine>, AllocError>
    ensures { IfOk result (λ ls. ls.items ≡ map escaped_line lines.now) }
{
    let mut out = Vec::with_capacity(alloc, lines.len())?;
    'lines: for line in lines {
        out.push(escaped_line(alloc, line)?)?;
    }
    Ok(out)
}

/// The lines as they are read, with their values as LaTeX prints them.
pub(crate) fn escaped_lines(alloc: Global, lines: &[RisLine]) -> Result<Vec<RisLine>, AllocError>
    ensures { IfOk result (λ ls. ls.items ≡ map escaped_line (read_lines lines.now)) }
{
    // Most values are their own field text.
    if are_neat_lines(lines) {
        return all_escaped(alloc, lines);
    }
    let read = read_lines(alloc, lines)?;
    all_escaped(alloc, read.as_slice())
}

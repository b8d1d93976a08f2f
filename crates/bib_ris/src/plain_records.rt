//! RIS records with plain texts.

ghost use Rattle.std.specs.Prelude.{◌≡◌, true, map, IfOk};
ghost use Rattle.std.specs.Str.{bytes_eq};
ghost use Rattle.ris_text.specs.Writing.{is_well_formed};
ghost use Rattle.ris_format.specs.Escapes.{is_copied};
ghost use Rattle.bib_ris.specs.Plain.{plain_value, plain_line, plain_record, in_plain};

use bib_text::{Seq, Text, copied};
use plain_text::plain;
use ris_text::{RisLine, RisRecord, is_well_formed};
use std::alloc::{AllocError, Global};

/// Whether the tag is this one.
fn is(name: &[u8], tag: &[u8]) -> bool
    ensures { result ≡ bytes_eq name.now tag.now }
{
    name == tag
}

/// Whether the values of this tag are copied: a URL, a DOI and an ID are no texts to print.
fn is_copied(tag: &[u8]) -> bool
    ensures { result ≡ is_copied tag.now }
{
    is(b"UR", tag) || is(b"DO", tag) || is(b"ID", tag)
}

/// The value of a line as plain text, or as it is if values of its tag are copied.
fn plain_value(alloc: Global, line: &RisLine) -> Result<Text, AllocError>
    ensures { IfOk result (λ value. value ≡ plain_value line.now) }
{
    if is_copied(line.tag.as_slice()) {
        return copied(alloc, line.value.as_slice());
    }
    plain(alloc, line.value.as_slice())
}

/// The line with its value as plain text.
fn plain_line(alloc: Global, line: &RisLine) -> Result<RisLine, AllocError>
    ensures { IfOk result (λ l. l ≡ plain_line line.now) }
{
    let tag = line.tag;
    let value = plain_value(alloc, line)?;
    Ok(RisLine { tag, value })
}

/// The lines with their values as plain texts.
fn plain_lines(alloc: Global, lines: &[RisLine]) -> Result<Vec<RisLine>, AllocError>
    ensures { IfOk result (λ ls. ls.items ≡ map plain_line lines.now) }
{
    let mut out = Vec::with_capacity(alloc, lines.len())?;
    'lines: for line in lines {
        out.push(plain_line(alloc, line)?)?;
    }
    Ok(out)
}

/// The record with its values as plain texts.
fn plain_record(alloc: Global, ris: &RisRecord) -> Result<RisRecord, AllocError>
    ensures { IfOk result (λ r. r ≡ plain_record ris.now) }
{
    Ok(RisRecord {
        kind_name: copied(alloc, ris.kind_name.as_slice())?,
        lines: Seq::from_vec(plain_lines(alloc, ris.lines.as_slice())?),
    })
}

/// The record with its values as plain texts if it can be written then, or as it is.
pub fn in_plain(alloc: Global, ris: RisRecord) -> Result<RisRecord, AllocError>
    requires { is_well_formed ris ≡ true }
    ensures plain { IfOk result (λ r. r ≡ in_plain ris) }
    ensures fits { IfOk result (λ r. is_well_formed r ≡ true) }
{
    let plain = plain_record(alloc, &ris)?;
    if is_well_formed(&plain) {
        return Ok(plain);
    }
    Ok(ris)
}

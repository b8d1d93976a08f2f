//! The field texts of values.

ghost use Rattle.std.specs.Prelude.{◌≡◌, IfOk, IfSome};
ghost use Rattle.bib_spec.specs.Texts.{raw_text, field_text};
ghost use Rattle.bib_value.specs.Raw.{OfValue};

use bib_scan::{only_part, read_value};
use bib_text::{Seq, Text, copied};
use bib_value::{MacroTable, ValueFault, field_text, part_text, raw_text};
use std::alloc::{AllocError, Global};

/// The field text of a raw text.
fn spaced(alloc: Global, raw: &[u8]) -> Result<Text, AllocError>
    ensures { IfOk result (λ text. text ≡ field_text raw.now) }
{
    match field_text(alloc, raw) {
        Ok(text) => Ok(text),
        Err(_) => Err(AllocError),
    }
}

/// The field text of a value, unless its raw text is too long. Most values have one part, and are not taken apart.
pub(crate) fn text_of<M: MacroTable>(
    alloc: Global,
    macros: &M,
    value: &[u8],
) -> Result<Option<Text>, AllocError>
    ensures { IfOk result (λ o. IfSome o (λ text. OfValue value.now (λ v. text ≡ field_text (raw_text (M.macros macros.now) v)))) }
{
    if let Some(part) = only_part(value) {
        let text = spaced(alloc, part_text(part, macros, None))?;
        return Ok(Some(text));
    }
    text_of_parts(alloc, macros, value)
}

/// The same, of a value that is taken apart.
fn text_of_parts<M: MacroTable>(
    alloc: Global,
    macros: &M,
    value: &[u8],
) -> Result<Option<Text>, AllocError>
    ensures { IfOk result (λ o. IfSome o (λ text. OfValue value.now (λ v. text ≡ field_text (raw_text (M.macros macros.now) v)))) }
{
    let parts = match read_value(alloc, value) {
        Ok(parts) => parts,
        Err(fault) => return if fault.is_memory() {
            Err(AllocError)
        } else {
            Ok(None)
        },
    };
    match raw_text(alloc, &parts, value, macros, None) {
        Ok(raw) => Ok(Some(spaced(alloc, raw.as_slice())?)),
        Err(ValueFault::TextTooLong) => Ok(None),
        Err(ValueFault::Memory) => Err(AllocError),
    }
}

/// The field text of a value in an open file. No raw text of such a file is too long, so that only want of memory refuses it.
pub(crate) fn value_text<M: MacroTable>(
    alloc: Global,
    macros: &M,
    value: &[u8],
) -> Result<Text, AllocError>
    ensures { IfOk result (λ text. OfValue value.now (λ v. text ≡ field_text (raw_text (M.macros macros.now) v))) }
{
    match text_of(alloc, macros, value)? {
        Some(text) => Ok(text),
        None => Err(AllocError),
    }
}

/// Whether a line of a script can have the value: it has no tab and no line feed.
fn fits_line(value: &[u8]) -> bool {
    value.iter().all(|b| *b != b'\t' && *b != b'\n')
}

/// The text in braces.
fn braced(alloc: Global, text: &[u8]) -> Result<Text, AllocError> {
    let mut value = Vec::with_capacity(alloc, text.len().saturating_add(2))?;
    value.push(b'{')?;
    value.extend_from_slice(text)?;
    value.push(b'}')?;
    Ok(Seq::from_vec(value))
}

/// A value with this field text under these macros: the given one, if a line can have it and it has this text, and else the text in
/// braces.
pub(crate) fn written<M: MacroTable>(
    alloc: Global,
    macros: &M,
    value: &[u8],
    text: &[u8],
) -> Result<Text, AllocError> {
    if fits_line(value) {
        if let Some(said) = text_of(alloc, macros, value)? {
            if said.as_slice() == text {
                return copied(alloc, value);
            }
        }
    }
    braced(alloc, text)
}

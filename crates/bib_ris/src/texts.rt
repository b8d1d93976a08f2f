//! What values say.

ghost use Rattle.std.specs.Prelude.{◌≡◌, IfOk, IfSome};
ghost use Rattle.bib_spec.specs.Texts.{raw_text, field_text};
ghost use Rattle.bib_scan.specs.ValueParts.{IsPartsOf};
ghost use Rattle.bib_value.specs.Raw.{OfValue};

use bib_scan::{Parts, only_part, read_value};
use bib_text::Text;
use bib_value::{MacroTable, field_text, is_neat, part_text, raw_text};
use std::alloc::{AllocError, Global};

/// The text of a value of one part, lent, if it is its own field text. It takes no memory.
pub(crate) fn lent_text<'a, M: MacroTable>(value: &'a [u8], macros: &'a M) -> Option<&'a [u8]>
    ensures { IfSome result (λ text. OfValue value.now (λ v. text.now ≡ field_text (raw_text (M.macros macros.entry.now) v))) }
{
    let part = only_part(value)?;
    let text = part_text(part, macros, None);
    if is_neat(text) { Some(text) } else { None }
}

/// The parts of a value.
fn parts_in(alloc: Global, value: &[u8]) -> Result<Parts, AllocError>
    ensures { IfOk result (λ parts. IsPartsOf value.now parts) }
{
    match read_value(alloc, value) {
        Ok(parts) => Ok(parts),
        // The value of an item can be read, so only want of memory refuses it.
        Err(_) => Err(AllocError),
    }
}

/// The raw text of a value.
fn raw_text_of<M: MacroTable>(alloc: Global, value: &[u8], macros: &M) -> Result<Text, AllocError>
    ensures { IfOk result (λ text. OfValue value.now (λ v. text ≡ raw_text (M.macros macros.now) v)) }
{
    let parts = parts_in(alloc, value)?;
    match raw_text(alloc, &parts, value, macros, None) {
        Ok(text) => Ok(text),
        // No text is too long in a file that is open.
        Err(_) => Err(AllocError),
    }
}

/// The field text of a value. It takes time and memory in the lengths of the value and of its text.
pub(crate) fn field_text_of<M: MacroTable>(
    alloc: Global,
    value: &[u8],
    macros: &M,
) -> Result<Text, AllocError>
    ensures { IfOk result (λ text. OfValue value.now (λ v. text ≡ field_text (raw_text (M.macros macros.now) v))) }
{
    let raw = raw_text_of(alloc, value, macros)?;
    match field_text(alloc, raw.as_slice()) {
        Ok(text) => Ok(text),
        Err(_) => Err(AllocError),
    }
}

//! Values that are given as bytes.

ghost use Rattle.std.specs.Prelude.{◌≡◌, ◌↔◌, ◌++◌, ◌∷◌, [], IfOk, IfSome, IsTrue};
ghost use Rattle.std.specs.Option.{IfNone};
ghost use Rattle.bib_spec.specs.Bytes.{open_brace, close_brace, name_limit};
ghost use Rattle.bib_spec.specs.Reading.{IsValueWithin};
ghost use Rattle.bib_scan.specs.ValueParts.{IsPartsOf};

use bib_scan::{Parts, is_balanced, read_value};
use std::alloc::{AllocError, Global};

/// The parts of a text that is one value and nothing else, if it is.
pub(crate) fn value_parts(alloc: Global, text: &[u8]) -> Result<Option<Parts>, AllocError>
    ensures parts { IfOk result (λ found. IfSome found (IsPartsOf text.now)) }
    ensures none { IfOk result (λ found. IfNone found (IsValueWithin name_limit text.now → ⊥)) }
{
    match read_value(alloc, text) {
        Ok(parts) => Ok(Some(parts)),
        Err(fault) if fault.is_memory() => Err(AllocError),
        Err(_) => Ok(None),
    }
}

/// The text between the braces at the two ends, if they are there.
fn inside_braces(text: &[u8]) -> Option<&[u8]>
    ensures { IfSome result (λ inside. text.now ≡ open_brace ∷ (inside.now ++ close_brace ∷ [])) }
{
    match text {
        [b'{', inside @ .., b'}'] => Some(inside),
        _ => None,
    }
}

/// Whether the text is a value of one part, in braces.
fn is_braced(text: &[u8]) -> bool
    ensures { IsTrue result → IsValueWithin name_limit text.now }
{
    match inside_braces(text) {
        Some(inside) => is_balanced(inside),
        None => false,
    }
}

/// Whether the text is a value. A text in braces is not taken apart: no memory is asked for.
pub(crate) fn is_value(alloc: Global, text: &[u8]) -> Result<bool, AllocError>
    ensures { IfOk result (λ is. IsTrue is ↔ IsValueWithin name_limit text.now) }
{
    if is_braced(text) {
        return Ok(true);
    }
    match value_parts(alloc, text)? {
        Some(_) => Ok(true),
        None => Ok(false),
    }
}

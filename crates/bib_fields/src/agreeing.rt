//! Fields that agree.

ghost use Rattle.std.specs.Prelude.{◌≡◌, Some, IfOk};
ghost use Rattle.std.specs.Option.{option_copied};
ghost use Rattle.bib_definitions.specs.MacrosSeen.{macros_seen};
ghost use Rattle.bib_fields.specs.Agreeing.{agree, same_bytes};

use bib_sayings::field_text_of;
use bib_store::MacrosAt;
use std::alloc::{AllocError, Global};

/// Whether two values are the same, byte for byte, or both are absent.
pub(crate) fn same_value(a: Option<&[u8]>, b: Option<&[u8]>) -> bool
    ensures { result ≡ same_bytes (option_copied a.entry) (option_copied b.entry) }
{
    match (a, b) {
        (Some(a), Some(b)) => a == b,
        (None, None) => true,
        _ => false,
    }
}

/// Whether two values have the same bytes, or the same field text.
fn values_agree(
    alloc: Global,
    a: &[u8],
    macros_a: &MacrosAt<'_>,
    b: &[u8],
    macros_b: &MacrosAt<'_>,
) -> Result<bool, AllocError>
    ensures { IfOk result (λ same. agree (macros_seen macros_a.now) (Some a.now) (macros_seen macros_b.now) (Some b.now) same) }
{
    if a == b {
        return Ok(true);
    }
    let a = field_text_of(alloc, a, macros_a)?;
    let b = field_text_of(alloc, b, macros_b)?;
    Ok(a.as_slice() == b.as_slice())
}

/// Whether two values of a field have the same bytes, or the same field text, each with its macros; or both are absent. It takes
/// time and memory in the lengths of the values and of their texts. It is refused only out of memory.
pub fn fields_agree(
    alloc: Global,
    a: Option<&[u8]>,
    macros_a: &MacrosAt<'_>,
    b: Option<&[u8]>,
    macros_b: &MacrosAt<'_>,
) -> Result<bool, AllocError>
    ensures { IfOk result (λ same. agree (macros_seen macros_a.now) (option_copied a.entry) (macros_seen macros_b.now) (option_copied b.entry) same) }
{
    match (a, b) {
        (Some(a), Some(b)) => {
            let same = values_agree(alloc, a, macros_a, b, macros_b)?;
            Ok(same)
        }
        (None, None) => Ok(true),
        _ => Ok(false),
    }
}

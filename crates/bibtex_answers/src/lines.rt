//! Lines that are put together of texts.

ghost use Rattle.std.specs.Prelude.{◌≡◌, ◌++◌, OnOk};
ghost use Rattle.std.specs.List.{flat_map};

use std::alloc::AllocError;

/// Adds these texts, one after another.
pub(crate) fn add_all(out: &mut Vec<u8>, texts: &[&[u8]]) -> Result<(), AllocError>
    ensures { OnOk result (out.new.items ≡ out.old.items ++ flat_map (λ text. text.now) texts.now) }
{
    'texts: for text in texts {
        out.extend_from_slice(text)?;
    }
    Ok(())
}

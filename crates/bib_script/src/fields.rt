//! Names and values in turn.

ghost use Rattle.std.specs.Prelude.{◌≡◌, ◌++◌, ◌∷◌, [], Some, None, map, IfOk, OnOk};
ghost use Rattle.bib_script.specs.Script.{fields_of};

use bib_text::{Seq, Text, copied};
use std::alloc::{AllocError, Global};

/// Adds a field with this name and this value.
fn push_field(
    alloc: Global,
    fields: &mut Vec<(Text, Text)>,
    name: &[u8],
    value: &[u8],
) -> Result<(), AllocError>
    ensures { OnOk result (fields.new.items ≡ fields.old.items ++ (name.now, value.now) ∷ []) }
{
    fields.push((copied(alloc, name)?, copied(alloc, value)?))?;
    Ok(())
}

/// The fields that words say, names and values in turn, if their number is even.
pub(crate) fn fields_of(
    alloc: Global,
    words: &[&[u8]],
) -> Result<Option<Seq<(Text, Text)>>, AllocError>
    ensures { IfOk result (λ fields. fields ≡ fields_of (map (λ w. w.now) words.now)) }
{
    let mut fields = Vec::new(alloc);
    let mut rest = words;
    'pair: loop {
        match rest {
            [name, value, others @ ..] => {
                push_field(alloc, &mut fields, name, value)?;
                rest = others;
            }
            [_name] => return Ok(None),
            [] => return Ok(Some(Seq::from_vec(fields))),
        }
    }
}

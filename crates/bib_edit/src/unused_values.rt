//! Values of macros that only their own definitions use.

ghost use Rattle.std.specs.Prelude.{◌≡◌, drop, IsTrue, IfOk, IfErr};
ghost use Rattle.part_spec.specs.Parts.{uses, have_part};
ghost use Rattle.bib_scan.specs.ValueParts.{IsPartsOf};
ghost use Rattle.bib_value.specs.Raw.{OfValue};
ghost use Rattle.bib_store.specs.Readings.{OfReading, IsItemGap};
ghost use Rattle.bib_edit.specs.MacroValues.{IsShortAt, StaysShort};
ghost use Rattle.bib_edit.specs.declared.fault.EditFault.TheVariants.{Memory};

use crate::fault::EditFault;
use crate::values::value_parts;
use bib_scan::Parts;
use bib_store::{Database, ItemList};
use bib_tokens::{Sought, push_from};
use bib_value::{RAW_LIMIT, raw_len};
use std::alloc::Global;

/// Whether the macro's value in item `n` makes no text too long, because its own text is short and no item from number `after` on
/// uses the macro. It looks at items as `push_from` does.
pub(crate) fn stays_short<L: ItemList>(
    alloc: Global,
    db: &Database<L>,
    n: usize,
    after: usize,
    name: &[u8],
    value: &[u8],
) -> Result<bool, EditFault>
    requires place { IsItemGap db.now n }
    requires after { IsItemGap db.now after }
    ensures short { IfOk result (λ short. IsTrue short → OfReading db.now (λ r. OfValue value.now (λ v. StaysShort name.now v n after r))) }
    ensures only { IfErr result (λ fault. fault ≡ Memory) }
{
    if is_used_from(alloc, db, after, name)? {
        return Ok(false);
    }
    match value_parts(alloc, value)? {
        Some(parts) => Ok(is_short_at(db, n, &parts, name, value)),
        None => Ok(false),
    }
}

/// Whether an item from number `n` on uses the macro.
fn is_used_from<L: ItemList>(
    alloc: Global,
    db: &Database<L>,
    n: usize,
    name: &[u8],
) -> Result<bool, EditFault>
    requires { IsItemGap db.now n }
    ensures used { IfOk result (λ used. OfReading db.now (λ r. used ≡ have_part (uses name.now) (drop n r.items))) }
    ensures only { IfErr result (λ fault. fault ≡ Memory) }
{
    let mut none = Vec::new(alloc);
    let (sought, watched) = (Sought::Nothing, Sought::Uses(name));
    Ok(push_from(alloc, &mut none, db, n, sought, watched)?)
}

/// Whether what the macro's value says in item `n` is not too long. In its own value a macro stands for nothing.
fn is_short_at<L: ItemList>(
    db: &Database<L>,
    n: usize,
    parts: &Parts,
    name: &[u8],
    value: &[u8],
) -> bool
    requires place { IsItemGap db.now n }
    requires value { IsPartsOf value.now parts.now }
    ensures { IsTrue result → OfReading db.now (λ r. OfValue value.now (λ v. IsShortAt name.now v n r)) }
{
    raw_len(parts, value, &db.macros_at(n), Some(name)) <= RAW_LIMIT
}

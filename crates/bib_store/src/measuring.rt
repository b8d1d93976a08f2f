//! The raw texts of values, as bytes.

ghost use Rattle.std.specs.Prelude.{◌≡◌, ◌<◌, ◌≤◌, length, IfSome, IfOk, IfErr, OnOk};
ghost use Rattle.std.specs.Option.{option_copied};
ghost use Rattle.bib_spec.specs.Texts.{raw_text, raw_limit, field_text};
ghost use Rattle.bib_scan.specs.ValueParts.{IsPartsOf};
ghost use Rattle.bib_value.specs.Macros.{without};
ghost use Rattle.bib_store.specs.Gathering.{IsShortValue};
ghost use Rattle.bib_value.specs.Raw.{OfValue};
ghost use Rattle.bib_value.specs.declared.fault.ValueFault.TheVariants.{TextTooLong, Memory};
ghost use Rattle.bib_items.specs.declared.fault.StoreFault.TheVariants.{Memory as StoreMemory};

use bib_items::StoreFault;
use bib_scan::{Parts, only_part, read_value};
use bib_text::Text;
use bib_value::{MacroTable, RAW_LIMIT, ValueFault, field_text, part_text, raw_len, raw_text};
use std::alloc::Global;

/// The parts of the value in these bytes. For the bytes of an item's value, it is refused only out of memory.
fn parts_of(alloc: Global, bytes: &[u8]) -> Result<Parts, ValueFault>
    ensures parts { IfOk result (λ parts. IsPartsOf bytes.now parts) }
    ensures only { IfErr result (λ fault. fault ≡ Memory) }
{
    match read_value(alloc, bytes) {
        Ok(parts) => Ok(parts),
        Err(_) => Err(ValueFault::Memory),
    }
}

/// The raw text of the value in these bytes.
pub(crate) fn value_text<M: MacroTable>(
    alloc: Global,
    bytes: &[u8],
    macros: &M,
    own: Option<&[u8]>,
) -> Result<Text, ValueFault>
    ensures text { IfOk result (λ text. OfValue bytes.now (λ v. text ≡ raw_text (without (option_copied own.entry) (M.macros macros.now)) v)) }
    ensures short { IfOk result (λ text. length text ≤ raw_limit) }
    ensures too_long { IfErr result (λ fault. fault ≡ TextTooLong → OfValue bytes.now (λ v. raw_limit < length (raw_text (without (option_copied own.entry) (M.macros macros.now)) v))) }
{
    let parts = parts_of(alloc, bytes)?;
    raw_text(alloc, &parts, bytes, macros, own)
}

/// The raw text of the value in these bytes, lent, if they have no `#`: the value then has one part. It asks for no memory.
fn only_text<'a, M: MacroTable>(bytes: &'a [u8], macros: &'a M) -> Option<&'a [u8]>
    ensures { IfSome result (λ text. OfValue bytes.now (λ v. text.now ≡ raw_text (M.macros macros.entry.now) v)) }
{
    let part = only_part(bytes)?;
    Some(part_text(part, macros, None))
}

/// The raw text that `only_text` lends, if it is not too long.
fn short_only_text<'a, M: MacroTable>(bytes: &'a [u8], macros: &'a M) -> Option<&'a [u8]>
    ensures text { IfSome result (λ text. OfValue bytes.now (λ v. text.now ≡ raw_text (M.macros macros.entry.now) v)) }
    ensures short { IfSome result (λ text. length text.now ≤ raw_limit) }
{
    let text = only_text(bytes, macros)?;
    if text.len() > RAW_LIMIT as usize {
        return None;
    }
    Some(text)
}

/// Refuses the value in these bytes if its raw text is too long. Most values have one part; these are not taken apart, and
/// take no memory.
pub(crate) fn measure<M: MacroTable>(
    alloc: Global,
    bytes: &[u8],
    macros: &M,
) -> Result<(), ValueFault>
    ensures short { OnOk result (OfValue bytes.now (λ v. length (raw_text (M.macros macros.now) v) ≤ raw_limit)) }
    ensures too_long { IfErr result (λ fault. fault ≡ TextTooLong → OfValue bytes.now (λ v. raw_limit < length (raw_text (M.macros macros.now) v))) }
{
    if short_only_text(bytes, macros).is_some() {
        return Ok(());
    }
    let parts = parts_of(alloc, bytes)?;
    if raw_len(&parts, bytes, macros, None) > RAW_LIMIT {
        return Err(ValueFault::TextTooLong);
    }
    Ok(())
}

/// The field text of the value in these bytes.
pub(crate) fn value_field_text<M: MacroTable>(
    alloc: Global,
    bytes: &[u8],
    macros: &M,
) -> Result<Text, ValueFault>
    ensures text { IfOk result (λ text. OfValue bytes.now (λ v. text ≡ field_text (raw_text (M.macros macros.now) v))) }
    ensures short { OnOk result (OfValue bytes.now (λ v. length (raw_text (M.macros macros.now) v) ≤ raw_limit)) }
    ensures too_long { IfErr result (λ fault. fault ≡ TextTooLong → OfValue bytes.now (λ v. raw_limit < length (raw_text (M.macros macros.now) v))) }
{
    if let Some(text) = short_only_text(bytes, macros) {
        return field_text(alloc, text);
    }
    let raw = value_text(alloc, bytes, macros, None)?;
    field_text(alloc, raw.as_slice())
}

/// The raw text of the value in these bytes, which is not too long.
pub(crate) fn short_text<M: MacroTable>(
    alloc: Global,
    bytes: &[u8],
    macros: &M,
) -> Result<Text, StoreFault>
    requires { IsShortValue (M.macros macros.now) bytes.now }
    ensures text { IfOk result (λ text. OfValue bytes.now (λ v. text ≡ raw_text (M.macros macros.now) v)) }
    ensures short { IfOk result (λ text. length text ≤ raw_limit) }
    ensures only { IfErr result (λ fault. fault ≡ StoreMemory) }
{
    match value_text(alloc, bytes, macros, None) {
        Ok(text) => Ok(text),
        Err(ValueFault::Memory) => Err(StoreFault::Memory),
        Err(ValueFault::TextTooLong) => unreachable!(),
    }
}

/// The field text of the value in these bytes, whose raw text is not too long.
pub(crate) fn short_field_text<M: MacroTable>(
    alloc: Global,
    bytes: &[u8],
    macros: &M,
) -> Result<Text, StoreFault>
    requires { IsShortValue (M.macros macros.now) bytes.now }
    ensures text { IfOk result (λ text. OfValue bytes.now (λ v. text ≡ field_text (raw_text (M.macros macros.now) v))) }
    ensures only { IfErr result (λ fault. fault ≡ StoreMemory) }
{
    match value_field_text(alloc, bytes, macros) {
        Ok(text) => Ok(text),
        Err(ValueFault::Memory) => Err(StoreFault::Memory),
        Err(ValueFault::TextTooLong) => unreachable!(),
    }
}

//! The fields of an entry to be added, and how they are judged.

ghost use Rattle.std.specs.Prelude.{◌≡◌, ◌↔◌, IfOk, IfErr, IsTrue};
ghost use Rattle.std.specs.List.{list_all, list_any};
ghost use Rattle.bib_spec.specs.Bytes.{name_limit};
ghost use Rattle.bib_spec.specs.Text.{is_name, same};
ghost use Rattle.bib_spec.specs.Reading.{IsValueWithin};
ghost use Rattle.edit_spec.specs.Edits.{has_same};
ghost use Rattle.bib_store.specs.Readings.{OfReading, IsItemGap};
ghost use Rattle.bib_edit.specs.NewEntries.{names_of, HaveValues, IsLong, IsAnyLong};
ghost use Rattle.bib_edit.specs.declared.fault.EditFault.TheVariants.{Memory};

use crate::fault::EditFault;
use crate::limits::is_text_too_long;
use crate::values::{is_value, value_parts};
use bib_scan::{is_name, only_part};
use bib_store::{Database, ItemList};
use bib_text::{Text, same_folded};
use bib_value::{RAW_LIMIT, part_text};
use folded_map::FoldedMap;
use std::alloc::{AllocError, Global};

/// Whether each field's name is valid.
pub(crate) fn are_named(fields: &[(Text, Text)]) -> bool
    ensures { result ≡ list_all is_name (names_of fields.now) }
{
    for field in fields {
        if !is_name(field.0.as_slice()) {
            return false;
        }
    }
    true
}

/// Whether each field has a value.
pub(crate) fn are_values(alloc: Global, fields: &[(Text, Text)]) -> Result<bool, AllocError>
    ensures { IfOk result (λ are. IsTrue are ↔ HaveValues fields.now) }
{
    for field in fields {
        if !is_value(alloc, field.1.as_slice())? {
            return Ok(false);
        }
    }
    Ok(true)
}

/// Up to this many names are compared each with each: a map of them would cost more.
const FEW: usize = 16;

/// Whether one of the fields has this name, folded.
fn has_name(fields: &[(Text, Text)], name: &[u8]) -> bool
    ensures { result ≡ list_any (λ field. same name.now field.0) fields.now }
{
    fields
        .iter()
        .any(|field| same_folded(name, field.0.as_slice()))
}

/// Whether two names are the same, folded. Each is compared with those after it.
fn has_same_among(fields: &[(Text, Text)]) -> bool
    ensures { result ≡ has_same (names_of fields.now) }
{
    let mut rest = fields;
    'fields: while let Some((first, others)) = rest.split_first() {
        if has_name(others, first.0.as_slice()) {
            return true;
        }
        rest = others;
    }
    false
}

/// Whether two names are the same, folded. It takes memory for the names if they are many.
pub(crate) fn has_same_name(alloc: Global, fields: &[(Text, Text)]) -> Result<bool, AllocError>
    requires { IsTrue (list_all is_name (names_of fields.now)) }
    ensures { IfOk result (λ same. same ≡ has_same (names_of fields.now)) }
{
    if fields.len() <= FEW {
        return Ok(has_same_among(fields));
    }
    let mut seen = FoldedMap::new(alloc);
    for field in fields {
        let name = field.0.as_slice();
        if seen.get(name).is_some() {
            return Ok(true);
        }
        seen.insert(name, true)?;
    }
    Ok(false)
}

/// Whether the raw text of a value would be too long before item `n`. Most values have one part, and are not taken
/// apart: no memory is asked for.
pub(crate) fn is_long<L: ItemList>(
    alloc: Global,
    db: &Database<L>,
    n: usize,
    value: &[u8],
) -> Result<bool, EditFault>
    requires place { IsItemGap db.now n }
    requires value { IsValueWithin name_limit value.now }
    ensures long { IfOk result (λ long. OfReading db.now (λ r. IsLong long r n value.now)) }
    ensures only { IfErr result (λ fault. fault ≡ Memory) }
{
    if let Some(part) = only_part(value) {
        return Ok(part_text(part, &db.macros_at(n), None).len() > RAW_LIMIT as usize);
    }
    match value_parts(alloc, value)? {
        Some(parts) => Ok(is_text_too_long(db, n, &parts, value)),
        None => Ok(false),
    }
}

/// Whether the raw text of a field would be too long before item `n`. Each field has a value.
pub(crate) fn is_any_long<L: ItemList>(
    alloc: Global,
    db: &Database<L>,
    n: usize,
    fields: &[(Text, Text)],
) -> Result<bool, EditFault>
    requires place { IsItemGap db.now n }
    requires values { HaveValues fields.now }
    ensures long { IfOk result (λ long. OfReading db.now (λ r. IsAnyLong long r n fields.now)) }
    ensures only { IfErr result (λ fault. fault ≡ Memory) }
{
    for field in fields {
        if is_long(alloc, db, n, field.1.as_slice())? {
            return Ok(true);
        }
    }
    Ok(false)
}

//! The fields of a record that have one of some names, gathered from one entry after another.

ghost use Rattle.std.specs.Prelude.{◌≡◌, List, map, IfErr, OnOk};
ghost use Rattle.std.specs.List.{AllZip, AllByRecursion, list_any};
ghost use Rattle.bib_spec.specs.Text.{same};
ghost use Rattle.bib_spec.specs.Tree.{Row};
ghost use Rattle.bib_spec.specs.Texts.{raw_text};
ghost use Rattle.bib_spec.specs.Records.{RecordField, field_of};
ghost use Rattle.bib_value.specs.Raw.{OfValue};
ghost use Rattle.bib_definitions.specs.MacrosSeen.{macros_seen};
ghost use Rattle.bib_store.specs.Gathering.{is_taken, with_field, with_fields, IsShortValue, IsReadable, IsFieldOf};
ghost use Rattle.bib_store.specs.Choosing.{is_one_of, chosen};
ghost use Rattle.bib_items.specs.declared.fault.StoreFault.TheVariants.{Memory};

use crate::gathering::lower;
use crate::measuring::short_field_text;
use bib_definitions::MacrosAt;
use bib_items::StoreFault;
use bib_scan::Fields;
use bib_text::{Text, same_folded};
use std::alloc::Global;

/// Whether the name is one of these.
fn is_one_of(names: &[&[u8]], name: &[u8]) -> bool
    ensures { result ≡ is_one_of (map (λ n. n.now) names.now) name.now }
{
    names.iter().any(|other| same_folded(name, other))
}

/// Whether one of the fields has this name.
fn has_name(fields: &[(Text, Text)], name: &[u8]) -> bool
    ensures { result ≡ list_any (λ other. same other.0 name.now) fields.now }
{
    fields
        .iter()
        .any(|field| same_folded(field.0.as_slice(), name))
}

/// Whether a field of this name is not added: the name is `crossref`, or one of the fields has it.
fn is_taken(fields: &[(Text, Text)], name: &[u8]) -> bool
    ensures { result ≡ is_taken fields.now name.now }
{
    same_folded(name, b"crossref") || has_name(fields, name)
}

/// Adds a field, if its name is one of these and is not taken.
fn choose(
    alloc: Global,
    names: &[&[u8]],
    fields: &mut Vec<(Text, Text)>,
    name: &[u8],
    value: &[u8],
    macros: &MacrosAt<'_>,
) -> Result<(), StoreFault>
    requires { IsShortValue (macros_seen macros.now) value.now }
    ensures chosen { OnOk result (OfValue value.now (λ v. (all : List RecordField) → fields.old.items ≡ chosen (map (λ n. n.now) names.now) all
        → fields.new.items ≡ chosen (map (λ n. n.now) names.now) (with_field all (record { name = name.now; raw = raw_text (macros_seen macros.now) v })))) }
    ensures only { IfErr result (λ fault. fault ≡ Memory) }
{
    if !is_one_of(names, name) {
        return Ok(());
    }
    if is_taken(fields.as_slice(), name) {
        return Ok(());
    }
    let text = short_field_text(alloc, value, macros)?;
    let field = (lower(alloc, name)?, text);
    fields.push(field)?;
    Ok(())
}

/// Adds the fields of an entry that have one of these names, in their order, each unless its name is taken by then.
pub(crate) fn choose_all(
    alloc: Global,
    names: &[&[u8]],
    fields: &mut Vec<(Text, Text)>,
    rows: Fields<'_>,
    macros: &MacrosAt<'_>,
) -> Result<(), StoreFault>
    requires { AllByRecursion (IsReadable (macros_seen macros.now)) rows }
    ensures chosen { OnOk result ((list : List Row) → AllZip IsFieldOf rows.entry list → (all : List RecordField) → fields.old.items ≡ chosen (map (λ n. n.now) names.now) all
        → fields.new.items ≡ chosen (map (λ n. n.now) names.now) (with_fields all (map (field_of (macros_seen macros.now)) list))) }
    ensures only { IfErr result (λ fault. fault ≡ Memory) }
{
    'choose: for row in rows {
        choose(alloc, names, fields, row.name, row.value, macros)?;
    }
    Ok(())
}

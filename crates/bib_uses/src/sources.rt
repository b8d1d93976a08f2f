//! The entry of a side from which uses may come.

ghost use Rattle.std.specs.Prelude.{◌≡◌, ◌++◌, ◌∷◌, [], false, List, find, bytes_eq, IfOk, OnOk};
ghost use Rattle.std.specs.Option.{option_map_or};
ghost use Rattle.bib_spec.specs.Text.{Text};
ghost use Rattle.bib_spec.specs.Tree.{Row, value_bytes};
ghost use Rattle.bib_spec.specs.Reading.{Reading};
ghost use Rattle.bib_scan.specs.View.{Field, field_seen};
ghost use Rattle.bib_store.specs.Readings.{OfReading};
ghost use Rattle.merge_spec.specs.ThreeWay.{is_row};
ghost use Rattle.bib_sayings.specs.FieldTables.{IsTableOf, IsTableOfRows};
ghost use Rattle.bib_uses.specs.Lost.{item_named, defined_at, defined_on};
ghost use Rattle.bib_uses.specs.Seen.{use_seen, AreDefined, IsSource, IsSourceOf};

use crate::defined::{Defined, defined_before};
use crate::uses::UseView;
use bib_sayings::FieldTable;
use bib_scan::{FieldView, Fields};
use bib_store::{Database, ItemList};
use bib_text::NAME_LIMIT;
use folded_map::FoldedMap;
use std::alloc::{AllocError, Global};

/// The entry of a side from which uses may come: its number among the items, the first value of each of its fields, and which items of
/// the side define each macro.
#[derive(Drop)]
pub(crate) struct Source<'a> {
    item: usize,
    values: FieldTable<'a>,
    defined: &'a Defined,
}

/// Adds the value of a field, unless an earlier field has its name.
fn add_value<'a>(table: &mut FieldTable<'a>, field: FieldView<'a>) -> Result<(), AllocError>
    ensures { OnOk result ((fields : List Field) → IsTableOf table.old fields → IsTableOf table.new (fields ++ field_seen field.entry ∷ [])) }
{
    // No item has a longer name.
    if field.name.len() > NAME_LIMIT {
        return Err(AllocError);
    }
    if table.get(field.name).is_none() {
        table.insert(field.name, field.value)?;
    }
    Ok(())
}

/// The first value of each field.
fn values_of<'a>(alloc: Global, fields: Fields<'a>) -> Result<FieldTable<'a>, AllocError>
    ensures { IfOk result (λ table. IsTableOf table fields.entry) }
{
    let mut table = FoldedMap::new(alloc);
    let mut rest = fields;
    'fields: while let Some(field) = rest.next() {
        add_value(&mut table, field)?;
    }
    Ok(table)
}

/// The number, among the items, of the entry that the key finds.
pub(crate) fn item_named<L: ItemList>(db: &Database<L>, key: &[u8]) -> Option<usize>
    ensures { OfReading db.now (λ r. result ≡ item_named r key.now) }
{
    match db.find(key) {
        Ok(n) => Some(db.entry_item(n)),
        Err(_) => None,
    }
}

/// The entry that the key finds on a side, if it finds one. It takes time and memory in the length of the entry.
pub(crate) fn source_of<'a, L: ItemList>(
    alloc: Global,
    side: &'a Database<L>,
    defined: &'a Defined,
    key: &[u8],
) -> Result<Option<Source<'a>>, AllocError>
    requires { OfReading side.now (λ r. AreDefined r.items defined.now) }
    ensures { IfOk result (λ source. OfReading side.now (λ r. IsSourceOf r key.now source)) }
{
    let Some(item) = item_named(side, key) else {
        return Ok(None);
    };
    let values = values_of(alloc, side.item(item).fields())?;
    Ok(Some(Source {
        item,
        values,
        defined,
    }))
}

/// Whether the value of this field in a table is this one.
fn has_value(values: &FieldTable<'_>, field: &[u8], value: &[u8]) -> bool
    ensures { (rows : List Row) → IsTableOfRows values.now rows → result ≡ option_map_or (λ row. bytes_eq (value_bytes row.assignment.value) value.now) (find (is_row field.now) rows) false }
{
    match values.get(field) {
        Some(other) => *other == value,
        None => false,
    }
}

/// How many definitions of its macro a use has before it in an entry of a side, if it comes from there.
fn defined_at(source: &Source<'_>, u: UseView<'_>) -> Option<usize>
    ensures { (side : Reading) (key : Text) → IsSource side key source.now → result ≡ defined_at side (use_seen u.entry) source.now.item }
{
    if has_value(&source.values, u.field, u.value) {
        return Some(defined_before(source.defined, source.item, u.used));
    }
    None
}

/// The same of the entry that a key finds on the side, if it finds one.
pub(crate) fn defined_on(source: &Option<Source<'_>>, u: UseView<'_>) -> Option<usize>
    ensures { (side : Reading) (key : Text) → IsSourceOf side key source.now → result ≡ defined_on side key (use_seen u.entry) }
{
    match source {
        Some(source) => defined_at(source, u),
        None => None,
    }
}

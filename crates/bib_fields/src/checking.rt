//! Whether a merged entry is a merge of three entries.

ghost use Rattle.std.specs.Prelude.{◌≡◌, ◌||◌, ◌++◌, true, false, List, map, None, Some, slice_get, IfOk, IfSome};
ghost use Rattle.std.specs.List.{list_all, AllZip};
ghost use Rattle.bib_spec.specs.Bytes.{name_limit};
ghost use Rattle.bib_spec.specs.Text.{is_space as is_space_in, same};
ghost use Rattle.bib_spec.specs.Tree.{Entry, Row, IsTree};
ghost use Rattle.bib_spec.specs.Reading.{Item};
ghost use Rattle.bib_spec.specs.Texts.{Macros, months, macros_at};
ghost use Rattle.bib_scan.specs.View.{field_seen, view_of};
ghost use Rattle.bib_definitions.specs.MacrosSeen.{macros_seen};
ghost use Rattle.bib_store.specs.Readings.{OfReading};
ghost use Rattle.merge_spec.specs.ThreeWay.{entry_with, names_of as row_names, is_row_of_three, is_type_of_three as is_type_in, end_in_space as end_in_space_in};
ghost use Rattle.bib_sayings.specs.FieldTables.{IsTableOfRows, IsTableFound, names_of};
ghost use Rattle.bib_fields.specs.Versions.{IsVersion};
ghost use Rattle.bib_fields.specs.MixSeen.{of_side, row_seen, Mixes};
ghost use Rattle.bib_fields.specs.Fields.{AreFields, IsMixedField};

use crate::mix::{Mix, MixedRow, RowOf, Side};
use crate::of_three::is_of_three;
use crate::version::{Version, version_of};
use bib_sayings::FieldTable;
use bib_scan::{FieldView, ItemView};
use bib_store::{Database, ItemList, MacrosAt};
use bib_text::{NAME_LIMIT, is_space, same_folded};
use folded_map::FoldedMap;
use std::alloc::{AllocError, Global};

/// Whether the text is white space.
fn is_white(text: &[u8]) -> bool
    ensures { result ≡ list_all is_space_in text.now }
{
    text.iter().all(|byte| is_space(*byte))
}

/// Whether only white space follows this row.
fn ends_in_space(row: &MixedRow) -> bool
    ensures { result ≡ list_all is_space_in row.now.space }
{
    is_white(row.space.as_slice())
}

/// Whether only white space follows each of these rows.
fn end_in_space(rows: &[MixedRow]) -> bool
    ensures { result ≡ true → (o t : List Row) → end_in_space_in (map (row_seen o t) rows.now) ≡ true }
{
    'rows: for k in 0..rows.len() {
        if !ends_in_space(&rows[k]) {
            return false;
        }
    }
    true
}

/// Whether the type may be ours: they left it, or agree with us.
fn may_be_our_type(b: &[u8], o: &[u8], t: &[u8]) -> bool
    ensures { result ≡ (same b.now t.now || same o.now t.now) }
{
    same_folded(b, t) || same_folded(o, t)
}

/// Whether the type of this side is what three types make of it.
fn is_type_of_three(b: &[u8], o: &[u8], t: &[u8], side: Side) -> bool
    ensures { result ≡ true → is_type_in b.now o.now t.now (of_side side o.now t.now) ≡ true }
{
    match side {
        Side::Ours => may_be_our_type(b, o, t),
        Side::Theirs => same_folded(b, o),
    }
}

/// The field of the row with this number, if there are so many.
fn field_with<'a>(fields: &[FieldView<'a>], n: usize) -> Option<FieldView<'a>>
    ensures { result ≡ slice_get fields.now n }
{
    match fields.get(n) {
        Some(field) => Some(*field),
        None => None,
    }
}

/// The field of a row of one of the sides, which have these fields.
pub(crate) fn field_at<'a>(
    ours: &[FieldView<'a>],
    theirs: &[FieldView<'a>],
    row: RowOf,
) -> Option<FieldView<'a>>
    ensures { result ≡ slice_get (of_side row.side ours.now theirs.now) row.n }
{
    match row.side {
        Side::Ours => field_with(ours, row.n),
        Side::Theirs => field_with(theirs, row.n),
    }
}

/// The field of a merged row, if the sides have these fields: its value may be that of another row.
fn mixed_field<'a>(
    ours: &[FieldView<'a>],
    theirs: &[FieldView<'a>],
    row: &MixedRow,
) -> Option<FieldView<'a>>
    ensures { (o t : List Row) → AreFields ours.now o → AreFields theirs.now t → IfSome result (λ field. IsMixedField o t field row.now) }
{
    match (
        field_at(ours, theirs, row.start),
        field_at(ours, theirs, row.value),
    ) {
        (Some(start), Some(value)) => Some(FieldView {
            value: value.value,
            ..start
        }),
        _ => None,
    }
}

/// The fields of merged rows, if the sides have these fields; nothing if they lack one of the rows.
fn mixed_fields<'a>(
    alloc: Global,
    ours: &[FieldView<'a>],
    theirs: &[FieldView<'a>],
    rows: &[MixedRow],
) -> Result<Option<Vec<FieldView<'a>>>, AllocError>
    ensures { IfOk result (λ fields. (o t : List Row) → AreFields ours.now o → AreFields theirs.now t → IfSome fields (λ all. AllZip (IsMixedField o t) all.items rows.now)) }
{
    let mut fields = Vec::new(alloc);
    'rows: for k in 0..rows.len() {
        let Some(field) = mixed_field(ours, theirs, &rows[k]) else {
            return Ok(None);
        };
        fields.push(field)?;
    }
    Ok(Some(fields))
}

/// The values of these fields by their names, or nothing if a name is there twice or is too long.
fn table_of_all<'a>(
    alloc: Global,
    fields: &[FieldView<'a>],
) -> Result<Option<FieldTable<'a>>, AllocError>
    ensures { IfOk result (λ found. IfSome found (λ table. IsTableFound (Some table) (map field_seen fields.now))) }
{
    let mut table = FoldedMap::new(alloc);
    'fields: for k in 0..fields.len() {
        let field = fields[k];
        if field.name.len() > NAME_LIMIT {
            return Ok(None);
        }
        if table.insert(field.name, field.value)?.is_some() {
            return Ok(None);
        }
    }
    Ok(Some(table))
}

/// Whether each field with the name of one of these is what three versions make of it, in a merged entry with this table.
fn are_of_three(
    alloc: Global,
    names: &[FieldView<'_>],
    b: &Version<'_>,
    o: &Version<'_>,
    t: &Version<'_>,
    merged: &FieldTable<'_>,
) -> Result<bool, AllocError>
    ensures { IfOk result (λ are. are ≡ true → (mb mo mt : Macros) (eb eo et : Entry) → IsVersion b.now mb eb → IsVersion o.now mo eo → IsVersion t.now mt et → (rows : List Row) → IsTableOfRows merged.now rows
        → list_all (is_row_of_three mb eb mo eo mt et rows) (names_of (map field_seen names.now)) ≡ true) }
{
    'names: for k in 0..names.len() {
        if !is_of_three(alloc, &names[k], b, o, t, merged)? {
            return Ok(false);
        }
    }
    Ok(true)
}

/// Whether each field of three versions and of a merged entry with these fields is what the three make of it.
fn are_all_of_three(
    alloc: Global,
    b: &Version<'_>,
    o: &Version<'_>,
    t: &Version<'_>,
    fields: &[FieldView<'_>],
    merged: &FieldTable<'_>,
) -> Result<bool, AllocError>
    ensures { IfOk result (λ are. are ≡ true → (mb mo mt : Macros) (eb eo et : Entry) → IsVersion b.now mb eb → IsVersion o.now mo eo → IsVersion t.now mt et → (rows : List Row) → IsTableOfRows merged.now rows → names_of (map field_seen fields.now) ≡ row_names rows
        → list_all (is_row_of_three mb eb mo eo mt et rows) (row_names (eb.rows ++ eo.rows ++ et.rows ++ rows)) ≡ true) }
{
    if !are_of_three(alloc, b.fields.as_slice(), b, o, t, merged)? {
        return Ok(false);
    }
    if !are_of_three(alloc, o.fields.as_slice(), b, o, t, merged)? {
        return Ok(false);
    }
    if !are_of_three(alloc, t.fields.as_slice(), b, o, t, merged)? {
        return Ok(false);
    }
    let are = are_of_three(alloc, fields, b, o, t, merged)?;
    Ok(are)
}

/// Whether a merged entry is a merge of three versions.
fn is_mixed(
    alloc: Global,
    b: &Version<'_>,
    o: &Version<'_>,
    t: &Version<'_>,
    mix: Mix<'_>,
) -> Result<bool, AllocError>
    ensures { IfOk result (λ may. may ≡ true → (mb mo mt : Macros) (eb eo et : Entry) → IsVersion b.now mb eb → IsVersion o.now mo eo → IsVersion t.now mt et
        → Mixes (Some (mb, eb)) (Some (mo, eo)) (Some (mt, et)) mix.entry) }
{
    if !is_type_of_three(b.type_name, o.type_name, t.type_name, mix.kind) {
        return Ok(false);
    }
    if !is_white(mix.space) {
        return Ok(false);
    }
    if !end_in_space(mix.rows) {
        return Ok(false);
    }
    let Some(fields) = mixed_fields(alloc, o.fields.as_slice(), t.fields.as_slice(), mix.rows)?
    else {
        return Ok(false);
    };
    let Some(table) = table_of_all(alloc, fields.as_slice())? else {
        return Ok(false);
    };
    let are = are_all_of_three(alloc, b, o, t, fields.as_slice(), &table)?;
    Ok(are)
}

/// Whether a merged entry is a merge of three items, each with its macros.
fn views_mix(
    alloc: Global,
    b: &ItemView<'_>,
    macros_b: MacrosAt<'_>,
    o: &ItemView<'_>,
    macros_o: MacrosAt<'_>,
    t: &ItemView<'_>,
    macros_t: MacrosAt<'_>,
    mix: Mix<'_>,
) -> Result<bool, AllocError>
    ensures { IfOk result (λ may. may ≡ true → (ib io it : Item) → IsTree name_limit ib.tree → IsTree name_limit io.tree → IsTree name_limit it.tree
        → b.now ≡ view_of ib → o.now ≡ view_of io → t.now ≡ view_of it
        → Mixes (entry_with (macros_seen macros_b.entry) (Some ib.tree)) (entry_with (macros_seen macros_o.entry) (Some io.tree)) (entry_with (macros_seen macros_t.entry) (Some it.tree)) mix.entry) }
{
    let Some(base) = version_of(alloc, b, macros_b)? else {
        return Ok(false);
    };
    let Some(ours) = version_of(alloc, o, macros_o)? else {
        return Ok(false);
    };
    let Some(theirs) = version_of(alloc, t, macros_t)? else {
        return Ok(false);
    };
    let is = is_mixed(alloc, &base, &ours, &theirs, mix)?;
    Ok(is)
}

/// Whether a merged entry is a merge of three items, each in its own file: they are entries, each has its fields once, and type,
/// key and each field of the merged entry are what the three make of them. It takes time and memory in the number of fields and in
/// the lengths of the names and of the values that differ. It is refused only out of memory.
pub fn may_mix<L: ItemList>(
    alloc: Global,
    base: &Database<L>,
    b: usize,
    ours: &Database<L>,
    o: usize,
    theirs: &Database<L>,
    t: usize,
    mix: Mix<'_>,
) -> Result<bool, AllocError>
    ensures { IfOk result (λ may. may ≡ true → OfReading base.now (λ rb. OfReading ours.now (λ ro. OfReading theirs.now (λ rt. (ib io it : Item)
        → slice_get rb.items b ≡ Some ib → slice_get ro.items o ≡ Some io → slice_get rt.items t ≡ Some it
        → Mixes (entry_with (macros_at months rb.items b) (Some ib.tree)) (entry_with (macros_at months ro.items o) (Some io.tree)) (entry_with (macros_at months rt.items t) (Some it.tree)) mix.entry)))) }
{
    if b >= base.item_count() || o >= ours.item_count() || t >= theirs.item_count() {
        return Ok(false);
    }
    let may = views_mix(
        alloc,
        &base.item(b),
        base.macros_at(b),
        &ours.item(o),
        ours.macros_at(o),
        &theirs.item(t),
        theirs.macros_at(t),
        mix,
    )?;
    Ok(may)
}

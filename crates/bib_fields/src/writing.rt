//! The bytes of a merged entry.

ghost use Rattle.std.specs.Prelude.{◌≡◌, ◌++◌, map, Some, slice_get, IfOk, IfSome, OnOk};
ghost use Rattle.std.specs.List.{flat_map};
ghost use Rattle.bib_spec.specs.Bytes.{name_limit};
ghost use Rattle.bib_spec.specs.Tree.{Entry, IsTree, row_bytes};
ghost use Rattle.bib_spec.specs.Reading.{Item};
ghost use Rattle.bib_spec.specs.Texts.{Macros, row_start};
ghost use Rattle.bib_scan.specs.View.{view_of};
ghost use Rattle.bib_store.specs.Readings.{OfReading};
ghost use Rattle.merge_spec.specs.ThreeWay.{entry_with};
ghost use Rattle.bib_fields.specs.MixSeen.{of_side, row_of, row_seen, mix_bytes};
ghost use Rattle.bib_fields.specs.Sources.{IsSource, MayBeSource};

use crate::checking::field_at;
use crate::mix::{Mix, MixedRow, RowOf, Side};
use crate::opening::add_opening;
use crate::slices::{end_of, start_in};
use crate::version::all_fields;
use bib_scan::{FieldView, ItemView, Kind};
use bib_store::{Database, ItemList};
use std::alloc::{AllocError, Global};

/// An entry of a side, with its fields in order.
#[derive(Drop)]
struct Source<'a> {
    item: ItemView<'a>,
    fields: Vec<FieldView<'a>>,
}

/// Of two texts the one that is of this side.
fn chosen<'a>(side: Side, ours: &'a [u8], theirs: &'a [u8]) -> &'a [u8]
    ensures { result.now ≡ of_side side ours.now theirs.now }
{
    match side {
        Side::Ours => ours,
        Side::Theirs => theirs,
    }
}

/// The body of the entry of a side.
fn body_of<'a>(ours: &Source<'a>, theirs: &Source<'a>, side: Side) -> &'a [u8]
    ensures { result.now ≡ of_side side ours.now.item.body theirs.now.item.body }
{
    chosen(side, ours.item.body(), theirs.item.body())
}

/// The bytes before the value of a row of one of the sides.
fn start_at<'a>(ours: &Source<'a>, theirs: &Source<'a>, row: RowOf) -> Option<&'a [u8]>
    ensures { IfSome result (λ start. (eo et : Entry) → IsSource ours.now eo → IsSource theirs.now et → start.now ≡ row_start (row_of eo.rows et.rows row)) }
{
    let Some(field) = field_at(ours.fields.as_slice(), theirs.fields.as_slice(), row) else {
        return None;
    };
    let Some(start) = start_in(body_of(ours, theirs, row.side), field) else {
        return None;
    };
    Some(start)
}

/// Adds a merged row.
fn add_row(
    out: &mut Vec<u8>,
    ours: &Source<'_>,
    theirs: &Source<'_>,
    row: &MixedRow,
) -> Result<(), AllocError>
    ensures { OnOk result ((eo et : Entry) → IsSource ours.now eo → IsSource theirs.now et → out.new.items ≡ out.old.items ++ row_bytes (row_seen eo.rows et.rows row.now)) }
{
    let Some(start) = start_at(ours, theirs, row.start) else {
        return Err(AllocError);
    };
    let Some(value) = field_at(ours.fields.as_slice(), theirs.fields.as_slice(), row.value) else {
        return Err(AllocError);
    };
    out.extend_from_slice(start)?;
    out.extend_from_slice(value.value)?;
    out.extend_from_slice(row.space.as_slice())?;
    Ok(())
}

/// Adds merged rows.
fn add_rows(
    out: &mut Vec<u8>,
    ours: &Source<'_>,
    theirs: &Source<'_>,
    rows: &[MixedRow],
) -> Result<(), AllocError>
    ensures { OnOk result ((eo et : Entry) → IsSource ours.now eo → IsSource theirs.now et → out.new.items ≡ out.old.items ++ flat_map row_bytes (map (row_seen eo.rows et.rows) rows.now)) }
{
    'rows: for k in 0..rows.len() {
        add_row(out, ours, theirs, &rows[k])?;
    }
    Ok(())
}

/// The type of the entry of a side.
fn type_of<'a>(ours: &Source<'a>, theirs: &Source<'a>, side: Side) -> &'a [u8]
    ensures { (eo et : Entry) → IsSource ours.now eo → IsSource theirs.now et → result.now ≡ of_side side eo.opening.head.type_name et.opening.head.type_name }
{
    chosen(side, ours.item.type_name(), theirs.item.type_name())
}

/// The key of the entry of a side.
fn key_of<'a>(ours: &Source<'a>, theirs: &Source<'a>, side: Side) -> &'a [u8]
    ensures { (eo et : Entry) → IsSource ours.now eo → IsSource theirs.now et → result.now ≡ of_side side eo.key et.key }
{
    chosen(side, ours.item.key(), theirs.item.key())
}

/// Adds the bytes of a merged entry.
fn add_entry(
    out: &mut Vec<u8>,
    ours: &Source<'_>,
    theirs: &Source<'_>,
    mix: Mix<'_>,
) -> Result<(), AllocError>
    ensures { OnOk result ((mo mt : Macros) (eo et : Entry) → IsSource ours.now eo → IsSource theirs.now et → out.new.items ≡ out.old.items ++ mix_bytes (Some (mo, eo)) (Some (mt, et)) mix.entry) }
{
    let Some(end) = end_of(&ours.item, ours.fields.as_slice()) else {
        return Err(AllocError);
    };
    add_opening(out, &ours.item, type_of(ours, theirs, mix.kind))?;
    out.extend_from_slice(key_of(ours, theirs, mix.key))?;
    out.extend_from_slice(mix.space)?;
    add_rows(out, ours, theirs, mix.rows)?;
    out.extend_from_slice(end)?;
    Ok(())
}

/// The entry with its fields, if the item is one.
fn source_of<'a>(alloc: Global, item: ItemView<'a>) -> Result<Option<Source<'a>>, AllocError>
    ensures { IfOk result (λ source. (i : Item) → IsTree name_limit i.tree → item.entry ≡ view_of i → MayBeSource source i.tree) }
{
    match item.kind() {
        Kind::Entry => {
            let all = all_fields(alloc, item.fields())?;
            Ok(Some(Source { item, fields: all }))
        }
        _ => Ok(None),
    }
}

/// Adds the bytes of a merged entry, of which these are our form and theirs.
fn add_views(
    alloc: Global,
    out: &mut Vec<u8>,
    o: ItemView<'_>,
    t: ItemView<'_>,
    mix: Mix<'_>,
) -> Result<(), AllocError>
    ensures { OnOk result ((io it : Item) (mo mt : Macros) → IsTree name_limit io.tree → IsTree name_limit it.tree → o.entry ≡ view_of io → t.entry ≡ view_of it
        → out.new.items ≡ out.old.items ++ mix_bytes (entry_with mo (Some io.tree)) (entry_with mt (Some it.tree)) mix.entry) }
{
    let Some(ours) = source_of(alloc, o)? else {
        return Err(AllocError);
    };
    let Some(theirs) = source_of(alloc, t)? else {
        return Err(AllocError);
    };
    add_entry(out, &ours, &theirs, mix)?;
    Ok(())
}

/// Adds the bytes of a merged entry, of which these items are our form and theirs. It takes time and memory in their lengths. It
/// is refused out of memory, and if one of the two is no entry or has too few rows.
pub fn add_mixed<L: ItemList>(
    alloc: Global,
    out: &mut Vec<u8>,
    ours: &Database<L>,
    o: usize,
    theirs: &Database<L>,
    t: usize,
    mix: Mix<'_>,
) -> Result<(), AllocError>
    ensures { OnOk result (OfReading ours.now (λ ro. OfReading theirs.now (λ rt. (io it : Item) (mo mt : Macros) → slice_get ro.items o ≡ Some io → slice_get rt.items t ≡ Some it
        → out.new.items ≡ out.old.items ++ mix_bytes (entry_with mo (Some io.tree)) (entry_with mt (Some it.tree)) mix.entry))) }
{
    if o >= ours.item_count() || t >= theirs.item_count() {
        return Err(AllocError);
    }
    add_views(alloc, out, ours.item(o), theirs.item(t), mix)?;
    Ok(())
}

//! Adds entries before an item: one, or many at the end of the file.

ghost use Rattle.std.specs.Prelude.{OnOk, IfOk, IfErr};
ghost use Rattle.bib_store.specs.Readings.{OfReading};
ghost use Rattle.bib_edit.specs.Planning.{IsAllowedEdit, ArePiecesOf, IsRefusal};
ghost use Rattle.bib_edit.specs.ManyEntries.{Adds, AreAddable};
ghost use Rattle.bib_data.specs.declared.edit.Edit.{Edit};

use crate::fault::EditFault;
use crate::limits::are_too_long;
use crate::new_entries::{
    are_any_long, are_keys_taken, has_field_twice, have_keys, have_names_and_types, have_values,
    put_in,
};
use crate::new_text::entries_text;
use bib_data::NewEntry;
use bib_scan::one_reading;
use bib_store::{Database, ItemList, Piece};
use bib_text::Seq;
use std::alloc::Global;

/// Refuses entries that are not valid, or can't come together before item `position`. It judges all keys first, then
/// all names and types, and then all values.
fn judge<L: ItemList>(
    alloc: Global,
    db: &Database<L>,
    position: usize,
    entries: &[NewEntry],
) -> Result<(), EditFault>
    ensures addable { OnOk result (OfReading db.now (AreAddable entries.now position)) }
    ensures refused { IfErr result (λ fault. (asked : Edit) → Adds db.now asked position entries.now → IsRefusal db.now asked fault) }
{
    if !have_keys(entries) {
        return Err(EditFault::BadKey);
    }
    if !have_names_and_types(entries) {
        return Err(EditFault::BadName);
    }
    if !have_values(alloc, entries)? {
        return Err(EditFault::BadValue);
    }
    if position > db.item_count() {
        return Err(EditFault::BadPosition);
    }
    if has_field_twice(alloc, entries)? {
        return Err(EditFault::Ambiguous);
    }
    if are_keys_taken(alloc, db, entries)? {
        return Err(EditFault::KeyInUse);
    }
    Ok(())
}

/// The piece that puts these entries before item `position`, in order, or the first reason against it; no piece for no
/// entries. It takes time and memory in the length of the entries. Dangling crossrefs may name their keys: the
/// entries become the targets.
pub(crate) fn add<L: ItemList>(
    alloc: Global,
    db: &Database<L>,
    position: usize,
    entries: &[NewEntry],
) -> Result<Seq<Piece>, EditFault>
    ensures pieces { IfOk result (λ pieces. (asked : Edit) → Adds db.now asked position entries.now → ArePiecesOf db.now asked pieces) }
    ensures allowed { OnOk result ((asked : Edit) → Adds db.now asked position entries.now → IsAllowedEdit db.now asked) }
    ensures refused { IfErr result (λ fault. (asked : Edit) → Adds db.now asked position entries.now → IsRefusal db.now asked fault) }
{
    db.opens();
    one_reading();
    judge(alloc, db, position, entries)?;
    let text = entries_text(alloc, entries)?;
    let pieces = put_in(alloc, db, position, text)?;
    if are_too_long(db, pieces.as_slice()) {
        return Err(EditFault::FileTooLong);
    }
    if are_any_long(alloc, db, position, entries)? {
        return Err(EditFault::TextTooLong);
    }
    Ok(pieces)
}

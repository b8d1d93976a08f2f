//! Moves an entry.

ghost use Rattle.std.specs.Prelude.{OnOk, IfOk, IfErr, ◌≡◌, false};
ghost use Rattle.bib_store.specs.Readings.{OfReading};
ghost use Rattle.bib_edit.specs.Numbers.{is_numbered};
ghost use Rattle.bib_edit.specs.Planning.{IsAllowedEdit, ArePiecesOf, IsRefusal};
ghost use Rattle.bib_edit.specs.Moving.{IsMovable};
ghost use Rattle.bib_data.specs.declared.edit.Edit.TheVariants.{MoveEntry};

use crate::address::lone_entry;
use crate::fault::EditFault;
use crate::limits::are_too_long;
use crate::moving::{is_field_long, last_position, moved_pieces, next_item};
use crate::taking_out::joins_cleanly;
use bib_scan::one_reading;
use bib_store::{Database, ItemList, Piece};
use bib_text::Seq;
use std::alloc::Global;

/// The item that is the one entry with this key, if it can move before item `position` of what remains. No
/// length is looked at yet.
fn movable<L: ItemList>(
    alloc: Global,
    db: &Database<L>,
    key: &[u8],
    position: usize,
) -> Result<usize, EditFault>
    requires { is_numbered key.now ≡ false }
    ensures movable { IfOk result (λ n. OfReading db.now (λ r. IsMovable key.now position r n)) }
    ensures refused { IfErr result (IsRefusal db.now (MoveEntry key.now position)) }
{
    db.opens();
    if position > last_position(db, key) {
        return Err(EditFault::BadPosition);
    }
    let n = lone_entry(db, key)?;
    if !joins_cleanly(alloc, db, n)? {
        return Err(EditFault::WouldMerge);
    }
    Ok(n)
}

/// The pieces that take this entry's body out and put it before item `position` of what remains, in a line of its own,
/// or the first reason against it. It takes time and memory in the length of the entry and of the texts beside it.
pub(crate) fn move_entry<L: ItemList>(
    alloc: Global,
    db: &Database<L>,
    key: &[u8],
    position: usize,
) -> Result<Seq<Piece>, EditFault>
    requires { is_numbered key.now ≡ false }
    ensures pieces { IfOk result (ArePiecesOf db.now (MoveEntry key.now position)) }
    ensures allowed { OnOk result (IsAllowedEdit db.now (MoveEntry key.now position)) }
    ensures refused { IfErr result (IsRefusal db.now (MoveEntry key.now position)) }
{
    db.opens();
    one_reading();
    let n = movable(alloc, db, key, position)?;
    let pieces = moved_pieces(alloc, db, n, position)?;
    if are_too_long(db, pieces.as_slice()) {
        return Err(EditFault::FileTooLong);
    }
    if is_field_long(alloc, db, next_item(db, n, position), db.item(n).fields())? {
        return Err(EditFault::TextTooLong);
    }
    Ok(pieces)
}

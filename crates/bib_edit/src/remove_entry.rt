//! Takes an entry out.

ghost use Rattle.std.specs.Prelude.{OnOk, IfOk, IfErr, ◌≡◌, false};
ghost use Rattle.bib_edit.specs.Numbers.{is_numbered};
ghost use Rattle.bib_edit.specs.Planning.{IsAllowedEdit, ArePiecesOf, IsRefusal};
ghost use Rattle.bib_data.specs.declared.edit.Edit.TheVariants.{RemoveEntry};

use crate::address::lone_entry;
use crate::fault::EditFault;
use crate::pieces::one_piece;
use crate::referring::is_referred;
use crate::taking_out::{joins_cleanly, removal_of};
use bib_scan::one_reading;
use bib_store::{Database, ItemList, Piece};
use bib_text::Seq;
use std::alloc::Global;

/// The piece that takes this entry's body out, or the first reason against it. It takes a few steps for each page of
/// items and of entries, and time and memory in the length of the body and the texts beside it.
pub(crate) fn remove_entry<L: ItemList>(
    alloc: Global,
    db: &Database<L>,
    key: &[u8],
) -> Result<Seq<Piece>, EditFault>
    requires { is_numbered key.now ≡ false }
    ensures pieces { IfOk result (ArePiecesOf db.now (RemoveEntry key.now)) }
    ensures allowed { OnOk result (IsAllowedEdit db.now (RemoveEntry key.now)) }
    ensures refused { IfErr result (IsRefusal db.now (RemoveEntry key.now)) }
{
    db.opens();
    one_reading();
    let n = lone_entry(db, key)?;
    if is_referred(db, key) {
        return Err(EditFault::Referred);
    }
    if !joins_cleanly(alloc, db, n)? {
        return Err(EditFault::WouldMerge);
    }
    let removal = removal_of(alloc, db, n)?;
    one_piece(alloc, removal)
}

//! Gives an entry another type.

ghost use Rattle.std.specs.Prelude.{◌≡◌, ◌≤◌, length, OnOk, IfOk, IfErr, false};
ghost use Rattle.bib_edit.specs.Numbers.{is_numbered};
ghost use Rattle.bib_edit.specs.Planning.{IsAllowedEdit, ArePiecesOf, IsRefusal};
ghost use Rattle.bib_store.specs.Readings.{IsItemNumber};
ghost use Rattle.bib_edit.specs.FieldPieces.{OfItem};
ghost use Rattle.bib_edit.specs.TypePieces.{type_place, type_piece};
ghost use Rattle.bib_data.specs.declared.edit.Edit.TheVariants.{SetType};
ghost use Rattle.bib_edit.specs.declared.fault.EditFault.TheVariants.{Memory};

use crate::address::lone_entry;
use crate::fault::EditFault;
use crate::limits::are_too_long;
use crate::pieces::one_piece;
use bib_scan::is_type;
use bib_store::{Database, ItemList, Piece};
use bib_text::{Seq, copied};
use std::alloc::Global;

/// The pieces that give this entry this type, or the first reason against it. It takes time in the length of the entry's
/// head, beside what finds the entry.
pub(crate) fn set_type<L: ItemList>(
    alloc: Global,
    db: &Database<L>,
    key: &[u8],
    kind_name: &[u8],
) -> Result<Seq<Piece>, EditFault>
    requires { is_numbered key.now ≡ false }
    ensures pieces { IfOk result (ArePiecesOf db.now (SetType key.now kind_name.now)) }
    ensures allowed { OnOk result (IsAllowedEdit db.now (SetType key.now kind_name.now)) }
    ensures refused { IfErr result (IsRefusal db.now (SetType key.now kind_name.now)) }
{
    db.opens();
    if !is_type(kind_name) {
        return Err(EditFault::BadName);
    }
    let n = lone_entry(db, key)?;
    let piece = typing(alloc, db, n, kind_name)?;
    let pieces = one_piece(alloc, piece)?;
    if are_too_long(db, pieces.as_slice()) {
        return Err(EditFault::FileTooLong);
    }
    Ok(pieces)
}

/// The piece that gives item `n`, which is an entry, this type.
pub(crate) fn typing<L: ItemList>(
    alloc: Global,
    db: &Database<L>,
    n: usize,
    kind_name: &[u8],
) -> Result<Piece, EditFault>
    requires { IsItemNumber db.now n }
    ensures piece { IfOk result (λ p. OfItem db.now n (λ start view. p ≡ type_piece start view kind_name.now)) }
    ensures only { IfErr result (λ fault. fault ≡ Memory) }
{
    db.opens();
    let view = db.item(n);
    Ok(Piece {
        place: (db.item_place(n) + type_place(view.body())) as u64,
        old: copied(alloc, view.type_name())?,
        new: copied(alloc, kind_name)?,
    })
}

/// The place of the type in an item's body: behind the at-sign and white space.
fn type_place(body: &[u8]) -> usize
    ensures place { result ≡ type_place body.now }
    ensures within { result ≤ length body.now }
{
    body.iter()
        .take_while(|byte| **byte == b'@' || **byte <= b' ')
        .count()
}

//! Takes a field out of an entry.

ghost use Rattle.std.specs.Prelude.{◌≡◌, ◌&&◌, ◌==◌, ◌+◌, ◌≤◌, ◌<◌, ◌^◌, length, OnOk, IfOk, IfErr, false, ◌||◌};
ghost use Rattle.bib_scan.specs.View.{field_seen};
ghost use Rattle.bib_edit.specs.Numbers.{is_numbered};
ghost use Rattle.bib_edit.specs.Planning.{IsAllowedEdit, ArePiecesOf, IsRefusal};
ghost use Rattle.bib_tokens.specs.PlacedParts.{field_end};
ghost use Rattle.bib_edit.specs.FieldPieces.{cut_piece, joins_key};
ghost use Rattle.bib_data.specs.declared.edit.Edit.TheVariants.{DropField};
ghost use Rattle.bib_edit.specs.declared.fault.EditFault.TheVariants.{Memory};

use crate::address::sought_fields;
use crate::fault::EditFault;
use crate::pieces::one_piece;
use bib_scan::{FieldView, ItemView, is_name};
use bib_store::{Database, ItemList, Piece};
use bib_text::{Seq, copied};
use std::alloc::Global;

/// The pieces that take this field out of this entry, or the first reason against it. If several entries have the key,
/// it looks at the first one: a missing field there is a reason that comes before the repeated key.
pub(crate) fn drop_field<L: ItemList>(
    alloc: Global,
    db: &Database<L>,
    key: &[u8],
    field: &[u8],
) -> Result<Seq<Piece>, EditFault>
    requires { (is_numbered key.now || is_numbered field.now) ≡ false }
    ensures pieces { IfOk result (ArePiecesOf db.now (DropField key.now field.now)) }
    ensures allowed { OnOk result (IsAllowedEdit db.now (DropField key.now field.now)) }
    ensures refused { IfErr result (IsRefusal db.now (DropField key.now field.now)) }
{
    db.opens();
    if !is_name(field) {
        return Err(EditFault::BadName);
    }
    let held = match db.holders_of(key) {
        Some(held) => held,
        None => return Err(EditFault::NotFound),
    };
    let n = db.entry_item(held.first);
    let view = db.item(n);
    let sought = sought_fields(&view, field);
    let row = match sought.first {
        Some(row) => row,
        None => return Err(EditFault::NotFound),
    };
    if sought.is_repeated || held.count > 1 {
        return Err(EditFault::Ambiguous);
    }
    if joins_key(&view, row) {
        return Err(EditFault::WouldMerge);
    }
    let piece = cut(alloc, db.item_place(n), view.body(), row)?;
    one_piece(alloc, piece)
}

/// Whether the closing parenthesis would come directly after the key without the row.
pub(crate) fn joins_key(view: &ItemView<'_>, row: FieldView<'_>) -> bool
    requires end { field_end (field_seen row) ≤ length view.now.body }
    requires key { view.now.key_at + length view.now.key < 2 ^ 64 }
    ensures { result ≡ joins_key view.now (field_seen row.entry) }
{
    row.start == view.key_at() + view.key().len()
        && view.body().split_at(row.value_at + row.value.len()).1 == b")".as_slice()
}

/// The piece that takes the row out of a body that begins at this place: from its comma to the end of its value.
pub(crate) fn cut(
    alloc: Global,
    start: usize,
    body: &[u8],
    row: FieldView<'_>,
) -> Result<Piece, EditFault>
    requires end { field_end (field_seen row) ≤ length body.now }
    requires begin { row.start ≤ field_end (field_seen row) }
    requires place { start + row.start < 2 ^ 64 }
    ensures piece { IfOk result (λ p. p ≡ cut_piece start body.now (field_seen row.entry)) }
    ensures only { IfErr result (λ fault. fault ≡ Memory) }
{
    let after = body.split_at(row.start).1;
    let len = row.value_at + row.value.len() - row.start;
    Ok(Piece {
        place: (start + row.start) as u64,
        old: copied(alloc, after.split_at(len).0)?,
        new: copied(alloc, b"")?,
    })
}

//! Sets a field of an entry.

ghost use Rattle.std.specs.Prelude.{◌≡◌, ◌<◌, ◌≤◌, ◌^◌, ◌⊎◌, None, count_by, OnOk, IfOk, IfErr, false, ◌||◌};
ghost use Rattle.std.specs.List.{last_or};
ghost use Rattle.std.specs.Option.{option_map};
ghost use Rattle.bib_scan.specs.View.{field_seen};
ghost use Rattle.bib_edit.specs.Numbers.{is_numbered};
ghost use Rattle.bib_edit.specs.Planning.{IsAllowedEdit, ArePiecesOf, IsRefusal};
ghost use Rattle.bib_edit.specs.Addressing.{is_field};
ghost use Rattle.bib_edit.specs.FieldPieces.{IsNamedItem, OfItem, rows_end, row_text, set_piece};
ghost use Rattle.bib_data.specs.declared.edit.Edit.TheVariants.{SetField};
ghost use Rattle.bib_edit.specs.declared.fault.EditFault.TheVariants.{Ambiguous, Memory};

use crate::address::{lone_entry, sought_fields};
use crate::fault::EditFault;
use crate::limits::{are_too_long, is_text_too_long};
use crate::pieces::one_piece;
use crate::values::value_parts;
use bib_scan::{FieldView, ItemView, is_name};
use bib_store::{Database, ItemList, Piece};
use bib_text::{Seq, Text, copied};
use std::alloc::{AllocError, Global};

/// The pieces that give the field of this entry this value, or the first reason against it.
pub(crate) fn set_field<L: ItemList>(
    alloc: Global,
    db: &Database<L>,
    key: &[u8],
    field: &[u8],
    value: &[u8],
) -> Result<Seq<Piece>, EditFault>
    requires { (is_numbered key.now || is_numbered field.now) ≡ false }
    ensures pieces { IfOk result (ArePiecesOf db.now (SetField key.now field.now value.now)) }
    ensures allowed { OnOk result (IsAllowedEdit db.now (SetField key.now field.now value.now)) }
    ensures refused { IfErr result (IsRefusal db.now (SetField key.now field.now value.now)) }
{
    db.opens();
    if !is_name(field) {
        return Err(EditFault::BadName);
    }
    let Some(parts) = value_parts(alloc, value)? else {
        return Err(EditFault::BadValue);
    };
    let n = lone_entry(db, key)?;
    let piece = setting(alloc, db, n, field, value)?;
    let pieces = one_piece(alloc, piece)?;
    if are_too_long(db, pieces.as_slice()) {
        return Err(EditFault::FileTooLong);
    }
    if is_text_too_long(db, n, &parts, value) {
        return Err(EditFault::TextTooLong);
    }
    Ok(pieces)
}

/// The piece that gives the field of item `n`, which is an entry, this value. Two fields with the name are refused.
fn setting<L: ItemList>(
    alloc: Global,
    db: &Database<L>,
    n: usize,
    field: &[u8],
    value: &[u8],
) -> Result<Piece, EditFault>
    requires { IsNamedItem db.now n }
    ensures piece { IfOk result (λ p. OfItem db.now n (λ start view. p ≡ set_piece start view field.now value.now)) }
    ensures once { OnOk result (OfItem db.now n (λ start view. count_by (is_field field.now) view.fields ≤ 1)) }
    ensures refused { IfErr result (λ fault. fault ≡ Ambiguous → OfItem db.now n (λ start view. 1 < count_by (is_field field.now) view.fields)) }
    ensures only { IfErr result (λ fault. (fault ≡ Ambiguous) ⊎ (fault ≡ Memory)) }
{
    db.opens();
    let view = db.item(n);
    let sought = sought_fields(&view, field);
    if sought.is_repeated {
        return Err(EditFault::Ambiguous);
    }
    let start = db.item_place(n);
    match sought.first {
        Some(old) => Ok(Piece {
            place: (start + old.value_at) as u64,
            old: copied(alloc, old.value)?,
            new: copied(alloc, value)?,
        }),
        None => Ok(Piece {
            place: (start + rows_end(&view, sought.last)) as u64,
            old: copied(alloc, b"")?,
            new: row_text(alloc, field, value)?,
        }),
    }
}

/// The place in the body after the value of the last field, or after the key if there is no field.
pub(crate) fn rows_end(view: &ItemView<'_>, last: Option<FieldView<'_>>) -> usize
    requires last { option_map field_seen last ≡ last_or None view.now.fields }
    requires place { rows_end view.now < 2 ^ 64 }
    ensures { result ≡ rows_end view.now }
{
    match last {
        Some(last) => last.value_at + last.value.len(),
        None => view.key_at() + view.key().len(),
    }
}

/// The bytes of a new field, from the comma before it to the end of its value.
pub(crate) fn row_text(alloc: Global, name: &[u8], value: &[u8]) -> Result<Text, AllocError>
    ensures { IfOk result (λ text. text ≡ row_text name.now value.now) }
{
    let mut text = Vec::new(alloc);
    text.extend_from_slice(b",\n  ")?;
    text.extend_from_slice(name)?;
    text.extend_from_slice(b" = ")?;
    text.extend_from_slice(value)?;
    Ok(Seq::from_vec(text))
}

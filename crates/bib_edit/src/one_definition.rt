//! Changes one definition of several of the same macro.

ghost use Rattle.std.specs.Prelude.{◌≡◌, ◌+◌, drop, OnOk, IfOk, IfErr};
ghost use Rattle.bib_spec.specs.Reading.{Item};
ghost use Rattle.bib_scan.specs.View.{view_of};
ghost use Rattle.edit_spec.specs.Edits.{ChangeDefinition, SetsValue, Undefines, defines, definition_meant, is_used_before_next};
ghost use Rattle.bib_store.specs.Readings.{OfReading, IsItemNumber};
ghost use Rattle.bib_edit.specs.OneOfSeveral.{ArePiecesFor, IsAllowedFor, IsRefusalFor, OfSpelled};
ghost use Rattle.bib_edit.specs.declared.fault.EditFault.TheVariants.{Memory};

use crate::fault::EditFault;
use crate::pieces::one_piece;
use crate::set_macro::value_piece;
use crate::taking_out::{joins_cleanly, removal_of};
use crate::trying::unless_too_long;
use crate::unused_values::stays_short;
use crate::values::is_value;
use bib_scan::{ItemView, Kind, is_name, one_reading};
use bib_store::{Database, ItemList, Piece};
use bib_text::{Seq, same_folded};
use bib_tokens::{Sought, has_part};
use std::alloc::Global;

/// Whether the item defines the macro.
fn defines(view: &ItemView<'_>, name: &[u8]) -> bool
    ensures { (i : Item) → view.now ≡ view_of i → result ≡ defines name.now i.tree }
{
    match view.kind() {
        Kind::Macro => match view.fields().next() {
            Some(field) => same_folded(field.name, name),
            None => false,
        },
        Kind::Entry | Kind::Preamble | Kind::Comment => false,
    }
}

/// The number of the item that is this one of the macro's definitions. It looks at each item up to that one.
fn definition_meant<L: ItemList>(db: &Database<L>, name: &[u8], number: usize) -> Option<usize>
    ensures { OfReading db.now (λ r. result ≡ definition_meant name.now number r.items) }
{
    db.opens();
    let mut left = number;
    'items: for n in 0..db.item_count() {
        if defines(&db.item(n), name) {
            if left == 0 {
                return Some(n);
            }
            left -= 1;
        }
    }
    None
}

/// Whether a use sees the definition that is item `n`: an item after it up to the macro's next definition uses the macro.
fn is_seen<L: ItemList>(
    alloc: Global,
    db: &Database<L>,
    n: usize,
    name: &[u8],
) -> Result<bool, EditFault>
    requires { IsItemNumber db.now n }
    ensures seen { IfOk result (λ seen. OfReading db.now (λ r. seen ≡ is_used_before_next name.now (drop (n + 1) r.items))) }
    ensures only { IfErr result (λ fault. fault ≡ Memory) }
{
    db.opens();
    let count = db.item_count();
    'items: for k in n + 1..count {
        if defines(&db.item(k), name) {
            return Ok(false);
        }
        if has_part(alloc, db, k, Sought::Uses(name))? {
            return Ok(true);
        }
    }
    Ok(false)
}

/// The piece that gives this definition of the macro this value, or the first reason against it. It takes time and memory as
/// `set_macro` does.
pub(crate) fn set_one_definition<L: ItemList>(
    alloc: Global,
    db: &Database<L>,
    name: &[u8],
    number: usize,
    value: &[u8],
) -> Result<Seq<Piece>, EditFault>
    ensures pieces { IfOk result (λ pieces. OfSpelled value.now (λ v. ArePiecesFor (ChangeDefinition name.now number (SetsValue v)) db.now pieces)) }
    ensures allowed { OnOk result (OfSpelled value.now (λ v. IsAllowedFor (ChangeDefinition name.now number (SetsValue v)) db.now)) }
    ensures refused { IfErr result (λ fault. OfSpelled value.now (λ v. IsRefusalFor (ChangeDefinition name.now number (SetsValue v)) db.now fault)) }
{
    db.opens();
    one_reading();
    // for the proof: an item's number is below their count, so it can grow by one
    let _ = db.item_count();
    if !is_name(name) {
        return Err(EditFault::BadName);
    }
    if !is_value(alloc, value)? {
        return Err(EditFault::BadValue);
    }
    let Some(n) = definition_meant(db, name, number) else {
        return Err(EditFault::NotFound);
    };
    let piece = value_piece(alloc, db, n, value)?;
    let pieces = one_piece(alloc, piece)?;
    let short = stays_short(alloc, db, n, n + 1, name, value)?;
    unless_too_long(alloc, db, pieces, short)
}

/// The piece that takes this definition of the macro out, or the first reason against it. It looks at each item up to the macro's
/// next definition.
pub(crate) fn undefine_one<L: ItemList>(
    alloc: Global,
    db: &Database<L>,
    name: &[u8],
    number: usize,
) -> Result<Seq<Piece>, EditFault>
    ensures pieces { IfOk result (ArePiecesFor (ChangeDefinition name.now number Undefines) db.now) }
    ensures allowed { OnOk result (IsAllowedFor (ChangeDefinition name.now number Undefines) db.now) }
    ensures refused { IfErr result (IsRefusalFor (ChangeDefinition name.now number Undefines) db.now) }
{
    db.opens();
    one_reading();
    if !is_name(name) {
        return Err(EditFault::BadName);
    }
    let Some(n) = definition_meant(db, name, number) else {
        return Err(EditFault::NotFound);
    };
    if is_seen(alloc, db, n, name)? {
        return Err(EditFault::Referred);
    }
    if !joins_cleanly(alloc, db, n)? {
        return Err(EditFault::WouldMerge);
    }
    let removal = removal_of(alloc, db, n)?;
    one_piece(alloc, removal)
}

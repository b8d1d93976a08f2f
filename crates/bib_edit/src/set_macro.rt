//! Gives a macro another value.

ghost use Rattle.std.specs.Prelude.{◌≡◌, OnOk, IfOk, IfErr, false};
ghost use Rattle.bib_spec.specs.Tree.{Definition};
ghost use Rattle.bib_scan.specs.Layout.{start_of};
ghost use Rattle.bib_store.specs.Readings.{OfReading};
ghost use Rattle.bib_edit.specs.Definitions.{IsDefinitionAt, IsDefinitionNumber};
ghost use Rattle.bib_edit.specs.MacroValues.{value_piece};
ghost use Rattle.bib_edit.specs.Numbers.{is_numbered};
ghost use Rattle.bib_edit.specs.Planning.{IsAllowedEdit, ArePiecesOf, IsRefusal};
ghost use Rattle.bib_data.specs.declared.edit.Edit.TheVariants.{SetMacro};
ghost use Rattle.bib_edit.specs.declared.fault.EditFault.TheVariants.{Memory};

use crate::defining::{lone_definition, value_of};
use crate::fault::EditFault;
use crate::pieces::one_piece;
use crate::trying::unless_too_long;
use crate::unused_values::stays_short;
use crate::values::is_value;
use bib_scan::{is_name, one_reading};
use bib_store::{Database, ItemList, Piece};
use bib_text::{Seq, copied};
use std::alloc::Global;

/// The piece that gives the macro's one definition this value, or the first reason against it. It looks at items as `push_from`
/// does, from the definition on. If one uses the macro, or the value's text is too long, it takes time and memory as opening the
/// file does.
pub(crate) fn set_macro<L: ItemList>(
    alloc: Global,
    db: &Database<L>,
    name: &[u8],
    value: &[u8],
) -> Result<Seq<Piece>, EditFault>
    requires { is_numbered name.now ≡ false }
    ensures pieces { IfOk result (ArePiecesOf db.now (SetMacro name.now value.now)) }
    ensures allowed { OnOk result (IsAllowedEdit db.now (SetMacro name.now value.now)) }
    ensures refused { IfErr result (IsRefusal db.now (SetMacro name.now value.now)) }
{
    db.opens();
    one_reading();
    // for the proof: an item's number is below their count, so it can grow by one
    let _ = db.item_count();
    if !is_name(name) {
        return Err(EditFault::BadName);
    }
    if !is_value(alloc, value)? {
        return Err(EditFault::BadValue);
    }
    let n = lone_definition(db, name)?;
    let piece = value_piece(alloc, db, n, value)?;
    let pieces = one_piece(alloc, piece)?;
    let short = stays_short(alloc, db, n, n + 1, name, value)?;
    unless_too_long(alloc, db, pieces, short)
}

/// The piece that gives item `n`, which is a definition, this value.
pub(crate) fn value_piece<L: ItemList>(
    alloc: Global,
    db: &Database<L>,
    n: usize,
    value: &[u8],
) -> Result<Piece, EditFault>
    requires { IsDefinitionNumber db.now n }
    ensures piece { IfOk result (λ piece. OfReading db.now (λ r. (d : Definition) → IsDefinitionAt r.items n d → piece ≡ value_piece (start_of r n) d value.now)) }
    ensures only { IfErr result (λ fault. fault ≡ Memory) }
{
    db.opens();
    let Some(old) = value_of(db, n) else {
        unreachable!()
    };
    Ok(Piece {
        place: old.place as u64,
        old: copied(alloc, old.bytes)?,
        new: copied(alloc, value)?,
    })
}

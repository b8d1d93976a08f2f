//! Takes the definition of a macro out.

ghost use Rattle.std.specs.Prelude.{◌≡◌, OnOk, IfOk, IfErr, false};
ghost use Rattle.edit_spec.specs.Edits.{is_seen};
ghost use Rattle.bib_store.specs.Readings.{OfReading};
ghost use Rattle.bib_edit.specs.Definitions.{IsDefinedAt};
ghost use Rattle.bib_edit.specs.Numbers.{is_numbered};
ghost use Rattle.bib_edit.specs.Planning.{IsAllowedEdit, ArePiecesOf, IsRefusal};
ghost use Rattle.bib_data.specs.declared.edit.Edit.TheVariants.{UndefineMacro};
ghost use Rattle.bib_edit.specs.declared.fault.EditFault.TheVariants.{Memory};

use crate::defining::lone_definition;
use crate::fault::EditFault;
use crate::pieces::one_piece;
use crate::taking_out::{joins_cleanly, removal_of};
use bib_scan::{is_name, one_reading};
use bib_store::{Database, ItemList, Piece};
use bib_text::Seq;
use bib_tokens::{Sought, push_from};
use std::alloc::Global;

/// The piece that takes the body of the macro's one definition out, or the first reason against it. It looks at items as
/// `push_from` does, from the definition on, and takes time and memory in the length of the body and the texts beside it.
pub(crate) fn undefine_macro<L: ItemList>(
    alloc: Global,
    db: &Database<L>,
    name: &[u8],
) -> Result<Seq<Piece>, EditFault>
    requires { is_numbered name.now ≡ false }
    ensures pieces { IfOk result (ArePiecesOf db.now (UndefineMacro name.now)) }
    ensures allowed { OnOk result (IsAllowedEdit db.now (UndefineMacro name.now)) }
    ensures refused { IfErr result (IsRefusal db.now (UndefineMacro name.now)) }
{
    db.opens();
    one_reading();
    if !is_name(name) {
        return Err(EditFault::BadName);
    }
    let n = lone_definition(db, name)?;
    if is_seen(alloc, db, n, name)? {
        return Err(EditFault::Referred);
    }
    if !joins_cleanly(alloc, db, n)? {
        return Err(EditFault::WouldMerge);
    }
    let removal = removal_of(alloc, db, n)?;
    one_piece(alloc, removal)
}

/// Whether a use sees the macro's definition, which is item `n`: a part of an item after it is the name.
fn is_seen<L: ItemList>(
    alloc: Global,
    db: &Database<L>,
    n: usize,
    name: &[u8],
) -> Result<bool, EditFault>
    requires { OfReading db.now (λ r. IsDefinedAt name.now r n) }
    ensures seen { IfOk result (λ seen. OfReading db.now (λ r. seen ≡ is_seen name.now r.items)) }
    ensures only { IfErr result (λ fault. fault ≡ Memory) }
{
    db.opens();
    // for the proof: an item's number is below their count, so it can grow by one
    let _ = db.item_count();
    let mut none = Vec::new(alloc);
    let after = n + 1;
    let (sought, watched) = (Sought::Nothing, Sought::Uses(name));
    Ok(push_from(alloc, &mut none, db, after, sought, watched)?)
}

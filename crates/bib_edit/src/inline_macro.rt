//! Replaces the uses of a macro by its text.

ghost use Rattle.std.specs.Prelude.{OnOk, IfOk, IfErr};
ghost use Rattle.bib_edit.specs.Planning.{IsAllowedEdit, ArePiecesOf, IsRefusal};
ghost use Rattle.bib_data.specs.declared.edit.Edit.TheVariants.{InlineMacro};

use crate::defining::{braced_text, lone_definition};
use crate::fault::EditFault;
use crate::replacing::{is_result_too_long, replaced_after};
use crate::taking_out::{body_of, joins_cleanly, removal_of};
use bib_scan::{is_name, one_reading};
use bib_store::{Database, ItemList, Piece};
use bib_text::Seq;
use bib_tokens::{Sought, push_from};
use std::alloc::Global;

/// The pieces that take the macro's one definition out and replace each use after it by its text in braces, or the
/// first reason against it. A file that would be too long is refused before the text is copied. It takes time and
/// memory in the length of the items that it looks at, and of the new file.
pub(crate) fn inline_macro<L: ItemList>(
    alloc: Global,
    db: &Database<L>,
    name: &[u8],
) -> Result<Seq<Piece>, EditFault>
    ensures pieces { IfOk result (ArePiecesOf db.now (InlineMacro name.now)) }
    ensures allowed { OnOk result (IsAllowedEdit db.now (InlineMacro name.now)) }
    ensures refused { IfErr result (IsRefusal db.now (InlineMacro name.now)) }
{
    db.opens();
    one_reading();
    if !is_name(name) {
        return Err(EditFault::BadName);
    }
    // for the proof: an item's number is below their count, so it can grow by one
    let _ = db.item_count();
    let n = lone_definition(db, name)?;
    if !joins_cleanly(alloc, db, n)? {
        return Err(EditFault::WouldMerge);
    }
    let text = braced_text(alloc, db, name)?;
    let mut tokens = Vec::new(alloc);
    push_from(
        alloc,
        &mut tokens,
        db,
        n + 1,
        Sought::Uses(name),
        Sought::Nothing,
    )?;
    if is_result_too_long(
        db,
        tokens.as_slice(),
        text.as_slice(),
        body_of(db, n).len(),
        0,
    ) {
        return Err(EditFault::FileTooLong);
    }
    let removal = removal_of(alloc, db, n)?;
    replaced_after(alloc, removal, tokens.as_slice(), text.as_slice())
}

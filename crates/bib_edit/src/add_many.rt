//! Adds many entries at once.

ghost use Rattle.std.specs.Prelude.{OnOk, IfOk, IfErr};
ghost use Rattle.bib_edit.specs.Planning.{IsAllowedEdit, ArePiecesOf, IsRefusal};
ghost use Rattle.bib_data.specs.declared.edit.Edit.TheVariants.{AddMany};

use crate::adding::add;
use crate::fault::EditFault;
use bib_data::NewEntry;
use bib_store::{Database, ItemList, Piece};
use bib_text::Seq;
use std::alloc::Global;

/// The piece that puts these entries after the last item, in order, or the first reason against it; no piece for no
/// entries. It takes time and memory in the length of the entries.
pub(crate) fn add_many<L: ItemList>(
    alloc: Global,
    db: &Database<L>,
    entries: &[NewEntry],
) -> Result<Seq<Piece>, EditFault>
    ensures pieces { IfOk result (ArePiecesOf db.now (AddMany entries.now)) }
    ensures allowed { OnOk result (IsAllowedEdit db.now (AddMany entries.now)) }
    ensures refused { IfErr result (IsRefusal db.now (AddMany entries.now)) }
{
    add(alloc, db, db.item_count(), entries)
}

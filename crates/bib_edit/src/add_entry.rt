//! Adds an entry.

ghost use Rattle.std.specs.Prelude.{OnOk, IfOk, IfErr};
ghost use Rattle.bib_edit.specs.Planning.{IsAllowedEdit, ArePiecesOf, IsRefusal};
ghost use Rattle.bib_data.specs.declared.edit.Edit.TheVariants.{AddEntry};

use crate::adding::add;
use crate::fault::EditFault;
use bib_data::NewEntry;
use bib_store::{Database, ItemList, Piece};
use bib_text::Seq;
use std::alloc::Global;
use std::slice::from_ref;

/// The piece that puts this entry before item `position`, or the first reason against it. It takes time and memory in
/// the length of the entry.
pub(crate) fn add_entry<L: ItemList>(
    alloc: Global,
    db: &Database<L>,
    position: usize,
    entry: &NewEntry,
) -> Result<Seq<Piece>, EditFault>
    ensures pieces { IfOk result (ArePiecesOf db.now (AddEntry position entry.now)) }
    ensures allowed { OnOk result (IsAllowedEdit db.now (AddEntry position entry.now)) }
    ensures refused { IfErr result (IsRefusal db.now (AddEntry position entry.now)) }
{
    add(alloc, db, position, from_ref(entry))
}

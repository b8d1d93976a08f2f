//! Gives all entries made keys.

ghost use Rattle.std.specs.Prelude.{OnOk, IfOk, IfErr};
ghost use Rattle.bib_spec.specs.Records.{IsDepth};
ghost use Rattle.bib_edit.specs.Planning.{IsAllowedEdit, ArePiecesOf, IsRefusal};
ghost use Rattle.bib_data.specs.declared.edit.Edit.TheVariants.{RegenerateKeys};

use crate::fault::EditFault;
use crate::limits::are_too_long;
use crate::new_keys::NewKeys;
use crate::rekeying::rekeying;
use bib_keys::made_keys;
use bib_scan::one_reading;
use bib_store::{Database, ItemList, Piece};
use bib_text::Seq;
use std::alloc::Global;

/// The pieces that give all entries their made keys at once, from their records at this depth, and put these keys into
/// the crossrefs, or the first reason against it. The old keys decide which entry a crossref names, so two entries may
/// exchange their keys. It takes time in the length of the file, and memory for the pieces, the keys and what parents
/// give to them.
pub(crate) fn regenerate_keys<L: ItemList>(
    alloc: Global,
    db: &Database<L>,
    depth: u8,
) -> Result<Seq<Piece>, EditFault>
    requires { IsDepth depth }
    ensures pieces { IfOk result (ArePiecesOf db.now (RegenerateKeys depth)) }
    ensures allowed { OnOk result (IsAllowedEdit db.now (RegenerateKeys depth)) }
    ensures refused { IfErr result (IsRefusal db.now (RegenerateKeys depth)) }
{
    db.opens();
    one_reading();
    let keys = made_keys(alloc, db, depth)?;
    let new = NewKeys { first: 0, keys };
    let pieces = rekeying(alloc, db, &new)?;
    if are_too_long(db, pieces.as_slice()) {
        return Err(EditFault::FileTooLong);
    }
    Ok(pieces)
}

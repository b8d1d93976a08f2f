//! Gives an entry another key.

ghost use Rattle.std.specs.Prelude.{◌≡◌, true, OnOk, IfOk, IfErr, false};
ghost use Rattle.bib_spec.specs.Text.{is_new_key};
ghost use Rattle.bib_spec.specs.Records.{entries_of};
ghost use Rattle.bib_store.specs.Readings.{OfReading};
ghost use Rattle.bib_edit.specs.Numbers.{is_numbered};
ghost use Rattle.bib_edit.specs.Planning.{IsAllowedEdit, ArePiecesOf, IsRefusal};
ghost use Rattle.bib_edit.specs.Dangling.{is_in_use};
ghost use Rattle.bib_data.specs.declared.edit.Edit.TheVariants.{RenameKey};

use crate::address::lone_number;
use crate::dangling::is_awaited;
use crate::fault::EditFault;
use crate::limits::are_too_long;
use crate::new_keys::key_for;
use crate::rekeying::renaming;
use bib_scan::{is_key, one_reading};
use bib_store::{Database, ItemList, Piece};
use bib_text::{Seq, same_folded};
use std::alloc::Global;

/// Whether an entry has the new key, unless it is the old key in another case, or a dangling crossref names the new
/// key: that crossref would gain a target.
fn is_in_use<L: ItemList>(db: &Database<L>, from: &[u8], to: &[u8]) -> bool
    requires { is_new_key to.now ≡ true }
    ensures { OfReading db.now (λ r. result ≡ is_in_use from.now to.now (entries_of r)) }
{
    (!same_folded(from, to) && db.holders(to) > 0) || is_awaited(db, to)
}

/// The pieces that give this entry the new key, and put it into the crossrefs whose target is this entry, or the first
/// reason against it. A crossref counts by its field text, whatever its parts, and gets the key in braces. It takes
/// time in the lengths of these entries, a few steps for each page of entries and of items for each of them, and memory
/// for the pieces.
pub(crate) fn rename_key<L: ItemList>(
    alloc: Global,
    db: &Database<L>,
    from: &[u8],
    to: &[u8],
) -> Result<Seq<Piece>, EditFault>
    requires { is_numbered from.now ≡ false }
    ensures pieces { IfOk result (ArePiecesOf db.now (RenameKey from.now to.now)) }
    ensures allowed { OnOk result (IsAllowedEdit db.now (RenameKey from.now to.now)) }
    ensures refused { IfErr result (IsRefusal db.now (RenameKey from.now to.now)) }
{
    db.opens();
    one_reading();
    if !is_key(to) {
        return Err(EditFault::BadKey);
    }
    let n = lone_number(db, from)?;
    if is_in_use(db, from, to) {
        return Err(EditFault::KeyInUse);
    }
    let new = key_for(alloc, n, to)?;
    let pieces = renaming(alloc, db, &new, from, n)?;
    if are_too_long(db, pieces.as_slice()) {
        return Err(EditFault::FileTooLong);
    }
    Ok(pieces)
}

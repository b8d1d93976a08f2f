//! An item's body goes, and comes elsewhere in a line of its own.

ghost use Rattle.std.specs.Prelude.{◌≡◌, [], ◌∷◌, IfOk, IfErr};
ghost use Rattle.edit_spec.specs.Edits.{MoveEntry, last_position};
ghost use Rattle.bib_store.specs.Readings.{OfReading, IsItemNumber, IsItemGap};
ghost use Rattle.bib_edit.specs.Moving.{next_item, line_of, moved_pieces, FieldsHaveValues, IsFieldLong};
ghost use Rattle.bib_edit.specs.declared.fault.EditFault.TheVariants.{Memory};

use crate::fault::EditFault;
use crate::new_fields::is_long;
use crate::pieces::insertion_of;
use crate::taking_out::{body_of, removal_of};
use bib_scan::Fields;
use bib_store::{Database, ItemList, Piece};
use bib_text::{Seq, Text};
use std::alloc::{AllocError, Global};

/// The highest position that a moved entry can have. If an entry has the key, it is not counted.
pub(crate) fn last_position<L: ItemList>(db: &Database<L>, key: &[u8]) -> usize
    ensures { OfReading db.now (λ r. result ≡ last_position r (MoveEntry key.now 0)) }
{
    match db.find(key) {
        Ok(_) => db.item_count().saturating_sub(1),
        Err(_) => db.item_count(),
    }
}

/// The item before which item `n` will stand once it is moved, by old numbers.
pub(crate) fn next_item<L: ItemList>(db: &Database<L>, n: usize, position: usize) -> usize
    requires { IsItemNumber db.now position }
    ensures { result ≡ next_item n position }
{
    // for the proof: a position below the count of the items can grow by one
    db.opens();
    let _ = db.item_count();
    if position < n { position } else { position + 1 }
}

/// The body of item `n`, in a line of its own.
fn line_of<L: ItemList>(alloc: Global, db: &Database<L>, n: usize) -> Result<Text, AllocError>
    requires { IsItemNumber db.now n }
    ensures { IfOk result (λ text. OfReading db.now (λ r. text ≡ line_of r n)) }
{
    let mut text = Vec::from_slice(alloc, body_of(db, n))?;
    text.extend_from_slice(b"\n")?;
    Ok(Seq::from_vec(text))
}

/// Two pieces as a list.
fn two_pieces(alloc: Global, first: Piece, second: Piece) -> Result<Seq<Piece>, EditFault>
    ensures pieces { IfOk result (λ pieces. pieces ≡ first ∷ second ∷ []) }
    ensures only { IfErr result (λ fault. fault ≡ Memory) }
{
    let mut pieces = Vec::new(alloc);
    pieces.push(first)?;
    pieces.push(second)?;
    Ok(Seq::from_vec(pieces))
}

/// The pieces that take the body of item `n` out and put it before item `position` of what remains.
pub(crate) fn moved_pieces<L: ItemList>(
    alloc: Global,
    db: &Database<L>,
    n: usize,
    position: usize,
) -> Result<Seq<Piece>, EditFault>
    requires number { IsItemNumber db.now n }
    requires position { IsItemNumber db.now position }
    ensures pieces { IfOk result (λ pieces. OfReading db.now (λ r. pieces ≡ moved_pieces r n position)) }
    ensures only { IfErr result (λ fault. fault ≡ Memory) }
{
    let removal = removal_of(alloc, db, n)?;
    let line = line_of(alloc, db, n)?;
    let insertion = insertion_of(alloc, db, next_item(db, n, position), line);
    if position < n {
        return two_pieces(alloc, insertion, removal);
    }
    two_pieces(alloc, removal, insertion)
}

/// Whether the raw text of a field would be too long before item `n`. It takes time in the number of parts, and memory
/// for the parts of one value at a time.
pub(crate) fn is_field_long<L: ItemList>(
    alloc: Global,
    db: &Database<L>,
    n: usize,
    fields: Fields<'_>,
) -> Result<bool, EditFault>
    requires place { IsItemGap db.now n }
    requires values { FieldsHaveValues fields }
    ensures long { IfOk result (λ long. OfReading db.now (λ r. IsFieldLong long r n fields.entry)) }
    ensures only { IfErr result (λ fault. fault ≡ Memory) }
{
    let mut rest = fields;
    'fields: while let Some(field) = rest.next() {
        if is_long(alloc, db, n, field.value)? {
            return Ok(true);
        }
    }
    Ok(false)
}

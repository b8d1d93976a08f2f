//! An item's body goes, and its trail joins the text before it.

ghost use Rattle.std.specs.Prelude.{◌≡◌, ◌↔◌, IsTrue, IfOk, IfErr};
ghost use Rattle.bib_spec.specs.Tree.{is_comment};
ghost use Rattle.bib_spec.specs.Reading.{Item};
ghost use Rattle.bib_scan.specs.View.{view_of};
ghost use Rattle.bib_store.specs.Readings.{OfReading, IsItemNumber, IsItemGap};
ghost use Rattle.bib_edit.specs.Removal.{body_at, is_after_comment, text_before, ContinuesCleanly, JoinsCleanly, removal_of};
ghost use Rattle.bib_edit.specs.declared.fault.EditFault.TheVariants.{Memory};

use crate::fault::EditFault;
use bib_scan::{ItemView, Kind, is_clean_trail};
use bib_store::{Database, ItemList, Piece};
use bib_text::{Seq, copied};
use std::alloc::Global;

/// Whether the item is a comment.
fn is_comment(view: &ItemView<'_>) -> bool
    ensures { (i : Item) → view.now ≡ view_of i → result ≡ is_comment i.tree }
{
    match view.kind() {
        Kind::Comment => true,
        Kind::Entry | Kind::Macro | Kind::Preamble => false,
    }
}

/// Whether the text before item `n`, or at the end of the file, comes after a comment, and that text.
fn text_before<'a, L: ItemList>(db: &'a Database<L>, n: usize) -> (bool, &'a [u8])
    requires { IsItemGap db.now n }
    ensures { OfReading db.now (λ r. (result.0 ≡ is_after_comment r.items n) × (result.1.now ≡ text_before r.front r.items n)) }
{
    if n == 0 {
        return (false, db.front());
    }
    let before = db.item(n - 1);
    (is_comment(&before), before.trail())
}

/// Whether these bytes, joined to the text before item `n` or at the end of the file, begin no item there.
pub(crate) fn continues_cleanly<L: ItemList>(
    alloc: Global,
    db: &Database<L>,
    n: usize,
    more: &[u8],
) -> Result<bool, EditFault>
    requires { IsItemGap db.now n }
    ensures clean { IfOk result (λ clean. OfReading db.now (λ r. IsTrue clean ↔ ContinuesCleanly r n more.now)) }
    ensures only { IfErr result (λ fault. fault ≡ Memory) }
{
    let (after_comment, before) = text_before(db, n);
    let mut joined = Vec::from_slice(alloc, before)?;
    joined.extend_from_slice(more)?;
    Ok(is_clean_trail(after_comment, joined.as_slice()))
}

/// Whether the trail of item `n`, joined to the text before the item, begins no item there.
pub(crate) fn joins_cleanly<L: ItemList>(
    alloc: Global,
    db: &Database<L>,
    n: usize,
) -> Result<bool, EditFault>
    requires { IsItemNumber db.now n }
    ensures clean { IfOk result (λ clean. OfReading db.now (λ r. IsTrue clean ↔ JoinsCleanly r n)) }
    ensures only { IfErr result (λ fault. fault ≡ Memory) }
{
    continues_cleanly(alloc, db, n, db.item(n).trail())
}

/// The body of item `n`: its own bytes, without its trail.
pub(crate) fn body_of<L: ItemList>(db: &Database<L>, n: usize) -> &[u8]
    requires { IsItemNumber db.now n }
    ensures { OfReading db.now (λ r. result.now ≡ body_at r.items n) }
{
    db.item(n).body()
}

/// The piece that takes the body of item `n` out.
pub(crate) fn removal_of<L: ItemList>(
    alloc: Global,
    db: &Database<L>,
    n: usize,
) -> Result<Piece, EditFault>
    requires { IsItemNumber db.now n }
    ensures removal { IfOk result (λ piece. OfReading db.now (λ r. piece ≡ removal_of r n)) }
    ensures only { IfErr result (λ fault. fault ≡ Memory) }
{
    Ok(Piece {
        place: db.item_place(n) as u64,
        old: copied(alloc, body_of(db, n))?,
        new: Seq::empty(alloc),
    })
}

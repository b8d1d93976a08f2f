//! Steps that stay in the text of a journal, gone over one by one.

ghost use Rattle.std.specs.Prelude.{◌≡◌, ◌-◌, ◌≤◌, ◌↔◌, None, drop, take, length, IsTrue, IfOk, IfSome};
ghost use Rattle.history_spec.specs.Steps.{LeadTo, LeadOn, BelongTo, first_of};
ghost use Rattle.bib_journal.specs.Loading.{AreTurnable, last_of};

use crate::replay::{bytes_of, try_back, try_on};
use bib_store::{Database, ItemList};
use bib_text::Text;
use journal_format::PackedSteps;
use std::alloc::{AllocError, Global};

/// Goes back over the steps from `from` up to `to`, the last first, if they lead to this file.
fn go_back_between<L: ItemList>(
    alloc: Global,
    db: &mut Database<L>,
    steps: &PackedSteps<'_>,
    from: usize,
    to: usize,
) -> Result<bool, AllocError>
    requires turnable { AreTurnable steps.now }
    requires order { from ≤ to }
    requires within { to ≤ length steps.now }
    ensures yes { IfOk result (λ yes. IsTrue yes ↔ LeadTo (drop from (take to steps.now)) db.old) }
    ensures back { IfOk result (λ yes. IsTrue yes → db.new ≡ first_of (drop from (take to steps.now)) db.old) }
{
    let mut n = to;
    'step: while n > from {
        let step = steps.read(alloc, n - 1)?;
        if !try_back(alloc, db, step.pieces.as_slice())? {
            return Ok(false);
        }
        n -= 1;
    }
    Ok(true)
}

/// Makes all steps one after another, if they lead on from this file.
fn go_on_through<L: ItemList>(
    alloc: Global,
    db: &mut Database<L>,
    steps: &PackedSteps<'_>,
) -> Result<bool, AllocError>
    ensures yes { IfOk result (λ yes. IsTrue yes ↔ LeadOn steps.now db.old) }
    ensures on { IfOk result (λ yes. IsTrue yes → db.new ≡ last_of steps.now db.old) }
{
    db.opens();
    'step: for n in 0..steps.len() {
        let step = steps.read(alloc, n)?;
        if !try_on(db, step.pieces.as_slice())? {
            return Ok(false);
        }
    }
    Ok(true)
}

/// Whether all steps lead on from the file. It ends where it began.
fn lead_through<L: ItemList>(
    alloc: Global,
    db: &mut Database<L>,
    future: &PackedSteps<'_>,
) -> Result<bool, AllocError>
    requires { AreTurnable future.now }
    ensures yes { IfOk result (λ yes. IsTrue yes ↔ LeadOn future.now db.old) }
    ensures same { IfOk result (λ yes. IsTrue yes → db.new ≡ db.old) }
{
    if !go_on_through(alloc, db, future)? {
        return Ok(false);
    }
    if !go_back_between(alloc, db, future, 0, future.len())? {
        unreachable!();
    }
    Ok(true)
}

/// The file before the last `n` past steps, if the steps belong to this file. It ends where the past begins, and takes time
/// as reading and splicing each past step and two such for each future one.
pub(crate) fn file_before<L: ItemList>(
    alloc: Global,
    db: &mut Database<L>,
    past: &PackedSteps<'_>,
    future: &PackedSteps<'_>,
    n: usize,
) -> Result<Option<Text>, AllocError>
    requires past { AreTurnable past.now }
    requires future { AreTurnable future.now }
    requires within { n ≤ length past.now }
    ensures file { IfOk result (λ file. IfSome file (λ file. BelongTo past.now future.now db.old × (file ≡ first_of (drop (length past.now - n) past.now) db.old))) }
    ensures none { IfOk result (λ file. file ≡ None → BelongTo past.now future.now db.old → ⊥) }
{
    if !lead_through(alloc, db, future)? {
        return Ok(None);
    }
    let first = past.len() - n;
    if !go_back_between(alloc, db, past, first, past.len())? {
        return Ok(None);
    }
    // all items are looked up
    db.settle();
    let file = bytes_of(&*db)?;
    if !go_back_between(alloc, db, past, 0, first)? {
        return Ok(None);
    }
    Ok(Some(file))
}

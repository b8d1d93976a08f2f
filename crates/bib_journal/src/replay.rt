//! Steps of a journal, gone over one by one.

ghost use Rattle.std.specs.Prelude.{◌≡◌, ◌↔◌, IsTrue, IfOk};
ghost use Rattle.bib_spec.specs.Pieces.{applied};
ghost use Rattle.history_spec.specs.Steps.{IsAllowed, Leads, LeadTo, LeadOn, BelongTo, before, first_of};
ghost use Rattle.bib_journal.specs.Loading.{IsTurnable, AreTurnable, last_of};

use bib_store::{Database, ItemList, Piece, StoreFault, reverse};
use bib_text::Text;
use journal_format::Step;
use std::alloc::{AllocError, Global};

/// Makes a step, if it is allowed.
pub(crate) fn try_on<L: ItemList>(db: &mut Database<L>, step: &[Piece]) -> Result<bool, AllocError>
    ensures yes { IfOk result (λ yes. IsTrue yes ↔ IsAllowed step.now db.old) }
    ensures on { IfOk result (λ yes. IsTrue yes → db.new ≡ applied step.now db.old) }
{
    match db.splice_in_turn(step) {
        Ok(()) => Ok(true),
        Err(StoreFault::BadSplice) => Ok(false),
        Err(_) => Err(AllocError),
    }
}

/// Goes back over a step, if it leads to this file.
pub(crate) fn try_back<L: ItemList>(
    alloc: Global,
    db: &mut Database<L>,
    step: &[Piece],
) -> Result<bool, AllocError>
    requires { IsTurnable step.now }
    ensures yes { IfOk result (λ yes. IsTrue yes ↔ Leads step.now (before step.now db.old) db.old) }
    ensures back { IfOk result (λ yes. IsTrue yes → db.new ≡ before step.now db.old) }
{
    db.opens();
    match reverse(alloc, step) {
        Ok(back) => try_on(db, back.as_slice()),
        Err(_) => Err(AllocError),
    }
}

/// Goes back over steps, the last first, if they lead to this file.
fn go_back_over<L: ItemList>(
    alloc: Global,
    db: &mut Database<L>,
    steps: &[Step],
) -> Result<bool, AllocError>
    requires { AreTurnable steps.now }
    ensures yes { IfOk result (λ yes. IsTrue yes ↔ LeadTo steps.now db.old) }
    ensures back { IfOk result (λ yes. IsTrue yes → db.new ≡ first_of steps.now db.old) }
{
    let mut left = steps;
    'step: while let Some((step, others)) = left.split_last() {
        if !try_back(alloc, db, step.pieces.as_slice())? {
            return Ok(false);
        }
        left = others;
    }
    Ok(true)
}

/// Makes the steps one after another, if they lead on from this file.
fn go_on_over<L: ItemList>(db: &mut Database<L>, steps: &[Step]) -> Result<bool, AllocError>
    ensures yes { IfOk result (λ yes. IsTrue yes ↔ LeadOn steps.now db.old) }
    ensures on { IfOk result (λ yes. IsTrue yes → db.new ≡ last_of steps.now db.old) }
{
    db.opens();
    'step: for step in steps {
        if !try_on(db, step.pieces.as_slice())? {
            return Ok(false);
        }
    }
    Ok(true)
}

/// Whether steps lead to the file. It ends where it began.
fn lead_to<L: ItemList>(
    alloc: Global,
    db: &mut Database<L>,
    past: &[Step],
) -> Result<bool, AllocError>
    requires { AreTurnable past.now }
    ensures yes { IfOk result (λ yes. IsTrue yes ↔ LeadTo past.now db.old) }
    ensures same { IfOk result (λ yes. IsTrue yes → db.new ≡ db.old) }
{
    if !go_back_over(alloc, db, past)? {
        return Ok(false);
    }
    if !go_on_over(db, past)? {
        unreachable!();
    }
    Ok(true)
}

/// Whether steps lead on from the file. It ends where it began.
fn lead_on<L: ItemList>(
    alloc: Global,
    db: &mut Database<L>,
    future: &[Step],
) -> Result<bool, AllocError>
    requires { AreTurnable future.now }
    ensures yes { IfOk result (λ yes. IsTrue yes ↔ LeadOn future.now db.old) }
    ensures same { IfOk result (λ yes. IsTrue yes → db.new ≡ db.old) }
{
    if !go_on_over(db, future)? {
        return Ok(false);
    }
    if !go_back_over(alloc, db, future)? {
        unreachable!();
    }
    Ok(true)
}

/// Whether steps belong to the file. It ends where it began, and takes time as that many splices.
pub(crate) fn belong<L: ItemList>(
    alloc: Global,
    db: &mut Database<L>,
    past: &[Step],
    future: &[Step],
) -> Result<bool, AllocError>
    requires past { AreTurnable past.now }
    requires future { AreTurnable future.now }
    ensures yes { IfOk result (λ yes. IsTrue yes ↔ BelongTo past.now future.now db.old) }
    ensures same { IfOk result (λ yes. IsTrue yes → db.new ≡ db.old) }
{
    if !lead_to(alloc, db, past)? {
        return Ok(false);
    }
    let leads = lead_on(alloc, db, future)?;
    db.settle();
    Ok(leads)
}

/// Whether steps belong to the file. It ends where the past begins, and takes time as a splice for each past step and two for
/// each future one.
pub(crate) fn belong_once<L: ItemList>(
    alloc: Global,
    db: &mut Database<L>,
    past: &[Step],
    future: &[Step],
) -> Result<bool, AllocError>
    requires past { AreTurnable past.now }
    requires future { AreTurnable future.now }
    ensures yes { IfOk result (λ yes. IsTrue yes ↔ BelongTo past.now future.now db.old) }
    ensures back { IfOk result (λ yes. IsTrue yes → db.new ≡ first_of past.now db.old) }
{
    if !lead_on(alloc, db, future)? {
        return Ok(false);
    }
    go_back_over(alloc, db, past)
}

/// The open file's bytes.
pub(crate) fn bytes_of<L: ItemList>(db: &Database<L>) -> Result<Text, AllocError>
    ensures { IfOk result (λ bytes. bytes ≡ db.now) }
{
    match db.bytes() {
        Ok(bytes) => Ok(bytes),
        Err(_) => Err(AllocError),
    }
}

//! Making a step and taking it back.

ghost use Rattle.std.specs.Prelude.{◌≡◌, ◌↔◌, [], false, IsTrue, IfOk, OnOk, OnErr};
ghost use Rattle.bib_spec.specs.Pieces.{applied};
ghost use Rattle.history_spec.specs.Steps.{IsAllowed, Leads, before};

use bib_store::{Database, ItemList, Piece, StoreFault, reverse};
use journal_format::Step;
use std::alloc::{AllocError, Global};

/// Forgets steps. It asks for no memory.
pub(crate) fn forget(steps: &mut Vec<Step>)
    ensures { steps.new.items ≡ [] }
{
    steps.clear();
}

/// Makes a step, if it leads to a file that can be opened. Otherwise nothing changes.
pub(crate) fn go_on_if_open<L: ItemList>(
    db: &mut Database<L>,
    step: &[Piece],
) -> Result<bool, AllocError>
    ensures yes { IfOk result (λ yes. IsTrue yes ↔ IsAllowed step.now db.old) }
    ensures on { IfOk result (λ yes. IsTrue yes → db.new ≡ applied step.now db.old) }
    ensures no { IfOk result (λ yes. yes ≡ false → db.new ≡ db.old) }
    ensures err { OnErr result (db.new ≡ db.old) }
{
    match db.splice(step) {
        Ok(()) => Ok(true),
        Err(StoreFault::BadSplice) => Ok(false),
        Err(_) => Err(AllocError),
    }
}

/// Makes a step that leads to a file.
pub(crate) fn go_on<L: ItemList>(db: &mut Database<L>, step: &[Piece]) -> Result<(), AllocError>
    requires { IsAllowed step.now db.old }
    ensures ok { OnOk result (db.new ≡ applied step.now db.old) }
    ensures err { OnErr result (db.new ≡ db.old) }
{
    match db.splice(step) {
        Ok(()) => Ok(()),
        Err(StoreFault::Memory) => Err(AllocError),
        Err(_) => unreachable!(),
    }
}

/// Takes a step back that led to the file.
pub(crate) fn go_back<L: ItemList>(
    alloc: Global,
    db: &mut Database<L>,
    step: &[Piece],
) -> Result<(), AllocError>
    requires { Leads step.now (before step.now db.old) db.old }
    ensures ok { OnOk result (db.new ≡ before step.now db.old) }
    ensures err { OnErr result (db.new ≡ db.old) }
{
    match reverse(alloc, step) {
        Ok(back) => go_on(db, back.as_slice()),
        Err(_) => Err(AllocError),
    }
}

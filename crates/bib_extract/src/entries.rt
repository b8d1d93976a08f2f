//! The entries that are kept.

ghost use Rattle.std.specs.Prelude.{◌≡◌, ◌<◌, ℕ, List, length, true, false, replicate, All, IfOk};
ghost use Rattle.bib_spec.specs.Records.{entries_of};
ghost use Rattle.extract_spec.specs.Extract.{is_kept_entry};
ghost use Rattle.bib_store.specs.Readings.{OfReading, IsEntryNumber};
ghost use Rattle.bib_extract.specs.Marks.{is_marked, StayMarked, AreClosed, AreKept, AreMarksOf};

use bib_store::{Database, ItemList};
use std::alloc::{AllocError, Global};

/// Whether number `n` is marked.
pub(crate) fn is_marked(marks: &[bool], n: usize) -> bool
    ensures { result ≡ is_marked marks.now n }
{
    n < marks.len() && marks[n]
}

/// The marks of that many members, none of which is marked.
pub(crate) fn unmarked(alloc: Global, count: usize) -> Result<Vec<bool>, AllocError>
    ensures { IfOk result (λ marks. marks.items ≡ replicate count false) }
{
    vec![in alloc; false; count]
}

/// Which entries are kept for the list, by their numbers: those of the list, and all from which one of these inherits. It
/// visits each entry once, and takes no stack.
pub(crate) fn kept_entries<L: ItemList>(
    alloc: Global,
    db: &Database<L>,
    list: &[usize],
) -> Result<Vec<bool>, AllocError>
    requires { OfReading db.now (λ r. All (λ n. n < length (entries_of r)) list.now) }
    ensures { IfOk result (λ marks. OfReading db.now (λ r. AreMarksOf (entries_of r) list.now marks.items)) }
{
    let mut marks = unmarked(alloc, db.entry_count())?;
    mark_all(db, list, marks.as_mut_slice());
    Ok(marks)
}

/// Marks the entries of the list, and all from which one of these inherits.
fn mark_all<L: ItemList>(db: &Database<L>, list: &[usize], marks: &mut [bool])
    requires within { OfReading db.now (λ r. All (λ n. n < length (entries_of r)) list.now) }
    requires count { OfReading db.now (λ r. length marks.old ≡ length (entries_of r)) }
    requires unmarked { (n : ℕ) → is_marked marks.old n ≡ false }
    ensures { OfReading db.now (λ r. AreMarksOf (entries_of r) list.now marks.new) }
{
    'list: for n in list {
        mark_line(db, *n, marks);
    }
}

/// Marks entry `n`, its parent, that entry's parent, and so on, up to one that is marked.
fn mark_line<L: ItemList>(db: &Database<L>, n: usize, marks: &mut [bool])
    requires number { IsEntryNumber db.now n }
    requires count { OfReading db.now (λ r. length marks.old ≡ length (entries_of r)) }
    ensures marked { is_marked marks.new n ≡ true }
    ensures stay { StayMarked marks.old marks.new }
    ensures closed { OfReading db.now (λ r. AreClosed (entries_of r) marks.old → AreClosed (entries_of r) marks.new) }
    ensures kept { OfReading db.now (λ r. (list : List ℕ) → is_kept_entry (entries_of r) list n ≡ true → AreKept (entries_of r) list marks.old → AreKept (entries_of r) list marks.new) }
{
    db.opens();
    let mut heir = n;
    'line: while !is_marked(marks, heir) {
        marks[heir] = true;
        match db.parent(heir) {
            Some(parent) => heir = parent,
            None => return,
        }
    }
}

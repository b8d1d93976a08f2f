//! Slots of marks: few marks share a slot, so that most marks that a list doesn't have are known by their slot.

ghost use Rattle.std.specs.Prelude.{◌≡◌, ℕ, false};
ghost use Rattle.bib_items.specs.Slots.{slot_of, IsSeen};

use std::alloc::{AllocError, Global};

/// How many slots there are. Only time depends on it.
const SLOTS: usize = 1024;

/// The slot of a mark.
fn slot_of(mark: u32) -> usize
    ensures { result ≡ slot_of mark }
{
    mark as usize % SLOTS
}

/// No slot is taken.
pub(crate) fn free_slots(alloc: Global) -> Result<Vec<bool>, AllocError> {
    Ok(vec![in alloc; false; SLOTS]?)
}

/// Takes the slot of a mark.
pub(crate) fn see(seen: &mut Vec<bool>, mark: u32)
    ensures kept { (other : ℕ) → IsSeen seen.old.items other → IsSeen seen.new.items other }
    ensures added { IsSeen seen.new.items mark }
{
    let slot = slot_of(mark);
    if slot < seen.len() {
        seen[slot] = true;
    }
}

/// Whether the slot of a mark is taken.
pub(crate) fn is_seen(seen: &[bool], mark: u32) -> bool
    ensures { result ≡ false → IsSeen seen.now mark → ⊥ }
{
    let slot = slot_of(mark);
    seen.len() <= slot || seen[slot]
}

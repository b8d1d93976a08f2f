//! Entries to which each side gave another key.

ghost use Rattle.std.specs.Prelude.{◌≡◌, true};
ghost use Rattle.bib_renames.specs.Renamed.{HasEntry, LacksEntry, AreKeyConflicts, IsKeyConflict};
ghost use Rattle.bib_store.specs.Readings.{OfReading};

use bib_store::{Database, ItemList};
use bib_text::{Text, same_folded};

/// An entry of the common file with this key, to which each side gave another key.
#[derive(Debug, Drop)]
pub struct KeyConflict {
    pub key: Text,
    pub ours: Text,
    pub theirs: Text,
}

/// Whether exactly one entry has this key.
fn has<L: ItemList>(db: &Database<L>, key: &Text) -> bool
    ensures { result ≡ true → OfReading db.now (λ r. HasEntry key.now r) }
{
    db.holders(key.as_slice()) == 1
}

/// Whether no entry has this key.
fn lacks<L: ItemList>(db: &Database<L>, key: &Text) -> bool
    ensures { result ≡ true → OfReading db.now (λ r. LacksEntry key.now r) }
{
    db.holders(key.as_slice()) == 0
}

/// Whether each side gave the entry another key, and these differ.
fn is_key_conflict<L: ItemList>(
    base: &Database<L>,
    ours: &Database<L>,
    theirs: &Database<L>,
    conflict: &KeyConflict,
) -> bool
    ensures { result ≡ true → OfReading base.now (λ rb. OfReading ours.now (λ ro. OfReading theirs.now (λ rt. IsKeyConflict rb ro rt conflict.now))) }
{
    has(base, &conflict.key)
        && lacks(ours, &conflict.key)
        && lacks(theirs, &conflict.key)
        && has(ours, &conflict.ours)
        && has(theirs, &conflict.theirs)
        && lacks(base, &conflict.ours)
        && lacks(base, &conflict.theirs)
        && !same_folded(conflict.ours.as_slice(), conflict.theirs.as_slice())
}

/// Whether of each of these entries each side gave it another key, and these differ.
pub(crate) fn are_key_conflicts<L: ItemList>(
    base: &Database<L>,
    ours: &Database<L>,
    theirs: &Database<L>,
    conflicts: &[KeyConflict],
) -> bool
    ensures { result ≡ true → AreKeyConflicts base.now ours.now theirs.now conflicts.now }
{
    'conflicts: for k in 0..conflicts.len() {
        if !is_key_conflict(base, ours, theirs, &conflicts[k]) {
            return false;
        }
    }
    true
}

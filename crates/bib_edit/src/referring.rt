//! Entries whose crossrefs name others.

ghost use Rattle.std.specs.Prelude.{◌≡◌, ◌≤◌, ◌↔◌, Some, length, IsTrue};
ghost use Rattle.bib_spec.specs.Bytes.{name_limit};
ghost use Rattle.bib_spec.specs.Records.{entries_of, entry_named};
ghost use Rattle.edit_spec.specs.Edits.{IsReferred};
ghost use Rattle.bib_store.specs.Readings.{OfReading};
ghost use Rattle.bib_edit.specs.Removal.{IsParent};

use bib_store::{Database, ItemList};

/// Whether entry `m`, which the key names, is the parent of some entry: an entry other than `m` refers to the key.
pub(crate) fn is_parent<L: ItemList>(db: &Database<L>, key: &[u8], m: usize) -> bool
    requires { length key.now ≤ name_limit }
    ensures { OfReading db.now (λ r. entry_named (entries_of r) key.now ≡ Some m → IsTrue result ↔ IsParent (entries_of r) m) }
{
    match db.referrer(key, 0) {
        Some(n) if n == m => db.referrer(key, 1).is_some(),
        Some(_) => true,
        None => false,
    }
}

/// Whether another entry's crossref names the entry that the key names. It takes a few steps for each page of entries,
/// and time in the key's length.
pub(crate) fn is_referred<L: ItemList>(db: &Database<L>, key: &[u8]) -> bool
    ensures { OfReading db.now (λ r. IsTrue result ↔ IsReferred key.now (entries_of r)) }
{
    db.opens();
    match db.find(key) {
        Ok(m) => is_parent(db, key, m),
        Err(_) => false,
    }
}

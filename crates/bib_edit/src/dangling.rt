//! Keys that crossrefs wait for.

ghost use Rattle.std.specs.Prelude.{◌≡◌, true};
ghost use Rattle.bib_spec.specs.Text.{is_new_key};
ghost use Rattle.bib_spec.specs.Records.{entries_of};
ghost use Rattle.bib_store.specs.Readings.{OfReading};
ghost use Rattle.bib_edit.specs.Dangling.{is_awaited};

use bib_store::{Database, ItemList};

/// Whether a dangling crossref waits for this key. It takes a few steps for each page of entries, and time in the key's
/// length.
pub(crate) fn is_awaited<L: ItemList>(db: &Database<L>, key: &[u8]) -> bool
    requires { is_new_key key.now ≡ true }
    ensures { OfReading db.now (λ r. result ≡ is_awaited key.now (entries_of r)) }
{
    match db.find(key) {
        Ok(_) => false,
        Err(_) => db.referrer(key, 0).is_some(),
    }
}

//! The keys and the crossref texts of a file's entries.

ghost use Rattle.std.specs.Prelude.{IfOk};
ghost use Rattle.bib_spec.specs.Records.{entries_of};
ghost use Rattle.bib_store.specs.Readings.{OfReading};
ghost use Rattle.bibtex_places.specs.Lists.{AreKeysOf};

use bib_store::{Database, ItemList};
use bibtex_places::EntryKey;
use std::alloc::{AllocError, Global};

/// The keys and the crossref texts of all entries, in order.
pub(crate) fn entry_keys<'d, L: ItemList>(
    alloc: Global,
    db: &'d Database<L>,
) -> Result<Vec<EntryKey<'d>>, AllocError>
    ensures { IfOk result (λ given. OfReading db.now (λ r. AreKeysOf given.items (entries_of r))) }
{
    let mut given = Vec::new(alloc);
    'entries: for n in 0..db.entry_count() {
        given.push(EntryKey {
            key: db.entry(n).key(),
            crossref: db.crossref_text(n),
        })?;
    }
    Ok(given)
}

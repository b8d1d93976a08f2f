//! Crossrefs that name no entry.

ghost use Rattle.std.specs.Option.{option_copied};
ghost use Rattle.std.specs.Prelude.{◌≡◌};
ghost use Rattle.bib_spec.specs.Records.{entries_of};
ghost use Rattle.bib_store.specs.Readings.{OfReading, IsEntryNumber};
ghost use Rattle.bib_keys.specs.Dangling.{dangling_at};

use bib_store::{Database, ItemList};

/// The text of the crossref of entry `n`, if the crossref names no entry.
pub(crate) fn dangling_text<L: ItemList>(db: &Database<L>, n: usize) -> Option<&[u8]>
    requires { IsEntryNumber db.now n }
    ensures { OfReading db.now (λ r. option_copied result ≡ dangling_at (entries_of r) n) }
{
    if db.target(n).is_some() {
        return None;
    }
    db.crossref_text(n)
}

//! Crossrefs that are empty, beside entries without a key.

ghost use Rattle.std.specs.Prelude.{◌≡◌, false};
ghost use Rattle.std.specs.List.{list_any};
ghost use Rattle.std.specs.Option.{option_copied, option_map_or};
ghost use Rattle.bib_spec.specs.Records.{entries_of};
ghost use Rattle.bib_spec.specs.Texts.{is_empty};
ghost use Rattle.bib_store.specs.Readings.{OfReading};
ghost use Rattle.bib_answers.specs.Lint.{has_empty_crossref, has_no_key, has_empty_parents};

use bib_store::{Database, Paged};

/// Whether the file has an entry whose crossref is empty and an entry without a key, which BibTeX takes for the parent. It takes
/// time in the number of entries, and no memory.
pub fn has_empty_parents(db: &Database<Paged>) -> bool
    ensures { OfReading db.now (λ r. result ≡ has_empty_parents (entries_of r)) }
{
    has_empty_crossref(db) && has_no_key(db)
}

/// Whether the text is there and empty.
fn is_empty(text: Option<&[u8]>) -> bool
    ensures { result ≡ option_map_or is_empty (option_copied text.entry) false }
{
    match text {
        Some(text) => text.is_empty(),
        None => false,
    }
}

/// Whether an entry has an empty crossref.
fn has_empty_crossref(db: &Database<Paged>) -> bool
    ensures { OfReading db.now (λ r. result ≡ list_any has_empty_crossref (entries_of r)) }
{
    'entries: for n in 0..db.entry_count() {
        if is_empty(db.crossref_text(n)) {
            return true;
        }
    }
    false
}

/// Whether an entry has no key.
fn has_no_key(db: &Database<Paged>) -> bool
    ensures { OfReading db.now (λ r. result ≡ list_any has_no_key (entries_of r)) }
{
    'entries: for n in 0..db.entry_count() {
        if is_empty(Some(db.entry(n).key())) {
            return true;
        }
    }
    false
}

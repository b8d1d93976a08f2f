//! The first item from a place on.

ghost use Rattle.std.specs.Prelude.{IsTrue};
ghost use Rattle.bib_store.specs.Readings.{OfReading};
ghost use Rattle.bib_shelf.specs.Items.{IsFirstFrom, BeginsAt, ArePartedAt};

use bib_store::{Database, ItemList};

/// The number of the first item that does not begin before this place, or the number of items. It takes a binary search in the
/// list of items.
pub(crate) fn first_from<L: ItemList>(db: &Database<L>, place: usize) -> usize
    ensures { OfReading db.now (λ reading. IsFirstFrom reading place result) }
{
    let mut first = 0;
    let mut end = db.item_count();
    'search: while first < end {
        let middle = first + (end - first) / 2;
        if db.item_place(middle) < place {
            first = middle + 1;
        } else {
            end = middle;
        }
    }
    first
}

/// Whether an item begins at this place, or the file ends there. It takes a binary search in the list of items.
pub(crate) fn is_item_start<L: ItemList>(db: &Database<L>, place: usize) -> bool
    ensures { IsTrue result → OfReading db.now (λ reading. BeginsAt reading place) }
{
    db.item_place(first_from(db, place)) == place
}

/// Whether an item begins where each file but the last ends, so that what stands between two files is an item.
pub(crate) fn are_parted<L: ItemList>(db: &Database<L>, spans: &[(usize, usize)]) -> bool
    ensures { IsTrue result → OfReading db.now (λ reading. ArePartedAt reading spans.now) }
{
    'seams: for i in 1..spans.len() {
        if !is_item_start(db, spans[i - 1].1) {
            return false;
        }
    }
    true
}

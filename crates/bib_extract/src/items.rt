//! The items that are kept.

ghost use Rattle.std.specs.Prelude.{◌≡◌, ℕ, IfOk};
ghost use Rattle.bib_spec.specs.Reading.{Item};
ghost use Rattle.bib_scan.specs.View.{view_of};
ghost use Rattle.extract_spec.specs.Extract.{number_after, kept_from};
ghost use Rattle.bib_store.specs.Readings.{OfReading};
ghost use Rattle.bib_extract.specs.Marks.{is_marked};

use crate::awaited::{go_before, stays};
use crate::entries::{is_marked, unmarked};
use bib_scan::{ItemView, Kind};
use bib_store::{Database, ItemList};
use folded_map::FoldedMap;
use std::alloc::{AllocError, Global};

/// The number of the next entry before the item, if `n` is that of the next one after it.
fn number_before(item: &ItemView<'_>, n: usize) -> usize
    ensures { (i : Item) (m : ℕ) → item.now ≡ view_of i → n ≡ number_after m i.tree → result ≡ m }
{
    match item.kind() {
        Kind::Entry => n.saturating_sub(1),
        Kind::Macro | Kind::Preamble | Kind::Comment => n,
    }
}

/// Which items are kept, if these entries are, by their numbers. It walks from the last item to the first, and reads the fields
/// of the kept items, and the names of definitions. It takes memory for the marks, and for the names that are still to be
/// defined.
pub(crate) fn kept_items<L: ItemList>(
    alloc: Global,
    db: &Database<L>,
    entries: &[bool],
) -> Result<Vec<bool>, AllocError>
    ensures { IfOk result (λ marks. OfReading db.now (λ r. marks.items ≡ kept_from (is_marked entries.now) 0 r.items)) }
{
    db.opens();
    let mut names = FoldedMap::new(alloc);
    let mut n = db.entry_count();
    let mut k = db.item_count();
    let mut marks = unmarked(alloc, k)?;
    'items: while k > 0 {
        k -= 1;
        let item = db.item(k);
        n = number_before(&item, n);
        let is_kept = stays(&item, is_marked(entries, n), &names);
        marks[k] = is_kept;
        if is_kept {
            go_before(alloc, &mut names, &item)?;
        }
    }
    Ok(marks)
}

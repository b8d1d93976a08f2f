//! The walk over the at-signs of a file.

ghost use Rattle.std.specs.Prelude.{◌≡◌, ◌+◌, ◌++◌, ◌<◌, ◌≤◌, ◌^◌, List, Some, length, take, slice_get, IfOk, IfErr};
ghost use Rattle.std.specs.List.{list_any};
ghost use Rattle.bib_spec.specs.Text.{Text};
ghost use Rattle.bib_spec.specs.Tree.{Tree};
ghost use Rattle.bib_spec.specs.Texts.{is_empty};
ghost use Rattle.bib_spec.specs.Reading.{Item, bytes_of};
ghost use Rattle.bib_spec.specs.Records.{entries_of, keys_of, is_named};
ghost use Rattle.bib_scan.specs.View.{kind_of, view_of};
ghost use Rattle.bib_store.specs.Readings.{OfReading, IsItemNumber, is_entry_tree};
ghost use Rattle.bibtex_spec.specs.Plain.{not_plain, key_in};
ghost use Rattle.bibtex_plain.specs.Walking.{IsLastFrom, repeats, keys_in};
ghost use Rattle.bibtex_plain.specs.Walks.{IsWalk, IsCountOf};

use crate::items::item_breach;
use crate::lines::last_line;
use crate::signs::gap_breach;
use bib_scan::{ItemView, Kind};
use bib_store::{Database, Paged};

/// What was counted of the entries on the way to an item: how many there are, and whether one has the empty key.
#[derive(Clone, Copy, Debug)]
struct Count {
    entries: usize,
    has_empty: bool,
}

/// Where a walk is: at the place of an item, or at the end of the file. `is_over` says whether what BibTeX read last ends in the
/// last line.
#[derive(Clone, Copy, Debug)]
struct Walk {
    place: usize,
    count: Count,
    is_over: bool,
}

/// Whether an item of this kind is an entry.
fn is_entry(kind: Kind) -> bool
    ensures { (tree : Tree) → kind_of tree ≡ kind → result ≡ is_entry_tree tree }
{
    matches!(kind, Kind::Entry)
}

/// Whether the key has no byte.
fn is_empty_key(key: &[u8]) -> bool
    ensures { result ≡ is_empty key.now }
{
    key.is_empty()
}

/// Whether one of the entries before entry `n` has its key, folded, which is not empty.
fn is_key_repeated(db: &Database<Paged>, n: usize, key: &[u8]) -> bool
    requires { OfReading db.now (λ r. slice_get (keys_of (entries_of r)) n ≡ Some key.now) }
    ensures { OfReading db.now (λ r. result ≡ list_any (is_named key.now) (take n (keys_of (entries_of r)))) }
{
    if db.are_keys_apart() {
        return false;
    }
    match db.find(key) {
        Ok(first) => first < n,
        Err(_) => false,
    }
}

/// Whether item `n` is an entry whose key an earlier entry has, folded; the empty key counts. (bibtex 268)
fn is_repeated(db: &Database<Paged>, n: usize, item: &ItemView<'_>, count: Count) -> bool
    requires number { IsItemNumber db.now n }
    requires item { OfReading db.now (λ r. (i : Item) → slice_get r.items n ≡ Some i → item.now ≡ view_of i) }
    requires count { OfReading db.now (λ r. IsCountOf (keys_in (take n r.items)) count) }
    ensures { OfReading db.now (λ r. (i : Item) → slice_get r.items n ≡ Some i → result ≡ repeats (keys_in (take n r.items)) i.tree) }
{
    if !is_entry(item.kind()) {
        return false;
    }
    if is_empty_key(item.key()) {
        return count.has_empty;
    }
    is_key_repeated(db, count.entries, item.key())
}

/// What is counted with this item.
fn counted(item: &ItemView<'_>, count: Count) -> Count
    requires { count.entries + 1 < 2 ^ 64 }
    ensures entries { result.entries ≤ count.entries + 1 }
    ensures counted { (i : Item) (keys : List Text) → item.now ≡ view_of i → IsCountOf keys count → IsCountOf (keys ++ key_in i.tree) result }
{
    if !is_entry(item.kind()) {
        return count;
    }
    Count {
        entries: count.entries + 1,
        has_empty: count.has_empty || is_empty_key(item.key()),
    }
}

/// The walk at the first item of so many, or the place of the first at-sign of the front for which the file is not plain.
fn past_front(db: &Database<Paged>, items: usize, last: usize) -> Result<Walk, usize>
    requires items { OfReading db.now (λ r. items ≡ length r.items) }
    requires last { OfReading db.now (λ r. IsLastFrom last 0 (bytes_of r)) }
    ensures few { IfOk result (λ walk. walk.count.entries ≡ 0) }
    ensures next { IfOk result (λ walk. OfReading db.now (λ r. IsWalk r 0 walk)) }
    ensures breach { IfErr result (λ place. OfReading db.now (λ r. not_plain r ≡ Some place)) }
{
    db.opens();
    let front = db.front();
    let count = Count {
        entries: 0,
        has_empty: false,
    };
    match gap_breach(front, 0, last, items > 0, false) {
        Ok(is_over) => Ok(Walk {
            place: front.len(),
            count,
            is_over,
        }),
        Err(place) => Err(place),
    }
}

/// The walk at the item after item `n` of so many, or the place of the first at-sign of item `n` for which the file is not plain.
fn past_item(
    db: &Database<Paged>,
    n: usize,
    items: usize,
    last: usize,
    walk: Walk,
) -> Result<Walk, usize>
    requires number { IsItemNumber db.now n }
    requires items { OfReading db.now (λ r. items ≡ length r.items) }
    requires last { OfReading db.now (λ r. IsLastFrom last 0 (bytes_of r)) }
    requires walk { OfReading db.now (λ r. IsWalk r n walk) }
    requires few { (walk.count.entries ≤ n) × (n < items) }
    ensures few { IfOk result (λ next. next.count.entries ≤ n + 1) }
    ensures next { IfOk result (λ next. OfReading db.now (λ r. IsWalk r (n + 1) next)) }
    ensures breach { IfErr result (λ place. OfReading db.now (λ r. not_plain r ≡ Some place)) }
{
    db.opens();
    let item = db.item(n);
    let repeated = is_repeated(db, n, &item, walk.count);
    match item_breach(
        &item,
        walk.place,
        last,
        n + 1 < items,
        repeated,
        walk.is_over,
    ) {
        Ok(is_over) => Ok(Walk {
            place: walk.place + item.body().len() + item.trail().len(),
            count: counted(&item, walk.count),
            is_over,
        }),
        Err(place) => Err(place),
    }
}

/// The place of the first at-sign for which the file is not plain, in bytes from 0. If there is none, the file is plain: BibTeX 0.99d
/// reads the items that bibkeep reads, and no others. There may be an at-sign that BibTeX reads otherwise
/// - in the last line, after an item or an at-sign that ends there (bibtex 223, 237);
/// - if the name after it has an at-sign or a DEL, or more than 255 bytes (bibtex 33, 90, 238);
/// - inside an entry whose key an earlier entry has, after the key (bibtex 268).
/// It takes time in the file's length, and no memory.
pub fn not_plain(db: &Database<Paged>) -> Option<usize>
    ensures { OfReading db.now (λ r. result ≡ not_plain r) }
{
    let items = db.item_count();
    let last = last_line(db);
    let mut walk = match past_front(db, items, last) {
        Ok(first) => first,
        Err(place) => return Some(place),
    };
    'items: for n in 0..items {
        match past_item(db, n, items, last, walk) {
            Ok(next) => walk = next,
            Err(place) => return Some(place),
        }
    }
    None
}

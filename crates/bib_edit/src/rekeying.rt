//! The pieces that give entries new keys, and put these keys into crossrefs.

ghost use Rattle.std.specs.Prelude.{◌≡◌, ◌≤◌, ◌<◌, ◌+◌, ◌++◌, ℕ, None, Some, length, slice_get, IfOk, IfErr, IfSome, OnOk};
ghost use Rattle.std.specs.Option.{option_copied, IfNone};
ghost use Rattle.bib_spec.specs.Bytes.{name_limit};
ghost use Rattle.bib_spec.specs.Records.{entries_of, entry_named, target};
ghost use Rattle.bib_spec.specs.Reading.{Item};
ghost use Rattle.bib_scan.specs.View.{view_of};
ghost use Rattle.bib_scan.specs.Layout.{start_of};
ghost use Rattle.bib_store.specs.Readings.{OfReading, IsEntryNumber, IsItemGap, entry_items};
ghost use Rattle.bib_edit.specs.Definitions.{braced};
ghost use Rattle.bib_edit.specs.NewKeys.{key_of, key_piece, crossref_piece, new_target, IsEntrySeen, IsEntryPlace, pieces_at, rekeying, RefersAt, ArePassed, AreQuiet, HavePieces};
ghost use Rattle.bib_edit.specs.declared.fault.EditFault.TheVariants.{Memory};

use crate::address::field_named;
use crate::fault::EditFault;
use crate::new_keys::NewKeys;
use bib_scan::ItemView;
use bib_store::{Database, ItemList, Piece};
use bib_text::{Seq, Text, copied};
use std::alloc::{AllocError, Global};

/// The key in braces, as a crossref names it.
fn braced(alloc: Global, key: &[u8]) -> Result<Text, AllocError>
    ensures { IfOk result (λ text. text ≡ braced key.now) }
{
    let mut text = Vec::with_capacity(alloc, key.len().saturating_add(2))?;
    text.extend_from_slice(b"{")?;
    text.extend_from_slice(key)?;
    text.extend_from_slice(b"}")?;
    Ok(Seq::from_vec(text))
}

/// Adds the piece that gives the entry its new key, if it gets one.
pub(crate) fn push_key(
    alloc: Global,
    pieces: &mut Vec<Piece>,
    start: usize,
    view: &ItemView<'_>,
    key: Option<&[u8]>,
) -> Result<(), EditFault>
    requires { IsEntrySeen start view.now }
    ensures pieces { OnOk result (pieces.new.items ≡ pieces.old.items ++ key_piece start view.now (option_copied key.entry)) }
    ensures only { IfErr result (λ fault. fault ≡ Memory) }
{
    let Some(key) = key else {
        return Ok(());
    };
    pieces.push(Piece {
        place: (start + view.key_at()) as u64,
        old: copied(alloc, view.key())?,
        new: copied(alloc, key)?,
    })?;
    Ok(())
}

/// Adds the piece that puts the new key of the target into the crossref, if the target gets one.
fn push_crossref(
    alloc: Global,
    pieces: &mut Vec<Piece>,
    start: usize,
    view: &ItemView<'_>,
    key: Option<&[u8]>,
) -> Result<(), EditFault>
    requires { IsEntrySeen start view.now }
    ensures pieces { OnOk result (pieces.new.items ≡ pieces.old.items ++ crossref_piece start view.now (option_copied key.entry)) }
    ensures only { IfErr result (λ fault. fault ≡ Memory) }
{
    let Some(key) = key else {
        return Ok(());
    };
    let Some(field) = field_named(view, b"crossref") else {
        return Ok(());
    };
    pieces.push(Piece {
        place: (start + field.value_at) as u64,
        old: copied(alloc, field.value)?,
        new: braced(alloc, key)?,
    })?;
    Ok(())
}

/// The new key of the target of entry `n`, if it has a target and that gets one.
fn new_target<'a, L: ItemList>(db: &Database<L>, new: &'a NewKeys, n: usize) -> Option<&'a [u8]>
    requires { IsEntryNumber db.now n }
    ensures { OfReading db.now (λ r. option_copied result ≡ new_target new.now r n) }
{
    match db.target(n) {
        Some(target) => new.of(target),
        None => None,
    }
}

/// An entry: its number, the place where its item begins, and what is seen of the item.
#[derive(Clone, Copy)]
struct PlacedEntry<'v, 'a> {
    n: usize,
    start: usize,
    view: &'v ItemView<'a>,
}

/// Adds the pieces of this entry.
fn push_entry_at<L: ItemList>(
    alloc: Global,
    db: &Database<L>,
    new: &NewKeys,
    entry: PlacedEntry<'_, '_>,
    pieces: &mut Vec<Piece>,
) -> Result<(), EditFault>
    requires number { IsEntryNumber db.now entry.n }
    requires place { OfReading db.now (λ r. IsEntryPlace r entry.n entry.start) }
    requires view { OfReading db.now (λ r. (i : Item) → slice_get (entry_items r.items) entry.n ≡ Some i → entry.view.now ≡ view_of i) }
    ensures pieces { OnOk result (OfReading db.now (λ r. pieces.new.items ≡ pieces.old.items ++ pieces_at new.now r entry.entry.n)) }
    ensures only { IfErr result (λ fault. fault ≡ Memory) }
{
    db.opens();
    push_key(alloc, pieces, entry.start, entry.view, new.of(entry.n))?;
    push_crossref(
        alloc,
        pieces,
        entry.start,
        entry.view,
        new_target(db, new, entry.n),
    )
}

/// Adds the pieces of entry `n`.
fn push_entry<L: ItemList>(
    alloc: Global,
    db: &Database<L>,
    new: &NewKeys,
    n: usize,
    pieces: &mut Vec<Piece>,
) -> Result<(), EditFault>
    requires { IsEntryNumber db.now n }
    ensures pieces { OnOk result (OfReading db.now (λ r. pieces.new.items ≡ pieces.old.items ++ pieces_at new.now r n)) }
    ensures only { IfErr result (λ fault. fault ≡ Memory) }
{
    db.opens();
    let start = db.item_place(db.entry_item(n));
    let view = db.entry(n);
    let entry = PlacedEntry {
        n,
        start,
        view: &view,
    };
    push_entry_at(alloc, db, new, entry, pieces)
}

/// The place of item `to`, given that of item `from`. It takes a look at each item between them.
fn place_from<L: ItemList>(db: &Database<L>, from: usize, at: usize, to: usize) -> usize
    requires to { IsItemGap db.now to }
    requires at { OfReading db.now (λ r. at ≡ start_of r from) }
    ensures { OfReading db.now (λ r. result ≡ start_of r to) }
{
    db.opens();
    if to < from {
        return db.item_place(to);
    }
    let mut place = at;
    'items: for k in from..to {
        let view = db.item(k);
        place += view.body().len() + view.trail().len();
    }
    place
}

/// The pieces that give the entries their new keys, all at once, and put these keys into crossrefs. It takes time in
/// the length of the file, and memory for the pieces.
pub(crate) fn rekeying<L: ItemList>(
    alloc: Global,
    db: &Database<L>,
    new: &NewKeys,
) -> Result<Seq<Piece>, EditFault>
    ensures pieces { IfOk result (λ pieces. OfReading db.now (λ r. pieces ≡ rekeying new.now r)) }
    ensures only { IfErr result (λ fault. fault ≡ Memory) }
{
    db.opens();
    // for the proof: an item's number is below their count, so it can grow by one
    let _ = db.item_count();
    let mut pieces = Vec::new(alloc);
    let mut item = 0;
    let mut place = db.item_place(item);
    'entries: for n in 0..db.entry_count() {
        let next = db.entry_item(n);
        let start = place_from(db, item, place, next);
        let view = db.item(next);
        let entry = PlacedEntry {
            n,
            start,
            view: &view,
        };
        push_entry_at(alloc, db, new, entry, &mut pieces)?;
        item = next + 1;
        place = start + (view.body().len() + view.trail().len());
    }
    Ok(Seq::from_vec(pieces))
}

/// Entry `k` among those that refer to the key, if it comes before entry `end`.
fn referrer_before<L: ItemList>(db: &Database<L>, key: &[u8], k: usize, end: usize) -> Option<usize>
    requires { length key.now ≤ name_limit }
    ensures some { IfSome result (λ n. n < end × OfReading db.now (λ r. RefersAt r key.now k n)) }
    ensures none { IfNone result (OfReading db.now (λ r. (n : ℕ) → RefersAt r key.now k n → end ≤ n)) }
{
    match db.referrer(key, k) {
        Some(n) if n < end => Some(n),
        _ => None,
    }
}

/// The entries before entry `end` that refer to the key, without the first `from` of them.
#[derive(Clone, Copy)]
struct Referrers<'k> {
    key: &'k [u8],
    from: usize,
    end: usize,
}

/// Adds the pieces of these entries. It returns how many entries before entry `end` refer to the key.
fn push_referrers<L: ItemList>(
    alloc: Global,
    db: &Database<L>,
    new: &NewKeys,
    some: Referrers<'_>,
    pieces: &mut Vec<Piece>,
) -> Result<usize, EditFault>
    requires short { length some.key.now ≤ name_limit }
    requires end { OfReading db.now (λ r. some.end ≤ length (entries_of r)) }
    ensures pieces { IfOk result (λ k. OfReading db.now (λ r. (a : ℕ) → a ≤ some.entry.end → AreQuiet new.now r some.entry.key.now a some.entry.end → HavePieces new.now r some.entry.key.now some.entry.from a pieces.old.items → HavePieces new.now r some.entry.key.now k some.entry.end pieces.new.items)) }
    ensures only { IfErr result (λ fault. fault ≡ Memory) }
{
    let count = db.entry_count();
    'referrers: for k in some.from..count {
        let Some(n) = referrer_before(db, some.key, k, some.end) else {
            return Ok(k);
        };
        push_entry(alloc, db, new, n, pieces)?;
    }
    Ok(count)
}

/// The pieces that give entry `n`, the first with this key, a new key, and put that into the crossrefs whose target is
/// entry `n`. It takes time in the lengths of the entries that get pieces, a few steps for each page of entries and of
/// items for each of them, and memory for the pieces.
pub(crate) fn renaming<L: ItemList>(
    alloc: Global,
    db: &Database<L>,
    new: &NewKeys,
    key: &[u8],
    n: usize,
) -> Result<Seq<Piece>, EditFault>
    requires named { OfReading db.now (λ r. entry_named (entries_of r) key.now ≡ Some n) }
    requires alone { (m : ℕ) → (m ≡ n → ⊥) → key_of new.now m ≡ None }
    ensures pieces { IfOk result (λ pieces. OfReading db.now (λ r. pieces ≡ rekeying new.now r)) }
    ensures only { IfErr result (λ fault. fault ≡ Memory) }
{
    db.opens();
    let mut pieces = Vec::new(alloc);
    let first = Referrers {
        key,
        from: 0,
        end: n,
    };
    let before = push_referrers(alloc, db, new, first, &mut pieces)?;
    push_entry(alloc, db, new, n, &mut pieces)?;
    let later = Referrers {
        key,
        from: skip_self(db, key, before, n),
        end: db.entry_count(),
    };
    push_referrers(alloc, db, new, later, &mut pieces)?;
    Ok(Seq::from_vec(pieces))
}

/// `k`, or `k + 1` if entry `n` refers to its own key: how many of the entries up to it, itself included, refer to the
/// key, if `k` of those before it do.
fn skip_self<L: ItemList>(db: &Database<L>, key: &[u8], k: usize, n: usize) -> usize
    requires { length key.now ≤ name_limit }
    ensures { OfReading db.now (λ r. ArePassed r key.now k n → ArePassed r key.now result (n + 1)) }
{
    db.opens();
    match db.referrer(key, k) {
        Some(m) if m == n => k + 1,
        _ => k,
    }
}

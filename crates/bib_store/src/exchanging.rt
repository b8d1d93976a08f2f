//! Exchanging items for others.

ghost use Rattle.std.specs.Prelude.{◌≡◌, ◌+◌, ◌≤◌, ◌⊎◌, ℕ, None, length, IsTrue, IfOk, IfErr, OnOk, OnErr};
ghost use Rattle.bib_spec.specs.Reading.{Reading, Reads};
ghost use Rattle.bib_spec.specs.Texts.{too_long_at};
ghost use Rattle.bib_scan.specs.Layout.{IsLayoutOf};
ghost use Rattle.bib_store.specs.TablesOf.{AreTables};
ghost use Rattle.bib_store.specs.Following.{MayPassBetween};
ghost use Rattle.bib_store.specs.Firm.{IsFirm};
ghost use Rattle.bib_store.specs.Stored.{SayTheSameOf};
ghost use Rattle.bib_store.specs.Windows.{IsWindow, IsLead, OfJoined, AreNoted, OfPut, SayTheSameBefore, exchanged};
ghost use Rattle.bib_items.specs.declared.fault.StoreFault.TheVariants.{Memory, BadSplice};

use crate::change::{Change, PutItems};
use crate::following::{add_to_tables, are_others, remove_from_tables};
use crate::in_place::{put_behind_first, put_in_place};
use crate::tables::Tables;
use crate::window::Window;
use bib_items::{ItemList, StoreFault};
use std::alloc::Global;

/// Tables are updated item by item if at most this many items come, and at most this many go; otherwise they are built
/// again. Each item takes some steps for each page of the tables, so that for more items it costs less to build them again.
const FOLLOWED_LIMIT: usize = 64;

/// In a larger file, the limit is one in this many of all items.
const FOLLOWED_SHARE: usize = 16;

/// The limit is never above this.
const FOLLOWED_MOST: usize = 2048;

/// Replaces the items of a change's window by the change's items, and updates the tables. If each item replaces one of its
/// kind, with the same key and crossref, the tables are unchanged except for a definition, and the list may keep the memory
/// of the change's text. It is refused if memory runs out or a raw text is too long; nothing has changed then.
pub(crate) fn exchange<L: ItemList>(
    alloc: Global,
    front_len: usize,
    items: &mut L,
    tables: &mut Tables,
    change: Change,
) -> Result<(), StoreFault>
    requires window { IsWindow (L.items items.old) change.window }
    requires layout { IsLayoutOf change.text change.layout }
    ensures items { OnOk result ((inner : Reading) → Reads change.text inner → L.items items.new ≡ exchanged change.window inner.items (L.items items.old)) }
    ensures tables { OnOk result (OfJoined change front_len (L.items items.old) tables.old (λ db. AreTables db tables.new × (too_long_at db ≡ None))) }
    ensures len { OnOk result (tables.new.file_len ≡ change.file_len) }
    ensures refused { IfErr result (λ fault. fault ≡ BadSplice → OfJoined change front_len (L.items items.old) tables.old (λ db. too_long_at db ≡ None → ⊥)) }
    ensures only { IfErr result (λ fault. (fault ≡ BadSplice) ⊎ (fault ≡ Memory)) }
    ensures err { OnErr result ((L.items items.new ≡ L.items items.old) × SayTheSameOf (L.items items.old) tables.old tables.new) }
{
    let file_len = change.file_len;
    match put_in_place(alloc, tables, &*items, &change) {
        Some(bounds) => match exchange_items(items, change) {
            Ok(()) => {
                tables.file_len = file_len;
                Ok(())
            }
            Err(fault) => {
                tables.bounds = bounds;
                Err(fault)
            }
        },
        None => exchange_all(alloc, front_len, items, tables, change),
    }
}

/// Replaces the items of a change's window by the change's items, in the list alone. If memory is refused, the list is
/// unchanged.
fn exchange_items<L: ItemList>(items: &mut L, change: Change) -> Result<(), StoreFault>
    requires window { IsWindow (L.items items.old) change.window }
    requires layout { IsLayoutOf change.text change.layout }
    ensures items { OnOk result ((inner : Reading) → Reads change.text inner → L.items items.new ≡ exchanged change.window inner.items (L.items items.old)) }
    ensures only { IfErr result (λ fault. fault ≡ Memory) }
    ensures err { OnErr result (L.items items.new ≡ L.items items.old) }
{
    let window = change.window;
    if window.to - window.from == 1 && change.layout.len() == 1 {
        return exchange_one(items, &change);
    }
    let old_count = items.count();
    let Change { text, layout, .. } = change;
    items.take_in(window.from, text.into_vec(), &layout)?;
    let count = items.count() - old_count;
    items.remove_range(window.from + count, window.to + count);
    Ok(())
}

/// Replaces the one item of a change's window by the change's one item, in the list alone. If memory is refused, the list
/// is unchanged.
fn exchange_one<L: ItemList>(items: &mut L, change: &Change) -> Result<(), StoreFault>
    requires window { IsWindow (L.items items.old) change.now.window }
    requires layout { IsLayoutOf change.now.text change.now.layout }
    requires one_goes { change.now.window.to ≡ change.now.window.from + 1 }
    requires one_comes { length change.now.layout.items ≡ 1 }
    ensures items { OnOk result ((inner : Reading) → Reads change.now.text inner → L.items items.new ≡ exchanged change.now.window inner.items (L.items items.old)) }
    ensures only { IfErr result (λ fault. fault ≡ Memory) }
    ensures err { OnErr result (L.items items.new ≡ L.items items.old) }
{
    let text = change.text.as_slice();
    let body = change.layout.body(text, 0);
    let trail = change.layout.trail(text, 0);
    items.replace(change.window.from, body, trail)
}

/// Replaces the items of a change's window by the change's items, and updates the tables. The list may keep the memory of the
/// change's text. It is refused if memory runs out or a raw text is too long; the list is then unchanged, and the tables say
/// what they said.
fn exchange_all<L: ItemList>(
    alloc: Global,
    front_len: usize,
    items: &mut L,
    tables: &mut Tables,
    change: Change,
) -> Result<(), StoreFault>
    requires window { IsWindow (L.items items.old) change.window }
    requires layout { IsLayoutOf change.text change.layout }
    ensures items { OnOk result ((inner : Reading) → Reads change.text inner → L.items items.new ≡ exchanged change.window inner.items (L.items items.old)) }
    ensures tables { OnOk result (OfJoined change front_len (L.items items.old) tables.old (λ db. AreTables db tables.new × (too_long_at db ≡ None))) }
    ensures len { OnOk result (tables.new.file_len ≡ change.file_len) }
    ensures refused { IfErr result (λ fault. fault ≡ BadSplice → OfJoined change front_len (L.items items.old) tables.old (λ db. too_long_at db ≡ None → ⊥)) }
    ensures only { IfErr result (λ fault. (fault ≡ BadSplice) ⊎ (fault ≡ Memory)) }
    ensures err { OnErr result ((L.items items.new ≡ L.items items.old) × SayTheSameOf (L.items items.old) tables.old tables.new) }
{
    let old_count = items.count();
    let Change {
        window,
        file_len,
        text,
        layout,
    } = change;
    items.take_in(window.from, text.into_vec(), &layout)?;
    let count = items.count() - old_count;
    let put = PutItems {
        window,
        file_len,
        count,
        notes: layout.into_notes(),
    };
    match renew(alloc, front_len, items, tables, &put) {
        Ok(()) => {
            items.remove_range(window.from + count, window.to + count);
            Ok(())
        }
        Err(fault) => {
            items.remove_range(window.from, window.from + count);
            Err(fault)
        }
    }
}

/// Updates the tables for a change whose items are in the list. If few items come and go, and none is a definition or nothing
/// depends on definitions, the tables are updated item by item. An item that only gets another trail neither comes nor goes.
/// If it is refused, the tables say what they said. No item changes.
fn renew<L: ItemList>(
    alloc: Global,
    front_len: usize,
    items: &mut L,
    tables: &mut Tables,
    put: &PutItems,
) -> Result<(), StoreFault>
    requires ordered { put.now.window.from ≤ put.now.window.to }
    requires within { put.now.window.to + put.now.count ≤ length (L.items items.old) }
    requires noted { AreNoted put.now (L.items items.old) }
    ensures items { L.items items.new ≡ L.items items.old }
    ensures tables { OnOk result (OfPut put.now front_len (L.items items.old) tables.old (λ db. AreTables db tables.new × (too_long_at db ≡ None))) }
    ensures len { OnOk result (tables.new.file_len ≡ put.now.file_len) }
    ensures refused { IfErr result (λ fault. fault ≡ BadSplice → OfPut put.now front_len (L.items items.old) tables.old (λ db. too_long_at db ≡ None → ⊥)) }
    ensures only { IfErr result (λ fault. (fault ≡ BadSplice) ⊎ (fault ≡ Memory)) }
    ensures err { OnErr result (SayTheSameBefore put.now (L.items items.old) tables.old tables.new) }
{
    let lead = unchanged_first(&*items, put.window, put.count);
    if !can_follow(&*items, &*tables, put.window, put.count, lead) {
        return renew_many(alloc, front_len, items, tables, put);
    }
    match follow(alloc, &*items, tables, put, lead) {
        Ok(()) => return Ok(()),
        // firm tables refuse items with which they would not be firm
        Err(fault) => {
            if !tables.is_firm() {
                return Err(fault);
            }
        }
    }
    *tables = remake(alloc, front_len, items, put)?;
    Ok(())
}

/// Updates the tables as `renew` does, where many items come and go. If all except the first each replace one of their kind,
/// the first alone comes and goes. Otherwise the tables are built again.
fn renew_many<L: ItemList>(
    alloc: Global,
    front_len: usize,
    items: &mut L,
    tables: &mut Tables,
    put: &PutItems,
) -> Result<(), StoreFault>
    requires ordered { put.now.window.from ≤ put.now.window.to }
    requires within { put.now.window.to + put.now.count ≤ length (L.items items.old) }
    requires noted { AreNoted put.now (L.items items.old) }
    ensures items { L.items items.new ≡ L.items items.old }
    ensures tables { OnOk result (OfPut put.now front_len (L.items items.old) tables.old (λ db. AreTables db tables.new × (too_long_at db ≡ None))) }
    ensures len { OnOk result (tables.new.file_len ≡ put.now.file_len) }
    ensures refused { IfErr result (λ fault. fault ≡ BadSplice → OfPut put.now front_len (L.items items.old) tables.old (λ db. too_long_at db ≡ None → ⊥)) }
    ensures only { IfErr result (λ fault. (fault ≡ BadSplice) ⊎ (fault ≡ Memory)) }
    ensures err { OnErr result (SayTheSameBefore put.now (L.items items.old) tables.old tables.new) }
{
    items.prepare(usize::MAX);
    if put_behind_first(alloc, tables, &*items, put) {
        return Ok(());
    }
    *tables = remake(alloc, front_len, items, put)?;
    Ok(())
}

/// 1 if the first new item differs from the first old one in its trail alone, else 0. The `count` new items are in the
/// list, before the old ones, those of the window. It takes one step for each byte of that item's body.
pub(crate) fn unchanged_first<L: ItemList>(items: &L, window: Window, count: usize) -> usize
    requires ordered { window.from ≤ window.to }
    requires within { window.to + count ≤ length (L.items items.now) }
    ensures { IsLead window count result (L.items items.now) }
{
    // for the proof: the count fits a usize
    let _ = items.count();
    if count == 0 || window.from == window.to {
        return 0;
    }
    if items.body(window.from) == items.body(window.from + count) {
        return 1;
    }
    0
}

/// Whether the tables can be updated item by item: few of all items come and go, and none of them is a definition, except
/// perhaps the lead, or the tables are firm.
pub(crate) fn can_follow<L: ItemList>(
    items: &L,
    tables: &Tables,
    window: Window,
    count: usize,
    lead: usize,
) -> bool
    requires within { window.to + count ≤ length (L.items items.now) }
    requires lead { IsLead window count lead (L.items items.now) }
    ensures come { IsTrue result → MayPassBetween tables.now (window.from + lead) (window.from + count) (L.items items.now) }
    ensures gone { IsTrue result → MayPassBetween tables.now (window.from + count + lead) (window.to + count) (L.items items.now) }
{
    let all = items.count();
    let first_old = window.from + count;
    let most = count.max(window.to - window.from);
    most <= (all / FOLLOWED_SHARE).clamp(FOLLOWED_LIMIT, FOLLOWED_MOST)
        && may_pass(items, tables, window.from + lead, first_old)
        && may_pass(items, tables, first_old + lead, window.to + count)
}

/// Whether the items from number `from` up to `to` may come and go in the tables: the tables are firm, or none of the items
/// is a definition.
fn may_pass<L: ItemList>(items: &L, tables: &Tables, from: usize, to: usize) -> bool
    requires ordered { from ≤ to }
    requires within { to ≤ length (L.items items.now) }
    ensures { IsTrue result → MayPassBetween tables.now from to (L.items items.now) }
{
    tables.is_firm() || are_others(items, from, to)
}

/// Updates the tables item by item: the change's items come, and those of its window go. The first `lead` items of both count
/// as the same, and stay in the tables.
fn follow<L: ItemList>(
    alloc: Global,
    items: &L,
    tables: &mut Tables,
    put: &PutItems,
    lead: usize,
) -> Result<(), StoreFault>
    requires within { put.now.window.to + put.now.count ≤ length (L.items items.now) }
    requires lead { IsLead put.now.window put.now.count lead (L.items items.now) }
    requires come { MayPassBetween tables.old (put.now.window.from + lead) (put.now.window.from + put.now.count) (L.items items.now) }
    requires gone { MayPassBetween tables.old (put.now.window.from + put.now.count + lead) (put.now.window.to + put.now.count) (L.items items.now) }
    ensures tables { OnOk result ((front_len : ℕ) → OfPut put.now front_len (L.items items.now) tables.old (λ db. AreTables db tables.new × (too_long_at db ≡ None))) }
    ensures len { OnOk result (tables.new.file_len ≡ put.now.file_len) }
    ensures firm { IsFirm tables.old → IsFirm tables.new }
    ensures refused { IfErr result (λ fault. fault ≡ BadSplice → (IsFirm tables.new → ⊥) → (front_len : ℕ) → OfPut put.now front_len (L.items items.now) tables.old (λ db. too_long_at db ≡ None → ⊥)) }
    ensures only { IfErr result (λ fault. (fault ≡ BadSplice) ⊎ (fault ≡ Memory)) }
    ensures err { OnErr result (SayTheSameBefore put.now (L.items items.now) tables.old tables.new) }
{
    let window = put.window;
    // for the proof: the count fits a usize
    let _ = items.count();
    let first = window.from + lead;
    let first_old = window.from + put.count;
    match add_to_tables(alloc, tables, items, first, first, first_old) {
        Ok(()) => {
            let to = window.to + put.count;
            remove_from_tables(tables, items, first_old, first_old + lead, to);
            tables.file_len = put.file_len;
            Ok(())
        }
        Err(fault) => Err(fault),
    }
}

/// The tables of all items except those of the window of a change whose items are in the list. The list is prepared for
/// look-ups of all items first. No item changes.
fn remake<L: ItemList>(
    alloc: Global,
    front_len: usize,
    items: &mut L,
    put: &PutItems,
) -> Result<Tables, StoreFault>
    requires ordered { put.now.window.from ≤ put.now.window.to }
    requires within { put.now.window.to + put.now.count ≤ length (L.items items.old) }
    ensures items { L.items items.new ≡ L.items items.old }
    ensures tables { IfOk result (λ tables. (t : Tables) → OfPut put.now front_len (L.items items.old) t (λ db. AreTables db tables × (too_long_at db ≡ None))) }
    ensures len { IfOk result (λ tables. tables.file_len ≡ put.now.file_len) }
    ensures refused { IfErr result (λ fault. fault ≡ BadSplice → (t : Tables) → OfPut put.now front_len (L.items items.old) t (λ db. too_long_at db ≡ None → ⊥)) }
    ensures only { IfErr result (λ fault. (fault ≡ BadSplice) ⊎ (fault ≡ Memory)) }
{
    items.prepare(usize::MAX);
    let window = put.window;
    // for the proof: the count fits a usize
    let _ = items.count();
    let first_old = window.from + put.count;
    match Tables::of(
        alloc,
        put.file_len,
        front_len,
        &*items,
        first_old,
        window.to + put.count,
    ) {
        Ok(tables) => Ok(tables),
        Err(fault) => {
            if fault.kind == 8 {
                return Err(StoreFault::BadSplice);
            }
            Err(StoreFault::Memory)
        }
    }
}

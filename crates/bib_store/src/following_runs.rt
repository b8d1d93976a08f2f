//! Runs of pieces that lie apart. The items that they touch come and go run by run; what is between runs is unchanged.

ghost use Rattle.std.specs.Prelude.{◌≡◌, ◌+◌, ◌-◌, ◌≤◌, ◌<◌, ◌++◌, length, take, List, Some, IfOk, OnOk, OnErr};
ghost use Rattle.std.specs.List.{between};
ghost use Rattle.bib_spec.specs.Text.{Text as Bytes};
ghost use Rattle.bib_spec.specs.Reading.{Reading, Reads};
ghost use Rattle.bib_scan.specs.Layout.{IsLayoutOf};
ghost use Rattle.bib_items.specs.declared.list.Item.{Item};
ghost use Rattle.bib_items.specs.Items.{all_stored, without_range};
ghost use Rattle.bib_store.specs.Firm.{IsFirm};
ghost use Rattle.bib_store.specs.Following.{MayPassBetween};
ghost use Rattle.bib_store.specs.Runs.{IsRunChange, AreInserted, IsMeasured, StaysMeasured, StayFollowed, FollowInserted, ComesBack, LeadWithin};
ghost use Rattle.bib_spec.specs.Pieces.{Fit, applied};
ghost use Rattle.bib_store.specs.Stored.{file_of, IsKept};
ghost use Rattle.bib_store.specs.Windows.{IsWindow, HasLead, ArePut, exchanged};

use crate::change::{Change, change_near};
use crate::exchanging::{can_follow, unchanged_first};
use crate::following::{add_to_tables, remove_from_tables};
use crate::runs::RunFault;
use crate::tables::Tables;
use crate::touching::touched;
use bib_data::Piece;
use bib_items::ItemList;
use bib_scan::FILE_LIMIT;
use bib_text::Text;
use std::alloc::Global;

/// The change that a run of pieces makes. It touches only the front and the first `n` items. It is refused if the pieces
/// don't serve there.
fn run_change<L: ItemList>(
    alloc: Global,
    front: &Text,
    items: &L,
    tables: &Tables,
    n: usize,
    run: &[Piece],
) -> Result<Change, RunFault>
    requires measured { IsMeasured front.now (L.items items.now) tables.now }
    ensures { IfOk result (IsRunChange run.now front.now (L.items items.now) n) }
{
    let front = front.as_slice();
    let window = touched(front, items, tables.file_len, run);
    let Some(change) = change_near(alloc, front, items, tables.file_len, window, run)? else {
        return Err(RunFault::NotApart);
    };
    if change.window.to > n {
        return Err(RunFault::NotApart);
    }
    Ok(change)
}

/// What was inserted for a change before the items of its window.
#[derive(Drop)]
struct Inserted {
    /// How many items were inserted.
    count: usize,
    /// How many of them are the lead: in the tables, these count as the first items of the window.
    lead: usize,
}

/// Adds to the tables the `count` items that were inserted for a change, except its lead, which counts as the first of the
/// window. It returns how many items the lead has. It is refused if the items are many, or if they may not come and go; the
/// tables then say what they said.
fn add_few<L: ItemList>(
    alloc: Global,
    tables: &mut Tables,
    items: &L,
    change: &Change,
    count: usize,
) -> Result<usize, RunFault>
    requires ordered { change.now.window.from ≤ change.now.window.to }
    requires within { change.now.window.to + count ≤ length (L.items items.now) }
    ensures lead { IfOk result (HasLead change.now.window count) }
    ensures come { IfOk result (λ lead. MayPassBetween tables.old (change.now.window.from + lead) (change.now.window.from + count) (L.items items.now)) }
    ensures gone { IfOk result (λ lead. MayPassBetween tables.old (change.now.window.from + count + lead) (change.now.window.to + count) (L.items items.now)) }
    ensures followed { IfOk result (λ lead. (old : List Item) → ArePut change.now old (L.items items.now) count → FollowInserted change.now lead old tables.old tables.new) }
    ensures comes { IfOk result (λ lead. (old : List Item) → ArePut change.now old (L.items items.now) count → ComesBack change.now lead old) }
    ensures firm { IsFirm tables.old → IsFirm tables.new }
    ensures len { tables.new.file_len ≡ tables.old.file_len }
    ensures back { OnErr result ((old : List Item) (inner : Reading) → Reads change.now.text inner → ArePut change.now old (L.items items.now) count → StayFollowed (length old - change.now.window.to) (take change.now.window.to old) tables.old (take change.now.window.to old) tables.new) }
{
    let window = change.window;
    // for the proof: the count fits a usize
    let _ = items.count();
    let lead = unchanged_first(items, window, count);
    if !can_follow(items, tables, window, count, lead) {
        return Err(RunFault::NotApart);
    }
    let first = window.from + lead;
    add_to_tables(alloc, tables, items, first, first, window.from + count)?;
    Ok(lead)
}

/// Inserts the items of a change before those of its window, in the list and in the tables. It is refused if these are
/// many, if one has a text that is too long or may not come, or if the file would be too long; nothing has changed then.
fn insert_run<L: ItemList>(
    alloc: Global,
    items: &mut L,
    tables: &mut Tables,
    change: &Change,
) -> Result<Inserted, RunFault>
    requires window { IsWindow (L.items items.old) change.now.window }
    requires layout { IsLayoutOf change.now.text change.now.layout }
    ensures inserted { IfOk result (λ b. AreInserted change.now tables.old (L.items items.old) (L.items items.new) b.count b.lead) }
    ensures measured { StaysMeasured (L.items items.old) tables.old (L.items items.new) tables.new }
    ensures followed { IfOk result (λ b. FollowInserted change.now b.lead (L.items items.old) tables.old tables.new) }
    ensures comes { IfOk result (λ b. ComesBack change.now b.lead (L.items items.old)) }
    ensures firm { IsFirm tables.old → IsFirm tables.new }
    ensures back { OnErr result (StayFollowed (length (L.items items.old) - change.now.window.to) (take change.now.window.to (L.items items.old)) tables.old (take change.now.window.to (L.items items.old)) tables.new) }
    ensures err { OnErr result (L.items items.new ≡ L.items items.old) }
{
    let from = change.window.from;
    let text = change.text.as_slice();
    let front_len = change.layout.front(text).len();
    let file_len = tables.file_len.saturating_add(text.len() - front_len);
    if file_len > FILE_LIMIT {
        return Err(RunFault::NotApart);
    }
    let old_count = items.count();
    items.insert_all(from, text, &change.layout)?;
    let count = items.count() - old_count;
    match add_few(alloc, tables, &*items, change, count) {
        Ok(lead) => {
            tables.file_len = file_len;
            Ok(Inserted { count, lead })
        }
        Err(fault) => {
            items.remove_range(from, from + count);
            Err(fault)
        }
    }
}

/// Removes the items from number `from` up to `to` from the list. The first `lead` of them are not in the tables. The
/// others may come and go, and are removed from the tables too, where they have the numbers from `at` on. It asks for no
/// memory.
fn remove_run<L: ItemList>(
    items: &mut L,
    tables: &mut Tables,
    at: usize,
    from: usize,
    lead: usize,
    to: usize,
)
    requires low { at ≤ from + lead }
    requires ordered { from + lead ≤ to }
    requires within { to ≤ length (L.items items.old) }
    requires others { MayPassBetween tables.old (from + lead) to (L.items items.old) }
    requires measured { (front : Bytes) × IsMeasured front (L.items items.old) tables.old }
    ensures items { L.items items.new ≡ without_range from to (L.items items.old) }
    ensures measured { StaysMeasured (L.items items.old) tables.old (L.items items.new) tables.new }
    ensures firm { IsFirm tables.old → IsFirm tables.new }
    ensures followed { (before : List Item) → length before ≡ at → StayFollowed (length (L.items items.old) - to) (before ++ between (from + lead) to (L.items items.old)) tables.old before tables.new }
{
    // for the proof: the count fits a usize
    let _ = items.count();
    let len = items.start(to) - items.start(from);
    remove_from_tables(tables, &*items, at, from + lead, to);
    items.remove_range(from, to);
    tables.file_len -= len;
}

/// Replaces the front and the first items by those of a change. It is refused if the items are many, if one has a text that
/// is too long or may not come, or if memory runs out; nothing has changed then.
fn replace_front<L: ItemList>(
    alloc: Global,
    front: &mut Text,
    items: &mut L,
    tables: &mut Tables,
    change: &Change,
) -> Result<(), RunFault>
    requires window { IsWindow (L.items items.old) change.now.window }
    requires layout { IsLayoutOf change.now.text change.now.layout }
    requires measured { IsMeasured front.old (L.items items.old) tables.old }
    ensures front { OnOk result ((inner : Reading) → Reads change.now.text inner → front.new ≡ inner.front) }
    ensures items { OnOk result ((inner : Reading) → Reads change.now.text inner → L.items items.new ≡ exchanged change.now.window inner.items (L.items items.old)) }
    ensures followed { OnOk result ((inner : Reading) → Reads change.now.text inner
        → StayFollowed (length (L.items items.old) - change.now.window.to) (take change.now.window.to (L.items items.old)) tables.old (take change.now.window.from (L.items items.old) ++ all_stored inner.items) tables.new) }
    ensures len { OnOk result (tables.new.file_len ≡ change.now.file_len) }
    ensures firm { IsFirm tables.old → IsFirm tables.new }
    ensures measured { OnErr result (StaysMeasured (L.items items.old) tables.old (L.items items.new) tables.new) }
    ensures back { OnErr result (StayFollowed (length (L.items items.old) - change.now.window.to) (take change.now.window.to (L.items items.old)) tables.old (take change.now.window.to (L.items items.old)) tables.new) }
    ensures err { OnErr result ((front.new ≡ front.old) × (L.items items.new ≡ L.items items.old)) }
{
    let new_front = change.layout.front(change.text.as_slice()).to_vec(alloc)?;
    let inserted = insert_run(alloc, items, tables, change)?;
    // for the proof: the count fits a usize
    let _ = items.count();
    let first_old = change.window.from + inserted.count;
    let end = change.window.to + inserted.count;
    remove_run(items, tables, first_old, first_old, inserted.lead, end);
    tables.file_len = change.file_len;
    *front = Text::from_vec(new_front);
    Ok(())
}

/// Replaces what pieces touch of the front and the first `n` items, run by run, from the last to the first. `starts` has the
/// number of the piece with which each run begins. The new items of a run are inserted before its old items, which are
/// removed only after the earlier runs are done. If an earlier run is refused, the new items are removed again, and nothing
/// has changed. Only the first run may change the front.
fn follow_runs<L: ItemList>(
    alloc: Global,
    front: &mut Text,
    items: &mut L,
    tables: &mut Tables,
    n: usize,
    starts: &[usize],
    pieces: &[Piece],
) -> Result<(), RunFault>
    requires measured { IsMeasured front.old (L.items items.old) tables.old }
    requires within { n ≤ length (L.items items.old) }
    ensures measured { IsMeasured front.new (L.items items.new) tables.new }
    ensures led { OnOk result (LeadWithin pieces.now n front.old (L.items items.old) tables.old front.new (L.items items.new) tables.new) }
    ensures firm { IsFirm tables.old → IsFirm tables.new }
    ensures back { OnErr result (StayFollowed (length (L.items items.old) - n) (take n (L.items items.old)) tables.old (take n (L.items items.old)) tables.new) }
    ensures err { OnErr result ((front.new ≡ front.old) × (L.items items.new ≡ L.items items.old)) }
{
    let Some((start, starts)) = starts.split_last() else {
        if pieces.is_empty() {
            return Ok(());
        }
        return Err(RunFault::NotApart);
    };
    let (earlier, run) = pieces.split_at(pieces.len().min(*start));
    let change = run_change(alloc, &*front, &*items, tables, n, run)?;
    if change.window.with_front {
        if !earlier.is_empty() {
            return Err(RunFault::NotApart);
        }
        replace_front(alloc, front, items, tables, &change)?;
        return Ok(());
    }
    let from = change.window.from;
    let touched = change.window.to - from;
    let old_count = items.count();
    let inserted = insert_run(alloc, items, tables, &change)?;
    // for the proof: the count fits a usize
    let _ = items.count();
    match follow_runs(alloc, front, items, tables, from, starts, earlier) {
        Ok(()) => {
            let first_old = items.count() - (old_count - from);
            remove_run(
                items,
                tables,
                first_old,
                first_old,
                inserted.lead,
                first_old + touched,
            );
            Ok(())
        }
        Err(fault) => {
            remove_run(
                items,
                tables,
                from + inserted.lead,
                from,
                inserted.lead,
                from + inserted.count,
            );
            Err(fault)
        }
    }
}

/// Replaces what pieces touch, run by run. `starts` has the number of the piece with which each run begins. If it is refused,
/// nothing has changed.
pub(crate) fn replace_runs<L: ItemList>(
    alloc: Global,
    front: &mut Text,
    items: &mut L,
    tables: &mut Tables,
    starts: &[usize],
    pieces: &[Piece],
) -> Result<(), RunFault>
    requires kept { IsKept front.old (L.items items.old) tables.old }
    ensures kept { IsKept front.new (L.items items.new) tables.new }
    ensures fit { OnOk result (Fit pieces.now (file_of front.old (L.items items.old))) }
    ensures made { OnOk result (file_of front.new (L.items items.new) ≡ applied pieces.now (file_of front.old (L.items items.old))) }
    ensures err { OnErr result ((front.new ≡ front.old) × (L.items items.new ≡ L.items items.old)) }
{
    let count = items.count();
    match follow_runs(alloc, front, items, tables, count, starts, pieces) {
        Ok(()) => Ok(()),
        Err(fault) => Err(fault),
    }
}

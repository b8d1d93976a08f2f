//! Updating tables for items that come and go.

ghost use Rattle.std.specs.Prelude.{◌≡◌, ◌+◌, ◌≤◌, ◌<◌, ◌^◌, ◌⊎◌, List, ◌++◌, length, IsTrue, IfErr, OnOk, OnErr};
ghost use Rattle.bib_spec.specs.Reading.{Item};
ghost use Rattle.bib_items.specs.declared.fault.StoreFault.TheVariants.{Memory, BadSplice};
ghost use Rattle.bib_store.specs.TablesOf.{AreTablesOf};
ghost use Rattle.bib_definitions.specs.Definitions.{texts_at};
ghost use Rattle.bib_store.specs.Firm.{IsFirm};
ghost use Rattle.bib_store.specs.Following.{bodies_between, AreItemsOf, AreOthersOf, DefineNothing, HaveShortTexts, MayPass};

use crate::tables::Tables;
use bib_items::{ItemList, StoreFault};
use bib_scan::{ItemView, Kind};
use std::alloc::Global;

/// Adds the items of the list from number `from` up to `to` to the tables, before the items that have the numbers from `at`
/// on there. None of them is a definition. If it is refused, the tables say what they said.
pub(crate) fn add_to_tables<L: ItemList>(
    alloc: Global,
    tables: &mut Tables,
    items: &L,
    at: usize,
    from: usize,
    to: usize,
) -> Result<(), StoreFault>
    requires ordered { from ≤ to }
    requires within { to ≤ length (L.items items.now) }
    ensures tables { OnOk result ((before new after : List Item) → length before ≡ at → MayPass tables.old (bodies_between from to (L.items items.now)) new → at + (length new + length after) < 2 ^ 64 → AreTablesOf (before ++ after) tables.old → AreTablesOf (before ++ (new ++ after)) tables.new) }
    ensures short { OnOk result ((new : List Item) → AreOthersOf (bodies_between from to (L.items items.now)) new → HaveShortTexts (texts_at tables.old.definitions at) new) }
    ensures len { tables.new.file_len ≡ tables.old.file_len }
    ensures firm { IsFirm tables.old → IsFirm tables.new }
    ensures refused { IfErr result (λ fault. fault ≡ BadSplice → (IsFirm tables.new → ⊥) → (new : List Item) → AreOthersOf (bodies_between from to (L.items items.now)) new → HaveShortTexts (texts_at tables.old.definitions at) new → ⊥) }
    ensures only { IfErr result (λ fault. (fault ≡ BadSplice) ⊎ (fault ≡ Memory)) }
    ensures err { OnErr result ((before new after : List Item) → length before ≡ at → MayPass tables.old (bodies_between from to (L.items items.now)) new → at + (length new + length after) < 2 ^ 64 → AreTablesOf (before ++ after) tables.old → AreTablesOf (before ++ after) tables.new) }
{
    'add_to_tables: for j in 0..to - from {
        let k = to - 1 - j;
        if let Err(fault) = tables.insert(
            alloc,
            at,
            &ItemView::of(items.body(k), b""),
            None,
            true,
        ) {
            remove_from_tables(tables, items, at, k + 1, to);
            return Err(fault.of_splice());
        }
    }
    Ok(())
}

/// Removes the items of the list from number `from` up to `to` from the tables, where they have the numbers from `at` on.
/// They may be definitions if the tables are firm. It asks for no memory.
pub(crate) fn remove_from_tables<L: ItemList>(
    tables: &mut Tables,
    items: &L,
    at: usize,
    from: usize,
    to: usize,
)
    requires ordered { from ≤ to }
    requires within { to ≤ length (L.items items.now) }
    ensures tables { (before gone after : List Item) → length before ≡ at → MayPass tables.old (bodies_between from to (L.items items.now)) gone → at + (length gone + length after) < 2 ^ 64 → AreTablesOf (before ++ (gone ++ after)) tables.old → AreTablesOf (before ++ after) tables.new }
    ensures len { tables.new.file_len ≡ tables.old.file_len }
    ensures firm { IsFirm tables.old → IsFirm tables.new }
{
    'remove_from_tables: for k in from..to {
        tables.remove(at, &ItemView::of(items.body(k), b""));
    }
}

/// Whether no item of the list from number `from` up to `to` is a definition.
pub(crate) fn are_others<L: ItemList>(items: &L, from: usize, to: usize) -> bool
    requires ordered { from ≤ to }
    requires within { to ≤ length (L.items items.now) }
    ensures { IsTrue result → (new : List Item) → AreItemsOf (bodies_between from to (L.items items.now)) new → DefineNothing new }
{
    'pass: for k in from..to {
        match ItemView::of(items.body(k), b"").kind() {
            Kind::Macro => return false,
            Kind::Entry | Kind::Preamble | Kind::Comment => {}
        }
    }
    true
}

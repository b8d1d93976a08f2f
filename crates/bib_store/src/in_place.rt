//! Items that each replace one of their kind, in tables that are unchanged except for their bounds.

ghost use Rattle.std.specs.Prelude.{◌≡◌, ◌+◌, ◌-◌, ◌≤◌, ◌<◌, ◌^◌, ◌∷◌, [], ℕ, List, true, None, map, length, IsTrue, IsFalse, IfSome, IfOk, OnOk};
ghost use Rattle.bib_spec.specs.Bytes.{name_limit};
ghost use Rattle.bib_spec.specs.Tree.{IsTree};
ghost use Rattle.std.specs.List.{All};
ghost use Rattle.bib_spec.specs.Reading.{Reading, Reads, Item, IsItem};
ghost use Rattle.bib_spec.specs.Records.{entry_in, crossref_text};
ghost use Rattle.bib_scan.specs.Layout.{IsLayoutOf};
ghost use Rattle.bib_scan.specs.View.{view_of};
ghost use Rattle.bib_definitions.specs.Definitions.{texts_at};
ghost use Rattle.bib_store.specs.TablesOf.{AreTables, IsNotedAs, TakesPlace};
ghost use Rattle.bib_store.specs.Bounds.{IsSettledEntry};
ghost use Rattle.bib_store.specs.Following.{AreItemsOf, bodies_between};
ghost use Rattle.bib_store.specs.InPlace.{HaveOneKey, TakePlaces, with_bounds};
ghost use Rattle.bib_store.specs.ItemTexts.{first_too_long, placed_texts};
ghost use Rattle.bib_store.specs.Readings.{is_entry_tree};
ghost use Rattle.bib_store.specs.Windows.{IsWindow, AreNoted, OfPut, SayTheSameBefore};
ghost use Rattle.bib_spec.specs.Texts.{too_long_at};

use crate::bounds::Bounds;
use crate::change::{Change, PutItems};
use crate::crossrefs::{CrossrefText, crossref_within};
use crate::database::note_at;
use crate::following::{add_to_tables, remove_from_tables};
use crate::item_fault::ItemFault;
use crate::tables::Tables;
use bib_definitions::Definitions;
use bib_items::ItemList;
use bib_scan::{ItemView, Kind, Note};
use bib_text::Text;
use std::alloc::Global;

/// Whether both are of this kind.
fn are_both(kind: Kind, old: &ItemView<'_>, new: &ItemView<'_>) -> bool
    ensures old { IsTrue result → old.now.kind ≡ kind }
    ensures new { IsTrue result → new.now.kind ≡ kind }
{
    old.kind() == kind && new.kind() == kind
}

/// Whether both are entries, with the same key.
fn have_one_key(old: &ItemView<'_>, new: &ItemView<'_>) -> bool
    ensures { IsTrue result → (i j : Item) → old.now ≡ view_of i → new.now ≡ view_of j → HaveOneKey i.tree j.tree }
{
    are_both(Kind::Entry, old, new) && old.key() == new.key()
}

/// What the crossref of an entry says that is item `n`, or replaces it. `note` is what was noted of the entry, if anything.
fn crossref_at(
    alloc: Global,
    entry: &ItemView<'_>,
    n: usize,
    definitions: &Definitions,
    note: Option<Note>,
) -> Result<CrossrefText, ItemFault>
    requires { IsNotedAs note entry.now }
    ensures text { IfOk result (λ said. (i : Item) → IsTree name_limit i.tree → is_entry_tree i.tree ≡ true → entry.now ≡ view_of i → map crossref_text (entry_in (texts_at definitions.now n) i.tree) ≡ said.text ∷ []) }
    ensures settled { IfOk result (λ said. said.is_literal ≡ true → IsSettledEntry entry.now said.text) }
    ensures short { OnOk result ((i : Item) → IsTree name_limit i.tree → is_entry_tree i.tree ≡ true → entry.now ≡ view_of i → first_too_long (placed_texts (texts_at definitions.now n) i.tree) ≡ None) }
{
    match crossref_within(
        alloc,
        entry,
        &definitions.at(n),
        definitions.longest(),
        note,
    ) {
        Ok(said) => Ok(said),
        Err(fault) => Err(fault),
    }
}

/// Whether both crossrefs say the same, or neither entry has one.
fn say_the_same(old: &Option<Text>, new: &Option<Text>) -> bool
    ensures { IsTrue result → old.now ≡ new.now }
{
    match (old, new) {
        (Some(old), Some(new)) => old.as_slice() == new.as_slice(),
        (None, None) => true,
        _ => false,
    }
}

/// Replaces the entry that is item `n` in the tables, and returns whether it could. It can't if the keys differ, or what
/// the crossrefs say. `note` is what was noted of the new entry, if anything.
fn put_entry(
    alloc: Global,
    tables: &mut Tables,
    n: usize,
    old: &ItemView<'_>,
    new: &ItemView<'_>,
    note: Option<Note>,
) -> bool
    requires { IsNotedAs note new.now }
    ensures placed { IsTrue result → TakesPlace n old.now new.now tables.old tables.new }
    ensures rest { tables.new ≡ with_bounds tables.new.bounds tables.old }
{
    if !have_one_key(old, new) {
        return false;
    }
    let Ok(was) = crossref_at(alloc, old, n, &tables.definitions, None) else {
        return false;
    };
    let Ok(said) = crossref_at(alloc, new, n, &tables.definitions, note) else {
        return false;
    };
    if !say_the_same(&was.text, &said.text) {
        return false;
    }
    tables.bounds = tables.bounds.with(new.body().len(), said.is_literal);
    true
}

/// Replaces the preamble that is item `n` in the tables, and returns whether it could. It can't if one of the two is no
/// preamble, or if the new raw text is too long.
fn put_preamble(
    alloc: Global,
    tables: &mut Tables,
    n: usize,
    old: &ItemView<'_>,
    new: &ItemView<'_>,
) -> bool
    ensures placed { IsTrue result → TakesPlace n old.now new.now tables.old tables.new }
    ensures rest { tables.new ≡ with_bounds tables.new.bounds tables.old }
{
    if !are_both(Kind::Preamble, old, new) {
        return false;
    }
    match tables.measure_preamble(alloc, n, new) {
        Ok(()) => {
            tables.bounds = tables.bounds.with(new.body().len(), true);
            true
        }
        Err(_) => false,
    }
}

/// Replaces a comment in the tables, and returns whether it could: whether both are comments.
fn put_comment(tables: &mut Tables, old: &ItemView<'_>, new: &ItemView<'_>) -> bool
    ensures placed { IsTrue result → (n : ℕ) → TakesPlace n old.now new.now tables.old tables.new }
    ensures rest { tables.new ≡ with_bounds tables.new.bounds tables.old }
{
    if !are_both(Kind::Comment, old, new) {
        return false;
    }
    tables.bounds = tables.bounds.with(new.body().len(), true);
    true
}

/// Replaces item `n` in the tables, and returns whether it could. `note` is what was noted of the new item, if anything.
fn put(
    alloc: Global,
    tables: &mut Tables,
    n: usize,
    old: &ItemView<'_>,
    new: &ItemView<'_>,
    note: Option<Note>,
) -> bool
    requires { IsNotedAs note new.now }
    ensures placed { IsTrue result → TakesPlace n old.now new.now tables.old tables.new }
    ensures rest { tables.new ≡ with_bounds tables.new.bounds tables.old }
{
    if old.body() == new.body() {
        return true;
    }
    match new.kind() {
        Kind::Entry => put_entry(alloc, tables, n, old, new, note),
        Kind::Macro => false,
        Kind::Preamble => put_preamble(alloc, tables, n, old, new),
        Kind::Comment => put_comment(tables, old, new),
    }
}

/// Replaces each item of a change's window in the tables by the item of the change at the same place, and returns whether it
/// could for all.
fn put_each<L: ItemList>(alloc: Global, tables: &mut Tables, items: &L, change: &Change) -> bool
    requires window { IsWindow (L.items items.now) change.now.window }
    requires layout { IsLayoutOf change.now.text change.now.layout }
    requires each { change.now.window.to ≡ change.now.window.from + length change.now.layout.items }
    requires room { length (L.items items.now) < 2 ^ 64 }
    ensures placed { IsTrue result → (inner : Reading) → Reads change.now.text inner
        → TakePlaces change.now.window.from (bodies_between change.now.window.from change.now.window.to (L.items items.now)) inner.items tables.old tables.new }
    ensures rest { tables.new ≡ with_bounds tables.new.bounds tables.old }
{
    let from = change.window.from;
    'each: for k in 0..change.layout.len() {
        let old = ItemView::of(items.body(from + k), b"");
        let text = change.text.as_slice();
        let new = ItemView::of(change.layout.body(text, k), b"");
        if !put(alloc, tables, from + k, &old, &new, None) {
            return false;
        }
    }
    true
}

/// Replaces each item of a change's window by the item of the change at the same place, in the tables alone. It returns
/// the bounds that the tables had before, or nothing if it can't: if the counts differ, if a kind, a key or what a crossref
/// says differs, if a raw text is too long, or if a definition changes. The tables are then unchanged. Only time depends on
/// whether it can. It takes time in the length of these items.
pub(crate) fn put_in_place<L: ItemList>(
    alloc: Global,
    tables: &mut Tables,
    items: &L,
    change: &Change,
) -> Option<Bounds>
    requires window { IsWindow (L.items items.now) change.now.window }
    requires layout { IsLayoutOf change.now.text change.now.layout }
    ensures placed { IfSome result (λ bounds. (inner : Reading) → Reads change.now.text inner → TakePlaces change.now.window.from (bodies_between change.now.window.from change.now.window.to (L.items items.now)) inner.items tables.old tables.new) }
    ensures back { IfSome result (λ bounds. with_bounds bounds tables.new ≡ tables.old) }
    ensures none { result ≡ None → tables.new ≡ tables.old }
    ensures len { tables.new.file_len ≡ tables.old.file_len }
{
    if change.window.to - change.window.from != change.layout.len() {
        return None;
    }
    // for the proof: the count fits a usize
    let _ = items.count();
    let bounds = tables.bounds;
    if put_each(alloc, tables, items, change) {
        return Some(bounds);
    }
    tables.bounds = bounds;
    None
}

/// Replaces the items of a window except the first in the tables, each by the item put in at the same place, and returns
/// whether it could for all. In the tables, the first item put in stands before the window.
fn put_others<L: ItemList>(alloc: Global, tables: &mut Tables, items: &L, put_in: &PutItems) -> bool
    requires some { 0 < put_in.now.count }
    requires within { put_in.now.window.from + put_in.now.count + put_in.now.count ≤ length (L.items items.now) }
    requires room { length (L.items items.now) < 2 ^ 64 }
    requires noted { AreNoted put_in.now (L.items items.now) }
    ensures placed { IsTrue result → (new : List Item) → AreItemsOf (bodies_between (put_in.now.window.from + 1) (put_in.now.window.from + put_in.now.count) (L.items items.now)) new → All (IsItem name_limit) new
        → TakePlaces (put_in.now.window.from + 2) (bodies_between (put_in.now.window.from + put_in.now.count + 1) (put_in.now.window.from + put_in.now.count + put_in.now.count) (L.items items.now)) new tables.old tables.new }
    ensures rest { tables.new ≡ with_bounds tables.new.bounds tables.old }
{
    let first = put_in.window.from + 1;
    let first_old = first + put_in.count;
    'each: for k in 0..put_in.count - 1 {
        let old_body = items.body(first_old + k);
        let body = items.body(first + k);
        let old = ItemView::of(old_body, b"");
        let new = ItemView::of(body, b"");
        let note = note_at(put_in.notes.as_slice(), 1 + k);
        if !put(alloc, tables, first + 1 + k, &old, &new, note) {
            return false;
        }
    }
    true
}

/// Updates firm tables for a change whose items are in the list, and whose first item comes and goes, as a definition with
/// another name does, while its other items each replace one of their kind. It returns whether it could; if not, the tables
/// say what they said. It takes time in the length of these items.
pub(crate) fn put_behind_first<L: ItemList>(
    alloc: Global,
    tables: &mut Tables,
    items: &L,
    put_in: &PutItems,
) -> bool
    requires ordered { put_in.now.window.from ≤ put_in.now.window.to }
    requires within { put_in.now.window.to + put_in.now.count ≤ length (L.items items.now) }
    requires noted { AreNoted put_in.now (L.items items.now) }
    ensures tables { IsTrue result → (front_len : ℕ) → OfPut put_in.now front_len (L.items items.now) tables.old (λ db. AreTables db tables.new × (too_long_at db ≡ None)) }
    ensures len { IsTrue result → tables.new.file_len ≡ put_in.now.file_len }
    ensures same { IsFalse result → SayTheSameBefore put_in.now (L.items items.now) tables.old tables.new }
{
    let from = put_in.window.from;
    let count = put_in.count;
    let touched = put_in.window.to - from;
    if touched == 0 || touched != count || !tables.is_firm() {
        return false;
    }
    // for the proof: the count fits a usize
    let _ = items.count();
    match add_to_tables(alloc, tables, items, from, from, from + 1) {
        Ok(()) => {}
        Err(_) => return false,
    }
    let bounds = tables.bounds;
    if put_others(alloc, tables, items, put_in) && tables.is_firm() {
        remove_from_tables(tables, items, from + 1, from + count, from + count + 1);
        tables.file_len = put_in.file_len;
        return true;
    }
    tables.bounds = bounds;
    remove_from_tables(tables, items, from, from, from + 1);
    false
}

//! The file as a list of items, with entries, keys and crossrefs.

ghost use Rattle.std.specs.Prelude.{◌≡◌, ◌⊎◌, [], slice_get};

use crate::joining::join;
use crate::keeping::{copied, take_file};
use crate::measuring::short_text;
use crate::preambles::preamble_value;
use crate::tables::Tables;
use bib_definitions::MacrosAt;
use bib_entries::Holders;
use bib_items::{ItemList, Sought, StoreFault};
use bib_scan::{ItemView, Note, ReadFault};
use bib_text::{Seq, Text};
use bib_value::MacroTable;
use std::alloc::Global;
use std::marker::Model;

/// Notes of items are kept if the file has at least this many bytes for each note.
const BYTES_A_NOTE: usize = 128;

/// A file that is open: its items, and what they say together. A contract sees the file's bytes; what they say is that
/// of their one reading.
#[derive(Drop)]
pub struct Database<L: ItemList> {
    pub(crate) alloc: Global,
    pub(crate) front: Text,
    pub(crate) items: L,
    pub(crate) tables: Tables,
    // of all items, if none has changed since the file was opened; otherwise of none
    pub(crate) notes: Seq<Note>,
    // how many bytes were read when the file was opened, or was changed last
    pub(crate) scanned: usize,
    // whether it was announced that parts will be sought
    seeks_parts: bool,
}

/// Why a file was not opened, and its bytes; if memory ran out, perhaps none.
#[derive(Drop)]
pub struct Unopened {
    pub fault: ReadFault,
    pub file: Text,
}

impl<L: ItemList> Model for Database<L> {
    ghost use Rattle.bib_spec.specs.Text.{Text as Bytes};
    ghost use Rattle.bib_store.specs.Stored.{file_of, IsKept};
    ghost use Rattle.bib_store.specs.TablesOf.{AreNotesOf};

    ghost Value = { Bytes };

    ghost view = { λ d. file_of d.front (L.items d.items) };

    ghost invariant = { λ d. IsKept d.front (L.items d.items) d.tables × AreNotesOf d.notes (L.items d.items) };
}

impl<L: ItemList> Database<L> {
    ghost use Rattle.std.specs.List.{between};
    ghost use Rattle.std.specs.Prelude.{◌≡◌, ◌≢◌, ◌≤◌, false, [], Some, None, length, slice_get, option_and_then, count_by, IsTrue, IfOk, IfErr, IfSome, OnOk};
    ghost use Rattle.std.specs.Option.{option_copied, option_map};
    ghost use Rattle.bib_spec.specs.Bytes.{name_limit};
    ghost use Rattle.bib_spec.specs.Texts.{IsOpenable};
    ghost use Rattle.bib_spec.specs.Reading.{Item};
    ghost use Rattle.bib_spec.specs.Texts.{months, macros_at, seen, raw_limit};
    ghost use Rattle.bib_spec.specs.Records.{entries_of, preambles_of, keys_of, entry_named, is_named, is_repeated, crossref_text, target};
    ghost use Rattle.bib_scan.specs.View.{view_of};
    ghost use Rattle.bib_scan.specs.Layout.{start_of};
    ghost use Rattle.bib_entries.specs.EntryTable.{numbers_having, referrers, AreApart};
    ghost use Rattle.bib_store.specs.Tables.{crossrefs_of};
    ghost use Rattle.part_spec.specs.Parts.{have_part};
    ghost use Rattle.bib_items.specs.Seeking.{test_of};
    ghost use Rattle.bib_spec.specs.Text.{Text as Bytes};
    ghost use Rattle.bib_store.specs.Stored.{IsTaken, AreTablesOfFile};
    ghost use Rattle.bib_definitions.specs.Definitions.{definition_count, first_definition};
    ghost use Rattle.bib_definitions.specs.MacrosSeen.{macros_seen};
    ghost use Rattle.bib_store.specs.Readings.{OfReading, IsItemNumber, IsItemGap, IsEntryNumber, IsPreambleNumber, entry_items, entry_numbers, IsOpenFault};
    ghost use Rattle.bib_items.specs.declared.fault.StoreFault.TheVariants.{Memory, NoSuchEntry};

    /// Opens the file with these bytes, which it copies. `empty` is a list without items, which keeps the file's items from now
    /// on. It takes time and memory in the file's length and the number of items. It is refused as reading is refused (1 to 7,
    /// 9), with 8 at the first value whose raw text is longer than 1,048,576 bytes, and with 10 if memory runs out.
    pub fn open_bytes(alloc: Global, bytes: &[u8], empty: L) -> Result<Database<L>, ReadFault>
        requires { L.items empty ≡ [] }
        ensures opened { IfOk result (λ db. db ≡ bytes.now) }
        ensures file { OnOk result (IsOpenable bytes.now) }
        ensures fault { IfErr result (λ fault. IsOpenFault bytes.now fault.kind fault.place) }
    {
        let file = copied(alloc, bytes)?;
        Database::open_file(alloc, file, empty)
    }

    /// Opens this file as `open_bytes` does, without that copy. The list may keep the file's memory instead of copies of its
    /// items.
    pub fn open_file(alloc: Global, file: Vec<u8>, empty: L) -> Result<Database<L>, ReadFault>
        requires { L.items empty ≡ [] }
        ensures opened { IfOk result (λ db. db ≡ file.items) }
        ensures file { OnOk result (IsOpenable file.items) }
        ensures fault { IfErr result (λ fault. IsOpenFault file.items fault.kind fault.place) }
    {
        let (tables, layout) = Tables::read(alloc, file.as_slice())?;
        let (front, items, notes) = take_file(alloc, layout, file, empty)?;
        Ok(Database::of_items(alloc, front, items, notes, tables))
    }

    /// Opens this file as `open_file` does. If it is refused, its bytes are given back with the fault, so that the caller can say more
    /// of the file; if memory runs out, there may be none.
    pub fn open_or_return(alloc: Global, file: Vec<u8>, empty: L) -> Result<Database<L>, Unopened>
        requires { L.items empty ≡ [] }
        ensures opened { IfOk result (λ db. db ≡ file.items) }
        ensures openable { OnOk result (IsOpenable file.items) }
        ensures fault { IfErr result (λ unopened. IsOpenFault file.items unopened.fault.kind unopened.fault.place) }
        ensures returned { IfErr result (λ unopened. unopened.fault.kind ≢ 10 → unopened.file ≡ file.items) }
    {
        let (tables, layout) = match Tables::read(alloc, file.as_slice()) {
            Ok(read) => read,
            Err(fault) => {
                return Err(Unopened {
                    fault,
                    file: Seq::from_vec(file),
                });
            }
        };
        match take_file(alloc, layout, file, empty) {
            Ok((front, items, notes)) => Ok(Database::of_items(alloc, front, items, notes, tables)),
            Err(fault) => Err(Unopened {
                fault,
                file: Seq::empty(alloc),
            }),
        }
    }

    /// Builds the database from its parts: the front, the items, their notes and the tables.
    fn of_items(
        alloc: Global,
        front: Text,
        items: L,
        notes: Seq<Note>,
        tables: Tables,
    ) -> Database<L>
        requires { (bytes : Bytes) × IsTaken bytes front (L.items items) notes × AreTablesOfFile bytes tables }
        ensures { (bytes : Bytes) → IsTaken bytes front (L.items items) notes → result ≡ bytes }
    {
        let len = tables.file_len;
        Database {
            alloc,
            front,
            items,
            tables,
            notes: kept_notes(alloc, notes, len),
            scanned: len,
            seeks_parts: false,
        }
    }

    /// The file's bytes: a copy of them, in memory for them alone.
    pub fn bytes(&self) -> Result<Text, StoreFault>
        ensures bytes { IfOk result (λ text. text ≡ self.now) }
        ensures only { IfErr result (λ fault. fault ≡ Memory) }
    {
        let file = join(self.alloc, self.front.as_slice(), &self.items)?;
        Ok(Seq::from_vec(file))
    }

    /// How many bytes the file has.
    pub fn byte_count(&self) -> usize
        ensures { result ≡ length self.now }
    {
        self.tables.file_len
    }

    /// How many bytes had to be read when the file was opened or last changed. After opening, it is the file's length. After a
    /// splice, it is the sum of the lengths of the windows: a piece touches what has the byte before it, and each byte that it
    /// replaces, and a window is the new text of neighbouring items that are touched. If a window can't be read by itself, it
    /// is the new file's length. A refused splice leaves the number unchanged. What was read may be less: a first item that is
    /// touched only by its end is not read if the rest can be read without it. (dialect)
    pub fn last_scan(&self) -> usize
        ensures { result ≤ length self.now }
    {
        // windows don't overlap in the file, so that the number is never above the file's length
        self.scanned.min(self.tables.file_len)
    }

    /// The file is one that can be opened: it has a reading, and no raw text in it is too long.
    pub fn opens(&self)
        ensures { IsOpenable self.now }
    {
        let _ = &self.front;
    }

    /// How many items there are.
    pub fn item_count(&self) -> usize
        ensures { OfReading self.now (λ db. result ≡ length db.items) }
    {
        self.items.count()
    }

    /// How many entries there are.
    pub fn entry_count(&self) -> usize
        ensures { OfReading self.now (λ db. result ≡ length (entries_of db)) }
    {
        self.tables.entries.count()
    }

    /// How many preambles there are.
    pub fn preamble_count(&self) -> usize
        ensures { OfReading self.now (λ db. result ≡ length (preambles_of db)) }
    {
        self.tables.preambles.count()
    }

    /// The text before the first item.
    pub fn front(&self) -> &[u8]
        ensures { OfReading self.now (λ db. result.now ≡ db.front) }
    {
        self.front.as_slice()
    }

    /// Item `n`. If the file has changed since it was opened, or has many short items, the item's head is read again, in
    /// time of its length.
    pub fn item(&self, n: usize) -> ItemView<'_>
        requires { IsItemNumber self.now n }
        ensures { OfReading self.now (λ db. (i : Item) → slice_get db.items n ≡ Some i → result ≡ view_of i) }
    {
        let (body, trail) = self.items.texts(n);
        match note_at(self.notes.as_slice(), n) {
            Some(note) => ItemView::noted(body, trail, note),
            None => ItemView::of(body, trail),
        }
    }

    /// The place at which item `n` begins in the file, or at which the file ends, in bytes.
    pub fn item_place(&self, n: usize) -> usize
        requires { IsItemGap self.now n }
        ensures { OfReading self.now (λ db. result ≡ start_of db n) }
    {
        self.front.as_slice().len() + self.items.start(n)
    }

    /// Announces that parts of the file will be sought. The file is unchanged, and nothing else is promised: the call only
    /// saves time. The second call marks what all items have, since a search that is the only one is quicker without. It takes
    /// time and memory in the file's length, and any other call a few steps for each page.
    pub fn note_parts(&mut self)
        ensures { self.new ≡ self.old }
    {
        self.items.prepare(usize::MAX);
        if self.seeks_parts {
            self.items.note_parts();
        }
        self.seeks_parts = true;
    }

    /// The number of an item, or the count of items, such that a search from item `n` on can pass over all items before it:
    /// none of them has a part that one of the two seeks. The item itself may have such a part or not. It takes a few steps
    /// for each page of items that it passes by their marks, and else time in the length of the items that it passes.
    pub fn next_with(&self, n: usize, sought: Sought<'_>, other: Sought<'_>) -> usize
        requires { IsItemGap self.now n }
        ensures order { n ≤ result }
        ensures within { IsItemGap self.now result }
        ensures sought { OfReading self.now (λ db. have_part (test_of sought.entry) (between n result db.items) ≡ false) }
        ensures other { OfReading self.now (λ db. have_part (test_of other.entry) (between n result db.items) ≡ false) }
    {
        self.items.next_with(n, sought, other)
    }

    /// Entry `n`, as an item.
    pub fn entry(&self, n: usize) -> ItemView<'_>
        requires { IsEntryNumber self.now n }
        ensures { OfReading self.now (λ db. (i : Item) → slice_get (entry_items db.items) n ≡ Some i → result ≡ view_of i) }
    {
        self.item(self.entry_item(n))
    }

    /// The number that entry `n` has among the items.
    pub fn entry_item(&self, n: usize) -> usize
        requires { IsEntryNumber self.now n }
        ensures { OfReading self.now (λ db. slice_get (entry_numbers db.items) n ≡ Some result) }
    {
        self.tables.entries.get(n)
    }

    /// The number of the first entry that has this key, folded. It takes time in the key's length.
    pub fn find(&self, key: &[u8]) -> Result<usize, StoreFault>
        ensures found { IfOk result (λ n. OfReading self.now (λ db. entry_named (entries_of db) key.now ≡ Some n)) }
        ensures none { IfErr result (λ fault. (fault ≡ NoSuchEntry) × OfReading self.now (λ db. entry_named (entries_of db) key.now ≡ None)) }
    {
        match self.tables.named.first(key) {
            Some(n) => Ok(n),
            None => Err(StoreFault::NoSuchEntry),
        }
    }

    /// How many entries have this key, folded. None has the empty key.
    pub fn holders(&self, key: &[u8]) -> usize
        ensures { OfReading self.now (λ db. result ≡ count_by (is_named key.now) (keys_of (entries_of db))) }
    {
        self.tables.named.holders(key)
    }

    /// The first entry that has this key, folded, and how many have it, if any has. It takes time in the key's length.
    pub fn holders_of(&self, key: &[u8]) -> Option<Holders>
        ensures first { OfReading self.now (λ db. option_map (λ h. h.first) result ≡ entry_named (entries_of db) key.now) }
        ensures count { IfSome result (λ h. OfReading self.now (λ db. h.count ≡ count_by (is_named key.now) (keys_of (entries_of db)))) }
    {
        self.tables.named.holders_of(key)
    }

    /// Of the entries that have this key, folded, in order, the number of the one at position `k`, counted from 0. It takes time in
    /// the key's length.
    pub fn nth_holder(&self, key: &[u8], k: usize) -> Option<usize>
        ensures { OfReading self.now (λ db. result ≡ slice_get (numbers_having key.now (keys_of (entries_of db))) k) }
    {
        self.tables.named.nth_holder(key, k)
    }

    /// Whether it is known that no two entries have the same key, folded. It takes one step. Once two entries have had the
    /// same key, this is no longer known. `false` promises nothing: the caller then has to look for itself, which only
    /// costs time.
    pub fn are_keys_apart(&self) -> bool
        ensures { IsTrue result → OfReading self.now (λ db. AreApart (keys_of (entries_of db))) }
    {
        self.tables.named.are_apart()
    }

    /// Whether an earlier entry has the key of entry `n`, folded.
    pub fn is_repeated(&self, n: usize) -> bool
        requires { IsEntryNumber self.now n }
        ensures { OfReading self.now (λ db. result ≡ is_repeated (entries_of db) n) }
    {
        match self.find(self.entry(n).key()) {
            Ok(first) => first < n,
            Err(_) => false,
        }
    }

    /// The field text of the effective `crossref` of entry `n`.
    pub fn crossref_text(&self, n: usize) -> Option<&[u8]>
        requires { IsEntryNumber self.now n }
        ensures { OfReading self.now (λ db. option_copied result ≡ option_and_then crossref_text (slice_get (entries_of db) n)) }
    {
        self.tables.named.crossref(n)
    }

    /// The entry that the crossref of entry `n` names.
    pub fn target(&self, n: usize) -> Option<usize>
        requires { IsEntryNumber self.now n }
        ensures { OfReading self.now (λ db. result ≡ target (entries_of db) n) }
    {
        match self.crossref_text(n) {
            Some(key) => self.find(key).ok(),
            None => None,
        }
    }

    /// Of the entries whose crossref texts name this key, in order, the number of the one at position `k`, counted from 0.
    /// The key's first holder is the target of each of them; if no entry has the key, each of them dangles. It takes a few
    /// steps for each page of entries, and time in the key's length, which is at most 255 bytes. (dialect)
    pub fn referrer(&self, key: &[u8], k: usize) -> Option<usize>
        requires { length key.now ≤ name_limit }
        ensures { OfReading self.now (λ db. result ≡ slice_get (referrers key.now (crossrefs_of db)) k) }
    {
        self.tables.named.referrer(key, k)
    }

    /// The raw text of preamble `n`. It takes time and memory in the length of the text and of the preamble.
    pub fn preamble_text(&self, n: usize) -> Result<Text, StoreFault>
        requires { IsPreambleNumber self.now n }
        ensures text { IfOk result (λ text. OfReading self.now (λ db. slice_get (preambles_of db) n ≡ Some text)) }
        ensures short { IfOk result (λ text. length text ≤ raw_limit) }
        ensures only { IfErr result (λ fault. fault ≡ Memory) }
    {
        let m = self.tables.preambles.get(n);
        let value = preamble_value(&self.item(m));
        short_text(self.alloc, value, &self.macros_at(m))
    }

    /// How many items define the macro, folded. It takes time in the length of the name.
    pub fn definition_count(&self, name: &[u8]) -> usize
        ensures { OfReading self.now (λ db. result ≡ definition_count name.now db.items) }
    {
        self.tables.definitions.count(name)
    }

    /// The number of the first item that defines the macro, folded. It takes time in the length of the name, and in the
    /// logarithm of the count of definitions.
    pub fn first_definition(&self, name: &[u8]) -> Option<usize>
        ensures { OfReading self.now (λ db. result ≡ first_definition name.now db.items) }
    {
        self.tables.definitions.first(name)
    }

    /// What macros stand for before item `n`, or at the end of the file.
    pub fn macros_at(&self, n: usize) -> MacrosAt<'_>
        requires { IsItemGap self.now n }
        ensures { OfReading self.now (λ db. macros_seen result ≡ macros_at months db.items n) }
    {
        self.tables.definitions.at(n)
    }

    /// What the name stands for as item `n` sees it, or at the end of the file.
    pub fn macro_text(&self, n: usize, name: &[u8]) -> Result<Option<Text>, StoreFault>
        requires { IsItemGap self.now n }
        ensures text { IfOk result (λ text. OfReading self.now (λ db. text ≡ seen db n name.now)) }
        ensures short { IfOk result (λ text. IfSome text (λ t. length t ≤ raw_limit)) }
        ensures only { IfErr result (λ fault. fault ≡ Memory) }
    {
        match self.macros_at(n).text_of(name) {
            Some(text) => {
                let text = Vec::from_slice(self.alloc, text)?;
                Ok(Some(Seq::from_vec(text)))
            }
            None => Ok(None),
        }
    }
}

/// The notes of a file of `file_len` bytes, if they take little memory compared with the file, and otherwise none.
fn kept_notes(alloc: Global, notes: Seq<Note>, file_len: usize) -> Seq<Note>
    ensures { (result ≡ notes) ⊎ (result ≡ []) }
{
    if notes.as_slice().len() <= file_len / BYTES_A_NOTE {
        notes
    } else {
        Seq::empty(alloc)
    }
}

/// What was noted of item `n`, if anything.
pub(crate) fn note_at(notes: &[Note], n: usize) -> Option<Note>
    ensures { result ≡ slice_get notes.now n }
{
    notes.get(n).copied()
}

//! What is kept beside the items of a file.

ghost use Rattle.std.specs.Prelude.{◌≡◌, ◌+◌, ◌-◌, ◌^◌, ◌≤◌, ◌<◌, ◌⊎◌, ℕ, suc, List, [], ◌∷◌, ◌++◌, Option, None, length, map, insert, nat_lt, if◌then◌else◌, IfSome, IfOk, IfErr, OnOk, OnErr};
ghost use Rattle.bib_spec.specs.Reading.{Reading};
ghost use Rattle.bib_spec.specs.Texts.{too_long_at};
ghost use Rattle.bib_scan.specs.declared.view.Kind.TheVariants as kind;
ghost use Rattle.bib_store.specs.declared.item_fault.ItemFault.TheVariants.{TooLong as ItemTooLong, Memory as ItemMemory, Unsettled as ItemUnsettled};
ghost use Rattle.bib_spec.specs.Text.{Text as Bytes};
ghost use Rattle.bib_numbers.specs.Numbers.{PartAt, HaveNext};
ghost use Rattle.bib_entries.specs.EntryTable.{IsTableOf};

use crate::bounds::{Bounds, is_settled_value};
use crate::crossrefs::{CrossrefText, crossref_within};
use crate::item_fault::ItemFault;
use crate::measuring::{measure, value_text};
use bib_definitions::Definitions;
use bib_entries::EntryTable;
use bib_items::ItemList;
use bib_numbers::Numbers;
use bib_scan::{FieldView, ItemView, Kind, Layout, Note, ReadFault, Reader};
use bib_text::{NAME_LIMIT, Text};
use std::alloc::Global;

/// The item count is estimated once this many items are read.
const SAMPLE: usize = 64;

/// What is kept beside the items of a file.
#[derive(Drop)]
pub(crate) struct Tables {
    /// How many bytes the file has.
    pub file_len: usize,
    /// The numbers that the entries have among the items.
    pub entries: Numbers,
    /// The numbers that the preambles have among the items.
    pub preambles: Numbers,
    /// The key of each entry, and what its crossref says.
    pub named: EntryTable,
    /// What macros stand for before each item.
    pub definitions: Definitions,
    /// What is known of all items.
    pub bounds: Bounds,
}

impl Tables {
    ghost use Rattle.std.specs.Prelude.{Some, true, false, Bool};
    ghost use Rattle.bib_spec.specs.Reading.{Item};
    ghost use Rattle.bib_spec.specs.Texts.{Macros, months, macros_at, raw_text, raw_limit};
    ghost use Rattle.bib_value.specs.Raw.{OfValue};
    ghost use Rattle.bib_items.specs.Items.{without_range};
    ghost use Rattle.bib_definitions.specs.Definitions.{AreDefinitionsOf, AreSettled, Defines, is_definition_tree, texts_at};
    ghost use Rattle.bib_store.specs.Bounds.{Admits};
    ghost use Rattle.bib_store.specs.Firm.{AreFirm, IsFirm};
    ghost use Rattle.bib_store.specs.ItemTexts.{OfTree, own_text, first_too_long, placed_texts};
    ghost use Rattle.bib_store.specs.TablesOf.{AreTablesOf, AreTables, SayTheSame, HasItems, IsStep, IsInsertion, IsRemoval, IsTooLongAt, IsNotedAs, IsMovedFor, OfView, OfSeen};
    ghost use Rattle.bib_store.specs.Readings.{IsOpenFault};
    ghost use Rattle.bib_store.specs.Stored.{AreTablesOfFile};
    ghost use Rattle.bib_scan.specs.Layout.{IsLayoutOf};
    ghost use Rattle.bib_scan.specs.Note.{IsNoteOf};
    ghost use Rattle.bib_spec.specs.Bytes.{file_limit};

    /// The tables of the file with these bytes, and the file's layout. Each item is added when it is read. The tables take
    /// memory for the keys, the texts of macros and the texts of crossrefs. The file is refused as reading refuses it, with
    /// 8 if one of its raw texts is too long, and with 10 if memory runs out.
    pub(crate) fn read(alloc: Global, bytes: &[u8]) -> Result<(Tables, Layout), ReadFault>
        ensures tables { IfOk result (λ read. AreTablesOfFile bytes.now read.0) }
        ensures layout { IfOk result (λ read. (length bytes.now ≤ file_limit) × IsLayoutOf bytes.now read.1) }
        ensures fault { IfErr result (λ fault. IsOpenFault bytes.now fault.kind fault.place) }
    {
        let mut tables = Tables::new(alloc);
        let layout = tables.fill(alloc, bytes)?;
        Ok((tables, layout))
    }

    /// Fills the tables, which have no items yet, from a file with these bytes, and returns the file's layout.
    fn fill(&mut self, alloc: Global, bytes: &[u8]) -> Result<Layout, ReadFault>
        requires { AreTablesOf [] self.old }
        ensures tables { OnOk result (AreTablesOfFile bytes.now self.new) }
        ensures layout { IfOk result (λ layout. (length bytes.now ≤ file_limit) × IsLayoutOf bytes.now layout) }
        ensures fault { IfErr result (λ fault. IsOpenFault bytes.now fault.kind fault.place) }
    {
        let mut reader = Reader::new(alloc, bytes)?;
        let mut n = 0;
        'walk: while let Some(item) = reader.next_item()? {
            if let Err(fault) = self.add(alloc, n, item.body, Some(item.note)) {
                // a fault of reading comes first, wherever it is
                reader.finish()?;
                return Err(fault.in_file(item.start));
            }
            n += 1;
            if n == SAMPLE {
                self.prepare(estimated_count(bytes.len(), item.start));
            }
        }
        self.file_len = bytes.len();
        reader.finish()
    }

    /// The tables of a file of `file_len` bytes. Its front has `front_len` bytes, and its items are these, except those
    /// from number `from` up to `to`. The tables take memory for the keys, the texts of macros and the texts of crossrefs.
    /// The file is refused if one of its raw texts is too long.
    pub(crate) fn of<L: ItemList>(
        alloc: Global,
        file_len: usize,
        front_len: usize,
        items: &L,
        from: usize,
        to: usize,
    ) -> Result<Tables, ReadFault>
        requires order { from ≤ to }
        requires within { to ≤ length (L.items items.now) }
        ensures tables { IfOk result (λ t. (db : Reading) → HasItems front_len (without_range from to (L.items items.now)) db → AreTables db t) }
        ensures len { IfOk result (λ t. t.file_len ≡ file_len) }
        ensures texts { OnOk result ((db : Reading) → HasItems front_len (without_range from to (L.items items.now)) db → too_long_at db ≡ None) }
        ensures fault { IfErr result (λ fault. ((fault.kind ≡ 10) × (fault.place ≡ 0))
            ⊎ ((fault.kind ≡ 8) × ((db : Reading) → HasItems front_len (without_range from to (L.items items.now)) db → too_long_at db ≡ Some fault.place))) }
    {
        let count = items.count() - (to - from);
        let mut tables = Tables::new(alloc);
        tables.prepare(count);
        let mut start = front_len;
        'walk: for n in 0..count {
            let k = kept_number(n, from, to);
            let (body, trail) = items.texts(k);
            if let Err(fault) = tables.add(alloc, n, body, None) {
                return Err(fault.in_file(start));
            }
            start = item_end(start, body, trail);
        }
        tables.file_len = file_len;
        Ok(tables)
    }

    /// The tables of no items. They ask for no memory.
    fn new(alloc: Global) -> Self
        ensures { AreTablesOf [] result }
    {
        Tables {
            file_len: 0,
            entries: Numbers::new(alloc),
            preambles: Numbers::new(alloc),
            named: EntryTable::new(alloc),
            definitions: Definitions::new(alloc),
            bounds: Bounds {
                settled: true,
                longest_body: 0,
            },
        }
    }

    /// Makes room for `additional` more items, as far as there is memory for it.
    fn prepare(&mut self, additional: usize)
        ensures { SayTheSame self.old self.new }
    {
        self.named.prepare(additional);
    }

    /// Adds item `n`, which has this body, after all others. `note` is what was noted of it, if anything.
    fn add(
        &mut self,
        alloc: Global,
        n: usize,
        body: &[u8],
        note: Option<Note>,
    ) -> Result<(), ItemFault>
        requires { IfSome note (IsNoteOf body.now) }
        ensures step { OnOk result (OfTree body.now (λ tree. IsStep n tree self.old self.new)) }
        ensures too_long { IfErr result (λ fault. (place : ℕ) → fault ≡ ItemTooLong place → OfTree body.now (λ tree. IsTooLongAt n tree self.old place)) }
    {
        match note {
            Some(known) => self.insert(alloc, n, &ItemView::noted(body, b"", known), note, false),
            None => self.insert(alloc, n, &ItemView::of(body, b""), note, false),
        }
    }

    /// Inserts item `n` before the items with the numbers from `n` on, which are settled if it is a definition. If it is an
    /// entry with a note, only its crossref is read. It takes time in the item's length, a few steps for each page of
    /// entries, preambles and definitions, and some for the members of one page. If `stay_firm` is true, firm tables refuse
    /// an item with which they would not be firm. If it is refused, the tables say what they said.
    pub(crate) fn insert(
        &mut self,
        alloc: Global,
        n: usize,
        view: &ItemView<'_>,
        note: Option<Note>,
        stay_firm: bool,
    ) -> Result<(), ItemFault>
        requires { IsNotedAs note view.now }
        ensures step { OnOk result (OfSeen view.now (λ tree. IsInsertion n tree self.old self.new)) }
        ensures seen { (view.now.kind ≡ kind.Macro → ⊥) → texts_at self.new.definitions n ≡ texts_at self.old.definitions n }
        ensures firm { stay_firm ≡ true → IsFirm self.old → IsFirm self.new }
        ensures len { self.new.file_len ≡ self.old.file_len }
        ensures too_long { IfErr result (λ fault. (place : ℕ) → fault ≡ ItemTooLong place → OfSeen view.now (λ tree. IsTooLongAt n tree self.old place)) }
        ensures unsettled { IfErr result (λ fault. fault ≡ ItemUnsettled → IsFirm self.old) }
        ensures err { OnErr result (SayTheSame self.old self.new) }
    {
        match view.kind() {
            Kind::Entry => self.insert_entry(alloc, n, view, note, stay_firm),
            Kind::Macro => self.insert_definition(alloc, n, view, stay_firm),
            Kind::Preamble => self.insert_preamble(alloc, n, view, stay_firm),
            Kind::Comment => self.insert_comment(n, view, stay_firm),
        }
    }

    /// Whether nothing depends on macros but the texts of fields and preambles, and none of these can be too long, whichever of
    /// the texts that were ever defined macros stand for.
    pub(crate) fn is_firm(&self) -> bool
        ensures firm { result ≡ true → IsFirm self.now }
        ensures loose { result ≡ false → IsFirm self.now → ⊥ }
    {
        self.bounds.are_firm(self.definitions.longest())
    }

    /// Bounds that cover one more item, whose body has `len` bytes, where no macro stands for more than `longest` bytes. If
    /// `stay_firm` is true, firm tables refuse bounds that are not firm.
    fn widened(
        &self,
        len: usize,
        settled: bool,
        longest: usize,
        stay_firm: bool,
    ) -> Result<Bounds, ItemFault>
        ensures admits { IfOk result (Admits len settled self.now.bounds) }
        ensures firm { IfOk result (λ bounds. stay_firm ≡ true → IsFirm self.now → AreFirm longest bounds) }
        ensures unsettled { OnErr result (IsFirm self.now) }
        ensures only { IfErr result (λ fault. fault ≡ ItemUnsettled) }
    {
        let bounds = self.bounds.with(len, settled);
        if bounds.are_firm(longest) || !stay_firm || !self.is_firm() {
            return Ok(bounds);
        }
        Err(ItemFault::Unsettled)
    }

    /// Inserts the entry that is item `n`.
    fn insert_entry(
        &mut self,
        alloc: Global,
        n: usize,
        view: &ItemView<'_>,
        note: Option<Note>,
        stay_firm: bool,
    ) -> Result<(), ItemFault>
        requires { IsNotedAs note view.now }
        ensures step { OnOk result (OfView kind.Entry view.now (λ tree. IsInsertion n tree self.old self.new)) }
        ensures seen { texts_at self.new.definitions n ≡ texts_at self.old.definitions n }
        ensures firm { stay_firm ≡ true → IsFirm self.old → IsFirm self.new }
        ensures len { self.new.file_len ≡ self.old.file_len }
        ensures too_long { IfErr result (λ fault. (place : ℕ) → fault ≡ ItemTooLong place → OfView kind.Entry view.now (λ tree. IsTooLongAt n tree self.old place)) }
        ensures unsettled { IfErr result (λ fault. fault ≡ ItemUnsettled → IsFirm self.old) }
        ensures err { OnErr result (SayTheSame self.old self.new) }
    {
        let longest = self.definitions.longest();
        let CrossrefText { text, is_literal } = crossref_within(
            alloc,
            view,
            &self.definitions.at(n),
            longest,
            note,
        )?;
        let bounds = self.widened(view.body().len(), is_literal, longest, stay_firm)?;
        insert_named(&mut self.entries, &mut self.named, n, view.key(), text)?;
        self.preambles.make_way(n);
        self.definitions.make_way(n);
        self.bounds = bounds;
        Ok(())
    }

    /// Inserts the comment that is item `n`.
    fn insert_comment(
        &mut self,
        n: usize,
        view: &ItemView<'_>,
        stay_firm: bool,
    ) -> Result<(), ItemFault>
        ensures step { OnOk result (OfView kind.Comment view.now (λ tree. IsInsertion n tree self.old self.new)) }
        ensures seen { texts_at self.new.definitions n ≡ texts_at self.old.definitions n }
        ensures firm { stay_firm ≡ true → IsFirm self.old → IsFirm self.new }
        ensures len { self.new.file_len ≡ self.old.file_len }
        ensures too_long { IfErr result (λ fault. (place : ℕ) → fault ≡ ItemTooLong place → ⊥) }
        ensures unsettled { OnErr result (IsFirm self.old) }
        ensures err { OnErr result (self.new ≡ self.old) }
    {
        let longest = self.definitions.longest();
        let bounds = self.widened(view.body().len(), true, longest, stay_firm)?;
        self.entries.make_way(n);
        self.preambles.make_way(n);
        self.definitions.make_way(n);
        self.bounds = bounds;
        Ok(())
    }

    /// Removes item `n`. If it is a definition, the items after it are settled. It asks for no memory.
    pub(crate) fn remove(&mut self, n: usize, view: &ItemView<'_>)
        ensures step { OfSeen view.now (λ tree. IsRemoval n tree self.old self.new) }
        ensures firm { IsFirm self.old → IsFirm self.new }
        ensures len { self.new.file_len ≡ self.old.file_len }
    {
        match view.kind() {
            Kind::Entry => {
                self.named.remove(self.entries.rank(n), view.key());
                self.entries.remove(n);
                self.preambles.close(n);
                self.definitions.close(n);
            }
            Kind::Macro => self.remove_definition(n, view),
            Kind::Preamble => {
                self.entries.close(n);
                self.preambles.remove(n);
                self.definitions.close(n);
            }
            Kind::Comment => {
                self.entries.close(n);
                self.preambles.close(n);
                self.definitions.close(n);
            }
        }
    }

    /// Removes the definition that is item `n`.
    fn remove_definition(&mut self, n: usize, view: &ItemView<'_>)
        ensures step { OfView kind.Macro view.now (λ tree. IsRemoval n tree self.old self.new) }
        ensures firm { IsFirm self.old → IsFirm self.new }
        ensures len { self.new.file_len ≡ self.old.file_len }
    {
        if let Some(field) = view.fields().next() {
            self.entries.close(n);
            self.preambles.close(n);
            self.definitions.remove(n, field.name);
        }
    }

    /// Inserts the definition that is item `n`.
    fn insert_definition(
        &mut self,
        alloc: Global,
        n: usize,
        view: &ItemView<'_>,
        stay_firm: bool,
    ) -> Result<(), ItemFault>
        ensures step { OnOk result (OfView kind.Macro view.now (λ tree. IsInsertion n tree self.old self.new)) }
        ensures firm { stay_firm ≡ true → IsFirm self.old → IsFirm self.new }
        ensures len { self.new.file_len ≡ self.old.file_len }
        ensures too_long { IfErr result (λ fault. (place : ℕ) → fault ≡ ItemTooLong place → OfView kind.Macro view.now (λ tree. IsTooLongAt n tree self.old place)) }
        ensures unsettled { IfErr result (λ fault. fault ≡ ItemUnsettled → IsFirm self.old) }
        ensures err { OnErr result (self.new ≡ self.old) }
    {
        match view.fields().next() {
            Some(field) => {
                self.define(alloc, n, field, view.body().len(), stay_firm)?;
                Ok(())
            }
            None => Ok(()),
        }
    }

    /// Inserts the definition that is item `n`, has this field, and a body of `len` bytes.
    fn define(
        &mut self,
        alloc: Global,
        n: usize,
        field: FieldView<'_>,
        len: usize,
        stay_firm: bool,
    ) -> Result<(), ItemFault>
        ensures table { OnOk result (OfValue field.entry.value.now (λ v. (before after : List Item) (item : Item) → length before ≡ n → n + length after < 2 ^ 64 → is_definition_tree item.tree ≡ true
            → Defines (macros_at months before n) item.tree field.entry.name.now (raw_text (own_text (texts_at self.old.definitions n) field.entry.name.now) v) → AreSettled after → AreDefinitionsOf (before ++ after) self.old.definitions → AreDefinitionsOf (before ++ item ∷ after) self.new.definitions)) }
        ensures ways { OnOk result (IsMovedFor n self.old self.new) }
        ensures bounds { OnOk result ((settled : Bool) × (Admits len settled self.old.bounds self.new.bounds × (settled ≡ true → (text : Bytes) × OfValue field.entry.value.now (λ v. (m : Macros) → raw_text m v ≡ text)))) }
        ensures firm { stay_firm ≡ true → IsFirm self.old → IsFirm self.new }
        ensures len { self.new.file_len ≡ self.old.file_len }
        ensures short { OnOk result (OfValue field.entry.value.now (λ v. length (raw_text (own_text (texts_at self.old.definitions n) field.entry.name.now) v) ≤ raw_limit)) }
        ensures too_long { IfErr result (λ fault. (place : ℕ) → fault ≡ ItemTooLong place
            → (place ≡ field.entry.value_at) × OfValue field.entry.value.now (λ v. raw_limit < length (raw_text (own_text (texts_at self.old.definitions n) field.entry.name.now) v))) }
        ensures unsettled { IfErr result (λ fault. fault ≡ ItemUnsettled → IsFirm self.old) }
        ensures err { OnErr result (self.new ≡ self.old) }
    {
        let text = self.definition_text(alloc, n, field)?;
        let settled = is_settled_value(alloc, field.value);
        let longest = self.definitions.longest().max(text.as_slice().len());
        let bounds = self.widened(len, settled, longest, stay_firm)?;
        if !self.definitions.insert(n, field.name, text)? {
            return Err(self.out_of_labels());
        }
        self.entries.make_way(n);
        self.preambles.make_way(n);
        self.bounds = bounds;
        Ok(())
    }

    /// The fault of tables that have no label left for a definition. Firm ones can be made again.
    fn out_of_labels(&self) -> ItemFault
        ensures unsettled { result ≡ ItemUnsettled → IsFirm self.now }
        ensures other { (place : ℕ) → result ≡ ItemTooLong place → ⊥ }
    {
        if self.is_firm() {
            ItemFault::Unsettled
        } else {
            ItemFault::Memory
        }
    }

    /// What the name of the definition that is item `n` stands for after it.
    fn definition_text(
        &self,
        alloc: Global,
        n: usize,
        field: FieldView<'_>,
    ) -> Result<Text, ItemFault>
        ensures text { IfOk result (λ text. OfValue field.entry.value.now (λ v. text ≡ raw_text (own_text (texts_at self.now.definitions n) field.entry.name.now) v)) }
        ensures short { OnOk result (OfValue field.entry.value.now (λ v. length (raw_text (own_text (texts_at self.now.definitions n) field.entry.name.now) v) ≤ raw_limit)) }
        ensures too_long { IfErr result (λ fault. (place : ℕ) → fault ≡ ItemTooLong place
            → (place ≡ field.entry.value_at) × OfValue field.entry.value.now (λ v. raw_limit < length (raw_text (own_text (texts_at self.now.definitions n) field.entry.name.now) v))) }
        ensures other { IfErr result (λ fault. fault ≡ ItemUnsettled → ⊥) }
    {
        match value_text(
            alloc,
            field.value,
            &self.definitions.at(n),
            Some(field.name),
        ) {
            Ok(text) => Ok(text),
            Err(fault) => Err(ItemFault::of_value(fault, field.value_at)),
        }
    }

    /// Inserts the preamble that is item `n`.
    fn insert_preamble(
        &mut self,
        alloc: Global,
        n: usize,
        view: &ItemView<'_>,
        stay_firm: bool,
    ) -> Result<(), ItemFault>
        ensures step { OnOk result (OfView kind.Preamble view.now (λ tree. IsInsertion n tree self.old self.new)) }
        ensures seen { texts_at self.new.definitions n ≡ texts_at self.old.definitions n }
        ensures firm { stay_firm ≡ true → IsFirm self.old → IsFirm self.new }
        ensures len { self.new.file_len ≡ self.old.file_len }
        ensures too_long { IfErr result (λ fault. (place : ℕ) → fault ≡ ItemTooLong place → OfView kind.Preamble view.now (λ tree. IsTooLongAt n tree self.old place)) }
        ensures unsettled { IfErr result (λ fault. fault ≡ ItemUnsettled → IsFirm self.old) }
        ensures err { OnErr result (self.new ≡ self.old) }
    {
        self.measure_preamble(alloc, n, view)?;
        let longest = self.definitions.longest();
        let bounds = self.widened(view.body().len(), true, longest, stay_firm)?;
        self.preambles.insert(n)?;
        self.entries.make_way(n);
        self.definitions.make_way(n);
        self.bounds = bounds;
        Ok(())
    }

    /// Refuses the preamble that is item `n` if its raw text is too long.
    pub(crate) fn measure_preamble(
        &self,
        alloc: Global,
        n: usize,
        view: &ItemView<'_>,
    ) -> Result<(), ItemFault>
        ensures short { OnOk result (OfView kind.Preamble view.now (λ tree. first_too_long (placed_texts (texts_at self.now.definitions n) tree) ≡ None)) }
        ensures too_long { IfErr result (λ fault. (place : ℕ) → fault ≡ ItemTooLong place → OfView kind.Preamble view.now (λ tree. IsTooLongAt n tree self.now place)) }
        ensures other { IfErr result (λ fault. fault ≡ ItemUnsettled → ⊥) }
    {
        match view.fields().next() {
            Some(field) => self.measure_field(alloc, n, field),
            None => Ok(()),
        }
    }

    /// Refuses the field of item `n` if its raw text is too long.
    fn measure_field(&self, alloc: Global, n: usize, field: FieldView<'_>) -> Result<(), ItemFault>
        ensures other { IfErr result (λ fault. fault ≡ ItemUnsettled → ⊥) }
        ensures short { OnOk result (OfValue field.entry.value.now (λ v. length (raw_text (texts_at self.now.definitions n) v) ≤ raw_limit)) }
        ensures too_long { IfErr result (λ fault. (place : ℕ) → fault ≡ ItemTooLong place
            → (place ≡ field.entry.value_at) × OfValue field.entry.value.now (λ v. raw_limit < length (raw_text (texts_at self.now.definitions n) v))) }
    {
        match measure(alloc, field.value, &self.definitions.at(n)) {
            Ok(()) => Ok(()),
            Err(fault) => Err(ItemFault::of_value(fault, field.value_at)),
        }
    }
}

/// Inserts an entry as item `n`, with its key and what its crossref says. If memory is refused, both tables say what they
/// said.
fn insert_named(
    entries: &mut Numbers,
    named: &mut EntryTable,
    n: usize,
    key: &[u8],
    crossref: Option<Text>,
) -> Result<(), ItemFault>
    ensures entries { OnOk result ((front rest : List ℕ) → PartAt n front rest entries.old → HaveNext rest → entries.new ≡ front ++ n ∷ map suc rest) }
    ensures named { OnOk result ((front rest : List ℕ) (keys : List Bytes) (crossrefs : List (Option Bytes)) → PartAt n front rest entries.old → length front ≤ length keys → IsTableOf keys crossrefs named.old
        → IsTableOf (insert keys (length front) key.now) (insert crossrefs (length front) crossref) named.new) }
    ensures only { IfErr result (λ fault. fault ≡ ItemMemory) }
    ensures err { OnErr result ((entries.new ≡ entries.old) × ((keys : List Bytes) (crossrefs : List (Option Bytes)) → length keys ≡ length entries.old → IsTableOf keys crossrefs named.old → IsTableOf keys crossrefs named.new)) }
{
    // No item has a longer key.
    if key.len() > NAME_LIMIT {
        return Err(ItemFault::Memory);
    }
    let k = entries.rank(n);
    named.insert(k, key, crossref)?;
    match entries.insert(n) {
        Ok(()) => Ok(()),
        Err(_) => {
            named.remove(k, key);
            Err(ItemFault::Memory)
        }
    }
}

/// Estimates how many items a file of `file_len` bytes has, if the last of its first `SAMPLE` items begins at `start`.
fn estimated_count(file_len: usize, start: usize) -> usize {
    file_len / (start / SAMPLE).max(1)
}

/// The number in the whole list of the item that is item `n` once the items from number `from` up to `to` are left out.
fn kept_number(n: usize, from: usize, to: usize) -> usize
    requires order { from ≤ to }
    requires within { n + (to - from) < 2 ^ 64 }
    ensures { result ≡ (if nat_lt n from then n else n + (to - from)) }
{
    if n < from { n } else { n + (to - from) }
}

/// The place after an item that begins at `start`.
fn item_end(start: usize, body: &[u8], trail: &[u8]) -> usize
    ensures { start + length body.now + length trail.now < 2 ^ 64 → result ≡ start + length body.now + length trail.now }
{
    start.saturating_add(body.len()).saturating_add(trail.len())
}

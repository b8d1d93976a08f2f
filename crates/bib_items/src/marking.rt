//! Marks of the parts of items, so that a search passes over pages in which it would find nothing.

ghost use Rattle.std.specs.Prelude.{◌≡◌, ℕ, false, [], List, OnOk, IfOk, Contains, take};
ghost use Rattle.std.specs.List.Sorted.{IsNonDecreasing};
ghost use Rattle.bib_spec.specs.Text.{Text as Bytes};
ghost use Rattle.bib_scan.specs.PartView.{part_view};
ghost use Rattle.bib_scan.specs.ValueParts.{IsPartsOf};
ghost use Rattle.bib_items.specs.PartMarks.{mark_len, mixed, mixed_all, name_mark, text_mark, part_mark, sought_mark, KeepsMarks, HasPartMark, HasValueMarks, HasFieldMarks, HasItemMarks, IsCovered};

use crate::seeking::Sought;
use crate::slots::{free_slots, is_seen, see};
use bib_scan::{Fields, ItemView, Part, Parts, only_part, read_value};
use std::alloc::{AllocError, AllocFailed, Global};
use std::marker::Model;

/// How many bytes of a text its mark is made of, and how many a look at an item's bytes seeks, at most.
const MARK_LEN: usize = 32;

/// A mark after one more byte.
#[tactic(auto, unfolding(crate::specs::PartMarks::mixed))]
fn mixed(mark: u32, byte: u8) -> u32
    ensures { result ≡ mixed mark byte }
{
    ((mark as u64 * 16_777_619 + byte as u64) % 4_294_967_296) as u32
}

/// The mark of a macro's name. Names that are equal if case does not count have the same mark.
fn name_mark(name: &[u8]) -> u32
    ensures { result ≡ name_mark name.now }
{
    let mut mark = 1;
    'bytes: for n in 0..name.len() {
        mark = mixed(mark, name[n].to_ascii_lowercase());
    }
    mark
}

/// A mark after the bytes of a text.
fn mixed_all(mark: u32, text: &[u8]) -> u32
    ensures { result ≡ mixed_all mark text.now }
{
    let mut mark = mark;
    'bytes: for n in 0..text.len() {
        mark = mixed(mark, text[n]);
    }
    mark
}

/// The first bytes of a text.
pub(crate) fn head(text: &[u8]) -> &[u8]
    ensures { result.now ≡ take mark_len text.now }
{
    if text.len() <= MARK_LEN {
        return text;
    }
    text.split_at(MARK_LEN).0
}

/// The mark of a text in braces or in quotes. It reads only the first bytes of a long text. Texts that begin alike have the
/// same mark, which only costs time.
fn text_mark(text: &[u8]) -> u32
    ensures { result ≡ text_mark text.now }
{
    mixed_all(2, head(text))
}

/// The mark of a part. Digits have none, since no search meets them.
fn part_mark(part: Part<'_>) -> Option<u32>
    ensures { result ≡ part_mark (part_view part.entry) }
{
    match part {
        Part::Braced(text) | Part::Quoted(text) => Some(text_mark(text)),
        Part::Digits(_) => None,
        Part::Macro(name) => Some(name_mark(name)),
    }
}

/// The mark of the parts that are sought.
pub(crate) fn sought_mark(sought: Sought<'_>) -> Option<u32>
    ensures { result ≡ sought_mark sought.entry }
{
    match sought {
        Sought::Nothing => None,
        Sought::Uses(name) => Some(name_mark(name)),
        Sought::Holds(text) => Some(text_mark(text)),
    }
}

/// How many marks are kept at most for the items of a page. Only time depends on it: a search looks at all items of a page
/// with more.
const MOST_MARKS: usize = 2048;

/// Why items have no marks.
#[derive(Clone, Copy, Debug, PartialEq, Eq)]
pub(crate) enum Unmarked {
    /// There would be too many.
    TooMany,
    /// Memory was refused.
    Memory,
}

impl<T: Drop> From<AllocFailed<T>> for Unmarked {
    ghost use Rattle.std.specs.Prelude.{◌≡◌};
    ghost use Rattle.bib_items.specs.declared.marking.Unmarked.TheVariants.{Memory as UnmarkedMemory};

    ghost from_gives = { λ _ fault. fault ≡ UnmarkedMemory };

    fn from(_failed: AllocFailed<T>) -> Unmarked {
        Unmarked::Memory
    }
}

/// Whether the mark is among these, which are in ascending order. It is seldom called.
#[inline(never)]
fn is_among(marks: &[u32], mark: u32) -> bool
    requires { IsNonDecreasing marks.now }
    ensures { result ≡ false → Contains marks.now mark → ⊥ }
{
    marks.binary_search(&mark).is_ok()
}

/// Marks of parts, in ascending order.
#[derive(Drop)]
pub(crate) struct Marks {
    marks: Vec<u32>,
    // which slots are those of marks, so that most marks that are not among them are known in a few steps
    seen: Vec<bool>,
}

impl Model for Marks {
    ghost use Rattle.std.specs.Prelude.{ℕ, List};
    ghost use Rattle.bib_items.specs.Slots.{AreMarks};

    ghost Value = { List ℕ };

    ghost view = { λ m. m.marks.items };

    ghost invariant = { λ m. AreMarks m.marks.items m.seen.items };
}

impl Marks {
    /// No marks.
    pub(crate) fn new(alloc: Global) -> Result<Self, AllocError>
        ensures { IfOk result (λ marks. marks ≡ []) }
    {
        Ok(Marks {
            marks: Vec::new(alloc),
            seen: free_slots(alloc)?,
        })
    }

    /// Whether this mark is among them.
    pub(crate) fn has(&self, mark: u32) -> bool
        ensures { result ≡ false → Contains self.now mark → ⊥ }
    {
        is_seen(&self.seen, mark) && is_among(&self.marks, mark)
    }

    /// Adds a mark, unless it is among them or there would be too many.
    fn add(&mut self, mark: u32) -> Result<(), Unmarked>
        ensures kept { KeepsMarks self.old self.new }
        ensures added { OnOk result (Contains self.new mark) }
    {
        if let Err(at) = self.marks.binary_search(&mark) {
            if self.marks.len() >= MOST_MARKS {
                return Err(Unmarked::TooMany);
            }
            see(&mut self.seen, mark);
            self.marks.insert(at, mark)?;
        }
        Ok(())
    }

    /// Adds the mark of a part.
    fn add_part(&mut self, part: Part<'_>) -> Result<(), Unmarked>
        ensures kept { KeepsMarks self.old self.new }
        ensures added { OnOk result (HasPartMark self.new (part_view part.entry)) }
    {
        match part_mark(part) {
            Some(mark) => self.add(mark),
            None => Ok(()),
        }
    }

    /// Adds the marks of a value that is taken apart.
    fn add_parts(&mut self, value: &[u8], parts: &Parts) -> Result<(), Unmarked>
        requires { IsPartsOf value.now parts.now }
        ensures kept { KeepsMarks self.old self.new }
        ensures added { OnOk result (HasValueMarks self.new value.now) }
    {
        'parts: for n in 0..parts.len() {
            self.add_part(parts.part(value, n))?;
        }
        Ok(())
    }

    /// Adds the marks of a value. Most values have one part, and are not taken apart.
    fn add_value(&mut self, alloc: Global, value: &[u8]) -> Result<(), Unmarked>
        ensures kept { KeepsMarks self.old self.new }
        ensures added { OnOk result (HasValueMarks self.new value.now) }
    {
        if let Some(part) = only_part(value) {
            return self.add_part(part);
        }
        match read_value(alloc, value) {
            Ok(parts) => self.add_parts(value, &parts),
            // The value is valid in each item of a file, so only want of memory refuses it.
            Err(_) => Err(Unmarked::Memory),
        }
    }

    /// Adds the marks of fields.
    fn add_fields(&mut self, alloc: Global, fields: Fields<'_>) -> Result<(), Unmarked>
        ensures kept { KeepsMarks self.old self.new }
        ensures added { OnOk result (HasFieldMarks self.new fields.entry) }
    {
        let mut rest = fields;
        'fields: while let Some(field) = rest.next() {
            self.add_value(alloc, field.value)?;
        }
        Ok(())
    }

    /// Adds the marks of the item with this body.
    pub(crate) fn add_item(&mut self, alloc: Global, body: &[u8]) -> Result<(), Unmarked>
        ensures kept { KeepsMarks self.old self.new }
        ensures added { OnOk result (HasItemMarks self.new body.now) }
    {
        self.add_fields(alloc, ItemView::of(body, b"").fields())
    }
}

/// Adds the marks of the item with this body, if marks were made. If that is refused, there are none afterwards.
pub(crate) fn cover(alloc: Global, marks: &mut Option<Marks>, body: &[u8])
    ensures kept { (other : Bytes) → IsCovered marks.old other → IsCovered marks.new other }
    ensures added { IsCovered marks.new body.now }
{
    let Some(mut known) = marks.take() else {
        return;
    };
    if known.add_item(alloc, body).is_ok() {
        *marks = Some(known);
    }
}

//! What holds of all items whatever macros stand for.

ghost use Rattle.std.specs.Prelude.{◌≡◌, true, false, Option};
ghost use Rattle.bib_spec.specs.Text.{Text as Bytes};
ghost use Rattle.bib_spec.specs.Texts.{Macros, parts_of, raw_text};
ghost use Rattle.bib_scan.specs.PartView.{part_view};
ghost use Rattle.bib_scan.specs.ValueParts.{IsPartsOf};
ghost use Rattle.bib_value.specs.Raw.{OfValue};
ghost use Rattle.bib_store.specs.ItemTexts.{crossref_in, OfRows};
ghost use Rattle.bib_store.specs.Bounds.{is_literal, AreLiteral, IsSettledEntry, Admits};
ghost use Rattle.bib_store.specs.Firm.{AreFirm};

use crate::glancing::are_short;
use bib_scan::{Fields, ItemView, Part, Parts, only_part, read_value};
use bib_text::{Text, same_folded};
use std::alloc::Global;

/// What is known of all items, so that none has to be read again when a macro gets another text.
#[derive(Clone, Copy)]
pub(crate) struct Bounds {
    /// Whatever macros stand for, crossrefs say the same, and definitions give the same texts.
    pub settled: bool,
    /// No item's body has more bytes.
    pub longest_body: usize,
}

impl Bounds {
    /// Bounds that cover one more item, whose body has `len` bytes.
    pub(crate) fn with(self, len: usize, settled: bool) -> Bounds
        ensures { Admits len settled self result }
    {
        Bounds {
            settled: self.settled && settled,
            longest_body: self.longest_body.max(len),
        }
    }

    /// Whether crossrefs and definitions say the same whatever macros stand for, and no text can be too long if no macro stands
    /// for more than `longest` bytes.
    pub(crate) fn are_firm(&self, longest: usize) -> bool
        ensures firm { result ≡ true → AreFirm longest self.now }
        ensures loose { result ≡ false → AreFirm longest self.now → ⊥ }
    {
        self.settled && are_short(self.longest_body, longest)
    }
}

/// Whether the part is not the name of a macro.
fn is_literal(part: Part<'_>) -> bool
    ensures { result ≡ is_literal (part_view part.entry) }
{
    match part {
        Part::Macro(_) => false,
        Part::Braced(_) => true,
        Part::Quoted(_) => true,
        Part::Digits(_) => true,
    }
}

/// Whether no part of the value in these bytes is the name of a macro.
fn are_literal(parts: &Parts, bytes: &[u8]) -> bool
    requires { IsPartsOf bytes.now parts.now }
    ensures { result ≡ true → OfValue bytes.now (λ v. AreLiteral (parts_of v)) }
{
    'parts: for n in 0..parts.len() {
        if !is_literal(parts.part(bytes, n)) {
            return false;
        }
    }
    true
}

/// Whether the value in these bytes says the same whatever macros stand for. If memory is refused, the answer is no.
pub(crate) fn is_settled_value(alloc: Global, bytes: &[u8]) -> bool
    ensures { result ≡ true → (text : Bytes) × OfValue bytes.now (λ v. (m : Macros) → raw_text m v ≡ text) }
{
    if let Some(part) = only_part(bytes) {
        return is_literal(part);
    }
    match read_value(alloc, bytes) {
        Ok(parts) => are_literal(&parts, bytes),
        Err(_) => false,
    }
}

/// Whether the crossref of an entry with these fields says the same whatever macros stand for.
fn are_settled(alloc: Global, fields: Fields<'_>) -> bool
    ensures { result ≡ true → (said : Option Bytes) × OfRows fields.entry (λ before rows. (m : Macros) → said ≡ crossref_in m rows) }
{
    let mut fields = fields;
    'rows: while let Some(field) = fields.next() {
        if same_folded(field.name, b"crossref") {
            return is_settled_value(alloc, field.value);
        }
    }
    true
}

/// Whether the crossref of an entry says the same whatever macros stand for. At the entry's place in the file it says
/// `crossref`.
pub(crate) fn is_settled_entry(alloc: Global, entry: &ItemView<'_>, crossref: &Option<Text>) -> bool
    ensures { result ≡ true → IsSettledEntry entry.now crossref.now }
{
    match crossref {
        None => true,
        Some(_) => are_settled(alloc, entry.fields()),
    }
}

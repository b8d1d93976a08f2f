//! What the crossref of an entry says.

ghost use Rattle.std.specs.Prelude.{◌≡◌, ◌<◌, ◌≤◌, ℕ, [], ◌∷◌, true, Option, Some, None, length, map, IfOk, IfErr, OnOk};
ghost use Rattle.std.specs.Option.{option_or};
ghost use Rattle.bib_spec.specs.Text.{Text as Bytes};
ghost use Rattle.bib_spec.specs.Texts.{Macros, raw_text, raw_limit, field_text};
ghost use Rattle.bib_spec.specs.Bytes.{name_limit};
ghost use Rattle.bib_spec.specs.Tree.{IsTree};
ghost use Rattle.bib_spec.specs.Reading.{Item};
ghost use Rattle.bib_spec.specs.Records.{entry_in, crossref_text};
ghost use Rattle.bib_scan.specs.View.{view_of};
ghost use Rattle.bib_value.specs.Raw.{OfValue};
ghost use Rattle.bib_store.specs.Readings.{is_entry_tree};
ghost use Rattle.bib_store.specs.TablesOf.{IsNotedAs};
ghost use Rattle.bib_store.specs.Bounds.{IsSettledEntry};
ghost use Rattle.bib_store.specs.ItemTexts.{said_by, crossref_in, row_texts, first_too_long, placed_texts, OfRows};
ghost use Rattle.bib_value.specs.declared.fault.ValueFault.TheVariants.{TextTooLong};
ghost use Rattle.bib_store.specs.declared.item_fault.ItemFault.TheVariants.{TooLong as ItemTooLong, Memory as ItemMemory, Unsettled as ItemUnsettled};
ghost use Rattle.bib_definitions.specs.Definitions.{AreAtMost};

use crate::bounds::{is_settled_entry, is_settled_value};
use crate::glancing::{are_short, lacks_crossref};
use crate::item_fault::ItemFault;
use crate::measuring::{measure, value_field_text};
use bib_scan::{FieldView, Fields, ItemView, Note};
use bib_text::{Text, same_folded};
use bib_value::{MacroTable, ValueFault};
use std::alloc::Global;

/// What the crossref of an entry says at the entry's place in the file, and whether it says so whatever macros stand for.
#[derive(Drop)]
pub(crate) struct CrossrefText {
    pub text: Option<Text>,
    pub is_literal: bool,
}

/// What the crossref says once one more field is read: the first field named `crossref` counts. The field's text is
/// measured.
fn with_value<M: MacroTable>(
    alloc: Global,
    found: Option<Text>,
    name: &[u8],
    value: &[u8],
    macros: &M,
) -> Result<Option<Text>, ValueFault>
    ensures found { IfOk result (λ text. OfValue value.now (λ v. text ≡ option_or found (said_by (M.macros macros.now) name.now v))) }
    ensures short { OnOk result (OfValue value.now (λ v. length (raw_text (M.macros macros.now) v) ≤ raw_limit)) }
    ensures too_long { IfErr result (λ fault. fault ≡ TextTooLong → OfValue value.now (λ v. raw_limit < length (raw_text (M.macros macros.now) v))) }
{
    if found.is_none() && same_folded(name, b"crossref") {
        return Ok(Some(value_field_text(alloc, value, macros)?));
    }
    measure(alloc, value, macros)?;
    Ok(found)
}

/// What the crossref says once one more field is read.
fn with_field<M: MacroTable>(
    alloc: Global,
    found: Option<Text>,
    field: FieldView<'_>,
    macros: &M,
) -> Result<Option<Text>, ItemFault>
    ensures found { IfOk result (λ text. OfValue field.entry.value.now (λ v. text ≡ option_or found (said_by (M.macros macros.now) field.entry.name.now v))) }
    ensures short { OnOk result (OfValue field.entry.value.now (λ v. length (raw_text (M.macros macros.now) v) ≤ raw_limit)) }
    ensures too_long { IfErr result (λ fault. (n : ℕ) → fault ≡ ItemTooLong n → (n ≡ field.entry.value_at) × OfValue field.entry.value.now (λ v. raw_limit < length (raw_text (M.macros macros.now) v))) }
    ensures other { IfErr result (λ fault. fault ≡ ItemUnsettled → ⊥) }
{
    match with_value(alloc, found, field.name, field.value, macros) {
        Ok(text) => Ok(text),
        Err(fault) => Err(ItemFault::of_value(fault, field.value_at)),
    }
}

/// What the crossref of an entry with these fields says. Each field's text is measured.
pub(crate) fn crossref_of<M: MacroTable>(
    alloc: Global,
    fields: Fields<'_>,
    macros: &M,
) -> Result<Option<Text>, ItemFault>
    ensures text { IfOk result (λ text. OfRows fields.entry (λ before rows. text ≡ crossref_in (M.macros macros.now) rows)) }
    ensures short { OnOk result (OfRows fields.entry (λ before rows. first_too_long (row_texts (length before) (M.macros macros.now) rows) ≡ None)) }
    ensures too_long { IfErr result (λ fault. (n : ℕ) → fault ≡ ItemTooLong n → OfRows fields.entry (λ before rows. first_too_long (row_texts (length before) (M.macros macros.now) rows) ≡ Some n)) }
    ensures other { IfErr result (λ fault. fault ≡ ItemUnsettled → ⊥) }
{
    let mut fields = fields;
    let mut found = None;
    'rows: while let Some(field) = fields.next() {
        found = with_field(alloc, found, field, macros)?;
    }
    Ok(found)
}

/// What the crossref of an entry says. Each field's text is measured.
fn entry_crossref<M: MacroTable>(
    alloc: Global,
    entry: &ItemView<'_>,
    macros: &M,
) -> Result<Option<Text>, ItemFault>
    ensures text { IfOk result (λ text. (i : Item) → IsTree name_limit i.tree → is_entry_tree i.tree ≡ true → entry.now ≡ view_of i → map crossref_text (entry_in (M.macros macros.now) i.tree) ≡ text ∷ []) }
    ensures short { OnOk result ((i : Item) → IsTree name_limit i.tree → is_entry_tree i.tree ≡ true → entry.now ≡ view_of i → first_too_long (placed_texts (M.macros macros.now) i.tree) ≡ None) }
    ensures too_long { IfErr result (λ fault. (n : ℕ) → fault ≡ ItemTooLong n → (i : Item) → IsTree name_limit i.tree → is_entry_tree i.tree ≡ true → entry.now ≡ view_of i → first_too_long (placed_texts (M.macros macros.now) i.tree) ≡ Some n) }
    ensures other { IfErr result (λ fault. fault ≡ ItemUnsettled → ⊥) }
{
    crossref_of(alloc, entry.fields(), macros)
}

/// What a crossref says whose raw text is not too long.
fn unmeasured_text<M: MacroTable>(
    alloc: Global,
    value: &[u8],
    macros: &M,
) -> Result<Text, ItemFault>
    ensures text { IfOk result (λ text. OfValue value.now (λ v. text ≡ field_text (raw_text (M.macros macros.now) v))) }
    ensures only { IfErr result (λ fault. fault ≡ ItemMemory) }
{
    match value_field_text(alloc, value, macros) {
        Ok(text) => Ok(text),
        Err(_) => Err(ItemFault::Memory),
    }
}

/// What the first crossref of these fields says, where none of their texts is too long. Those after it are not read.
fn first_crossref<M: MacroTable>(
    alloc: Global,
    fields: Fields<'_>,
    macros: &M,
) -> Result<CrossrefText, ItemFault>
    ensures text { IfOk result (λ said. OfRows fields.entry (λ before rows. said.text ≡ crossref_in (M.macros macros.now) rows)) }
    ensures settled { IfOk result (λ said. said.is_literal ≡ true → (text : Option Bytes) × OfRows fields.entry (λ before rows. (m : Macros) → text ≡ crossref_in m rows)) }
    ensures only { IfErr result (λ fault. fault ≡ ItemMemory) }
{
    let mut fields = fields;
    'rows: while let Some(field) = fields.next() {
        if same_folded(field.name, b"crossref") {
            let text = unmeasured_text(alloc, field.value, macros)?;
            return Ok(CrossrefText {
                text: Some(text),
                is_literal: is_settled_value(alloc, field.value),
            });
        }
    }
    Ok(CrossrefText {
        text: None,
        is_literal: true,
    })
}

/// What the crossref of an entry says, if none of the entry's texts is too long. `note` is what was noted of the entry.
fn noted_crossref<M: MacroTable>(
    alloc: Global,
    entry: &ItemView<'_>,
    note: Note,
    macros: &M,
) -> Result<CrossrefText, ItemFault>
    requires { IsNotedAs (Some note) entry.now }
    ensures text { IfOk result (λ said. (i : Item) → IsTree name_limit i.tree → is_entry_tree i.tree ≡ true → entry.now ≡ view_of i → map crossref_text (entry_in (M.macros macros.now) i.tree) ≡ said.text ∷ []) }
    ensures settled { IfOk result (λ said. said.is_literal ≡ true → IsSettledEntry entry.now said.text) }
    ensures only { IfErr result (λ fault. fault ≡ ItemMemory) }
{
    match note.crossref(entry.body()) {
        Some(field) => {
            let text = unmeasured_text(alloc, field.value, macros)?;
            Ok(CrossrefText {
                text: Some(text),
                is_literal: is_settled_value(alloc, field.value),
            })
        }
        None => Ok(CrossrefText {
            text: None,
            is_literal: true,
        }),
    }
}

/// What the crossref of an entry says, if none of the entry's texts is too long.
fn short_crossref<M: MacroTable>(
    alloc: Global,
    entry: &ItemView<'_>,
    macros: &M,
    note: Option<Note>,
) -> Result<CrossrefText, ItemFault>
    requires { IsNotedAs note entry.now }
    ensures text { IfOk result (λ said. (i : Item) → IsTree name_limit i.tree → is_entry_tree i.tree ≡ true → entry.now ≡ view_of i → map crossref_text (entry_in (M.macros macros.now) i.tree) ≡ said.text ∷ []) }
    ensures settled { IfOk result (λ said. said.is_literal ≡ true → IsSettledEntry entry.now said.text) }
    ensures only { IfErr result (λ fault. fault ≡ ItemMemory) }
{
    if let Some(known) = note {
        return noted_crossref(alloc, entry, known, macros);
    }
    // most entries have no crossref, and need not be read
    if lacks_crossref(entry.body()) {
        return Ok(CrossrefText {
            text: None,
            is_literal: true,
        });
    }
    first_crossref(alloc, entry.fields(), macros)
}

/// What the crossref of an entry says, if no macro stands for more than `longest` bytes. `note` is what was noted of the
/// entry, if anything. Texts are measured only if one of them may be too long.
pub(crate) fn crossref_within<M: MacroTable>(
    alloc: Global,
    entry: &ItemView<'_>,
    macros: &M,
    longest: usize,
    note: Option<Note>,
) -> Result<CrossrefText, ItemFault>
    requires longest { AreAtMost longest (M.macros macros.now) }
    requires note { IsNotedAs note entry.now }
    ensures text { IfOk result (λ said. (i : Item) → IsTree name_limit i.tree → is_entry_tree i.tree ≡ true → entry.now ≡ view_of i → map crossref_text (entry_in (M.macros macros.now) i.tree) ≡ said.text ∷ []) }
    ensures settled { IfOk result (λ said. said.is_literal ≡ true → IsSettledEntry entry.now said.text) }
    ensures short { OnOk result ((i : Item) → IsTree name_limit i.tree → is_entry_tree i.tree ≡ true → entry.now ≡ view_of i → first_too_long (placed_texts (M.macros macros.now) i.tree) ≡ None) }
    ensures too_long { IfErr result (λ fault. (n : ℕ) → fault ≡ ItemTooLong n → (i : Item) → IsTree name_limit i.tree → is_entry_tree i.tree ≡ true → entry.now ≡ view_of i → first_too_long (placed_texts (M.macros macros.now) i.tree) ≡ Some n) }
    ensures other { IfErr result (λ fault. fault ≡ ItemUnsettled → ⊥) }
{
    if are_short(entry.body().len(), longest) {
        return short_crossref(alloc, entry, macros, note);
    }
    let text = entry_crossref(alloc, entry, macros)?;
    let is_literal = is_settled_entry(alloc, entry, &text);
    Ok(CrossrefText { text, is_literal })
}

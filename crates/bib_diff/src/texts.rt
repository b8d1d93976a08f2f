//! The texts of an entry by the names of their fields.

ghost use Rattle.std.specs.Prelude.{◌≡◌, ◌≤◌, Some, length, slice_get, IfOk, OnOk};
ghost use Rattle.bib_spec.specs.Bytes.{name_limit};
ghost use Rattle.bib_spec.specs.Texts.{raw_text, field_text};
ghost use Rattle.bib_spec.specs.Records.{EntryTexts, entries_of};
ghost use Rattle.bib_value.specs.Raw.{OfValue};
ghost use Rattle.bib_definitions.specs.MacrosSeen.{macros_seen};
ghost use Rattle.bib_store.specs.Readings.{OfReading, IsEntryNumber};
ghost use Rattle.bib_diff.specs.Texts.{IsWithText, HaveShortNames, AreTextsOfRows, AreTextsOfEntry};

use crate::values::value_text;
use bib_scan::Fields;
use bib_store::{Database, MacrosAt, Paged};
use bib_text::Text;
use folded_map::FoldedMap;
use std::alloc::{AllocError, Global};

/// Field texts by the names of fields, without regard to ASCII case.
pub(crate) type Texts = FoldedMap<Text>;

/// Adds the text of a field, unless an earlier field has its name.
fn add(
    alloc: Global,
    texts: &mut Texts,
    name: &[u8],
    value: &[u8],
    macros: &MacrosAt<'_>,
) -> Result<(), AllocError>
    requires { length name.now ≤ name_limit }
    ensures { OnOk result (OfValue value.now (λ v. IsWithText texts.old name.now (field_text (raw_text (macros_seen macros.now) v)) texts.new)) }
{
    if texts.get(name).is_some() {
        return Ok(());
    }
    let text = value_text(alloc, macros, value)?;
    texts.insert(name, text)?;
    Ok(())
}

/// The texts of these fields: of each name that of its first field.
fn gathered(alloc: Global, fields: Fields<'_>, macros: &MacrosAt<'_>) -> Result<Texts, AllocError>
    requires { HaveShortNames fields }
    ensures { IfOk result (AreTextsOfRows (macros_seen macros.now) fields.entry) }
{
    let mut texts = FoldedMap::new(alloc);
    let mut rest = fields;
    'fields: while let Some(field) = rest.next() {
        add(alloc, &mut texts, field.name, field.value, macros)?;
    }
    Ok(texts)
}

/// The texts of entry `n`, `crossref` among them. It takes time and memory in the length of the entry and of its texts.
pub(crate) fn texts_at(alloc: Global, db: &Database<Paged>, n: usize) -> Result<Texts, AllocError>
    requires { IsEntryNumber db.now n }
    ensures { IfOk result (λ texts. OfReading db.now (λ r. (entry : EntryTexts) → slice_get (entries_of r) n ≡ Some entry → AreTextsOfEntry entry texts)) }
{
    db.opens();
    let texts = gathered(alloc, db.entry(n).fields(), &db.macros_at(db.entry_item(n)))?;
    Ok(texts)
}

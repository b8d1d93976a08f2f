//! Entries that say the same.

ghost use Rattle.std.specs.Prelude.{◌≡◌, List, IfOk};
ghost use Rattle.std.specs.Option.{option_copied};
ghost use Rattle.bib_spec.specs.Bytes.{name_limit};
ghost use Rattle.bib_spec.specs.Text.{Text};
ghost use Rattle.bib_spec.specs.Tree.{Entry, Row, IsEntry, EntryTree};
ghost use Rattle.bib_scan.specs.View.{view_of};
ghost use Rattle.bib_definitions.specs.MacrosSeen.{macros_seen};
ghost use Rattle.merge_spec.specs.ThreeWay.{entries_agree, agree_on};
ghost use Rattle.bib_sayings.specs.FieldTables.{IsTableOfRows, names_of, same_texts};

use crate::field_table::{FieldTable, table_of};
use crate::texts::field_text_of;
use bib_scan::{Fields, ItemView};
use bib_store::MacrosAt;
use bib_text::same_folded;
use std::alloc::{AllocError, Global};

/// Whether two values have the same field text, or both are absent.
fn values_agree(
    alloc: Global,
    a: Option<&[u8]>,
    macros_a: &MacrosAt<'_>,
    b: Option<&[u8]>,
    macros_b: &MacrosAt<'_>,
) -> Result<bool, AllocError>
    ensures { IfOk result (λ same. same_texts (macros_seen macros_a.now) (option_copied a.entry) (macros_seen macros_b.now) (option_copied b.entry) same) }
{
    match (a, b) {
        (Some(a), Some(b)) => {
            let a = field_text_of(alloc, a, macros_a)?;
            let b = field_text_of(alloc, b, macros_b)?;
            Ok(a.as_slice() == b.as_slice())
        }
        (None, None) => Ok(true),
        _ => Ok(false),
    }
}

/// Whether, for the name of each of these fields, the two entries with these tables have the same field text, or both lack the
/// field.
fn tables_agree(
    alloc: Global,
    fields: Fields<'_>,
    a: &FieldTable<'_>,
    macros_a: &MacrosAt<'_>,
    b: &FieldTable<'_>,
    macros_b: &MacrosAt<'_>,
) -> Result<bool, AllocError>
    ensures { IfOk result (λ same. (ra rb : List Row) → IsTableOfRows a.now ra → IsTableOfRows b.now rb
        → same ≡ agree_on (names_of fields.entry) (macros_seen macros_a.now) ra (macros_seen macros_b.now) rb) }
{
    let mut rest = fields;
    'fields: while let Some(field) = rest.next() {
        let one = a.get(field.name).copied();
        let other = b.get(field.name).copied();
        if !values_agree(alloc, one, macros_a, other, macros_b)? {
            return Ok(false);
        }
    }
    Ok(true)
}

/// Whether the two entries have the same type, and the same fields with the same texts.
pub(crate) fn entries_agree(
    alloc: Global,
    a: &ItemView<'_>,
    macros_a: &MacrosAt<'_>,
    b: &ItemView<'_>,
    macros_b: &MacrosAt<'_>,
) -> Result<bool, AllocError>
    ensures { IfOk result (λ same. (ea eb : Entry) (ta tb : Text) → IsEntry name_limit ea → IsEntry name_limit eb
        → a.now ≡ view_of (record { tree = EntryTree ea; trail = ta }) → b.now ≡ view_of (record { tree = EntryTree eb; trail = tb })
        → same ≡ entries_agree (macros_seen macros_a.now) ea (macros_seen macros_b.now) eb) }
{
    if !same_folded(a.type_name(), b.type_name()) {
        return Ok(false);
    }
    let Some(table_a) = table_of(alloc, a.fields())? else {
        return Ok(false);
    };
    let Some(table_b) = table_of(alloc, b.fields())? else {
        return Ok(false);
    };
    if !tables_agree(alloc, a.fields(), &table_a, macros_a, &table_b, macros_b)? {
        return Ok(false);
    }
    let rest = tables_agree(alloc, b.fields(), &table_a, macros_a, &table_b, macros_b)?;
    Ok(rest)
}

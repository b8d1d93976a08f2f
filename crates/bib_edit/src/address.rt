//! The entry that a key names, and its fields.

ghost use Rattle.std.specs.Prelude.{◌≡◌, find, IfOk, IfErr};
ghost use Rattle.std.specs.Option.{option_map};
ghost use Rattle.bib_scan.specs.View.{field_seen};
ghost use Rattle.bib_store.specs.Readings.{OfReading};
ghost use Rattle.bib_edit.specs.Addressing.{IsHeldAt, IsLoneNumber, IsHolderFault, is_field, AreSought};

use crate::fault::EditFault;
use bib_scan::{FieldView, ItemView};
use bib_store::{Database, ItemList};
use bib_text::same_folded;

/// The number among the entries of the one entry with this key.
pub(crate) fn lone_number<L: ItemList>(db: &Database<L>, key: &[u8]) -> Result<usize, EditFault>
    ensures lone { IfOk result (λ n. OfReading db.now (λ r. IsLoneNumber key.now r n)) }
    ensures refused { IfErr result (IsHolderFault db.now key.now) }
{
    match db.holders_of(key) {
        Some(held) if held.count > 1 => Err(EditFault::Ambiguous),
        Some(held) => Ok(held.first),
        None => Err(EditFault::NotFound),
    }
}

/// The number of the item that is the one entry with this key.
pub(crate) fn lone_entry<L: ItemList>(db: &Database<L>, key: &[u8]) -> Result<usize, EditFault>
    ensures lone { IfOk result (λ n. OfReading db.now (λ r. IsHeldAt key.now r n)) }
    ensures refused { IfErr result (IsHolderFault db.now key.now) }
{
    let n = lone_number(db, key)?;
    Ok(db.entry_item(n))
}

/// What was found of the fields with one name.
#[derive(Clone, Copy)]
pub(crate) struct SoughtFields<'a> {
    /// The first field that has the name.
    pub(crate) first: Option<FieldView<'a>>,
    /// Whether another field has the name too.
    pub(crate) is_repeated: bool,
    /// The last field of all.
    pub(crate) last: Option<FieldView<'a>>,
}

/// Seeks the fields that have this name, in one walk over all.
pub(crate) fn sought_fields<'a>(view: &ItemView<'a>, name: &[u8]) -> SoughtFields<'a>
    ensures { AreSought name.now view.now.fields result }
{
    let mut sought = SoughtFields {
        first: None,
        is_repeated: false,
        last: None,
    };
    let mut rest = view.fields();
    'fields: while let Some(field) = rest.next() {
        if same_folded(field.name, name) {
            match sought.first {
                Some(_) => sought.is_repeated = true,
                None => sought.first = Some(field),
            }
        }
        sought.last = Some(field);
    }
    sought
}

/// The first field that has this name.
pub(crate) fn field_named<'a>(view: &ItemView<'a>, name: &[u8]) -> Option<FieldView<'a>>
    ensures { option_map field_seen result ≡ find (is_field name.now) view.now.fields }
{
    view.fields().find(|f| same_folded(f.name, name))
}

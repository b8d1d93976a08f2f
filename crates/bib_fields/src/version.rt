//! An entry of one file, ready to be compared.

ghost use Rattle.std.specs.Prelude.{◌≡◌, map, IfOk};
ghost use Rattle.bib_spec.specs.Bytes.{name_limit};
ghost use Rattle.bib_spec.specs.Text.{Text};
ghost use Rattle.bib_spec.specs.Tree.{Entry, IsEntry, IsTree, EntryTree};
ghost use Rattle.bib_spec.specs.Reading.{Item};
ghost use Rattle.bib_scan.specs.View.{field_seen, view_of};
ghost use Rattle.bib_definitions.specs.MacrosSeen.{macros_seen};
ghost use Rattle.bib_fields.specs.Versions.{MayBeVersion};

use bib_sayings::{FieldTable, table_of};
use bib_scan::{FieldView, Fields, ItemView, Kind};
use bib_store::MacrosAt;
use std::alloc::{AllocError, Global};

/// An entry of one file, which has each of its fields once: its type, its fields in order and by their names, and what macros
/// stand for before it.
#[derive(Drop)]
pub(crate) struct Version<'a> {
    pub type_name: &'a [u8],
    pub fields: Vec<FieldView<'a>>,
    pub table: FieldTable<'a>,
    pub macros: MacrosAt<'a>,
}

/// The fields in order.
pub(crate) fn all_fields<'a>(
    alloc: Global,
    fields: Fields<'a>,
) -> Result<Vec<FieldView<'a>>, AllocError>
    ensures { IfOk result (λ all. map field_seen all.items ≡ fields.entry) }
{
    let mut all = Vec::new(alloc);
    let mut rest = fields;
    'fields: while let Some(field) = rest.next() {
        all.push(field)?;
    }
    Ok(all)
}

/// The version of an entry, with what macros stand for before it; nothing of another item, or if a field is there twice.
fn entry_version<'a>(
    alloc: Global,
    item: &ItemView<'a>,
    macros: MacrosAt<'a>,
) -> Result<Option<Version<'a>>, AllocError>
    ensures { IfOk result (λ version. (e : Entry) (trail : Text) → IsEntry name_limit e → item.now ≡ view_of (record { tree = EntryTree e; trail = trail }) → MayBeVersion version (macros_seen macros.entry) (EntryTree e)) }
{
    let Some(table) = table_of(alloc, item.fields())? else {
        return Ok(None);
    };
    let all = all_fields(alloc, item.fields())?;
    Ok(Some(Version {
        type_name: item.type_name(),
        fields: all,
        table,
        macros,
    }))
}

/// The version of an item, with what macros stand for before it; nothing if it is no entry, or if a field is there twice.
pub(crate) fn version_of<'a>(
    alloc: Global,
    item: &ItemView<'a>,
    macros: MacrosAt<'a>,
) -> Result<Option<Version<'a>>, AllocError>
    ensures { IfOk result (λ version. (i : Item) → IsTree name_limit i.tree → item.now ≡ view_of i → MayBeVersion version (macros_seen macros.entry) i.tree) }
{
    match item.kind() {
        Kind::Entry => {
            let version = entry_version(alloc, item, macros)?;
            Ok(version)
        }
        _ => Ok(None),
    }
}

//! The values of an entry's fields, by their names.

ghost use Rattle.std.specs.Prelude.{◌≡◌, ◌≤◌, true, length, IfOk};
ghost use Rattle.bib_spec.specs.Bytes.{name_limit};
ghost use Rattle.bib_sayings.specs.FieldTables.{IsTableFound};

use bib_scan::Fields;
use bib_text::NAME_LIMIT;
use folded_map::FoldedMap;
use std::alloc::{AllocError, Global};

/// The values of fields, by their names.
pub type FieldTable<'a> = FoldedMap<&'a [u8]>;

/// Whether the name is at most as long as a name may be.
fn is_short(name: &[u8]) -> bool
    ensures { result ≡ true → length name.now ≤ name_limit }
{
    name.len() <= NAME_LIMIT
}

/// The values of these fields by their names, or nothing if a name is there twice. It takes time and memory in the number of
/// fields and the lengths of their names.
pub fn table_of<'a>(alloc: Global, fields: Fields<'a>) -> Result<Option<FieldTable<'a>>, AllocError>
    ensures { IfOk result (λ found. IsTableFound found fields.entry) }
{
    let mut table = FoldedMap::new(alloc);
    let mut rest = fields;
    'fields: while let Some(field) = rest.next() {
        if !is_short(field.name) {
            return Err(AllocError);
        }
        if table.insert(field.name, field.value)?.is_some() {
            return Ok(None);
        }
    }
    Ok(Some(table))
}

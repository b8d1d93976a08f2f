//! The opening of an entry with another type.

ghost use Rattle.std.specs.Prelude.{◌≡◌, ◌≤◌, ◌++◌, ◌+◌, length, IfSome, OnOk};
ghost use Rattle.bib_spec.specs.Bytes.{name_limit};
ghost use Rattle.bib_spec.specs.Text.{Text};
ghost use Rattle.bib_spec.specs.Tree.{Entry, IsEntry, EntryTree, opening_bytes};
ghost use Rattle.bib_scan.specs.View.{view_of};
ghost use Rattle.bib_fields.specs.Slices.{between};
ghost use Rattle.bib_fields.specs.Openings.{type_place, opening_with};

use crate::slices::between;
use bib_scan::ItemView;
use std::alloc::AllocError;

/// The place of the type in an item's body: after the at-sign and white space.
fn type_place(body: &[u8]) -> usize
    ensures place { result ≡ type_place body.now }
    ensures within { result ≤ length body.now }
{
    body.iter()
        .take_while(|byte| **byte == b'@' || **byte <= b' ')
        .count()
}

/// The bytes of an entry before its type, and those after it and before its key.
fn around_type<'a>(item: &ItemView<'a>) -> Option<(&'a [u8], &'a [u8])>
    ensures { IfSome result (λ parts. (parts.0.now ≡ between item.now.body 0 (type_place item.now.body)) × (parts.1.now ≡ between item.now.body (type_place item.now.body + length item.now.type_name) item.now.key_at)) }
{
    let body = item.body();
    let place = type_place(body);
    let len = item.type_name().len();
    if len > body.len() - place {
        return None;
    }
    let end = place + len;
    match (between(body, 0, place), between(body, end, item.key_at())) {
        (Some(before), Some(after)) => Some((before, after)),
        _ => None,
    }
}

/// Adds the opening of an entry with this type in the place of its own.
pub(crate) fn add_opening(
    out: &mut Vec<u8>,
    item: &ItemView<'_>,
    type_name: &[u8],
) -> Result<(), AllocError>
    ensures { OnOk result ((e : Entry) (trail : Text) → IsEntry name_limit e → item.now ≡ view_of (record { tree = EntryTree e; trail = trail })
        → out.new.items ≡ out.old.items ++ opening_bytes (opening_with e.opening type_name.now)) }
{
    let Some((before, after)) = around_type(item) else {
        return Err(AllocError);
    };
    out.extend_from_slice(before)?;
    out.extend_from_slice(type_name)?;
    out.extend_from_slice(after)?;
    Ok(())
}

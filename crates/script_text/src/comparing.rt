//! Whether requests are the same.

ghost use Rattle.std.specs.Prelude.{◌≡◌, true};

use bib_data::{Edit, NewEntry, Request};
use bib_text::Text;

/// Whether the texts are the same.
fn is_text(a: &Text, b: &Text) -> bool
    ensures { result ≡ true → a.now ≡ b.now }
{
    a.as_slice() == b.as_slice()
}

/// Whether the fields are the same.
fn is_same_field(a: &(Text, Text), b: &(Text, Text)) -> bool
    ensures { result ≡ true → a.now ≡ b.now }
{
    is_text(&a.0, &b.0) && is_text(&a.1, &b.1)
}

/// Whether the fields are the same, in the same order.
fn are_same_fields(a: &[(Text, Text)], b: &[(Text, Text)]) -> bool
    ensures { result ≡ true → a.now ≡ b.now }
{
    if a.len() != b.len() {
        return false;
    }
    'fields: for n in 0..a.len() {
        if !is_same_field(&a[n], &b[n]) {
            return false;
        }
    }
    true
}

/// Whether the entries are the same.
fn is_same_entry(a: &NewEntry, b: &NewEntry) -> bool
    ensures { result ≡ true → a.now ≡ b.now }
{
    is_text(&a.kind_name, &b.kind_name)
        && is_text(&a.key, &b.key)
        && are_same_fields(a.fields.as_slice(), b.fields.as_slice())
}

/// Whether the edits are the same, and of the kinds that are written.
fn is_same_edit(a: &Edit, b: &Edit) -> bool
    ensures { result ≡ true → a.now ≡ b.now }
{
    match (a, b) {
        (
            Edit::SetField { key, field, value },
            Edit::SetField {
                key: other_key,
                field: other_field,
                value: other_value,
            },
        ) => is_text(key, other_key) && is_text(field, other_field) && is_text(value, other_value),
        (
            Edit::DropField { key, field },
            Edit::DropField {
                key: other_key,
                field: other_field,
            },
        ) => is_text(key, other_key) && is_text(field, other_field),
        (
            Edit::AddEntry { place, entry },
            Edit::AddEntry {
                place: other_place,
                entry: other_entry,
            },
        ) => *place == *other_place && is_same_entry(entry, other_entry),
        (Edit::RemoveEntry { key }, Edit::RemoveEntry { key: other_key }) => {
            is_text(key, other_key)
        }
        (
            Edit::MoveEntry { key, place },
            Edit::MoveEntry {
                key: other_key,
                place: other_place,
            },
        ) => is_text(key, other_key) && *place == *other_place,
        (
            Edit::RenameKey { from, to },
            Edit::RenameKey {
                from: other_from,
                to: other_to,
            },
        ) => is_text(from, other_from) && is_text(to, other_to),
        _ => false,
    }
}

/// Whether the requests are the same, and edits of the kinds that are written.
fn is_same(a: &Request, b: &Request) -> bool
    ensures { result ≡ true → a.now ≡ b.now }
{
    match (a, b) {
        (Request::Edit(a), Request::Edit(b)) => is_same_edit(a, b),
        _ => false,
    }
}

/// Whether the requests are the same, in the same order, and edits of the kinds that are written.
pub(crate) fn are_same(a: &[Request], b: &[Request]) -> bool
    ensures { result ≡ true → a.now ≡ b.now }
{
    if a.len() != b.len() {
        return false;
    }
    'requests: for n in 0..a.len() {
        if !is_same(&a[n], &b[n]) {
            return false;
        }
    }
    true
}

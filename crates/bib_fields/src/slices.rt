//! Parts of an entry as slices of its body.

ghost use Rattle.std.specs.Prelude.{◌≡◌, ◌≤◌, ◌+◌, length, drop, IfSome};
ghost use Rattle.std.specs.List.{prefix_len};
ghost use Rattle.bib_spec.specs.Text.{is_space as is_space_in, after_run};
ghost use Rattle.bib_fields.specs.Slices.{between, last_value, after_last};

use bib_scan::{FieldView, ItemView};
use bib_text::is_space;

/// The bytes of a body between two places, if it has so many.
pub(crate) fn between(body: &[u8], from: usize, to: usize) -> Option<&[u8]>
    ensures { IfSome result (λ text. text.now ≡ between body.now from to) }
{
    if from <= to && to <= body.len() {
        let (text, _) = body.split_at(to);
        return Some(text.split_at(from).1);
    }
    None
}

/// The bytes of a row before its value.
pub(crate) fn start_in<'a>(body: &'a [u8], field: FieldView<'_>) -> Option<&'a [u8]>
    ensures { IfSome result (λ text. text.now ≡ between body.now field.entry.start field.entry.value_at) }
{
    between(body, field.start, field.value_at)
}

/// The bytes of a body after two lengths, if it has so many.
fn after(body: &[u8], place: usize, len: usize) -> Option<&[u8]>
    ensures { IfSome result (λ text. text.now ≡ drop (place + len) body.now) }
{
    if place <= body.len() && len <= body.len() - place {
        return Some(body.split_at(place + len).1);
    }
    None
}

/// How many bytes of white space the text begins with.
fn space_len(text: &[u8]) -> usize
    ensures len { result ≡ prefix_len is_space_in text.now }
    ensures within { result ≤ length text.now }
{
    text.iter().take_while(|b| is_space(**b)).count()
}

/// The place of the last value of an entry with these fields and its length, or those of the key if there is no field.
fn last_of(item: &ItemView<'_>, fields: &[FieldView<'_>]) -> (usize, usize)
    ensures { (result.0, result.1) ≡ last_value (item.now.key_at, length item.now.key) fields.now }
{
    let mut place = item.key_at();
    let mut len = item.key().len();
    'fields: for k in 0..fields.len() {
        let field = fields[k];
        place = field.value_at;
        len = field.value.len();
    }
    (place, len)
}

/// The bytes of an entry after its last row, or after its key if it has no row: white space, a comma if one is left, and the close.
fn after_rows<'a>(item: &ItemView<'a>, fields: &[FieldView<'_>]) -> Option<&'a [u8]>
    ensures { IfSome result (λ text. text.now ≡ after_last item.now fields.now) }
{
    let (place, len) = last_of(item, fields);
    let Some(rest) = after(item.body(), place, len) else {
        return None;
    };
    Some(rest)
}

/// The bytes of an entry with these fields after its rows and after the white space that follows.
pub(crate) fn end_of<'a>(item: &ItemView<'a>, fields: &[FieldView<'_>]) -> Option<&'a [u8]>
    ensures { IfSome result (λ text. text.now ≡ after_run is_space_in (after_last item.now fields.now)) }
{
    match after_rows(item, fields) {
        Some(rest) => Some(rest.split_at(space_len(rest)).1),
        None => None,
    }
}

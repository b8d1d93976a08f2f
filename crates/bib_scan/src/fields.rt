//! The fields of an item, read one after another.

ghost use Rattle.std.specs.Prelude.{◌≡◌, ◌<◌, ◌≤◌, length, IfOk, IfSome};
ghost use Rattle.std.specs.Option.{option_map};
ghost use Rattle.bib_scan.specs.Code.{Gives};
ghost use Rattle.bib_scan.specs.View.{field_seen};
ghost use Rattle.bib_scan.specs.FieldsLeft.{read_field, read_row_field, read_preamble_field, first_field};

use crate::body::past_comma;
use crate::fault::Stop;
use crate::row::split_assignment;
use crate::spans::past_space;
use crate::value::split_value;
use crate::view::Kind;
use std::marker::Model;

/// A field's name, as the file has it, and its value's bytes, from the first byte of its first part to the last byte of its
/// last. The places are in the body, in bytes from 0: of the row's comma, of the name and of the value. A preamble's field
/// has an empty name at the place of its value. Outside entries there is no comma, and a field starts at its name.
#[derive(Clone, Copy, Debug, PartialEq, Eq)]
pub struct FieldView<'a> {
    pub name: &'a [u8],
    pub value: &'a [u8],
    pub start: usize,
    pub name_at: usize,
    pub value_at: usize,
}

/// The fields of an item in order: an entry's rows, or the one field of a macro definition or of a preamble. Each is read
/// from the body when the iterator reaches it, in time linear in its length, and without memory.
#[derive(Drop)]
pub struct Fields<'a> {
    kind: Kind,
    body_len: usize,
    rest: &'a [u8],
}

impl<'a> Model for Fields<'a> {
    ghost use Rattle.std.specs.Prelude.{◌≤◌, List, length};
    ghost use Rattle.bib_scan.specs.View.{Field};

    ghost Value = { List Field };

    ghost use Rattle.bib_scan.specs.FieldsLeft.{all_fields_left};

    ghost view = { λ f. all_fields_left f.kind f.body_len f.rest.now };

    ghost invariant = { λ f. length f.rest.now ≤ f.body_len };
}

impl<'a> Fields<'a> {
    ghost use Rattle.std.specs.Prelude.{◌≡◌, ◌<◌, ◌≤◌, ◌^◌, length};
    ghost use Rattle.bib_scan.specs.FieldsLeft.{all_fields_left};

    /// The fields from here on, in an item of this kind and a body of this length.
    pub(crate) fn from_rest(kind: Kind, body_len: usize, rest: &'a [u8]) -> Self
        requires { length rest.now ≤ body_len }
        ensures fields { result ≡ all_fields_left kind body_len rest.now }
        ensures count { length result < 2 ^ 64 }
    {
        Fields {
            kind,
            body_len,
            rest,
        }
    }
}

impl<'a> Iterator for Fields<'a> {
    ghost use Rattle.std.specs.Iterator.{YieldsFirstBy, item_count};
    ghost use Rattle.bib_scan.specs.View.{field_seen};

    type Item = FieldView<'a>;

    ghost next_gives = { YieldsFirstBy field_seen (λ fields. fields) };

    ghost remaining = { item_count (λ fields. fields) };

    fn next(&mut self) -> Option<FieldView<'a>> {
        let (field, rest) = split_field(self.kind, self.body_len, self.rest)?;
        self.rest = rest;
        self.kind = self.kind.after_field();
        Some(field)
    }
}

/// An assignment as the field of a row that begins at `start`, and the text after it and its white space.
#[inline(always)]
fn split_assigned(
    body_len: usize,
    start: usize,
    text: &[u8],
) -> Result<(FieldView<'_>, &[u8]), Stop<'_>>
    requires { length text.now ≤ body_len }
    ensures read { Gives (λ x. (field_seen x.0, x.1.now)) result (read_field body_len start text.now) }
    ensures shorter { IfOk result (λ x. length x.1.now < length text.now) }
{
    let (assigned, rest) = split_assignment(text)?;
    let field = FieldView {
        name: assigned.name,
        value: assigned.value,
        start,
        name_at: body_len - text.len(),
        value_at: body_len - assigned.value_left,
    };
    Ok((field, rest))
}

/// A row as a field, and the text after it.
#[inline(always)]
pub(crate) fn split_row(body_len: usize, text: &[u8]) -> Result<(FieldView<'_>, &[u8]), Stop<'_>>
    requires { length text.now ≤ body_len }
    ensures read { Gives (λ x. (field_seen x.0, x.1.now)) result (read_row_field body_len text.now) }
    ensures shorter { IfOk result (λ x. length x.1.now < length text.now) }
{
    let named = past_space(past_comma(text)?);
    split_assigned(body_len, body_len - text.len(), named)
}

/// A value as the field of a preamble, and the text after it.
fn split_preamble(body_len: usize, text: &[u8]) -> Result<(FieldView<'_>, &[u8]), Stop<'_>>
    requires { length text.now ≤ body_len }
    ensures read { Gives (λ x. (field_seen x.0, x.1.now)) result (read_preamble_field body_len text.now) }
    ensures shorter { IfOk result (λ x. length x.1.now < length text.now) }
{
    let place = body_len - text.len();
    let (value, rest) = split_value(text)?;
    let field = FieldView {
        name: b"",
        value,
        start: place,
        name_at: place,
        value_at: place,
    };
    Ok((field, rest))
}

/// The field at the front of the text, in an item of this kind, and the text after it.
#[inline(always)]
fn split_field(kind: Kind, body_len: usize, text: &[u8]) -> Option<(FieldView<'_>, &[u8])>
    requires { length text.now ≤ body_len }
    ensures read { option_map (λ x. (field_seen x.0, x.1.now)) result ≡ first_field kind body_len text.now }
    ensures shorter { IfSome result (λ x. length x.1.now < length text.now) }
{
    match kind {
        Kind::Entry => split_row(body_len, text).ok(),
        Kind::Macro => split_assigned(body_len, body_len - text.len(), text).ok(),
        Kind::Preamble => split_preamble(body_len, text).ok(),
        Kind::Comment => None,
    }
}

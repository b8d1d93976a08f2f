//! The fields of a record that a label is made of.

ghost use Rattle.std.specs.Prelude.{◌≡◌, map, IfOk};
ghost use Rattle.std.specs.List.{list_all};
ghost use Rattle.bib_spec.specs.Text.{is_space};
ghost use Rattle.bibtex_labels.specs.Fields.{field_in, or_else, is_book, is_proceedings, is_corporate, persons_of, organization_of};
ghost use Rattle.bibtex_labels.specs.Label.{label_names, without_front};

use crate::kept::first_bytes;
use bib_data::Record;
use bib_names::text_in;
use bib_text::{Seq, Text, is_space};
use std::alloc::{AllocError, Global};

/// The names of the fields that labels are made of: to make them, a caller needs no other fields.
pub fn label_names(alloc: Global) -> Result<Seq<&'static [u8]>, AllocError>
    ensures { IfOk result (λ names. map (λ n. n.now) names ≡ label_names) }
{
    let names: [&[u8]; 6] = [
        b"author",
        b"editor",
        b"key",
        b"organization",
        b"title",
        b"year",
    ];
    Ok(Seq::from_vec(Vec::from_slice(alloc, &names)?))
}

/// Whether the text is white space alone.
fn is_blank(text: &[u8]) -> bool
    ensures { result ≡ list_all is_space text.now }
{
    text.iter().all(|b| is_space(*b))
}

/// The text of a field, empty if it is white space alone.
pub(crate) fn field_in<'a>(fields: &'a [(Text, Text)], name: &[u8]) -> &'a [u8]
    ensures { result.now ≡ field_in fields.now name.now }
{
    let text = text_in(fields, name);
    if is_blank(text) {
        return b"";
    }
    text
}

/// The first text, or the second if the first is empty.
fn or_else<'a>(text: &'a [u8], other: &'a [u8]) -> &'a [u8]
    ensures { result.now ≡ or_else text.now other.now }
{
    if text.is_empty() {
        return other;
    }
    text
}

/// Whether the type is a book, or a part of one.
fn is_book(kind: &[u8]) -> bool
    ensures { result ≡ is_book kind.now }
{
    kind == b"book".as_slice() || kind == b"inbook".as_slice()
}

/// Whether the type is `proceedings`.
fn is_proceedings(kind: &[u8]) -> bool
    ensures { result ≡ is_proceedings kind.now }
{
    kind == b"proceedings".as_slice()
}

/// Whether the type is one whose entries may have an organization in the place of persons.
fn is_corporate(kind: &[u8]) -> bool
    ensures { result ≡ is_corporate kind.now }
{
    is_proceedings(kind) || kind == b"manual".as_slice()
}

/// The list of the persons by whom an entry is labelled.
pub(crate) fn persons_of(rec: &Record) -> &[u8]
    ensures { result.now ≡ persons_of rec.now }
{
    let fields = rec.fields.as_slice();
    let kind = rec.kind_name.as_slice();
    if is_book(kind) {
        return or_else(field_in(fields, b"author"), field_in(fields, b"editor"));
    }
    if is_proceedings(kind) {
        return field_in(fields, b"editor");
    }
    field_in(fields, b"author")
}

/// The organization, if the type is one that may have it in the place of persons.
pub(crate) fn organization_of(rec: &Record) -> &[u8]
    ensures { result.now ≡ organization_of rec.now }
{
    if is_corporate(rec.kind_name.as_slice()) {
        return field_in(rec.fields.as_slice(), b"organization");
    }
    b""
}

/// The text without this word at its front.
pub(crate) fn without_front<'a>(word: &[u8], text: &'a [u8]) -> &'a [u8]
    ensures { result.now ≡ without_front word.now text.now }
{
    if first_bytes(text, word.len()) == word {
        return text.split_at(word.len()).1;
    }
    text
}

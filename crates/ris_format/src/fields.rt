//! Fields of a record by their names.

ghost use Rattle.std.specs.Prelude.{◌≡◌, ◌++◌, ◌∷◌, [], ℕ, List, true, false, OnOk, IfOk, codes, filter, map};
ghost use Rattle.std.specs.List.{list_any};
ghost use Rattle.std.specs.Str.{bytes_eq};
ghost use Rattle.bib_spec.specs.Text.{folded, same};
ghost use Rattle.ris_format.specs.Carried.{always_names};
ghost use Rattle.ris_format.specs.Kinds.{kind_of_entry};
ghost use Rattle.ris_format.specs.Mapping.{is_filled, has_text, text_of, field, later_names, field_names, ris_names, is_dropped};

use crate::kinds::{Kind, is};
use crate::text::{copy_with_room, has_bytes};
use bib_text::{Text, copied, same_folded};
use std::alloc::{AllocError, Global};

/// A record made of RIS has at most this many fields, however many lines the RIS record has.
pub(crate) const MOST_FIELDS: usize = 19;

/// Whether the field has this name, and a text that is not empty.
fn is_filled(name: &[u8], field: &(Text, Text)) -> bool
    ensures { result ≡ is_filled name.now field.now }
{
    is(field.0.as_slice(), name) && has_bytes(field.1.as_slice())
}

/// The text of the first field of exactly this name whose text is not empty; empty if there is none.
pub(crate) fn text_of<'a>(fields: &'a [(Text, Text)], name: &[u8]) -> &'a [u8]
    ensures { result.now ≡ text_of fields.now name.now }
{
    for field in fields {
        if is_filled(name, field) {
            return field.1.as_slice();
        }
    }
    b""
}

/// Adds a field if its text is not empty.
pub(crate) fn push_field(
    alloc: Global,
    fields: &mut Vec<(Text, Text)>,
    name: &[u8],
    text: &[u8],
) -> Result<(), AllocError>
    ensures { OnOk result (fields.new.items ≡ fields.old.items ++ filter has_text (field name.now text.now ∷ [])) }
{
    if has_bytes(text) {
        let name = copied(alloc, name)?;
        let text = copy_with_room(alloc, text)?;
        fields.push((name, text))?;
    }
    Ok(())
}

/// Adds a field with this text, which it does not copy, if the text is not empty.
pub(crate) fn push_text(
    alloc: Global,
    fields: &mut Vec<(Text, Text)>,
    name: &[u8],
    text: Text,
) -> Result<(), AllocError>
    ensures { OnOk result (fields.new.items ≡ fields.old.items ++ filter has_text (field name.now text ∷ [])) }
{
    if has_bytes(text.as_slice()) {
        let name = copied(alloc, name)?;
        fields.push((name, text))?;
    }
    Ok(())
}

/// The names of the fields that a record of the kind can have, in order.
pub(crate) fn field_names(alloc: Global, kind: Kind) -> Result<Vec<&'static [u8]>, AllocError>
    ensures { IfOk result (λ names. map (λ n. n.now) names.items ≡ field_names kind) }
{
    let mut names: Vec<&'static [u8]> = Vec::with_capacity(alloc, MOST_FIELDS)?;
    names.extend_from_slice(&first_names())?;
    if !kind.is_article() {
        names.push(b"booktitle")?;
    }
    names.extend_from_slice(&later_names(kind))?;
    Ok(names)
}

/// The names up to title.
fn first_names() -> [&'static [u8]; 3]
    ensures { map (λ n. n.now) result ≡ codes "author" ∷ codes "editor" ∷ codes "title" ∷ [] }
{
    [b"author", b"editor", b"title"]
}

/// The names from series on.
fn later_names(kind: Kind) -> [&'static [u8]; 15]
    ensures { map (λ n. n.now) result ≡ later_names kind }
{
    [
        b"series",
        b"journal",
        b"year",
        b"month",
        b"volume",
        b"number",
        b"pages",
        kind.publisher_field(),
        b"address",
        kind.serial_field(),
        b"url",
        b"doi",
        b"abstract",
        b"note",
        b"keywords",
    ]
}

/// Whether the name is one of those from series on.
fn is_later_name(kind: Kind, name: &[u8]) -> bool
    ensures { result ≡ list_any (bytes_eq name.now) (later_names kind) }
{
    is(name, b"series")
        || is(name, b"journal")
        || is(name, b"year")
        || is(name, b"month")
        || is(name, b"volume")
        || is(name, b"number")
        || is(name, b"pages")
        || is(name, kind.publisher_field())
        || is(name, b"address")
        || is(name, kind.serial_field())
        || is(name, b"url")
        || is(name, b"doi")
        || is(name, b"abstract")
        || is(name, b"note")
        || is(name, b"keywords")
}

/// Whether a record of the kind can have a field of this name.
pub(crate) fn has_field(kind: Kind, name: &[u8]) -> bool
    ensures { result ≡ list_any (bytes_eq name.now) (field_names kind) }
{
    is(name, b"author")
        || is(name, b"editor")
        || is(name, b"title")
        || !kind.is_article() && is(name, b"booktitle")
        || is_later_name(kind, name)
}

/// Whether the name is one of `always_names`, ASCII case aside.
fn is_always_name(name: &[u8]) -> bool
    ensures { result ≡ list_any (same name.now) always_names }
{
    same_folded(name, b"title")
        || same_folded(name, b"series")
        || same_folded(name, b"journal")
        || same_folded(name, b"volume")
        || same_folded(name, b"number")
        || same_folded(name, b"pages")
        || same_folded(name, b"address")
        || same_folded(name, b"url")
        || same_folded(name, b"doi")
        || same_folded(name, b"abstract")
        || same_folded(name, b"note")
}

/// Whether RIS drops no field of this name in lower case, whatever its text and the record's type: a line comes from each
/// such field that has a text. It takes no memory.
pub fn is_always_written(name: &[u8]) -> bool
    ensures name { result ≡ list_any (same name.now) always_names }
    ensures kept { result ≡ true → (kind_name text : List ℕ) → is_dropped (kind_of_entry kind_name) (field (folded name.now) text) ≡ false }
{
    is_always_name(name)
}

/// The names of the fields that RIS records are made of, whatever their type: to make one, a caller needs no other
/// fields. It takes no memory.
pub fn ris_names() -> [&'static [u8]; 22]
    ensures { map (λ n. n.now) result ≡ ris_names }
{
    [
        b"author",
        b"editor",
        b"title",
        b"booktitle",
        b"series",
        b"journal",
        b"year",
        b"month",
        b"volume",
        b"number",
        b"pages",
        b"publisher",
        b"school",
        b"institution",
        b"address",
        b"issn",
        b"isbn",
        b"url",
        b"doi",
        b"abstract",
        b"note",
        b"keywords",
    ]
}

//! What each field gives to a label, so that a field that many entries inherit is read once.

ghost use Rattle.std.specs.Prelude.{◌≡◌, [], IfOk, IfErr, codes, map, unwrap_or};
ghost use Rattle.std.specs.Option.{option_copied, option_flatten, option_or};
ghost use Rattle.bib_names.specs.Label.{first_three, label_base};
ghost use Rattle.bib_names.specs.LabelParts.{letters_if_any, letters_in, year_digits, parts_of, parts_with, letters_from, base_from, has_field, given, parts_make_the_base, parts_are_inherited};

use crate::fault::NameFault;
use crate::label::{
    digits_of, first_three, letters_of_many, letters_of_one, listed_names, or_anon, text_in,
};
use bib_text::{Seq, Text, copied, same_folded};
use std::alloc::{AllocError, Global};
use std::marker::Model;

/// What fields give to a label, each part if there is such a field: the letters of author and of editor, if they list
/// names; the first three characters of `key`; the last two digits of the year.
#[derive(Debug, Drop)]
pub struct LabelParts {
    pub author: Option<Option<Text>>,
    pub editor: Option<Option<Text>>,
    pub key: Option<Text>,
    pub year: Option<Text>,
}

/// What an entry inherits for its label, each part from the nearest ancestor that gives it. A contract sees the parts.
#[derive(Drop)]
pub struct Inherited<'a> {
    author: Option<&'a Option<Text>>,
    editor: Option<&'a Option<Text>>,
    key: Option<&'a Text>,
    year: Option<&'a Text>,
}

impl<'a> Model for Inherited<'a> {
    ghost use Rattle.std.specs.Option.{option_copied};
    ghost use Rattle.bib_names.specs.declared.label_fields.LabelParts.{LabelParts};

    ghost Value = { LabelParts };

    ghost view = { λ i. record { author = option_copied i.author; editor = option_copied i.editor; key = option_copied i.key; year = option_copied i.year } };
}

impl<'a> Inherited<'a> {
    ghost use Rattle.std.specs.Prelude.{◌≡◌};
    ghost use Rattle.bib_names.specs.LabelParts.{no_parts, parts_with};

    /// Nothing is inherited. It takes no memory.
    pub fn none() -> Self
        ensures { result ≡ no_parts }
    {
        Inherited {
            author: None,
            editor: None,
            key: None,
            year: None,
        }
    }

    /// These parts, and from the next ancestor each part that is still missing. It takes no memory.
    pub fn with(self, parts: &'a LabelParts) -> Self
        ensures { result ≡ parts_with self.entry parts.now }
    {
        Inherited {
            author: self.author.or(parts.author.as_ref()),
            editor: self.editor.or(parts.editor.as_ref()),
            key: self.key.or(parts.key.as_ref()),
            year: self.year.or(parts.year.as_ref()),
        }
    }
}

/// Whether one of the fields has this name.
fn has_field(fields: &[(Text, Text)], name: &[u8]) -> bool
    ensures { result ≡ has_field fields.now name.now }
{
    fields
        .iter()
        .any(|field| same_folded(field.0.as_slice(), name))
}

/// The letters of names, if there are any.
fn letters_if_any(alloc: Global, names: &[&[u8]]) -> Result<Option<Text>, AllocError>
    ensures { IfOk result (λ letters. letters ≡ letters_if_any (map (λ n. n.now) names.now)) }
{
    match names {
        [] => Ok(None),
        [name] => Ok(Some(letters_of_one(alloc, name)?)),
        many => Ok(Some(letters_of_many(alloc, many)?)),
    }
}

/// The letters of the names that a text lists, if it lists any.
fn letters_in(alloc: Global, text: &[u8]) -> Result<Option<Text>, AllocError>
    ensures { IfOk result (λ letters. letters ≡ letters_in text.now) }
{
    let names = listed_names(alloc, text)?;
    letters_if_any(alloc, names.as_slice())
}

/// The last two digits of a year, or all if there are fewer.
fn year_digits(alloc: Global, text: &[u8]) -> Result<Text, AllocError>
    ensures { IfOk result (λ digits. digits ≡ year_digits text.now) }
{
    let mut digits = digits_of(alloc, text)?;
    let end = digits.len().saturating_sub(2);
    Ok(Seq::from_vec(digits.split_off(end)?))
}

/// The letters of the names in the field of this name, if there is one.
fn letters_given(
    alloc: Global,
    fields: &[(Text, Text)],
    name: &[u8],
) -> Result<Option<Option<Text>>, AllocError>
    ensures { IfOk result (λ letters. letters ≡ given letters_in fields.now name.now) }
{
    if has_field(fields, name) {
        Ok(Some(letters_in(alloc, text_in(fields, name))?))
    } else {
        Ok(None)
    }
}

/// The first three characters of `key`, if there is such a field.
fn key_given(alloc: Global, fields: &[(Text, Text)]) -> Result<Option<Text>, AllocError>
    ensures { IfOk result (λ key. key ≡ given first_three fields.now (codes "key")) }
{
    if has_field(fields, b"key") {
        Ok(Some(first_three(alloc, text_in(fields, b"key"))?))
    } else {
        Ok(None)
    }
}

/// The last two digits of the year, if there is such a field.
fn year_given(alloc: Global, fields: &[(Text, Text)]) -> Result<Option<Text>, AllocError>
    ensures { IfOk result (λ year. year ≡ given year_digits fields.now (codes "year")) }
{
    if has_field(fields, b"year") {
        Ok(Some(year_digits(alloc, text_in(fields, b"year"))?))
    } else {
        Ok(None)
    }
}

/// What fields give to a label. It takes time in the lengths of the fields, and memory for the names of author and
/// editor, since it reads both. The one refusal is want of memory.
pub fn label_parts(alloc: Global, fields: &[(Text, Text)]) -> Result<LabelParts, NameFault>
    ensures parts { IfOk result (λ parts. parts ≡ parts_of fields.now) }
    ensures memory { IfErr result (λ fault. fault ≡ NameFault.Memory) }
{
    Ok(LabelParts {
        author: letters_given(alloc, fields, b"author")?,
        editor: letters_given(alloc, fields, b"editor")?,
        key: key_given(alloc, fields)?,
        year: year_given(alloc, fields)?,
    })
}

/// The own letters, or the inherited ones if no own field gives any.
fn letters_or(
    alloc: Global,
    own: Option<Option<Text>>,
    inherited: Option<&Option<Text>>,
) -> Result<Option<Text>, AllocError>
    ensures { IfOk result (λ letters. letters ≡ option_flatten (option_or own (option_copied inherited.entry))) }
{
    if let Some(letters) = own {
        return Ok(letters);
    }
    match inherited {
        Some(Some(letters)) => Ok(Some(copied(alloc, letters.as_slice())?)),
        _ => Ok(None),
    }
}

/// The own text, or the inherited one if there is none; empty if there is neither.
fn text_or(alloc: Global, own: Option<Text>, inherited: Option<&Text>) -> Result<Text, AllocError>
    ensures { IfOk result (λ text. text ≡ unwrap_or (option_or own (option_copied inherited.entry)) []) }
{
    if let Some(text) = own {
        return Ok(text);
    }
    match inherited {
        Some(text) => copied(alloc, text.as_slice()),
        None => Ok(Seq::empty(alloc)),
    }
}

/// The letters of fields together with what is inherited.
fn letters_with(
    alloc: Global,
    fields: &[(Text, Text)],
    inherited: &Inherited<'_>,
) -> Result<Text, AllocError>
    ensures { IfOk result (λ letters. letters ≡ letters_from (parts_with (parts_of fields.now) inherited.now)) }
{
    let author = letters_given(alloc, fields, b"author")?;
    if let Some(letters) = letters_or(alloc, author, inherited.author)? {
        return Ok(letters);
    }
    let editor = letters_given(alloc, fields, b"editor")?;
    if let Some(letters) = letters_or(alloc, editor, inherited.editor)? {
        return Ok(letters);
    }
    text_or(alloc, key_given(alloc, fields)?, inherited.key)
}

/// The label base of fields together with what is inherited.
fn base_with(
    alloc: Global,
    fields: &[(Text, Text)],
    inherited: &Inherited<'_>,
) -> Result<Text, AllocError>
    ensures { IfOk result (λ base. base ≡ base_from (parts_with (parts_of fields.now) inherited.now)) }
{
    let letters = letters_with(alloc, fields, inherited)?;
    let mut out = or_anon(alloc, letters.into_vec())?;
    let year = text_or(alloc, year_given(alloc, fields)?, inherited.year)?;
    out.extend_from_slice(year.as_slice())?;
    Ok(Seq::from_vec(out))
}

/// The label base of a record with these fields, inherited ones too.
pub(crate) fn base_of(alloc: Global, fields: &[(Text, Text)]) -> Result<Text, AllocError>
    ensures { IfOk result (λ base. base ≡ label_base fields.now) }
{
    base_with(alloc, fields, &Inherited::none())
}

/// The label base of a record from its own fields and from the parts that it inherits. So a field that many entries
/// inherit is read once. It takes time in the lengths of the own fields and of the inherited parts. The one refusal is
/// want of memory.
pub fn label_base_with(
    alloc: Global,
    fields: &[(Text, Text)],
    inherited: &Inherited<'_>,
) -> Result<Text, NameFault>
    ensures base { IfOk result (λ base. base ≡ base_from (parts_with (parts_of fields.now) inherited.now)) }
    ensures memory { IfErr result (λ fault. fault ≡ NameFault.Memory) }
{
    Ok(base_with(alloc, fields, inherited)?)
}

/// A label base is made of what each field gives by itself, and what is inherited is given for what is missing.
pub fn label_bases_are_made_of_parts()
    ensures base { parts_make_the_base }
    ensures inherited { parts_are_inherited }
{}

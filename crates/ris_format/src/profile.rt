//! The records that are the same again after both mappings.

ghost use Rattle.std.specs.Prelude.{◌≡◌, IfOk, IfErr, map};
ghost use Rattle.std.specs.List.{list_all};
ghost use Rattle.std.specs.Str.{bytes_eq};
ghost use Rattle.bib_spec.specs.Texts.{field_text};
ghost use Rattle.ris_format.specs.Profile.{are_in_order, has_form, is_plain_field, in_profile};
ghost use Rattle.ris_format.specs.declared.fault.MappingFault.TheVariants.{Memory};

use crate::dates::{has_slash, is_plain_month};
use crate::fault::MappingFault;
use crate::fields::field_names;
use crate::keywords::are_plain_keywords;
use crate::kinds::{Kind, is, is_entry_type};
use crate::pages::are_plain_pages;
use crate::people::are_plain_names;
use crate::text::has_bytes;
use bib_data::Record;
use bib_scan::is_key;
use bib_text::Text;
use bib_value::field_text;
use std::alloc::{AllocError, Global};

/// Whether the fields have these names, each at most once, in their order.
fn are_in_order(names: &[&[u8]], fields: &[(Text, Text)]) -> bool
    ensures { result ≡ are_in_order (map (λ n. n.now) names.now) fields.now }
{
    let mut rest = fields;
    for name in names {
        if let [first, more @ ..] = rest
            && is(first.0.as_slice(), name)
        {
            rest = more;
        }
    }
    rest.is_empty()
}

/// Whether the text is its own field text.
fn is_own(alloc: Global, text: &[u8]) -> Result<bool, AllocError>
    ensures { IfOk result (λ b. b ≡ bytes_eq (field_text text.now) text.now) }
{
    match field_text(alloc, text) {
        Ok(own) => Ok(is(own.as_slice(), text)),
        Err(_) => Err(AllocError),
    }
}

/// Whether the text of a field of this name is written in the one form that is read back.
fn has_form(alloc: Global, name: &[u8], text: &[u8]) -> Result<bool, AllocError>
    ensures { IfOk result (λ b. b ≡ has_form name.now text.now) }
{
    if is(name, b"author") || is(name, b"editor") {
        return are_plain_names(alloc, text);
    }
    if is(name, b"year") {
        return Ok(!has_slash(text));
    }
    if is(name, b"month") {
        return Ok(is_plain_month(text));
    }
    if is(name, b"pages") {
        return Ok(are_plain_pages(text));
    }
    if is(name, b"keywords") {
        return are_plain_keywords(alloc, text);
    }
    Ok(true)
}

/// Whether the field's text is not empty, is its own field text, and has the form that is read back.
fn is_plain_field(alloc: Global, field: &(Text, Text)) -> Result<bool, AllocError>
    ensures { IfOk result (λ b. b ≡ is_plain_field field.now) }
{
    let text = field.1.as_slice();
    if !has_bytes(text) || !is_own(alloc, text)? {
        return Ok(false);
    }
    has_form(alloc, field.0.as_slice(), text)
}

/// Whether each field's text is not empty, is its own field text, and has the form that is read back.
fn are_plain_fields(alloc: Global, fields: &[(Text, Text)]) -> Result<bool, AllocError>
    ensures { IfOk result (λ b. b ≡ list_all is_plain_field fields.now) }
{
    for field in fields {
        if !is_plain_field(alloc, field)? {
            return Ok(false);
        }
    }
    Ok(true)
}

/// Whether a record has a type of the table, a key that an edit may write, fields of that type in the table's order,
/// and texts in the one form that is read back: such a record, written as RIS and read, is the same again. It takes
/// time in the record's size. The one refusal is want of memory.
pub fn in_profile(alloc: Global, entry: &Record) -> Result<bool, MappingFault>
    ensures test { IfOk result (λ b. b ≡ in_profile entry.now) }
    ensures memory { IfErr result (λ fault. fault ≡ Memory) }
{
    let kind_name = entry.kind_name.as_slice();
    if !is_entry_type(kind_name) || !is_key(entry.key.as_slice()) {
        return Ok(false);
    }
    let names = field_names(alloc, Kind::of_entry(kind_name))?;
    if !are_in_order(names.as_slice(), entry.fields.as_slice()) {
        return Ok(false);
    }
    Ok(are_plain_fields(alloc, entry.fields.as_slice())?)
}

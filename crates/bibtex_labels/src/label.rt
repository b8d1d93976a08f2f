//! The label of a record, and its sort key.

ghost use Rattle.std.specs.Prelude.{◌≡◌, ◌++◌, ◌-◌, IfOk, OnOk, codes};
ghost use Rattle.bibtex_labels.specs.Fields.{field_in};
ghost use Rattle.bibtex_labels.specs.Label.{letters_without_names, letters_of, sorted_persons, sorted_title, last_bytes, labelled_by};
ghost use Rattle.bibtex_labels.specs.Order.{kept};
ghost use Rattle.bibtex_labels.specs.Purified.{sortified};

use crate::alpha::Alpha;
use crate::fields::{field_in, organization_of, persons_of, without_front};
use crate::kept::{first_bytes, kept};
use crate::names::{letters_of_names, names_in, sorted_names};
use crate::ordering::Labelled;
use crate::prefix::text_prefix;
use crate::purifying::{in_lower_case, purified, sortified};
use bib_data::Record;
use bib_text::{Text, copied};
use bibtex_names::{Name, NameFault};
use std::alloc::{AllocError, Global};

/// The letters of a record without names.
fn letters_without_names(alloc: Global, rec: &Record) -> Result<Vec<u8>, AllocError>
    ensures { IfOk result (λ t. t.items ≡ letters_without_names rec.now) }
{
    let key = field_in(rec.fields.as_slice(), b"key");
    if !key.is_empty() {
        return Ok(text_prefix(alloc, 3, key)?.into_vec());
    }
    let organization = organization_of(rec);
    if !organization.is_empty() {
        return Ok(text_prefix(alloc, 3, without_front(b"The ", organization))?.into_vec());
    }
    Vec::from_slice(alloc, first_bytes(rec.key.as_slice(), 3))
}

/// The letters of a record with these names.
fn letters_of(
    alloc: Global,
    alpha: &Alpha,
    rec: &Record,
    names: &[Name<'_>],
) -> Result<Vec<u8>, AllocError>
    ensures { IfOk result (λ t. t.items ≡ letters_of rec.now names.now) }
{
    if names.len() > 0 {
        return letters_of_names(alloc, alpha, names);
    }
    letters_without_names(alloc, rec)
}

/// What stands in the sort key for the names of a record.
fn sorted_persons(
    alloc: Global,
    alpha: &Alpha,
    rec: &Record,
    names: &[Name<'_>],
) -> Result<Vec<u8>, AllocError>
    ensures { IfOk result (λ t. t.items ≡ sorted_persons rec.now names.now) }
{
    if names.len() > 0 {
        return sorted_names(alloc, alpha, names);
    }
    let organization = organization_of(rec);
    if !organization.is_empty() {
        return Ok(sortified(alloc, without_front(b"The ", organization))?.into_vec());
    }
    Ok(sortified(alloc, field_in(rec.fields.as_slice(), b"key"))?.into_vec())
}

/// A title in the sort key, without its article.
fn sorted_title(alloc: Global, title: &[u8]) -> Result<Text, AllocError>
    ensures { IfOk result (λ t. t ≡ sorted_title title.now) }
{
    let title = without_front(b"An ", without_front(b"The ", title));
    sortified(alloc, without_front(b"A ", title))
}

/// The last bytes of a text, so many of them.
fn last_bytes(text: &[u8], count: usize) -> &[u8]
    ensures { result.now ≡ last_bytes count text.now }
{
    text.split_at(text.len().saturating_sub(count)).1
}

/// The label of a record with these letters and this year, which is purified.
fn label_with(alloc: Global, letters: &[u8], year: &[u8]) -> Result<Text, AllocError>
    ensures { IfOk result (λ t. t ≡ kept (letters.now ++ last_bytes 2 year.now)) }
{
    let mut out = Vec::from_slice(alloc, letters)?;
    out.extend_from_slice(last_bytes(year, 2))?;
    copied(alloc, kept(out.as_slice()))
}

/// The sort label of a record with these letters and this year, which is purified.
fn sort_label_with(alloc: Global, letters: &[u8], year: &[u8]) -> Result<Text, AllocError>
    ensures { IfOk result (λ t. t ≡ kept (sortified (letters.now ++ last_bytes 4 year.now))) }
{
    let mut out = Vec::from_slice(alloc, letters)?;
    out.extend_from_slice(last_bytes(year, 4))?;
    copied(alloc, kept(sortified(alloc, out.as_slice())?.as_slice()))
}

/// The sort key of a record with this sort label, this title, and these names and this year, which are sortified.
fn sort_key_with(
    alloc: Global,
    sort_label: &[u8],
    persons: &[u8],
    year: &[u8],
    title: &[u8],
) -> Result<Text, AllocError>
    ensures { IfOk result (λ t. t ≡ kept (sort_label.now ++ (codes "    " ++ (persons.now ++ (codes "    " ++ (year.now ++ (codes "    " ++ sorted_title title.now))))))) }
{
    let title = sorted_title(alloc, title)?;
    let mut out = Vec::from_slice(alloc, sort_label)?;
    push_spaced(&mut out, persons)?;
    push_spaced(&mut out, year)?;
    push_spaced(&mut out, title.as_slice())?;
    copied(alloc, kept(out.as_slice()))
}

/// Adds four spaces and a text.
fn push_spaced(out: &mut Vec<u8>, text: &[u8]) -> Result<(), AllocError>
    ensures { OnOk result (out.new.items ≡ out.old.items ++ (codes "    " ++ text.now)) }
{
    out.extend_from_slice(b"    ")?;
    out.extend_from_slice(text)
}

/// A record with these names as it is labelled, without a letter.
fn labelled_by(
    alloc: Global,
    alpha: &Alpha,
    rec: &Record,
    names: &[Name<'_>],
) -> Result<Labelled, AllocError>
    ensures { IfOk result (λ l. l ≡ labelled_by rec.now names.now) }
{
    let fields = rec.fields.as_slice();
    let letters = letters_of(alloc, alpha, rec, names)?;
    let persons = sorted_persons(alloc, alpha, rec, names)?;
    let year = purified(alloc, field_in(fields, b"year"))?;
    let label = label_with(alloc, letters.as_slice(), year.as_slice())?;
    let sort_label = sort_label_with(alloc, letters.as_slice(), year.as_slice())?;
    let sort_key = sort_key_with(
        alloc,
        sort_label.as_slice(),
        persons.as_slice(),
        in_lower_case(year).as_slice(),
        field_in(fields, b"title"),
    )?;
    Ok(Labelled {
        label,
        sort_label,
        sort_key,
        key: copied(alloc, rec.key.as_slice())?,
    })
}

impl Alpha {
    ghost use Rattle.std.specs.Prelude.{◌≡◌, ◌≢◌, Ok, Err, IfOk, IfErr};
    ghost use Rattle.bib_names.specs.declared.fault.NameFault.TheVariants.{Memory};
    ghost use Rattle.bibtex_labels.specs.Label.{labelled};

    /// A record as the style labels and sorts it, without the letter of its label. It takes time and memory in the lengths of the
    /// record's texts.
    ///
    /// A record is refused if a name by which it is labelled is: as 22 if its braces do not balance, or those of its list; as 21 if it
    /// has no word before its first comma. All other records are refused only for want of memory.
    pub fn labelled(&self, alloc: Global, rec: &Record) -> Result<Labelled, NameFault>
        ensures labelled { IfOk result (λ l. labelled rec.now ≡ Ok l) }
        ensures fault { IfErr result (λ fault. fault ≢ Memory → labelled rec.now ≡ Err fault) }
    {
        let names = names_in(alloc, persons_of(rec))?;
        Ok(labelled_by(alloc, self, rec, names.as_slice())?)
    }
}

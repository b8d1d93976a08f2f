//! The names of a record in its label and in its sort key.

ghost use Rattle.std.specs.Prelude.{◌≡◌, ◌≢◌, ◌++◌, Ok, Err, IfOk, IfErr, OnOk, map, length, ◌<◌};
ghost use Rattle.bib_names.specs.declared.fault.NameFault.TheVariants.{Memory};
ghost use Rattle.bibtex_names.specs.NamesInLists.{parts_in};
ghost use Rattle.bibtex_names.specs.Printing.{printed};
ghost use Rattle.bibtex_labels.specs.Fields.{map_all, names_listed, names_in};
ghost use Rattle.bibtex_labels.specs.Label.{initials_of, ends_with_others, letters_of_one, letters_of_many, letters_of_names, sorted_name, sorted_names};

use crate::alpha::Alpha;
use crate::prefix::{is_one_character, text_prefix};
use crate::purifying::sortified;
use bib_text::{Seq, Text};
use bibtex_names::{Name, NameFault, Template, split_name, split_names};
use std::alloc::{AllocError, Global};

/// The names of a list.
fn names_listed(alloc: Global, list: &[u8]) -> Result<Seq<&[u8]>, NameFault>
    ensures names { IfOk result (λ names. names_listed list.now ≡ Ok (map (λ n. n.now) names)) }
    ensures fault { IfErr result (λ fault. fault ≢ Memory → names_listed list.now ≡ Err fault) }
{
    split_names(alloc, list)
}

/// The names, each taken apart.
fn all_parts<'a>(alloc: Global, names: &[&'a [u8]]) -> Result<Vec<Name<'a>>, NameFault>
    ensures parts { IfOk result (λ parts. map_all parts_in (map (λ n. n.now) names.now) ≡ Ok parts.items) }
    ensures fault { IfErr result (λ fault. fault ≢ Memory → map_all parts_in (map (λ n. n.now) names.now) ≡ Err fault) }
{
    let mut parts = Vec::new(alloc);
    'names: for name in names {
        parts.push(split_name(alloc, name)?)?;
    }
    Ok(parts)
}

/// The names of a list, each taken apart.
pub(crate) fn names_in(alloc: Global, list: &[u8]) -> Result<Vec<Name<'_>>, NameFault>
    ensures names { IfOk result (λ names. names_in list.now ≡ Ok names.items) }
    ensures fault { IfErr result (λ fault. fault ≢ Memory → names_in list.now ≡ Err fault) }
{
    let names = names_listed(alloc, list)?;
    all_parts(alloc, names.as_slice())
}

/// The print of a name.
fn print(template: &Template, name: &Name<'_>) -> Result<Text, AllocError>
    ensures { IfOk result (λ text. text ≡ printed template.now name.now) }
{
    match template.print(name) {
        Ok(text) => Ok(text),
        Err(_) => Err(AllocError),
    }
}

/// The initials of these names.
fn initials_of(alloc: Global, alpha: &Alpha, names: &[Name<'_>]) -> Result<Vec<u8>, AllocError>
    ensures { IfOk result (λ t. t.items ≡ initials_of names.now) }
{
    let template = alpha.initials();
    let mut out = Vec::new(alloc);
    'names: for name in names {
        out.extend_from_slice(print(template, name)?.as_slice())?;
    }
    Ok(out)
}

/// Whether the last of these names is `others`.
fn ends_with_others(alpha: &Alpha, names: &[Name<'_>]) -> Result<bool, AllocError>
    ensures { IfOk result (λ yes. yes ≡ ends_with_others names.now) }
{
    let Some((last, _)) = names.split_last() else {
        return Ok(false);
    };
    Ok(print(alpha.whole(), last)?.as_slice() == b"others".as_slice())
}

/// The letters of one name.
fn letters_of_one(alloc: Global, alpha: &Alpha, name: &Name<'_>) -> Result<Vec<u8>, AllocError>
    ensures { IfOk result (λ t. t.items ≡ letters_of_one name.now) }
{
    let initials = print(alpha.initials(), name)?;
    if is_one_character(initials.as_slice()) {
        let last = print(alpha.last(), name)?;
        return Ok(text_prefix(alloc, 3, last.as_slice())?.into_vec());
    }
    Ok(initials.into_vec())
}

/// The letters of two names or more.
fn letters_of_many(alloc: Global, alpha: &Alpha, names: &[Name<'_>]) -> Result<Vec<u8>, AllocError>
    requires { 0 < length names.now }
    ensures { IfOk result (λ t. t.items ≡ letters_of_many names.now) }
{
    let len = names.len();
    let listed = if len > 4 {
        3
    } else if ends_with_others(alpha, names)? {
        len - 1
    } else {
        return initials_of(alloc, alpha, names);
    };
    let mut out = initials_of(alloc, alpha, names.split_at(listed).0)?;
    out.extend_from_slice(b"{\\etalchar{+}}")?;
    Ok(out)
}

/// The letters of names.
pub(crate) fn letters_of_names(
    alloc: Global,
    alpha: &Alpha,
    names: &[Name<'_>],
) -> Result<Vec<u8>, AllocError>
    ensures { IfOk result (λ t. t.items ≡ letters_of_names names.now) }
{
    match names {
        [] => Ok(Vec::new(alloc)),
        [name] => letters_of_one(alloc, alpha, name),
        _ => letters_of_many(alloc, alpha, names),
    }
}

/// Adds a name of the sort key.
fn push_sorted_name(
    out: &mut Vec<u8>,
    alloc: Global,
    alpha: &Alpha,
    name: &Name<'_>,
    is_last: bool,
) -> Result<(), AllocError>
    ensures { OnOk result (out.new.items ≡ out.old.items ++ sorted_name is_last name.now) }
{
    let text = print(alpha.sorted(), name)?;
    if is_last && text.as_slice() == b"others".as_slice() {
        return out.extend_from_slice(b"et al");
    }
    out.extend_from_slice(sortified(alloc, text.as_slice())?.as_slice())
}

/// Names in the sort key.
pub(crate) fn sorted_names(
    alloc: Global,
    alpha: &Alpha,
    names: &[Name<'_>],
) -> Result<Vec<u8>, AllocError>
    ensures { IfOk result (λ t. t.items ≡ sorted_names names.now) }
{
    let mut out = Vec::new(alloc);
    let Some((last, front)) = names.split_last() else {
        return Ok(out);
    };
    'names: for name in front {
        push_sorted_name(&mut out, alloc, alpha, name, false)?;
        out.extend_from_slice(b"   ")?;
    }
    push_sorted_name(&mut out, alloc, alpha, last, true)?;
    Ok(out)
}

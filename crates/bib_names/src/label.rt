//! The letters of a label and its base.

ghost use Rattle.std.specs.Prelude.{◌≡◌, ◌<◌, ◌++◌, [], Some, None, IfOk, IfErr, OnOk, length, map, filter};
ghost use Rattle.std.specs.Char.{is_ascii_digit};
ghost use Rattle.bib_names.specs.Label.{text_in, label_names, balances, listed_names, group, initials_template, print_of, initials_of, first_three, letters_of_one, ends_with_others, letters_of_many, or_anon, label_base};
ghost use Rattle.bib_names.specs.Printing.{printed_group};
ghost use Rattle.bib_names.specs.LabelNames.{read_name, initials_printed, last_printed, is_one_letter, letters_printed};
ghost use Rattle.bib_names.specs.declared.template.Form.TheVariants.{Initials};
ghost use Rattle.bib_names.specs.declared.template.Part.{Part as PartOf};

use crate::fault::NameFault;
use crate::initial::initial;
use crate::label_fields::base_of;
use crate::name_cut::{NameCut, name_cut};
use crate::name_list::names_of;
use crate::printing::{finished, printed_group};
use crate::special::{Chars, char_count};
use crate::template::{Form, Group, Part};
use crate::word::Word;
use bib_data::Record;
use bib_scan::is_balanced;
use bib_text::{Seq, Text};
use std::alloc::{AllocError, Global};

/// The text of the first field of exactly this name, empty if there is none: the names in a record are in lower case.
/// It takes time in the number of fields, and no memory.
pub fn text_in<'a>(fields: &'a [(Text, Text)], name: &[u8]) -> &'a [u8]
    ensures { result.now ≡ text_in fields.now name.now }
{
    for field in fields {
        if field.0.as_slice() == name {
            return field.1.as_slice();
        }
    }
    b""
}

/// The names of the fields that labels and made keys are made of: to make them, a caller needs no other fields.
pub fn label_names(alloc: Global) -> Result<Seq<&'static [u8]>, AllocError>
    ensures { IfOk result (λ names. map (λ n. n.now) names ≡ label_names) }
{
    let names: [&[u8]; 4] = [b"author", b"editor", b"key", b"year"];
    Ok(Seq::from_vec(Vec::from_slice(alloc, &names)?))
}

/// Whether the braces of the text balance.
pub(crate) fn balances(text: &[u8]) -> bool
    ensures { result ≡ balances text.now }
{
    is_balanced(text)
}

/// The names of a list, none if its braces do not balance.
pub(crate) fn listed_names(alloc: Global, text: &[u8]) -> Result<Seq<&[u8]>, AllocError>
    ensures { IfOk result (λ names. map (λ n. n.now) names ≡ listed_names text.now) }
{
    if balances(text) {
        names_of(alloc, text)
    } else {
        Ok(Seq::empty(alloc))
    }
}

/// A group that prints a part and nothing else.
fn group(alloc: Global, part: Part, form: Form, between: Option<Text>) -> Group
    ensures { result ≡ group part form between }
{
    Group {
        pre: Seq::empty(alloc),
        part,
        form,
        between,
        post: Seq::empty(alloc),
        trail: Seq::empty(alloc),
    }
}

/// The name cut into its parts; none if the name is refused: its braces do not balance, or it has more than two commas.
fn read_name(alloc: Global, name: &[u8]) -> Result<Option<NameCut<'_>>, AllocError>
    ensures { IfOk result (λ cut. cut ≡ read_name name.now) }
{
    if balances(name) {
        name_cut(alloc, name)
    } else {
        Ok(None)
    }
}

/// The initials of words, as a group prints them whose text between words is empty.
fn initials(alloc: Global, words: &[Word<'_>]) -> Result<Vec<u8>, AllocError>
    ensures { IfOk result (λ r. (part : PartOf) → r.items ≡ printed_group (group part Initials (Some [])) words.now) }
{
    let mut out = Vec::new(alloc);
    for word in words {
        out.extend_from_slice(initial(word.text))?;
    }
    finished(out)
}

/// The print of a name by `{v{}}{l{}}`.
fn initials_printed(alloc: Global, name: &NameCut<'_>) -> Result<Vec<u8>, AllocError>
    ensures { IfOk result (λ t. t.items ≡ initials_printed name.now) }
{
    let mut out = initials(alloc, name.von())?;
    if out.is_empty() {
        return initials(alloc, name.last());
    }
    out.extend_from_slice(initials(alloc, name.last())?.as_slice())?;
    Ok(out)
}

/// The print of a name by `{ll}`.
fn last_printed(alloc: Global, name: &NameCut<'_>) -> Result<Vec<u8>, AllocError>
    ensures { IfOk result (λ t. t.items ≡ last_printed name.now) }
{
    let last = group(alloc, Part::Last, Form::Words, None);
    printed_group(alloc, &last, name.last())
}

/// The first three text characters, without ordinary braces.
pub(crate) fn first_three(alloc: Global, text: &[u8]) -> Result<Text, AllocError>
    ensures { IfOk result (λ t. t ≡ first_three text.now) }
{
    let mut out = Vec::new(alloc);
    let mut chars = Chars::of(text);
    for _ in 0..3_usize {
        let Some((character, rest)) = chars.next() else {
            return Ok(Seq::from_vec(out));
        };
        out.extend_from_slice(character)?;
        chars = rest;
    }
    Ok(Seq::from_vec(out))
}

/// Whether the text has fewer than two text characters.
fn is_one_letter(text: &[u8]) -> bool
    ensures { result ≡ is_one_letter text.now }
{
    char_count(text, 2) < 2
}

/// The letters of a name that is not refused.
fn letters_printed(alloc: Global, name: &NameCut<'_>) -> Result<Text, AllocError>
    ensures { IfOk result (λ t. t ≡ letters_printed name.now) }
{
    let initials = initials_printed(alloc, name)?;
    if is_one_letter(initials.as_slice()) {
        return first_three(alloc, last_printed(alloc, name)?.as_slice());
    }
    Ok(Seq::from_vec(initials))
}

/// The letters of one name.
pub(crate) fn letters_of_one(alloc: Global, name: &[u8]) -> Result<Text, AllocError>
    ensures { IfOk result (λ t. t ≡ letters_of_one name.now) }
{
    match read_name(alloc, name)? {
        Some(name) => letters_printed(alloc, &name),
        None => Ok(Seq::empty(alloc)),
    }
}

/// Adds the print of a name by `{v{}}{l{}}`, or nothing if the name is refused.
fn push_initials(alloc: Global, out: &mut Vec<u8>, name: &[u8]) -> Result<(), AllocError>
    ensures { OnOk result (out.new.items ≡ out.old.items ++ print_of initials_template name.now) }
{
    match read_name(alloc, name)? {
        Some(name) => out.extend_from_slice(initials_printed(alloc, &name)?.as_slice()),
        None => Ok(()),
    }
}

/// The prints of names by `{v{}}{l{}}`, joined.
fn initials_of(alloc: Global, names: &[&[u8]]) -> Result<Vec<u8>, AllocError>
    ensures { IfOk result (λ t. t.items ≡ initials_of (map (λ n. n.now) names.now)) }
{
    let mut out = Vec::new(alloc);
    for name in names {
        push_initials(alloc, &mut out, name)?;
    }
    Ok(out)
}

/// Whether the last name is `others`.
fn ends_with_others(names: &[&[u8]]) -> bool
    ensures { result ≡ ends_with_others (map (λ n. n.now) names.now) }
{
    match names {
        [.., last] => *last == b"others".as_slice(),
        [] => false,
    }
}

/// The letters of two names or more.
pub(crate) fn letters_of_many(alloc: Global, names: &[&[u8]]) -> Result<Text, AllocError>
    requires { 0 < length names.now }
    ensures { IfOk result (λ t. t ≡ letters_of_many (map (λ n. n.now) names.now)) }
{
    let len = names.len();
    let listed = if len > 4 {
        3
    } else if ends_with_others(names) {
        len - 1
    } else {
        return Ok(Seq::from_vec(initials_of(alloc, names)?));
    };
    let mut out = initials_of(alloc, names.split_at(listed).0)?;
    out.push(b'+')?;
    Ok(Seq::from_vec(out))
}

/// The text, or `anon` if it is empty.
pub(crate) fn or_anon(alloc: Global, text: Vec<u8>) -> Result<Vec<u8>, AllocError>
    ensures { IfOk result (λ t. t.items ≡ or_anon text.items) }
{
    if text.is_empty() {
        Vec::from_slice(alloc, b"anon")
    } else {
        Ok(text)
    }
}

/// The digits of a text.
pub(crate) fn digits_of(alloc: Global, text: &[u8]) -> Result<Vec<u8>, AllocError>
    ensures { IfOk result (λ t. t.items ≡ filter is_ascii_digit text.now) }
{
    text.iter()
        .copied()
        .filter(|b| b.is_ascii_digit())
        .collect(alloc)
}

/// The base of a record's label: letters from its names, and the last two digits of its year. All rules are this
/// project's own. The one refusal is want of memory.
pub fn label_base(alloc: Global, entry: &Record) -> Result<Text, NameFault>
    ensures base { IfOk result (λ t. t ≡ label_base entry.now.fields) }
    ensures memory { IfErr result (λ fault. fault ≡ NameFault.Memory) }
{
    Ok(base_of(alloc, entry.fields.as_slice())?)
}

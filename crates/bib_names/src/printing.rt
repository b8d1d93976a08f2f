//! Printing a name by a template.

ghost use Rattle.std.specs.Prelude.{◌≡◌, ◌<◌, ◌+◌, ◌++◌, ◌==◌, IfOk, IfErr, OnOk, length, drop};
ghost use Rattle.bib_names.specs.Printing.{shown, dot, is_short, joint, tied, joined, finished, printed_words, printed_group, part_of, printed_with_trail, printed};

use crate::fault::NameFault;
use crate::group_output::Output;
use crate::initial::initial;
use crate::name::Name;
use crate::special::char_count;
use crate::template::{Form, Group, Part, Template};
use crate::word::Word;
use bib_text::{Seq, Text};
use std::alloc::{AllocError, Global};

/// What a group prints of a word.
fn shown(form: Form, word: &[u8]) -> &[u8]
    ensures { result.now ≡ shown form word.now }
{
    match form {
        Form::Words => word,
        Form::Initials => initial(word),
    }
}

/// What is printed after a word or its initial, before a tie.
fn dot(form: Form, shown: &[u8]) -> &[u8]
    ensures { result.now ≡ dot form shown.now }
{
    if form == Form::Words || shown.is_empty() {
        b""
    } else {
        b"."
    }
}

/// Whether the text has fewer than three text characters.
fn is_short(text: &[u8]) -> bool
    ensures { result ≡ is_short text.now }
{
    char_count(text, 3) < 3
}

/// The byte between the output so far and the next word.
fn joint(out: &Output, sep: u8, is_last: bool) -> u8
    ensures { result ≡ joint out.now sep is_last }
{
    if sep == b'-' || sep == b'~' {
        sep
    } else if is_last || out.is_short() {
        b'~'
    } else {
        b' '
    }
}

/// Adds what is between a word and the next if the template gives no text between words.
#[tactic(auto, using(crate::proofs::OutputLemmas::joint_plain))]
fn push_tie(
    out: &mut Output,
    form: Form,
    shown: &[u8],
    sep: u8,
    is_last: bool,
) -> Result<(), AllocError>
    ensures { OnOk result (out.new ≡ tied form out.old shown.now sep is_last) }
{
    out.push_text(dot(form, shown))?;
    let joint = joint(out, sep, is_last);
    out.push_joint(joint)
}

/// Adds what is between a word and the next.
fn push_between(
    out: &mut Output,
    group: &Group,
    shown: &[u8],
    sep: u8,
    is_last: bool,
) -> Result<(), AllocError>
    ensures { OnOk result (out.new ≡ joined group.now out.old shown.now sep is_last) }
{
    match &group.between {
        Some(between) => out.push_text(between.as_slice()),
        None => push_tie(out, group.form, shown, sep, is_last),
    }
}

/// The output of a group, with its last tie dropped or made a space.
pub(crate) fn finished(mut out: Vec<u8>) -> Result<Vec<u8>, AllocError>
    ensures { IfOk result (λ r. r.items ≡ finished out.items) }
{
    let len = out.len();
    if len == 0 || out[len - 1] != b'~' {
        return Ok(out);
    }
    if len > 1 && out[len - 2] == b'~' {
        out.truncate(len - 1);
        return Ok(out);
    }
    let is_short = is_short(&out[..len - 1]);
    if !is_short {
        out.truncate(len - 1);
        out.push(b' ')?;
    }
    Ok(out)
}

/// Adds word `n` or its initial, and what is between it and the next.
fn push_word(
    out: &mut Output,
    group: &Group,
    words: &[Word<'_>],
    n: usize,
) -> Result<(), AllocError>
    requires { n < length words.now }
    ensures { OnOk result (printed_words group.now out.new (drop (n + 1) words.now) ≡ printed_words group.now out.old (drop n words.now)) }
{
    let word = &words[n];
    let shown = shown(group.form, word.text);
    out.push_text(shown)?;
    if n + 1 < words.len() {
        let next = &words[n + 1];
        return push_between(out, group, shown, next.sep, n + 2 == words.len());
    }
    Ok(())
}

/// The words of a group, after the text before them.
fn printed_words(alloc: Global, group: &Group, words: &[Word<'_>]) -> Result<Vec<u8>, AllocError>
    ensures { IfOk result (λ r. r.items ≡ printed_words group.now group.now.pre words.now) }
{
    let mut out = Output::none(alloc);
    out.push_text(group.pre.as_slice())?;
    for n in 0..words.len() {
        push_word(&mut out, group, words, n)?;
    }
    Ok(out.into_vec())
}

/// What a group prints of these words.
pub(crate) fn printed_group(
    alloc: Global,
    group: &Group,
    words: &[Word<'_>],
) -> Result<Vec<u8>, AllocError>
    ensures { IfOk result (λ r. r.items ≡ printed_group group.now words.now) }
{
    if words.is_empty() {
        return Ok(Vec::new(alloc));
    }
    let mut out = printed_words(alloc, group, words)?;
    out.extend_from_slice(group.post.as_slice())?;
    finished(out)
}

/// The words of a part.
fn part_of<'a, 'b>(name: &'b Name<'a>, part: Part) -> &'b [Word<'a>]
    ensures { result.now ≡ part_of name.now part }
{
    match part {
        Part::First => name.first.as_slice(),
        Part::Von => name.von.as_slice(),
        Part::Last => name.last.as_slice(),
        Part::Jr => name.jr.as_slice(),
    }
}

/// The print of a group, and the text after it.
fn printed_with_trail(alloc: Global, group: &Group, name: &Name<'_>) -> Result<Vec<u8>, AllocError>
    ensures { IfOk result (λ r. r.items ≡ printed_with_trail name.now group.now) }
{
    let mut out = printed_group(alloc, group, part_of(name, group.part))?;
    out.extend_from_slice(group.trail.as_slice())?;
    Ok(out)
}

/// Adds the print of a group, and the text after it.
fn push_printed(
    alloc: Global,
    out: &mut Vec<u8>,
    group: &Group,
    name: &Name<'_>,
) -> Result<(), AllocError>
    ensures { OnOk result (out.new.items ≡ out.old.items ++ printed_with_trail name.now group.now) }
{
    out.extend_from_slice(printed_with_trail(alloc, group, name)?.as_slice())
}

/// The print of a name by a template.
pub(crate) fn printed(
    alloc: Global,
    template: &Template,
    name: &Name<'_>,
) -> Result<Text, AllocError>
    ensures { IfOk result (λ text. text ≡ printed template.now name.now) }
{
    let mut out = Vec::from_slice(alloc, template.front())?;
    for group in template.groups() {
        push_printed(alloc, &mut out, group, name)?;
    }
    Ok(Seq::from_vec(out))
}

impl Template {
    /// The print of a name: the text outside of groups unchanged, and for each group whose part has a word its words or
    /// their initials, with the texts before, between and after them (btxhak 5.4). Ties, spaces and initials follow
    /// this project's own rules. The one refusal is want of memory.
    pub fn print(&self, name: &Name<'_>) -> Result<Text, NameFault>
        ensures printed { IfOk result (λ text. text ≡ printed self.now name.now) }
        ensures memory { IfErr result (λ fault. fault ≡ NameFault.Memory) }
    {
        Ok(printed(self.allocator(), self, name)?)
    }
}

//! Templates and their grammar.

ghost use Rattle.std.specs.Prelude.{◌≡◌, ◌≤◌, ◌<◌, ◌⊎◌, ◌++◌, ◌∷◌, [], Some, None, Err, IfOk, IfErr, OnOk, IfSome, IfNone, length, option_map};
ghost use Rattle.std.specs.List.{prefix_len, take_while};
ghost use Rattle.bib_spec.specs.Text.{after_run};
ghost use Rattle.bib_names.specs.Template.{is_no_brace, is_ornament, OneTemplate};
ghost use Rattle.bib_names.specs.TemplateReading.{after_byte, part_named, letters_at, between_at, group_at};

use crate::fault::NameFault;
use bib_text::{Seq, Text, copied};
use std::alloc::{AllocError, Global};
use std::marker::Model;

/// A part of a name.
#[derive(Clone, Copy, Debug, PartialEq, Eq)]
pub(crate) enum Part {
    First,
    Von,
    Last,
    Jr,
}

/// What a group prints of each word: its initial, or all of it.
#[derive(Clone, Copy, Debug, PartialEq, Eq)]
pub(crate) enum Form {
    Initials,
    Words,
}

/// A group `{pre letters{between}post}` of a template, and the text after it.
#[derive(Debug, Drop)]
pub(crate) struct Group {
    pub pre: Text,
    pub part: Part,
    pub form: Form,
    pub between: Option<Text>,
    pub post: Text,
    pub trail: Text,
}

/// How a name is printed: a text, and groups, each with the text after it. (btxhak 5.4)
#[derive(Debug, Drop)]
pub struct Template {
    alloc: Global,
    front: Text,
    groups: Seq<Group>,
}

impl Model for Template {
    ghost use Rattle.bib_names.specs.Template.{Pattern};

    ghost Value = { Pattern };

    ghost view = { λ t. record { front = t.front; groups = t.groups } };
}

/// A group as a template's bytes have it.
#[derive(Drop)]
struct GroupText<'a> {
    pre: &'a [u8],
    part: Part,
    form: Form,
    between: Option<&'a [u8]>,
    post: &'a [u8],
    trail: &'a [u8],
}

impl<'a> Model for GroupText<'a> {
    ghost use Rattle.std.specs.Prelude.{option_map};
    ghost use Rattle.bib_names.specs.declared.template.Group.{Group};

    ghost Value = { Group };

    ghost view = { λ g. record { pre = g.pre.now; part = g.part; form = g.form; between = option_map (λ b. b.now) g.between; post = g.post.now; trail = g.trail.now } };
}

/// Whether the byte is no brace.
fn is_no_brace(byte: u8) -> bool
    ensures { result ≡ is_no_brace byte }
{
    !(byte == b'{' || byte == b'}')
}

/// Whether a group may have the byte before and after its letters.
fn is_ornament(byte: u8) -> bool
    ensures { result ≡ is_ornament byte }
{
    is_no_brace(byte) && !byte.is_ascii_alphabetic()
}

fn plain_len(text: &[u8]) -> usize
    ensures len { result ≡ prefix_len is_no_brace text.now }
    ensures within { result ≤ length text.now }
{
    text.iter().take_while(|b| is_no_brace(**b)).count()
}

fn ornament_len(text: &[u8]) -> usize
    ensures len { result ≡ prefix_len is_ornament text.now }
    ensures within { result ≤ length text.now }
{
    text.iter().take_while(|b| is_ornament(**b)).count()
}

/// The text before the first brace, and the text from there on.
fn split_plain(text: &[u8]) -> (&[u8], &[u8])
    ensures plain { result.0.now ≡ take_while is_no_brace text.now }
    ensures rest { result.1.now ≡ after_run is_no_brace text.now }
{
    text.split_at(plain_len(text))
}

/// The text before the first brace or letter, and the text from there on.
fn split_ornament(text: &[u8]) -> (&[u8], &[u8])
    ensures ornament { result.0.now ≡ take_while is_ornament text.now }
    ensures rest { result.1.now ≡ after_run is_ornament text.now }
{
    text.split_at(ornament_len(text))
}

/// The text after this byte, if the text begins with it.
fn after_byte(text: &[u8], byte: u8) -> Option<&[u8]>
    ensures found { IfSome result (λ rest. after_byte byte text.now ≡ Some rest.now) }
    ensures none { IfNone result (after_byte byte text.now ≡ None) }
{
    match text {
        [first, rest @ ..] if *first == byte => Some(rest),
        _ => None,
    }
}

/// The part that a letter names.
fn part_named(letter: u8) -> Option<Part>
    ensures { result ≡ part_named letter }
{
    match letter {
        b'f' => Some(Part::First),
        b'v' => Some(Part::Von),
        b'l' => Some(Part::Last),
        b'j' => Some(Part::Jr),
        _ => None,
    }
}

/// The letters at the front as a part and its form, and the text after them.
fn split_letters(text: &[u8]) -> Option<(Part, Form, &[u8])>
    ensures found { IfSome result (λ r. letters_at text.now ≡ Some (r.0, r.1, r.2.now)) }
    ensures none { IfNone result (letters_at text.now ≡ None) }
{
    let [letter, rest @ ..] = text else {
        return None;
    };
    let part = part_named(*letter)?;
    match after_byte(rest, *letter) {
        Some(after) => Some((part, Form::Words, after)),
        None => Some((part, Form::Initials, rest)),
    }
}

/// The text between words, if it is given, and the text after it; none if no brace closes it.
fn split_between(text: &[u8]) -> Option<(Option<&[u8]>, &[u8])>
    ensures found { IfSome result (λ r. between_at text.now ≡ Some (option_map (λ b. b.now) r.0, r.1.now)) }
    ensures none { IfNone result (between_at text.now ≡ None) }
{
    let Some(inside) = after_byte(text, b'{') else {
        return Some((None, text));
    };
    let (between, rest) = split_plain(inside);
    let after = after_byte(rest, b'}')?;
    Some((Some(between), after))
}

/// The group whose opening brace is before the text, and the text after the group; none if there is no group.
fn split_group(text: &[u8]) -> Option<(GroupText<'_>, &[u8])>
    ensures found { IfSome result (λ r. group_at text.now ≡ Some (r.0, r.1.now)) }
    ensures none { IfNone result (group_at text.now ≡ None) }
{
    let (pre, rest) = split_ornament(text);
    let (part, form, rest) = split_letters(rest)?;
    let (between, rest) = split_between(rest)?;
    let (post, rest) = split_ornament(rest);
    let (trail, rest) = split_plain(after_byte(rest, b'}')?);
    let group = GroupText {
        pre,
        part,
        form,
        between,
        post,
        trail,
    };
    Some((group, rest))
}

/// A copy of the text between words, if it is given.
fn owned_between(alloc: Global, between: Option<&[u8]>) -> Result<Option<Text>, AllocError>
    ensures { IfOk result (λ b. b ≡ option_map (λ t. t.now) between.entry) }
{
    match between {
        Some(text) => Ok(Some(copied(alloc, text)?)),
        None => Ok(None),
    }
}

/// A copy of the group.
fn owned_group(alloc: Global, group: &GroupText<'_>) -> Result<Group, AllocError>
    ensures { IfOk result (λ g. g ≡ group.now) }
{
    Ok(Group {
        pre: copied(alloc, group.pre)?,
        part: group.part,
        form: group.form,
        between: owned_between(alloc, group.between)?,
        post: copied(alloc, group.post)?,
        trail: copied(alloc, group.trail)?,
    })
}

/// Adds a copy of the group after the others.
fn push_group(
    alloc: Global,
    groups: &mut Vec<Group>,
    group: &GroupText<'_>,
) -> Result<(), AllocError>
    ensures { OnOk result (groups.new.items ≡ groups.old.items ++ group.now ∷ []) }
{
    groups.push(owned_group(alloc, group)?)?;
    Ok(())
}

impl Template {
    ghost use Rattle.bib_names.specs.Template.{Pattern, IsTemplate, spelling};

    /// The template that the bytes spell: text, and groups `{pre letters post}` or `{pre letters{between}post}`, where
    /// the letters are one of `f ff v vv l ll j jj` (btxhak 5.4). Beside the letters there is no letter and no brace,
    /// and between words and outside of groups no brace (dialect). The time is linear in the length of the bytes.
    ///
    /// Bytes that spell no template are refused as 23. A template is refused only for want of memory.
    pub fn read(alloc: Global, bytes: &[u8]) -> Result<Template, NameFault>
        ensures found { IfOk result (λ t. IsTemplate t × (bytes.now ≡ spelling t)) }
        ensures refused { result ≡ Err NameFault.BadTemplate → (t : Pattern) → IsTemplate t → bytes.now ≡ spelling t → ⊥ }
        ensures err { IfErr result (λ fault. (fault ≡ NameFault.BadTemplate) ⊎ (fault ≡ NameFault.Memory)) }
    {
        let (front, mut rest) = split_plain(bytes);
        let mut groups = Vec::new(alloc);
        while let Some(inside) = after_byte(rest, b'{') {
            let Some((group, after)) = split_group(inside) else {
                return Err(NameFault::BadTemplate);
            };
            push_group(alloc, &mut groups, &group)?;
            rest = after;
        }
        if !rest.is_empty() {
            return Err(NameFault::BadTemplate);
        }
        Ok(Template::of(alloc, copied(alloc, front)?, groups))
    }

    /// The template of this text and these groups.
    pub(crate) fn of(alloc: Global, front: Text, groups: Vec<Group>) -> Template
        ensures { result ≡ record { front = front; groups = groups.items } }
    {
        Template {
            alloc,
            front,
            groups: Seq::from_vec(groups),
        }
    }

    /// The text before the first group.
    pub(crate) fn front(&self) -> &[u8]
        ensures { result.now ≡ self.now.front }
    {
        self.front.as_slice()
    }

    /// The groups, each with the text after it.
    pub(crate) fn groups(&self) -> &[Group]
        ensures { result.now ≡ self.now.groups }
    {
        self.groups.as_slice()
    }

    /// The allocator of the call that made the template.
    pub(crate) fn allocator(&self) -> Global {
        self.alloc
    }
}

/// No bytes spell two templates.
pub fn one_template()
    ensures { OneTemplate }
{}

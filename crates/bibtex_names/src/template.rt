//! Templates.

ghost use Rattle.std.specs.Prelude.{◌≡◌, ◌≤◌, ◌<◌, ◌==◌, length, IfOk};
ghost use Rattle.std.specs.List.{prefix_len, take_while};
ghost use Rattle.bib_names.specs.Places.{is_level};
ghost use Rattle.bib_names.specs.Template.{is_no_brace};
ghost use Rattle.bibtex_names.specs.Template.{begins_group_at, front_group};

use crate::braces::Braces;
use crate::letters::split_group;
use crate::template_reading::group_of;
use bib_names::NameFault;
use bib_scan::is_balanced;
use bib_text::{Seq, Text, copied};
use std::alloc::{AllocError, Global};
use std::marker::Model;

/// A part of a name.
#[derive(Clone, Copy, Debug, PartialEq, Eq)]
pub(crate) enum Part {
    First,
    Von,
    Last,
    Jr,
}

/// What a group prints of each word: its initial, or all of it.
#[derive(Clone, Copy, Debug, PartialEq, Eq)]
pub(crate) enum Form {
    Initials,
    Words,
}

/// The letters of a group, and the text between words if the group gives it.
#[derive(Debug, Drop)]
pub(crate) struct Letters {
    pub part: Part,
    pub form: Form,
    pub between: Option<Text>,
}

/// A group of a template, and the text after it. A group without letters has all its text before them.
#[derive(Debug, Drop)]
pub(crate) struct Group {
    pub pre: Text,
    pub letters: Option<Letters>,
    pub post: Text,
    pub trail: Text,
}

/// How BibTeX prints a name: a text, and groups, each with the text after it.
#[derive(Debug, Drop)]
pub struct Template {
    alloc: Global,
    front: Text,
    groups: Seq<Group>,
}

impl Model for Template {
    ghost use Rattle.bibtex_names.specs.Template.{Pattern};

    ghost Value = { Pattern };

    ghost view = { λ t. record { front = t.front; groups = t.groups } };
}

/// How many bytes are before the first brace.
fn plain_len(text: &[u8]) -> usize
    ensures len { result ≡ prefix_len is_no_brace text.now }
    ensures within { result ≤ length text.now }
{
    text.iter()
        .take_while(|b| **b != b'{' && **b != b'}')
        .count()
}

/// The text before the first brace.
fn plain_front(text: &[u8]) -> &[u8]
    ensures { result.now ≡ take_while is_no_brace text.now }
{
    text.split_at(plain_len(text)).0
}

/// Whether a group begins at the place.
fn begins_group_at(bytes: &[u8], place: usize, braces: Braces) -> bool
    requires within { place < length bytes.now }
    requires braces { (braces.opened == braces.closed) ≡ is_level bytes.now place }
    ensures { result ≡ begins_group_at bytes.now place }
{
    braces.are_level() && bytes[place] == b'{'
}

/// The group at the front of the text, and the text after it up to the next brace; none if its letters name no part, or more.
fn front_group(alloc: Global, text: &[u8]) -> Result<Option<Group>, AllocError>
    requires { 0 < length text.now }
    ensures { IfOk result (λ group. group ≡ front_group text.now) }
{
    let (inside, after) = split_group(text);
    group_of(alloc, inside, plain_front(after))
}

impl Template {
    ghost use Rattle.std.specs.Prelude.{◌≡◌, ◌≢◌, Ok, Err, IfOk, IfErr};
    ghost use Rattle.bib_names.specs.declared.fault.NameFault.TheVariants.{Memory};
    ghost use Rattle.bibtex_names.specs.NamesInLists.{template_in};

    /// The template that the bytes spell: text, and groups in braces. A group names at most one part, outside of the groups in it, by one
    /// of `f ff v vv l ll j jj` in either case. A group directly after the letters is what is printed between words. The time is
    /// linear in the length of the bytes.
    ///
    /// Bytes of which BibTeX complains are refused as 23: their braces do not balance, or a group has another letter, another part, or
    /// a byte from 0x80 on. A template is refused only for want of memory.
    pub fn read(alloc: Global, bytes: &[u8]) -> Result<Template, NameFault>
        ensures found { IfOk result (λ t. template_in bytes.now ≡ Ok t) }
        ensures fault { IfErr result (λ fault. fault ≢ Memory → template_in bytes.now ≡ Err fault) }
    {
        if !is_balanced(bytes) {
            return Err(NameFault::BadTemplate);
        }
        let mut groups = Vec::new(alloc);
        let mut braces = Braces::none();
        for (place, &byte) in bytes.iter().enumerate() {
            if begins_group_at(bytes, place, braces) {
                let Some(group) = front_group(alloc, bytes.split_at(place).1)? else {
                    return Err(NameFault::BadTemplate);
                };
                groups.push(group)?;
            }
            braces = braces.and(byte);
        }
        Ok(Template {
            alloc,
            front: copied(alloc, plain_front(bytes))?,
            groups: Seq::from_vec(groups),
        })
    }

    /// The text before the first group.
    pub(crate) fn front(&self) -> &[u8]
        ensures { result.now ≡ self.now.front }
    {
        self.front.as_slice()
    }

    /// The groups, each with the text after it.
    pub(crate) fn groups(&self) -> &[Group]
        ensures { result.now ≡ self.now.groups }
    {
        self.groups.as_slice()
    }

    /// The allocator of the call that made the template.
    pub(crate) fn allocator(&self) -> Global {
        self.alloc
    }
}

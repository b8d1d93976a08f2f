//! The letters of a group of a template.

ghost use Rattle.std.specs.Prelude.{◌≡◌, ◌≤◌, ◌<◌, ◌+◌, ◌-◌, ◌==◌, [], IfOk, IfSome, IfNone, None, option_map, true, length, slice_index};
ghost use Rattle.bib_names.specs.Places.{is_level};
ghost use Rattle.bibtex_names.specs.Template.{is_letter_at, part_named, is_doubled, between_in, after_between, lettered, group_of};
ghost use Rattle.bibtex_names.specs.Reading.{letters_from, IsFirstLetter};

use crate::braces::Braces;
use crate::letters::{begins_group, is_letter, split_group};
use crate::template::{Form, Group, Letters, Part};
use bib_text::{Text, copied};
use std::alloc::{AllocError, Global};

/// Whether a letter is at the place, at depth 0.
fn is_letter_at(inside: &[u8], place: usize, braces: Braces) -> bool
    requires within { place < length inside.now }
    requires braces { (braces.opened == braces.closed) ≡ is_level inside.now place }
    ensures { result ≡ is_letter_at inside.now place }
{
    braces.are_level() && is_letter(inside[place])
}

/// The first letter at depth 0 from a place of depth 0 on.
fn letter_from(inside: &[u8], start: usize) -> Option<usize>
    requires within { start ≤ length inside.now }
    requires level { is_level inside.now start ≡ true }
    ensures found { IfSome result (IsFirstLetter inside.now start) }
    ensures none { IfNone result (letters_from inside.now start ≡ []) }
{
    let mut braces = Braces::none();
    for place in start..inside.len() {
        if is_letter_at(inside, place, braces) {
            return Some(place);
        }
        braces = braces.and(inside[place]);
    }
    None
}

/// The part that a letter names.
fn part_named(letter: u8) -> Option<Part>
    ensures { result ≡ part_named letter }
{
    let small = letter.to_ascii_lowercase();
    if small == b'f' {
        Some(Part::First)
    } else if small == b'v' {
        Some(Part::Von)
    } else if small == b'l' {
        Some(Part::Last)
    } else if small == b'j' {
        Some(Part::Jr)
    } else {
        None
    }
}

/// Whether the letters at these places are one that is doubled.
fn is_doubled(inside: &[u8], one: usize, two: usize) -> bool
    requires one { one < length inside.now }
    requires two { two < length inside.now }
    ensures { result ≡ is_doubled inside.now one two }
{
    two == one + 1 && inside[one].to_ascii_lowercase() == inside[two].to_ascii_lowercase()
}

/// The text between words, if it is given, and the text after it.
fn split_between(after: &[u8]) -> (Option<&[u8]>, &[u8])
    ensures between { option_map (λ b. b.now) result.0 ≡ between_in after.now }
    ensures after { result.1.now ≡ after_between after.now }
{
    if begins_group(after) {
        let (between, rest) = split_group(after);
        return (Some(between), rest);
    }
    (None, after)
}

/// A copy of the text between words, if it is given.
fn owned_between(alloc: Global, between: Option<&[u8]>) -> Result<Option<Text>, AllocError>
    ensures { IfOk result (λ b. b ≡ option_map (λ t. t.now) between.entry) }
{
    match between {
        Some(text) => Ok(Some(copied(alloc, text)?)),
        None => Ok(None),
    }
}

/// The group without letters.
fn plain_group(alloc: Global, inside: &[u8], trail: &[u8]) -> Result<Group, AllocError>
    ensures { IfOk result (λ group. group ≡ record { pre = inside.now; letters = None; post = []; trail = trail.now }) }
{
    Ok(Group {
        pre: copied(alloc, inside)?,
        letters: None,
        post: Text::empty(alloc),
        trail: copied(alloc, trail)?,
    })
}

/// The group whose letters stand from `at` up to `end` and name this part.
fn part_group(
    alloc: Global,
    inside: &[u8],
    trail: &[u8],
    at: usize,
    end: usize,
    form: Form,
    part: Part,
) -> Result<Group, AllocError>
    requires ordered { at ≤ end }
    requires within { end ≤ length inside.now }
    ensures { IfOk result (λ group. group ≡ lettered inside.now trail.now at end form part) }
{
    let (between, post) = split_between(inside.split_at(end).1);
    let letters = Letters {
        part,
        form,
        between: owned_between(alloc, between)?,
    };
    Ok(Group {
        pre: copied(alloc, inside.split_at(at).0)?,
        letters: Some(letters),
        post: copied(alloc, post)?,
        trail: copied(alloc, trail)?,
    })
}

/// The group whose letters stand from `at` up to `end`, if the first of them names a part.
fn lettered(
    alloc: Global,
    inside: &[u8],
    trail: &[u8],
    at: usize,
    end: usize,
    form: Form,
) -> Result<Option<Group>, AllocError>
    requires ordered { at < end }
    requires within { end ≤ length inside.now }
    ensures { IfOk result (λ group. group ≡ option_map (lettered inside.now trail.now at end form) (part_named (slice_index inside.now at))) }
{
    match part_named(inside[at]) {
        Some(part) => Ok(Some(part_group(alloc, inside, trail, at, end, form, part)?)),
        None => Ok(None),
    }
}

/// The group with this text in its braces, and this text after it; none if its letters name no part, or more.
pub(crate) fn group_of(
    alloc: Global,
    inside: &[u8],
    trail: &[u8],
) -> Result<Option<Group>, AllocError>
    ensures { IfOk result (λ group. group ≡ group_of inside.now trail.now) }
{
    let Some(one) = letter_from(inside, 0) else {
        return Ok(Some(plain_group(alloc, inside, trail)?));
    };
    let Some(two) = letter_from(inside, one + 1) else {
        return lettered(alloc, inside, trail, one, one + 1, Form::Initials);
    };
    if !is_doubled(inside, one, two) {
        return Ok(None);
    }
    if letter_from(inside, two + 1).is_some() {
        return Ok(None);
    }
    lettered(alloc, inside, trail, one, one + 2, Form::Words)
}

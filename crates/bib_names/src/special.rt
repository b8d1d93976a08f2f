//! Special characters and text characters.

ghost use Rattle.std.specs.Prelude.{◌≡◌, ◌<◌, ◌≤◌, ◌==◌, ◌&&◌, ◌+◌, [], ◌∷◌, min, length, IfSome, IfNone, true, false};
ghost use Rattle.std.specs.List.{prefix_len};
ghost use Rattle.bib_names.specs.Marks.{goes_on};
ghost use Rattle.bib_names.specs.Places.{is_level};
ghost use Rattle.bib_names.specs.Special.{is_opening, begins_special, next_level, is_plain, going_on, text_chars};
ghost use Rattle.bib_names.specs.Scanning.{IsGroupEnd, IsSpecial, IsChar, IsBareBrace};

use crate::braces::Braces;
use crate::text::goes_on;
use std::marker::Model;

/// Whether the byte begins a text character by itself.
fn is_plain(byte: u8) -> bool
    ensures { result ≡ is_plain byte }
{
    !(byte == b'{' || byte == b'}' || goes_on(byte))
}

/// The end of the group that begins at a place of depth 0.
fn group_end(text: &[u8], place: usize) -> Option<usize>
    requires within { place < length text.now }
    requires level { is_level text.now place ≡ true }
    ensures found { IfSome result (IsGroupEnd text.now place) }
    ensures none { IfNone result (is_level text.now (next_level text.now place) ≡ false) }
{
    let mut braces = Braces::none();
    for last in place..text.len() {
        braces = braces.and(text[last]);
        if braces.are_level() {
            return Some(last + 1);
        }
    }
    None
}

/// Whether an opening brace is at the place, and a backslash after it.
fn is_opening(text: &[u8], place: usize) -> bool
    requires { place < length text.now }
    ensures { result ≡ is_opening text.now place }
{
    text[place] == b'{' && text.len() - place > 1 && text[place + 1] == b'\\'
}

/// Whether an opening brace is at the place, at depth 0, and a backslash after it.
fn is_level_opening(text: &[u8], place: usize, braces: Braces) -> bool
    requires within { place < length text.now }
    requires braces { (braces.opened == braces.closed) ≡ is_level text.now place }
    ensures { result ≡ (is_level text.now place && is_opening text.now place) }
{
    braces.are_level() && is_opening(text, place)
}

/// The end of the special character that begins at the place, if one does.
pub(crate) fn special_end(text: &[u8], place: usize, braces: Braces) -> Option<usize>
    requires within { place < length text.now }
    requires braces { (braces.opened == braces.closed) ≡ is_level text.now place }
    ensures found { IfSome result (IsSpecial text.now place) }
    ensures none { IfNone result (begins_special text.now place ≡ false) }
{
    if is_level_opening(text, place, braces) {
        group_end(text, place)
    } else {
        None
    }
}

/// How many bytes continue the character before the text.
fn going_on_len(text: &[u8]) -> usize
    ensures len { result ≡ prefix_len goes_on text.now }
    ensures within { result ≤ length text.now }
{
    text.iter().take_while(|b| goes_on(**b)).count()
}

/// The place after the bytes that continue a character from this place on.
fn going_on_end(text: &[u8], place: usize) -> usize
    requires { place ≤ length text.now }
    ensures end { result ≡ place + going_on text.now place }
    ensures within { result ≤ length text.now }
{
    place + going_on_len(text.split_at(place).1)
}

/// The end of the text character that begins at the place, if no earlier one reaches it; none at a brace.
fn char_end(text: &[u8], place: usize, braces: Braces) -> Option<usize>
    requires within { place < length text.now }
    requires braces { (braces.opened == braces.closed) ≡ is_level text.now place }
    ensures found { IfSome result (IsChar text.now place) }
    ensures none { IfNone result (IsBareBrace text.now place) }
{
    if let Some(end) = special_end(text, place, braces) {
        return Some(end);
    }
    let byte = text[place];
    if is_plain(byte) {
        Some(going_on_end(text, place + 1))
    } else if goes_on(byte) {
        Some(place + 1)
    } else {
        None
    }
}

/// The text characters of a text that are still to come, from the front. They take no memory.
#[derive(Drop)]
pub(crate) struct Chars<'a> {
    text: &'a [u8],
    place: usize,
    braces: Braces,
}

impl<'a> Model for Chars<'a> {
    ghost use Rattle.std.specs.Prelude.{ℕ, List};
    ghost use Rattle.bib_names.specs.Scanning.{IsCharPlace, chars_from};

    ghost Value = { List (List ℕ) };

    ghost view = { λ c. chars_from c.text.now c.place };

    ghost invariant = { λ c. IsCharPlace c.text.now c.place c.braces.opened c.braces.closed };
}

impl<'a> Chars<'a> {
    /// The text characters of a text.
    pub fn of(text: &'a [u8]) -> Self
        ensures { result ≡ text_chars text.now }
    {
        Chars {
            text,
            place: 0,
            braces: Braces::none(),
        }
    }

    /// The first of them, and those after it.
    pub fn next(self) -> Option<(&'a [u8], Chars<'a>)>
        ensures some { IfSome result (λ r. self.entry ≡ r.0.now ∷ r.1) }
        ensures none { IfNone result (self.entry ≡ []) }
    {
        let text = self.text;
        let mut place = self.place;
        let mut braces = self.braces;
        while place < text.len() {
            if let Some(end) = char_end(text, place, braces) {
                let character = &text[place..end];
                let rest = Chars {
                    text,
                    place: end,
                    braces: braces.over(character),
                };
                return Some((character, rest));
            }
            braces = braces.and(text[place]);
            place += 1;
        }
        None
    }
}

/// How many text characters the text has, counted up to a limit.
pub(crate) fn char_count(text: &[u8], limit: usize) -> usize
    ensures { result ≡ min limit (length (text_chars text.now)) }
{
    let mut chars = Chars::of(text);
    let mut count = 0;
    while count < limit {
        let Some((_, rest)) = chars.next() else {
            return count;
        };
        chars = rest;
        count += 1;
    }
    count
}

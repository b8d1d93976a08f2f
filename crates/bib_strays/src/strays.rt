//! The lines of a text that look like what went wrong, one after another.

ghost use Rattle.std.specs.Prelude.{◌≡◌, ◌≤◌, ◌<◌, ◌+◌, length, drop, IfSome};
ghost use Rattle.std.specs.Option.{option_map};
ghost use Rattle.bib_strays.specs.Strays.{first_len, first_line, stray_seen, strays_left, Continues};

use crate::lines::{StrayKind, kind_of_line, shown};
use std::marker::Model;

/// A line that looks like what went wrong: its place in the text, in bytes from 0, and the part of it that shows what it
/// looks like: a marker of seven signs, a word that a brace follows, or a brace.
#[derive(Clone, Copy, Debug, PartialEq, Eq)]
pub struct StrayLine<'a> {
    pub kind: StrayKind,
    pub place: usize,
    pub text: &'a [u8],
}

/// The lines of a text between two items that look like what went wrong, in order. Of the text after a comment only the
/// markers of a merge count. All of them together take time in the text's length, and no memory.
#[derive(Drop)]
pub struct Strays<'a> {
    commented: bool,
    text: &'a [u8],
    place: usize,
}

impl<'a> Model for Strays<'a> {
    ghost use Rattle.std.specs.Prelude.{◌≤◌, List, length};
    ghost use Rattle.bib_strays.specs.Strays.{Stray, strays_left};

    ghost Value = { List Stray };

    ghost view = { λ s. strays_left s.commented s.place s.text.now };

    ghost invariant = { λ s. s.place ≤ length s.text.now };
}

impl<'a> Strays<'a> {
    ghost use Rattle.std.specs.Prelude.{◌≡◌};
    ghost use Rattle.bib_strays.specs.Strays.{strays_in};

    /// Those of a text, which may be the text after a comment.
    pub fn of(commented: bool, text: &'a [u8]) -> Self
        ensures { result ≡ strays_in commented text.now }
    {
        Strays {
            commented,
            text,
            place: 0,
        }
    }
}

impl<'a> Iterator for Strays<'a> {
    ghost use Rattle.std.specs.Iterator.{YieldsFirstBy, item_count};
    ghost use Rattle.bib_strays.specs.Strays.{stray_seen};

    type Item = StrayLine<'a>;

    ghost next_gives = { YieldsFirstBy stray_seen (λ strays. strays) };

    ghost remaining = { item_count (λ strays. strays) };

    fn next(&mut self) -> Option<StrayLine<'a>> {
        let (line, place) = first_stray(self.commented, self.text, self.place)?;
        self.place = place;
        Some(line)
    }
}

/// The length of the first line, without its line feed.
fn first_len(text: &[u8]) -> usize
    ensures len { result ≡ first_len text.now }
    ensures within { result ≤ length text.now }
{
    text.iter().take_while(|byte| **byte != b'\n').count()
}

/// The line that begins at this place, without its line feed.
fn line_at(text: &[u8], place: usize) -> &[u8]
    requires { place ≤ length text.now }
    ensures line { result.now ≡ first_line (drop place text.now) }
    ensures within { place + length result.now ≤ length text.now }
{
    let rest = text.split_at(place).1;
    rest.split_at(first_len(rest)).0
}

/// The first line from this place on that looks like what went wrong, and the place of the line after it.
fn first_stray(commented: bool, text: &[u8], from: usize) -> Option<(StrayLine<'_>, usize)>
    requires { from ≤ length text.now }
    ensures found { Continues commented text.now (option_map (λ x. (stray_seen x.0, x.1)) result) (strays_left commented from text.now) }
    ensures within { IfSome result (λ x. x.1 ≤ length text.now) }
{
    let mut place = from;
    'lines: while place < text.len() {
        let line = line_at(text, place);
        let after = (place + line.len() + 1).min(text.len());
        if let Some(kind) = kind_of_line(commented, line) {
            let text = shown(kind, line);
            return Some((StrayLine { kind, place, text }, after));
        }
        place = after;
    }
    None
}

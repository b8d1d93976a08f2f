//! The lines of a file, one by one.

ghost use Rattle.std.specs.Prelude.{◌≡◌, ◌≤◌, ◌<◌, ◌==◌, [], ◌∷◌, not, length, drop, IfSome, IfNone};
ghost use Rattle.std.specs.List.{prefix_len};
ghost use Rattle.bib_spec.specs.Bytes.{line_feed};
ghost use Rattle.ris_text.specs.Lines.{line_at, tag_line, plain_line, lines_of, mark_len, is_untagged};
ghost use Rattle.ris_text.specs.Code.{seen, continues};

use crate::tags::{has_tag, tag_class};
use bib_text::trimmed;
use memchr::memchr;
use std::marker::Model;

/// What a line does: it begins or ends a record, has a known or another tag, or has no tag; then it is blank or has a
/// text.
#[derive(Clone, Copy, Debug, PartialEq, Eq)]
pub(crate) enum Class {
    Begin,
    End,
    Known([u8; 2]),
    Other,
    Blank,
    Untagged,
}

/// A line: the place of its first byte in the file, what it does, and its text, which is its value if it has a tag.
#[derive(Clone, Copy)]
pub(crate) struct Line<'a> {
    pub place: usize,
    pub class: Class,
    pub text: &'a [u8],
}

impl Line<'_> {
    /// Whether the line has no tag.
    pub fn is_untagged(&self) -> bool
        ensures { result ≡ is_untagged self.now.class }
    {
        matches!(self.class, Class::Blank | Class::Untagged)
    }
}

/// A line with a tag.
fn tag_line(place: usize, tag: [u8; 2], value: &[u8]) -> Line<'_>
    ensures { seen result ≡ tag_line place tag value.now }
{
    let class = tag_class(tag);
    let text = trimmed(value);
    Line { place, class, text }
}

/// A line without a tag.
fn plain_line(place: usize, text: &[u8]) -> Line<'_>
    ensures { seen result ≡ plain_line place text.now }
{
    let class = if text.is_empty() {
        Class::Blank
    } else {
        Class::Untagged
    };
    Line { place, class, text }
}

/// The line at this place that has these bytes.
#[tactic(auto, unfolding(crate::specs::Lines::line_at))]
pub(crate) fn line_at(place: usize, bytes: &[u8]) -> Line<'_>
    ensures { seen result ≡ line_at place bytes.now }
{
    if !has_tag(bytes) {
        return plain_line(place, trimmed(bytes));
    }
    let tag = [bytes[0], bytes[1]];
    tag_line(place, tag, bytes.split_at(5).1)
}

/// How many bytes are before the first line feed, or before the end if there is none.
pub(crate) fn line_len(text: &[u8]) -> usize
    ensures len { result ≡ prefix_len (λ b. not (b == line_feed)) text.now }
    ensures within { result ≤ length text.now }
{
    match memchr(b'\n', text) {
        Some(len) => len,
        None => text.len(),
    }
}

/// How many bytes of the file the mark of UTF-8 takes.
#[tactic(auto, unfolding(crate::specs::Lines::mark_len))]
pub(crate) fn mark_len(file: &[u8]) -> usize
    ensures len { result ≡ mark_len file.now }
    ensures within { result ≤ length file.now }
{
    if file.starts_with(b"\xef\xbb\xbf") {
        3
    } else {
        0
    }
}

/// The lines of a file that are still to be read, from the front. They take no memory.
#[derive(Drop)]
pub(crate) struct Lines<'a> {
    file: &'a [u8],
    place: usize,
}

impl<'a> Model for Lines<'a> {
    ghost use Rattle.std.specs.Prelude.{◌≤◌, List, length, drop};
    ghost use Rattle.ris_text.specs.Lines.{Line as FileLine, lines_from, line_texts};

    ghost Value = { List FileLine };

    ghost view = { λ l. lines_from l.place (line_texts (drop l.place l.file.now)) };

    ghost invariant = { λ l. l.place ≤ length l.file.now };
}

impl<'a> Lines<'a> {
    /// The lines of a file.
    pub fn of(file: &'a [u8]) -> Self
        ensures { result ≡ lines_of file.now }
    {
        Lines {
            file,
            place: mark_len(file),
        }
    }

    /// Whether there is a first line, and it has no tag.
    pub fn continues(&self) -> bool
        ensures { result ≡ continues self.now }
    {
        let rest = self.file.split_at(self.place).1;
        !rest.is_empty() && !has_tag(rest)
    }

    /// The first line, and the lines after it.
    pub fn first(&self) -> Option<(Line<'a>, Lines<'a>)>
        ensures some { IfSome result (λ r. self.now ≡ seen r.0 ∷ r.1) }
        ensures none { IfNone result (self.now ≡ []) }
    {
        let rest = self.file.split_at(self.place).1;
        if rest.is_empty() {
            return None;
        }
        let len = line_len(rest);
        let line = line_at(self.place, rest.split_at(len).0);
        let after = Lines {
            file: self.file,
            place: self.place + rest.len().min(len + 1),
        };
        Some((line, after))
    }
}

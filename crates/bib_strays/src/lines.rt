//! What a line between items looks like.

ghost use Rattle.std.specs.Prelude.{◌≡◌, ◌≤◌, not, length};
ghost use Rattle.bib_spec.specs.Text.{does_not_begin_with, is_space};
ghost use Rattle.bib_strays.specs.Strays.{is_mark, is_marker, word_len, is_lost_entry, is_lone_brace, kind_of_line, shown};

use bib_text::{is_space, trimmed};

/// How many signs a marker of a merge has.
const MARK_LEN: usize = 7;

/// What a line between items looks like.
#[derive(Clone, Copy, Debug, PartialEq, Eq)]
pub enum StrayKind {
    /// A line that `git merge` writes around the sides of a conflict.
    ConflictMarker,
    /// The first line of an entry that lost its at-sign.
    LostEntry,
    /// A closing brace that closes nothing.
    LoneBrace,
}

/// Whether the bytes are one of the signs of a merge, seven times.
fn is_mark(bytes: &[u8]) -> bool
    ensures { result ≡ is_mark bytes.now }
{
    bytes == b"<<<<<<<".as_slice()
        || bytes == b"|||||||".as_slice()
        || bytes == b"=======".as_slice()
        || bytes == b">>>>>>>".as_slice()
}

/// Whether no other byte than white space is at the front.
fn begins_with_space_or_ends(text: &[u8]) -> bool
    ensures { result ≡ does_not_begin_with (λ b. not (is_space b)) text.now }
{
    match text {
        [first, ..] => is_space(*first),
        [] => true,
    }
}

/// Whether the line begins with a marker of a merge.
fn is_marker(line: &[u8]) -> bool
    ensures { result ≡ is_marker line.now }
{
    let (mark, rest) = line.split_at(line.len().min(MARK_LEN));
    is_mark(mark) && begins_with_space_or_ends(rest)
}

/// The length of the word with which the line begins.
fn word_len(line: &[u8]) -> usize
    ensures len { result ≡ word_len line.now }
    ensures within { result ≤ length line.now }
{
    line.iter()
        .take_while(|byte| byte.is_ascii_alphabetic())
        .count()
}

/// Whether the line begins with a word and an opening brace.
fn is_lost_entry(line: &[u8]) -> bool
    ensures { result ≡ is_lost_entry line.now }
{
    let len = word_len(line);
    len > 0 && line.get(len) == Some(&b'{')
}

/// Whether the line is a closing brace, with no more than white space around it.
fn is_lone_brace(line: &[u8]) -> bool
    ensures { result ≡ is_lone_brace line.now }
{
    trimmed(line) == b"}".as_slice()
}

/// What a line looks like, in the text after a comment or in another text.
pub(crate) fn kind_of_line(commented: bool, line: &[u8]) -> Option<StrayKind>
    ensures { result ≡ kind_of_line commented line.now }
{
    if is_marker(line) {
        return Some(StrayKind::ConflictMarker);
    }
    if commented {
        return None;
    }
    if is_lost_entry(line) {
        return Some(StrayKind::LostEntry);
    }
    if is_lone_brace(line) {
        return Some(StrayKind::LoneBrace);
    }
    None
}

/// The part of the line that shows what it looks like.
pub(crate) fn shown(kind: StrayKind, line: &[u8]) -> &[u8]
    ensures { result.now ≡ shown kind line.now }
{
    match kind {
        StrayKind::ConflictMarker => line.split_at(line.len().min(MARK_LEN)).0,
        StrayKind::LostEntry => line.split_at(word_len(line)).0,
        StrayKind::LoneBrace => trimmed(line),
    }
}

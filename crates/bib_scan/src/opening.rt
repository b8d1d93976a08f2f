//! Finding the at-signs that begin items.

ghost use Rattle.std.specs.Prelude.{◌≡◌, ◌↔◌, ◌≤◌, IsTrue, length};
ghost use Rattle.bib_spec.specs.Text.{is_type_byte, does_not_begin_with};
ghost use Rattle.bib_spec.specs.Clean.{begins_command, opens_body, IsClean, IsCleanTrail};
ghost use Rattle.bib_scan.specs.LeftToRight.{next_command, delimiter_of};
ghost use Rattle.bib_spec.specs.Tree.{close_byte};
ghost use Rattle.bib_scan.specs.DelimiterView.{delimiter_view};

use crate::class::is_type_byte;
use crate::spans::{past_space, split_type_name, text_from};
use crate::text::are_type_name;
use bib_text::same_folded;
use memchr::memchr;

/// `{` with `}`, or `(` with `)`.
#[derive(Clone, Copy, PartialEq, Eq)]
pub(crate) enum Delimiter {
    Brace,
    Paren,
}

impl Delimiter {
    /// The delimiter with this opening byte.
    pub fn of(byte: u8) -> Self
        ensures { delimiter_view result ≡ delimiter_of byte }
    {
        if byte == b'{' {
            Delimiter::Brace
        } else {
            Delimiter::Paren
        }
    }

    /// The delimiter's closing byte.
    pub fn close(self) -> u8
        ensures { result ≡ close_byte (delimiter_view self) }
    {
        match self {
            Delimiter::Brace => b'}',
            Delimiter::Paren => b')',
        }
    }
}

/// Whether the text begins with an opening delimiter.
fn opens_body(text: &[u8]) -> bool
    ensures { result ≡ opens_body text.now }
{
    match text {
        [first, ..] => *first == b'{' || *first == b'(',
        [] => false,
    }
}

/// Whether a command begins at the front of the text.
#[tactic(auto, using(crate::proofs::TypeNames::type_front), unfolding(bib_spec::specs::Clean::begins_command))]
fn begins_command(text: &[u8]) -> bool
    ensures { result ≡ begins_command text.now }
{
    match text {
        [first, after @ ..] => {
            let (type_name, rest) = split_type_name(past_space(after));
            *first == b'@'
                && are_type_name(type_name)
                && (opens_body(past_space(rest)) || same_folded(type_name, b"comment"))
        }
        [] => false,
    }
}

/// The number of bytes before the next command; without one, the length of the text.
pub(crate) fn next_command(text: &[u8]) -> usize
    ensures read { result ≡ next_command text.now }
    ensures within { result ≤ length text.now }
{
    let mut at = 0;
    while let Some(found) = memchr(b'@', text_from(text, at)) {
        let place = at + found;
        if begins_command(text_from(text, place)) {
            return place;
        }
        at = place + 1;
    }
    text.len()
}

/// Whether the text does not begin with a byte of a type name.
fn begins_without_type_byte(text: &[u8]) -> bool
    ensures { result ≡ does_not_begin_with is_type_byte text.now }
{
    match text {
        [first, ..] => !is_type_byte(*first),
        [] => true,
    }
}

/// Whether no command begins in the text.
fn is_clean(text: &[u8]) -> bool
    ensures { IsTrue result ↔ IsClean text.now }
{
    next_command(text) == text.len()
}

/// Whether the text may follow an item's body: no command begins in it, and after a comment it does not begin with a byte
/// that would lengthen the comment's type name. (dialect)
pub fn is_clean_trail(after_comment: bool, bytes: &[u8]) -> bool
    ensures { IsTrue result ↔ IsCleanTrail after_comment bytes.now }
{
    is_clean(bytes) && (!after_comment || begins_without_type_byte(bytes))
}

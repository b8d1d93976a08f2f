//! The letters of BibTeX, and groups in braces.

ghost use Rattle.std.specs.Prelude.{◌≡◌, ◌≤◌, ◌<◌, length};
ghost use Rattle.bib_names.specs.Special.{is_opening};
ghost use Rattle.bibtex_names.specs.Letters.{is_letter, begins_group, group_len, group_inside, after_group};

use crate::braces::Braces;

/// Whether BibTeX takes the byte for a letter.
pub(crate) fn is_letter(byte: u8) -> bool
    ensures { result ≡ is_letter byte }
{
    byte.is_ascii_alphabetic() || byte >= 0x80
}

/// Whether an opening brace is at the front, and a backslash after it.
pub(crate) fn opens_special(text: &[u8]) -> bool
    requires { 0 < length text.now }
    ensures { result ≡ is_opening text.now 0 }
{
    text[0] == b'{' && text.len() > 1 && text[1] == b'\\'
}

/// Whether an opening brace is at the front.
pub(crate) fn begins_group(text: &[u8]) -> bool
    ensures { result ≡ begins_group text.now }
{
    match text {
        [first, ..] => *first == b'{',
        [] => false,
    }
}

/// How many bytes the group at the front has; all bytes if it is not closed.
pub(crate) fn group_len(text: &[u8]) -> usize
    requires { 0 < length text.now }
    ensures len { result ≡ group_len text.now }
    ensures within { result ≤ length text.now }
    ensures some { 0 < result }
{
    let mut braces = Braces::none();
    for last in 0..text.len() {
        braces = braces.and(text[last]);
        if braces.are_level() {
            return last + 1;
        }
    }
    text.len()
}

/// What is in the group at the front, and the text after the group.
pub(crate) fn split_group(text: &[u8]) -> (&[u8], &[u8])
    requires { 0 < length text.now }
    ensures inside { result.0.now ≡ group_inside text.now }
    ensures after { result.1.now ≡ after_group text.now }
{
    let len = group_len(text);
    let inside = text.split_at(1).1.split_at(len.saturating_sub(2)).0;
    (inside, text.split_at(len).1)
}

//! Runs of bytes of one class at the front of a text.

ghost use Rattle.std.specs.Prelude.{◌≡◌, ◌≤◌, length, drop};
ghost use Rattle.std.specs.List.{prefix_len, take_while};
ghost use Rattle.std.specs.Char.{is_ascii_digit};
ghost use Rattle.bib_spec.specs.Text.{is_space, is_name_byte, is_type_byte};

use crate::class::{is_name_byte, is_space, is_type_byte};

/// The text after its first n bytes.
#[inline(always)]
pub(crate) fn text_from(text: &[u8], n: usize) -> &[u8]
    requires { n ≤ length text.now }
    ensures { result.now ≡ drop n text.now }
{
    text.split_at(n).1
}

/// The number of bytes of white space at the front of the text.
#[inline(always)]
fn space_len(text: &[u8]) -> usize
    ensures len { result ≡ prefix_len is_space text.now }
    ensures within { result ≤ length text.now }
{
    text.iter().take_while(|b| is_space(**b)).count()
}

/// The text after the white space at its front.
#[inline(always)]
pub(crate) fn past_space(text: &[u8]) -> &[u8]
    ensures rest { result.now ≡ drop (prefix_len is_space text.now) text.now }
    ensures within { length result.now ≤ length text.now }
{
    text_from(text, space_len(text))
}

/// The number of name bytes at the front of the text.
#[inline(always)]
pub(crate) fn name_len(text: &[u8]) -> usize
    ensures len { result ≡ prefix_len is_name_byte text.now }
    ensures within { result ≤ length text.now }
{
    text.iter().take_while(|b| is_name_byte(**b)).count()
}

/// The number of digits at the front of the text.
pub(crate) fn digits_len(text: &[u8]) -> usize
    ensures len { result ≡ prefix_len is_ascii_digit text.now }
    ensures within { result ≤ length text.now }
{
    text.iter().take_while(|b| b.is_ascii_digit()).count()
}

/// The number of bytes of a type name at the front of the text.
fn type_name_len(text: &[u8]) -> usize
    ensures len { result ≡ prefix_len is_type_byte text.now }
    ensures within { result ≤ length text.now }
{
    text.iter().take_while(|b| is_type_byte(**b)).count()
}

/// The type name at the front of the text, and the text after it.
pub(crate) fn split_type_name(text: &[u8]) -> (&[u8], &[u8])
    ensures front { result.0.now ≡ take_while is_type_byte text.now }
    ensures rest { result.1.now ≡ drop (prefix_len is_type_byte text.now) text.now }
{
    text.split_at(type_name_len(text))
}

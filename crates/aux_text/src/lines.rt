//! The lines of an aux file, and the words in them.

ghost use Rattle.std.specs.Prelude.{◌≡◌, ◌≤◌, ◌==◌, length, map, IfOk};
ghost use Rattle.std.specs.List.{list_all, prefix_len, slice_split, take_while};
ghost use Rattle.std.specs.Option.{option_copied};
ghost use Rattle.bib_spec.specs.Bytes.{line_feed, comma};
ghost use Rattle.bib_spec.specs.Text.{is_space, after_run};
ghost use Rattle.aux_text.specs.Citations.{is_argument_byte, ends_line, text_after, argument_in, argument};

use bib_text::is_space;
use std::alloc::{AllocError, Global};

/// The lines of a text.
pub(crate) fn lines_of(alloc: Global, text: &[u8]) -> Result<Vec<&[u8]>, AllocError>
    ensures { IfOk result (λ lines. map (λ line. line.now) lines.items ≡ slice_split (λ b. b == line_feed) text.now) }
{
    text.split(|b| *b == b'\n').collect(alloc)
}

/// The parts of a text between commas.
pub(crate) fn parts_of(alloc: Global, text: &[u8]) -> Result<Vec<&[u8]>, AllocError>
    ensures { IfOk result (λ parts. map (λ part. part.now) parts.items ≡ slice_split (λ b. b == comma) text.now) }
{
    text.split(|b| *b == b',').collect(alloc)
}

/// Whether the byte may be in the argument of a line that counts: it is neither white space nor a brace.
fn is_argument_byte(byte: u8) -> bool
    ensures { result ≡ is_argument_byte byte }
{
    !(is_space(byte) || (byte == b'{' || byte == b'}'))
}

/// How many bytes at the front of the text may be in an argument.
fn argument_len(text: &[u8]) -> usize
    ensures len { result ≡ prefix_len is_argument_byte text.now }
    ensures within { result ≤ length text.now }
{
    text.iter().take_while(|b| is_argument_byte(**b)).count()
}

/// The bytes at the front of the text that may be in an argument, and the text after them.
fn split_argument(text: &[u8]) -> (&[u8], &[u8])
    ensures front { result.0.now ≡ take_while is_argument_byte text.now }
    ensures rest { result.1.now ≡ after_run is_argument_byte text.now }
{
    text.split_at(argument_len(text))
}

/// Whether the text is white space alone.
fn is_blank(text: &[u8]) -> bool
    ensures { result ≡ list_all is_space text.now }
{
    text.iter().all(|b| is_space(*b))
}

/// Whether the text is a closing brace, and after it white space alone.
fn ends_line(text: &[u8]) -> bool
    ensures { result ≡ ends_line text.now }
{
    match text {
        [first, rest @ ..] => *first == b'}' && is_blank(rest),
        [] => false,
    }
}

/// The argument that the text begins with, if the line ends after it.
fn argument_in(text: &[u8]) -> Option<&[u8]>
    ensures { option_copied result ≡ argument_in text.now }
{
    let (argument, rest) = split_argument(text);
    if ends_line(rest) {
        Some(argument)
    } else {
        None
    }
}

/// The text after this beginning, if the text begins so.
fn text_after<'a>(start: &[u8], text: &'a [u8]) -> Option<&'a [u8]>
    ensures { option_copied result ≡ text_after start.now text.now }
{
    text.strip_prefix(start)
}

/// The argument of a line that, whole, is this beginning, an argument and a closing brace.
pub(crate) fn argument<'a>(start: &[u8], line: &'a [u8]) -> Option<&'a [u8]>
    ensures { option_copied result ≡ argument start.now line.now }
{
    argument_in(text_after(start, line)?)
}

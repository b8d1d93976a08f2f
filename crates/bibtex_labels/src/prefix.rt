//! The first text characters of a text.

ghost use Rattle.std.specs.Prelude.{◌≡◌, nat_lt, IfOk};
ghost use Rattle.bibtex_labels.specs.Pieces.{depth_from, pieces, joined, front_pieces, closed, text_length, text_prefix};

use crate::pieces::{Pieces, depth_after, is_character};
use bib_text::{Seq, Text};
use std::alloc::{AllocError, Global};

/// Whether a text has fewer than two text characters.
pub fn is_one_character(text: &[u8]) -> bool
    ensures { result ≡ nat_lt (text_length text.now) 2 }
{
    let mut pieces = Pieces::of(text);
    let mut count = 0_usize;
    while let Some((piece, rest)) = pieces.next() {
        if is_character(piece) {
            count += 1;
            if count == 2 {
                return false;
            }
        }
        pieces = rest;
    }
    true
}

/// The pieces up to the text character of this number.
fn front(alloc: Global, count: usize, text: &[u8]) -> Result<Vec<u8>, AllocError>
    ensures { IfOk result (λ t. t.items ≡ joined (front_pieces count (pieces text.now))) }
{
    let mut out = Vec::new(alloc);
    let mut pieces = Pieces::of(text);
    let mut left = count;
    while left > 0 {
        let Some((piece, rest)) = pieces.next() else {
            return Ok(out);
        };
        out.extend_from_slice(piece)?;
        if is_character(piece) {
            left -= 1;
        }
        pieces = rest;
    }
    Ok(out)
}

/// How many braces are open at the end of a text.
fn open_braces(text: &[u8]) -> usize
    ensures { result ≡ depth_from 0 text.now }
{
    let mut depth = 0;
    for byte in text {
        depth = depth_after(depth, *byte);
    }
    depth
}

/// The text, and a brace for each that is open at its end.
fn closed(text: Vec<u8>) -> Result<Vec<u8>, AllocError>
    ensures { IfOk result (λ t. t.items ≡ closed text.items) }
{
    let depth = open_braces(text.as_slice());
    let mut text = text;
    for _ in 0..depth {
        text.push(b'}')?;
    }
    Ok(text)
}

/// The first text characters of a text, so many of them, with the braces before them, which are closed: `text.prefix$`.
/// It takes time in the bytes up to there, and memory for these. (bibtex 443, 444)
pub fn text_prefix(alloc: Global, count: usize, text: &[u8]) -> Result<Text, AllocError>
    ensures { IfOk result (λ t. t ≡ text_prefix count text.now) }
{
    Ok(Seq::from_vec(closed(front(alloc, count, text)?)?))
}

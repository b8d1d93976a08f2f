//! Keywords, both ways.

ghost use Rattle.std.specs.Prelude.{◌≡◌, ◌++◌, OnOk, IfOk, map, filter};
ghost use Rattle.std.specs.List.{flat_map};
ghost use Rattle.ris_format.specs.Lines.{has_bytes, line};
ghost use Rattle.ris_format.specs.Keywords.{is_comma_byte, keyword_pieces, written_keywords, are_plain_keywords};
ghost use Rattle.ris_format.specs.Carried.{is_of_keyword, has_keyword};

use crate::keeping::Kept;
use crate::kinds::is;
use crate::text::{has_bytes, join, piece_between};
use bib_text::is_space;
use std::alloc::{AllocError, Global};

/// Whether keywords are cut at this byte.
fn is_cut(byte: u8) -> bool
    ensures { result ≡ is_comma_byte byte }
{
    byte == b','
}

/// The texts between the commas, without white space at their ends.
fn keyword_pieces(alloc: Global, text: &[u8]) -> Result<Vec<&[u8]>, AllocError>
    ensures { IfOk result (λ pieces. map (λ p. p.now) pieces.items ≡ keyword_pieces text.now) }
{
    let mut pieces = Vec::new(alloc);
    let mut start = 0;
    for (place, &byte) in text.iter().enumerate() {
        if is_cut(byte) {
            pieces.push(piece_between(text, start, place))?;
            start = place + 1;
        }
    }
    pieces.push(piece_between(text, start, text.len()))?;
    Ok(pieces)
}

/// The pieces that are not empty.
fn filled<'a>(alloc: Global, pieces: &[&'a [u8]]) -> Result<Vec<&'a [u8]>, AllocError>
    ensures { IfOk result (λ words. map (λ w. w.now) words.items ≡ filter has_bytes (map (λ p. p.now) pieces.now)) }
{
    let mut words = Vec::new(alloc);
    for piece in pieces {
        if has_bytes(piece) {
            words.push(*piece)?;
        }
    }
    Ok(words)
}

/// The keywords of a text.
fn keywords(alloc: Global, text: &[u8]) -> Result<Vec<&[u8]>, AllocError>
    ensures { IfOk result (λ words. map (λ w. w.now) words.items ≡ written_keywords text.now) }
{
    filled(alloc, keyword_pieces(alloc, text)?.as_slice())
}

/// Whether the byte belongs to a keyword: it is no comma, and no white space.
fn is_of_keyword(byte: u8) -> bool
    ensures { result ≡ is_of_keyword byte }
{
    !is_cut(byte) && !is_space(byte)
}

/// Whether the text has a keyword. It takes no memory.
pub(crate) fn has_keyword(text: &[u8]) -> bool
    ensures { result ≡ has_keyword text.now }
{
    text.iter().any(|byte| is_of_keyword(*byte))
}

/// Adds a line for each keyword.
pub(crate) fn push_keywords<T: Kept>(
    alloc: Global,
    lines: &mut Vec<T>,
    tag: [u8; 2],
    text: &[u8],
) -> Result<(), AllocError>
    ensures { OnOk result (lines.new.items ≡ lines.old.items ++ flat_map T.kept (map (line tag) (written_keywords text.now))) }
{
    let words = keywords(alloc, text)?;
    for word in words.as_slice() {
        push_word(alloc, lines, tag, word)?;
    }
    Ok(())
}

/// Adds a line for the keyword.
fn push_word<T: Kept>(
    alloc: Global,
    lines: &mut Vec<T>,
    tag: [u8; 2],
    word: &[u8],
) -> Result<(), AllocError>
    ensures { OnOk result (lines.new.items ≡ lines.old.items ++ T.kept (line tag word.now)) }
{
    T::keep(alloc, lines, tag, word)
}

/// Whether the text is its keywords, joined by a comma and a space.
pub(crate) fn are_plain_keywords(alloc: Global, text: &[u8]) -> Result<bool, AllocError>
    ensures { IfOk result (λ b. b ≡ are_plain_keywords text.now) }
{
    let words = keywords(alloc, text)?;
    let whole = join(alloc, b", ", words.as_slice())?;
    Ok(is(whole.as_slice(), text))
}

//! Words of a name.

ghost use Rattle.std.specs.Prelude.{◌≡◌, ◌<◌, ◌==◌, IfOk, length};
ghost use Rattle.bib_names.specs.Places.{is_level};
ghost use Rattle.bibtex_names.specs.Words.{is_gap, kept_separator, words_of};
ghost use Rattle.bibtex_names.specs.Name.{is_von, is_free};

use crate::braces::Braces;
use crate::case::is_lower;
use bib_text::is_space;
use std::alloc::{AllocError, Global};
use std::marker::Model;

/// A word of a name: the first byte of the separators before it, with white space and commas as a space; and its bytes. The first
/// word has a space as its separator, and so has the first after each comma that parts the name.
#[derive(Debug, Drop)]
pub struct Word<'a> {
    pub sep: u8,
    pub text: &'a [u8],
}

impl<'a> Model for Word<'a> {
    ghost use Rattle.bibtex_names.specs.Words.{NameWord};

    ghost Value = { NameWord };

    ghost view = { λ w. record { sep = w.sep; text = w.text.now } };
}

impl Word<'_> {
    /// Whether it is a von word, if it is not the final word.
    pub(crate) fn is_von(&self) -> bool
        ensures { result ≡ is_von self.now }
    {
        is_lower(self.text)
    }

    /// Whether no hyphen joins it to the word before it.
    pub(crate) fn is_free(&self) -> bool
        ensures { result ≡ is_free self.now }
    {
        self.sep != b'-'
    }
}

/// Whether a separator or a comma is at the place, at depth 0.
fn is_gap(piece: &[u8], place: usize, braces: Braces) -> bool
    requires within { place < length piece.now }
    requires braces { (braces.opened == braces.closed) ≡ is_level piece.now place }
    ensures { result ≡ is_gap piece.now place }
{
    let byte = piece[place];
    braces.are_level() && (is_space(byte) || byte == b'~' || byte == b'-' || byte == b',')
}

/// The separator as a word keeps it: white space and a comma as a space.
fn kept_separator(byte: u8) -> u8
    ensures { result ≡ kept_separator byte }
{
    if byte == b'-' || byte == b'~' {
        byte
    } else {
        b' '
    }
}

/// The words of a piece of a name.
pub(crate) fn words(alloc: Global, piece: &[u8]) -> Result<Vec<Word<'_>>, AllocError>
    ensures { IfOk result (λ words. words.items ≡ words_of piece.now) }
{
    let mut words = Vec::new(alloc);
    let mut start = 0;
    let mut sep = b' ';
    let mut braces = Braces::none();
    for (place, &byte) in piece.iter().enumerate() {
        if is_gap(piece, place, braces) {
            if start < place {
                words.push(Word {
                    sep,
                    text: &piece[start..place],
                })?;
                sep = kept_separator(byte);
            }
            start = place + 1;
        }
        braces = braces.and(byte);
    }
    if start < piece.len() {
        words.push(Word {
            sep,
            text: &piece[start..],
        })?;
    }
    Ok(words)
}

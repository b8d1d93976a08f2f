//! The pieces of a name between its commas.

ghost use Rattle.std.specs.Prelude.{◌≡◌, ◌<◌, ◌≤◌, ◌+◌, ◌==◌, [], Some, None, IfSome, IfNone, true, length, drop};
ghost use Rattle.std.specs.List.{slice_range};
ghost use Rattle.bib_names.specs.Places.{is_level, stretch};
ghost use Rattle.bib_names.specs.Words.{words_of};
ghost use Rattle.bib_names.specs.Name.{is_comma, with_commas, parts_of_bare};
ghost use Rattle.bib_names.specs.FirstComma.{commas_from, IsFirstComma};

use crate::braces::Braces;
use crate::word::{Word, words};
use std::alloc::{AllocError, Global};
use std::marker::Model;

/// A piece of a name: its place in the name, and its bytes.
#[derive(Drop)]
pub(crate) struct Piece<'a> {
    at: usize,
    text: &'a [u8],
}

impl<'a> Model for Piece<'a> {
    ghost use Rattle.std.specs.Prelude.{◌<◌, ◌+◌, ◌^◌, length};
    ghost use Rattle.bib_names.specs.Places.{Stretch, stretch};

    ghost Value = { Stretch };

    ghost view = { λ p. stretch p.at p.text.now };

    ghost invariant = { λ p. p.at + length p.text.now < 2 ^ 64 };
}

impl<'a> Piece<'a> {
    ghost use Rattle.std.specs.Prelude.{◌≡◌, IfOk};
    ghost use Rattle.bib_names.specs.Words.{words_of};

    /// The words of the piece.
    pub fn words(&self, alloc: Global) -> Result<Vec<Word<'a>>, AllocError>
        ensures { IfOk result (λ words. words.items ≡ words_of self.now) }
    {
        words(alloc, self.text, self.at)
    }
}

/// A piece of no bytes.
pub(crate) fn no_piece<'a>() -> Piece<'a>
    ensures { result ≡ stretch 0 [] }
{
    Piece { at: 0, text: b"" }
}

/// Whether a comma is at the place, at depth 0.
fn is_comma(text: &[u8], place: usize, braces: Braces) -> bool
    requires within { place < length text.now }
    requires braces { (braces.opened == braces.closed) ≡ is_level text.now place }
    ensures { result ≡ is_comma text.now place }
{
    braces.are_level() && text[place] == b','
}

/// The first comma at depth 0 from a place of depth 0 on.
pub(crate) fn comma_from(text: &[u8], start: usize) -> Option<usize>
    requires within { start ≤ length text.now }
    requires level { is_level text.now start ≡ true }
    ensures found { IfSome result (IsFirstComma text.now start) }
    ensures none { IfNone result (commas_from text.now start ≡ []) }
{
    let mut braces = Braces::none();
    for place in start..text.len() {
        if is_comma(text, place, braces) {
            return Some(place);
        }
        braces = braces.and(text[place]);
    }
    None
}

/// The piece after the comma at this place.
fn piece_after(bare: &[u8], comma: usize) -> Piece<'_>
    requires { comma < length bare.now }
    ensures { result ≡ stretch (comma + 1) (drop (comma + 1) bare.now) }
{
    Piece {
        at: comma + 1,
        text: bare.split_at(comma + 1).1,
    }
}

/// The pieces of Jr and of First, after the first comma, which is at this place; none if the name has more than two.
pub(crate) fn pieces_after(bare: &[u8], one: usize) -> Option<(Piece<'_>, Piece<'_>)>
    requires { IsFirstComma bare.now 0 one }
    ensures parts { IfSome result (λ pieces. parts_of_bare bare.now ≡ Some (with_commas (words_of (stretch 0 (slice_range bare.now 0 one))) (words_of pieces.0) (words_of pieces.1))) }
    ensures many { IfNone result (parts_of_bare bare.now ≡ None) }
{
    let Some(two) = comma_from(bare, one + 1) else {
        return Some((no_piece(), piece_after(bare, one)));
    };
    if comma_from(bare, two + 1).is_some() {
        return None;
    }
    let jr = Piece {
        at: one + 1,
        text: &bare[one + 1..two],
    };
    Some((jr, piece_after(bare, two)))
}

//! Positions in words.

ghost use Rattle.std.specs.Prelude.{◌≡◌, IfOk, option_map, bytes_eq};
ghost use Rattle.bib_data.specs.declared.position.Position.TheVariants.{Number};
ghost use Rattle.bib_script.specs.Script.{begins_with, number_of, position_of};

use crate::numbers::number_of;
use bib_data::Position;
use bib_text::copied;
use std::alloc::{AllocError, Global};

/// Whether the two are the same, byte for byte.
fn is(word: &[u8], other: &[u8]) -> bool
    ensures { result ≡ bytes_eq word.now other.now }
{
    word == other
}

/// Whether the text begins with this word.
fn begins_with(word: &[u8], text: &[u8]) -> bool
    ensures { result ≡ begins_with word.now text.now }
{
    text.starts_with(word)
}

/// Reads a position: a number of 1 to 9 digits, `end`, `before:KEY` or `after:KEY`. It takes memory for the key. (dialect)
#[tactic(auto, unfolding(crate::specs::Script::position_of))]
pub fn read_position(alloc: Global, word: &[u8]) -> Result<Option<Position>, AllocError>
    ensures { IfOk result (λ position. position ≡ position_of word.now) }
{
    if is(word, b"end") {
        Ok(Some(Position::End))
    } else if begins_with(b"before:", word) {
        Ok(Some(Position::Before(copied(alloc, &word[7..])?)))
    } else if begins_with(b"after:", word) {
        Ok(Some(Position::After(copied(alloc, &word[6..])?)))
    } else {
        Ok(number_position(word))
    }
}

/// The position before the item with the number that the word says.
fn number_position(word: &[u8]) -> Option<Position>
    ensures { result ≡ option_map Number (number_of word.now) }
{
    match number_of(word) {
        Some(number) => Some(Position::Number(number)),
        None => None,
    }
}

//! The initials of words.

ghost use Rattle.std.specs.Prelude.{◌≡◌};
ghost use Rattle.bib_names.specs.Printing.{gives_initial, initial_in, initial};

use crate::special::Chars;

/// Whether a text character gives an initial. (dialect)
fn gives_initial(character: &[u8]) -> bool
    ensures { result ≡ gives_initial character.now }
{
    match character {
        [first, ..] => *first == b'{' || first.is_ascii_alphabetic() || *first >= 0x80,
        [] => false,
    }
}

/// The initial that a text character gives: a letter alone, else the whole character. (dialect)
fn initial_in(character: &[u8]) -> &[u8]
    ensures { result.now ≡ initial_in character.now }
{
    if let [first, ..] = character {
        if first.is_ascii_alphabetic() {
            return character.split_at(1).0;
        }
    }
    character
}

/// The initial of a word, empty if it has none.
pub(crate) fn initial(word: &[u8]) -> &[u8]
    ensures { result.now ≡ initial word.now }
{
    let mut chars = Chars::of(word);
    while let Some((character, rest)) = chars.next() {
        if gives_initial(character) {
            return initial_in(character);
        }
        chars = rest;
    }
    b""
}

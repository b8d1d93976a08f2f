//! The case of a word.

ghost use Rattle.std.specs.Prelude.{◌≡◌, ◌≤◌, ◌<◌, ◌==◌, length};
ghost use Rattle.std.specs.List.{prefix_len};
ghost use Rattle.bib_names.specs.Case.{is_one_of, lower_sequences, upper_sequences, first_letter_is_lower, is_outer_letter};
ghost use Rattle.bib_names.specs.Places.{is_level};
ghost use Rattle.bibtex_names.specs.Case.{is_lower_special, is_lower};
ghost use Rattle.bibtex_names.specs.Letters.{is_letter};

use crate::braces::Braces;
use crate::letters::is_letter;
use crate::special::special_end;

/// How many letters the text begins with.
fn letters_len(text: &[u8]) -> usize
    ensures len { result ≡ prefix_len is_letter text.now }
    ensures within { result ≤ length text.now }
{
    text.iter().take_while(|b| is_letter(**b)).count()
}

/// Whether the control sequence is a lower-case letter.
fn is_lower_sequence(sequence: &[u8]) -> bool
    ensures { result ≡ is_one_of sequence.now lower_sequences }
{
    matches!(
        sequence,
        [b'i']
            | [b'j']
            | [b'o']
            | [b'l']
            | [b'o', b'e']
            | [b'a', b'e']
            | [b'a', b'a']
            | [b's', b's']
    )
}

/// Whether the control sequence is an upper-case letter.
fn is_upper_sequence(sequence: &[u8]) -> bool
    ensures { result ≡ is_one_of sequence.now upper_sequences }
{
    matches!(
        sequence,
        [b'O'] | [b'L'] | [b'O', b'E'] | [b'A', b'E'] | [b'A', b'A']
    )
}

/// Whether the first ASCII letter of the text is lower case.
fn first_letter_is_lower(text: &[u8]) -> bool
    ensures { result ≡ first_letter_is_lower text.now }
{
    for letter in text {
        if letter.is_ascii_alphabetic() {
            return letter.is_ascii_lowercase();
        }
    }
    false
}

/// Whether a special character is lower case, given the text between its backslash and its last brace.
fn is_lower_special(inside: &[u8]) -> bool
    ensures { result ≡ is_lower_special inside.now }
{
    let (sequence, rest) = inside.split_at(letters_len(inside));
    is_lower_sequence(sequence) || (!is_upper_sequence(sequence) && first_letter_is_lower(rest))
}

/// Whether an ASCII letter is at the place, at depth 0.
fn is_outer_letter(word: &[u8], place: usize, braces: Braces) -> bool
    requires within { place < length word.now }
    requires braces { (braces.opened == braces.closed) ≡ is_level word.now place }
    ensures { result ≡ is_outer_letter word.now place }
{
    braces.are_level() && word[place].is_ascii_alphabetic()
}

/// Whether the case of a word is lower.
pub(crate) fn is_lower(word: &[u8]) -> bool
    ensures { result ≡ is_lower word.now }
{
    let mut braces = Braces::none();
    for (place, &byte) in word.iter().enumerate() {
        if let Some(end) = special_end(word, place, braces) {
            return is_lower_special(&word[place + 2..end - 1]);
        }
        if is_outer_letter(word, place, braces) {
            return byte.is_ascii_lowercase();
        }
        braces = braces.and(byte);
    }
    false
}

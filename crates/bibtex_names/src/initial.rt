//! The initials of words.

ghost use Rattle.std.specs.Prelude.{◌≡◌};
ghost use Rattle.bibtex_names.specs.Printing.{initial};

use crate::letters::{group_len, is_letter, opens_special};

/// The initial of a word, empty if it has none.
pub(crate) fn initial(word: &[u8]) -> &[u8]
    ensures { result.now ≡ initial word.now }
{
    for (place, &byte) in word.iter().enumerate() {
        let rest = word.split_at(place).1;
        if is_letter(byte) {
            return rest.split_at(1).0;
        }
        if opens_special(rest) {
            return rest.split_at(group_len(rest)).0;
        }
    }
    b""
}

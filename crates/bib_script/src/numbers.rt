//! Numbers in scripts.

ghost use Rattle.std.specs.Prelude.{◌≡◌};
ghost use Rattle.bib_script.specs.Script.{number_of};

/// The number that 1 to 9 digits say.
pub(crate) fn number_of(word: &[u8]) -> Option<usize>
    ensures { result ≡ number_of word.now }
{
    if word.is_empty() || word.len() > 9 {
        return None;
    }
    let mut number: usize = 0;
    'read: for digit in word {
        if !digit.is_ascii_digit() {
            return None;
        }
        number = number * 10 + (*digit - b'0') as usize;
    }
    Some(number)
}

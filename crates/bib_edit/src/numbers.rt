//! Names with a number: which of several is meant.

ghost use Rattle.std.specs.Prelude.{◌≡◌, ◌≤◌, ◌+◌, ◌==◌, ◌||◌, not, length, drop};
ghost use Rattle.bib_spec.specs.Text.{does_not_begin_with};
ghost use Rattle.bib_edit.specs.Numbers.{number_said, name_len, is_numbered, which_of, which_seen};

/// Which is meant of those that have the same name: the one with this number among them, from 0, in file order. If there is no
/// number, there must be only one.
#[derive(Clone, Copy)]
pub(crate) struct Which<'a> {
    pub(crate) name: &'a [u8],
    pub(crate) number: Option<usize>,
}

/// Whether the first digit is 0.
fn begins_with_zero(digits: &[u8]) -> bool
    ensures { result ≡ not (does_not_begin_with (λ b. b == 48) digits.now) }
{
    match digits {
        [b'0', ..] => true,
        _ => false,
    }
}

/// The number that 1 to 9 digits say, of which the first is not 0.
fn number_said(digits: &[u8]) -> Option<usize>
    ensures { result ≡ number_said digits.now }
{
    if digits.is_empty() || digits.len() > 9 || begins_with_zero(digits) {
        return None;
    }
    let mut number: usize = 0;
    'read: for digit in digits {
        if !digit.is_ascii_digit() {
            return None;
        }
        number = number * 10 + (*digit - b'0') as usize;
    }
    Some(number)
}

/// How many bytes come before the first comma.
fn name_len(text: &[u8]) -> usize
    ensures len { result ≡ name_len text.now }
    ensures within { result ≤ length text.now }
{
    text.iter().take_while(|byte| **byte != b',').count()
}

/// The number after the first comma, if there is one.
fn number_in(text: &[u8], at: usize) -> Option<usize>
    requires { at ≡ name_len text.now }
    ensures { result ≡ number_said (drop (at + 1) text.now) }
{
    if at < text.len() {
        number_said(text.split_at(at + 1).1)
    } else {
        None
    }
}

/// Which is meant: `b,2` means the second of those that have the name `b`, and a text without such a number the only one that has
/// that name.
pub(crate) fn which_of(text: &[u8]) -> Which<'_>
    ensures { which_seen result ≡ which_of text.now }
{
    let at = name_len(text);
    match number_in(text, at) {
        Some(number) => Which {
            name: text.split_at(at).0,
            number: Some(number.saturating_sub(1)),
        },
        None => Which {
            name: text,
            number: None,
        },
    }
}

/// Whether the text is a name with a number.
pub(crate) fn is_numbered(text: &[u8]) -> bool
    ensures { result ≡ is_numbered text.now }
{
    number_in(text, name_len(text)).is_some()
}

/// Whether one of the two texts is a name with a number.
pub(crate) fn is_either_numbered(one: &[u8], other: &[u8]) -> bool
    ensures { result ≡ (is_numbered one.now || is_numbered other.now) }
{
    is_numbered(one) || is_numbered(other)
}

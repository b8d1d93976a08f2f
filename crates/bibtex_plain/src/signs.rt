//! The at-signs of one text.

ghost use Rattle.std.specs.Prelude.{◌≡◌, ◌+◌, ◌++◌, ◌<◌, ◌≤◌, ◌^◌, List, ℕ, false, length, drop};
ghost use Rattle.bibtex_spec.specs.Plain.{at_signs_in};
ghost use Rattle.bibtex_plain.specs.Walking.{Follows, IsLastFrom, IsNextSign, GoesOn};

use crate::names::is_misnamed;
use memchr::memchr;

/// The text after its first n bytes.
fn text_from(text: &[u8], n: usize) -> &[u8]
    requires { n ≤ length text.now }
    ensures { result.now ≡ drop n text.now }
{
    text.split_at(n).1
}

/// The first at-sign of the text from this place on.
pub(crate) fn next_sign(text: &[u8], from: usize) -> Option<usize>
    requires { from ≤ length text.now }
    ensures { IsNextSign text.now from result }
{
    match memchr(b'@', text_from(text, from)) {
        Some(found) => Some(from + found),
        None => None,
    }
}

/// The place of the first at-sign of a front or a trail for which the file is not plain; or else whether what BibTeX read last ends
/// in the last line, which begins at `last`. The text begins at the place `at` of the file, and after it an item follows, or the
/// file ends. `is_over` says whether what was read before the text ends in the last line. It takes time in the length of the
/// text.
pub(crate) fn gap_breach(
    text: &[u8],
    at: usize,
    last: usize,
    is_followed: bool,
    is_over: bool,
) -> Result<bool, usize>
    requires { at + length text.now < 2 ^ 64 }
    ensures { (more : List ℕ) → Follows is_followed more → IsLastFrom last at (text.now ++ more) → GoesOn is_over (at_signs_in false at text.now more) result }
{
    let mut over = is_over;
    let mut from = 0;
    'signs: while let Some(sign) = next_sign(text, from) {
        from = sign + 1;
        if over || is_misnamed(text_from(text, from), is_followed) {
            return Err(at + sign);
        }
        over = last <= at + from;
    }
    Ok(over)
}

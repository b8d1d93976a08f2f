//! Quick tests that spare reading an entry's rows.

ghost use Rattle.std.specs.Prelude.{◌≡◌, ◌*◌, ◌<◌, ◌≤◌, true, false, max};
ghost use Rattle.bib_spec.specs.Texts.{raw_limit};
ghost use Rattle.bib_spec.specs.Records.{crossref};
ghost use Rattle.bib_items.specs.Glancing.{LacksWord};

use bib_items::lacks_word;
use bib_value::RAW_LIMIT;

/// Whether `crossref` is nowhere in the text, in any case. It takes time in the length of the text, and no memory.
pub(crate) fn lacks_crossref(text: &[u8]) -> bool
    ensures { result ≡ true → LacksWord text.now crossref }
{
    // the word ends in an f, which is rare
    lacks_word(text, b"crossref", 7)
}

/// Whether values of `len` bytes say no text that is too long, if no macro stands for more than `longest` bytes.
pub(crate) fn are_short(len: usize, longest: usize) -> bool
    ensures short { result ≡ true → len * max longest 1 ≤ raw_limit }
    ensures long { result ≡ false → raw_limit < len * max longest 1 }
{
    match len.checked_mul(longest.max(1)) {
        Some(most) => most <= RAW_LIMIT as usize,
        None => false,
    }
}

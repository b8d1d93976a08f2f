//! The name that BibTeX reads after an at-sign.

ghost use Rattle.std.specs.Prelude.{◌≡◌, ◌≤◌, ◌||◌, ◌&&◌, ◌++◌, List, ℕ, length, nat_lt};
ghost use Rattle.std.specs.List.{prefix_len, take_while, list_any};
ghost use Rattle.bib_spec.specs.Bytes.{name_limit};
ghost use Rattle.bib_spec.specs.Text.{is_space, is_name_byte, after_run};
ghost use Rattle.bib_spec.specs.Texts.{is_empty};
ghost use Rattle.bibtex_spec.specs.Plain.{is_run_byte, is_foreign, is_misnamed};
ghost use Rattle.bibtex_plain.specs.Walking.{Follows, begins_foreign};

use bib_text::{NAME_LIMIT, is_space};

/// Whether a name may have this byte. (dialect)
#[tactic(auto, unfolding(bib_spec::specs::Text::is_name_byte))]
fn is_name_byte(byte: u8) -> bool
    ensures { result ≡ is_name_byte byte }
{
    byte > b' '
        && !matches!(
            byte,
            0x7f | b'"' | b'#' | b'%' | b'\'' | b'(' | b')' | b',' | b'=' | b'{' | b'}'
        )
}

/// Whether BibTeX takes this byte into the name of a type. (bibtex 33)
fn is_run_byte(byte: u8) -> bool
    ensures { result ≡ is_run_byte byte }
{
    is_name_byte(byte) || byte == 0x7f
}

/// Whether BibTeX takes this byte into the name of a type, and the dialect does not.
fn is_foreign(byte: u8) -> bool
    ensures { result ≡ is_foreign byte }
{
    byte == b'@' || byte == 0x7f
}

/// The number of bytes of white space at the front of the text.
fn space_len(text: &[u8]) -> usize
    ensures len { result ≡ prefix_len is_space text.now }
    ensures within { result ≤ length text.now }
{
    text.iter().take_while(|b| is_space(**b)).count()
}

/// The text after the white space at its front.
fn past_space(text: &[u8]) -> &[u8]
    ensures { result.now ≡ after_run is_space text.now }
{
    text.split_at(space_len(text)).1
}

/// The number of bytes at the front of the text that BibTeX takes into a name.
fn run_len(text: &[u8]) -> usize
    ensures len { result ≡ prefix_len is_run_byte text.now }
    ensures within { result ≤ length text.now }
{
    text.iter().take_while(|b| is_run_byte(**b)).count()
}

/// The name that BibTeX reads at the front of the text, and the text after it.
fn split_run(text: &[u8]) -> (&[u8], &[u8])
    ensures front { result.0.now ≡ take_while is_run_byte text.now }
    ensures rest { result.1.now ≡ after_run is_run_byte text.now }
{
    text.split_at(run_len(text))
}

/// Whether a name has a byte that no name of the dialect has.
fn has_foreign(name: &[u8]) -> bool
    ensures { result ≡ list_any is_foreign name.now }
{
    name.iter().any(|b| is_foreign(*b))
}

/// Whether a name that BibTeX reads is none of the dialect.
fn is_foreign_name(name: &[u8]) -> bool
    ensures { result ≡ (list_any is_foreign name.now || nat_lt name_limit (length name.now)) }
{
    has_foreign(name) || name.len() > NAME_LIMIT
}

/// Whether a name goes on after the text that was read: nothing of the text is left, and an item follows.
fn goes_on(rest: &[u8], is_followed: bool) -> bool
    ensures { result ≡ (is_followed && is_empty rest.now) }
{
    is_followed && rest.is_empty()
}

/// Whether the name that BibTeX reads after an at-sign of text is none of the dialect. After this text an item follows, or the
/// file ends: a name that goes on up to an item has the at-sign of the item. It takes time in the length of the white space and
/// the name.
pub(crate) fn is_misnamed(after: &[u8], is_followed: bool) -> bool
    ensures { (more : List ℕ) → Follows is_followed more → result ≡ is_misnamed (after.now ++ more) }
{
    let (name, rest) = split_run(past_space(after));
    if goes_on(rest, is_followed) {
        return true;
    }
    is_foreign_name(name)
}

/// Whether the text goes on a name with a byte that no name of the dialect has. After the text an item follows, or the file
/// ends.
pub(crate) fn begins_foreign(text: &[u8], is_followed: bool) -> bool
    ensures { (more : List ℕ) → Follows is_followed more → result ≡ begins_foreign (text.now ++ more) }
{
    match text {
        [first, ..] => is_foreign(*first),
        [] => is_followed,
    }
}

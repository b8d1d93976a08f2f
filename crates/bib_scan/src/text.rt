//! Tests on texts.

ghost use Rattle.std.specs.Prelude.{◌≡◌, ◌↔◌, true, IsTrue};
ghost use Rattle.std.specs.List.{list_all};
ghost use Rattle.std.specs.Char.{is_ascii_digit};
ghost use Rattle.bib_spec.specs.Text.{is_name_byte, is_type_byte, is_new_key_byte, is_name, is_new_key, does_not_begin_with, IsBalanced};
ghost use Rattle.bib_spec.specs.Tree.{is_no_keyword, is_type};

use crate::class::{is_name_byte, is_new_key_byte, is_type_byte};
use bib_text::{NAME_LIMIT, same_folded};

/// Whether a name may have each of these bytes.
fn all_name_bytes(bytes: &[u8]) -> bool
    ensures { result ≡ list_all is_name_byte bytes.now }
{
    bytes.iter().all(|b| is_name_byte(*b))
}

/// Whether the text does not begin with a digit.
fn begins_with_no_digit(bytes: &[u8]) -> bool
    ensures { result ≡ does_not_begin_with is_ascii_digit bytes.now }
{
    match bytes {
        [first, ..] => !first.is_ascii_digit(),
        [] => true,
    }
}

/// Whether the text is the name of a field or macro: 1 to 255 bytes above the space, none of them
/// DEL or one of `"#%'(),={}`, and the first no digit. (dialect)
#[tactic(auto, unfolding(bib_spec::specs::Text::is_name_within))]
pub fn is_name(bytes: &[u8]) -> bool
    ensures { result ≡ is_name bytes.now }
{
    !bytes.is_empty()
        && bytes.len() <= NAME_LIMIT
        && begins_with_no_digit(bytes)
        && all_name_bytes(bytes)
}

/// Whether a text of type-name bytes is a name.
#[tactic(auto, using(crate::proofs::TypeNames::are_name_bytes), unfolding(bib_spec::specs::Text::is_name_within))]
pub(crate) fn are_type_name(bytes: &[u8]) -> bool
    requires { list_all is_type_byte bytes.now ≡ true }
    ensures { result ≡ is_name bytes.now }
{
    !bytes.is_empty() && bytes.len() <= NAME_LIMIT && begins_with_no_digit(bytes)
}

/// Whether a type name may have each of these bytes.
fn all_type_bytes(text: &[u8]) -> bool
    ensures { result ≡ list_all is_type_byte text.now }
{
    text.iter().all(|b| is_type_byte(*b))
}

/// Whether a key that an edit writes may have each of these bytes.
fn all_new_key_bytes(text: &[u8]) -> bool
    ensures { result ≡ list_all is_new_key_byte text.now }
{
    text.iter().all(|b| is_new_key_byte(*b))
}

/// Whether the text is neither `comment` nor `string` nor `preamble`, the types that no entry has. (btxdoc 2.1)
fn is_no_keyword(text: &[u8]) -> bool
    ensures { result ≡ is_no_keyword text.now }
{
    !(same_folded(text, b"comment")
        || same_folded(text, b"string")
        || same_folded(text, b"preamble"))
}

/// Whether an entry may have this type: a name without an at-sign, and not `comment`, `string` or
/// `preamble`. (dialect)
pub fn is_type(bytes: &[u8]) -> bool
    ensures { result ≡ is_type bytes.now }
{
    is_name(bytes) && all_type_bytes(bytes) && is_no_keyword(bytes)
}

/// Whether an edit may write this key: 1 to 255 bytes above the space, and none of DEL, comma and braces.
/// Reading takes more. (dialect)
#[tactic(auto, unfolding(bib_spec::specs::Text::is_new_key))]
pub fn is_key(bytes: &[u8]) -> bool
    ensures { result ≡ is_new_key bytes.now }
{
    !bytes.is_empty() && bytes.len() <= NAME_LIMIT && all_new_key_bytes(bytes)
}

/// Whether the braces of the text match: no front of it closes more braces than it opens, and the whole text closes all. A
/// backslash does not escape a brace. (btxdoc 4; dialect)
pub fn is_balanced(bytes: &[u8]) -> bool
    ensures { IsTrue result ↔ IsBalanced bytes.now }
{
    let mut depth: usize = 0;
    for byte in bytes {
        if *byte == b'{' {
            depth += 1;
        } else if *byte == b'}' {
            if depth == 0 {
                return false;
            }
            depth -= 1;
        }
    }
    depth == 0
}

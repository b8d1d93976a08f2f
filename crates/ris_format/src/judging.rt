//! Lists of names judged: whether lines come from them. No name is taken apart.

ghost use Rattle.std.specs.Prelude.{◌≡◌, ◌||◌, IfOk, length, map};
ghost use Rattle.bib_names.specs.Marks.{is_dropped_at_end};
ghost use Rattle.bib_names.specs.Name.{commas, without_end};
ghost use Rattle.ris_format.specs.Lines.{has_bytes};
ghost use Rattle.ris_format.specs.People.{is_broken};
ghost use Rattle.ris_format.specs.Carried.{are_written_names, are_written_people};

use crate::braces::Braces;
use crate::people::{is_cut, listed_names};
use crate::text::{balances, has_bytes};
use bib_text::is_space;
use std::alloc::{AllocError, Global};

/// Whether the byte is dropped at the end of a name.
fn is_dropped_at_end(byte: u8) -> bool
    ensures { result ≡ is_dropped_at_end byte }
{
    is_space(byte) || byte == b'~' || byte == b'-' || byte == b','
}

/// The text of a name without the separators and commas at its end. It has a byte if the name has a word.
fn without_end(name: &[u8]) -> &[u8]
    ensures { result.now ≡ without_end name.now }
{
    let mut end = name.len();
    while end > 0 && is_dropped_at_end(name[end - 1]) {
        end -= 1;
    }
    &name[..end]
}

/// How many commas the text has at depth 0.
fn comma_count(text: &[u8]) -> usize
    ensures { result ≡ length (commas text.now) }
{
    let mut count = 0usize;
    let mut braces = Braces::none();
    for byte in text {
        if is_cut(braces, *byte) {
            count += 1;
        }
        braces = braces.and(*byte);
    }
    count
}

/// Whether the name is refused. `bare` is the name without its end.
fn is_broken(name: &[u8], bare: &[u8]) -> bool
    requires { bare.now ≡ without_end name.now }
    ensures { result ≡ is_broken name.now }
{
    !balances(name) || comma_count(bare) > 2
}

/// Whether the text has a byte, or one before it has.
fn has_bytes_yet(before: bool, text: &[u8]) -> bool
    ensures { result ≡ (before || has_bytes text.now) }
{
    before || has_bytes(text)
}

/// Whether none of these names is refused, and one has a word.
fn are_written_names(names: &[&[u8]]) -> bool
    ensures { result ≡ are_written_names (map (λ n. n.now) names.now) }
{
    let mut is_somebody = false;
    for name in names {
        let bare = without_end(name);
        if is_broken(name, bare) {
            return false;
        }
        is_somebody = has_bytes_yet(is_somebody, bare);
    }
    is_somebody
}

/// Whether a list has a name with a word, and neither the list nor a name of it is refused. It takes memory for the places
/// of the names alone.
pub(crate) fn are_written_people(alloc: Global, list: &[u8]) -> Result<bool, AllocError>
    ensures { IfOk result (λ b. b ≡ are_written_people list.now) }
{
    Ok(are_written_names(listed_names(alloc, list)?.as_slice()))
}

//! The names of a list.

ghost use Rattle.std.specs.Prelude.{◌≡◌, ◌↔◌, ◌<◌, ◌≤◌, ◌==◌, length, map, IfOk, IfErr, OnOk, Err};
ghost use Rattle.std.specs.List.{slice_range};
ghost use Rattle.bib_spec.specs.Text.{IsBalanced};
ghost use Rattle.bib_text.specs.Trimming.{trimmed};
ghost use Rattle.bib_names.specs.Places.{is_level};
ghost use Rattle.bib_names.specs.NameList.{is_and, is_cut, names_of};

use crate::braces::Braces;
use crate::fault::NameFault;
use crate::text::is_blank;
use bib_scan::is_balanced;
use bib_text::{Seq, is_space, same_folded, trimmed};
use std::alloc::{AllocError, Global};

/// Whether the word `and` is at the place, between white space.
#[tactic(auto, unfolding(bib_spec::specs::Text::is_space))]
fn is_and(text: &[u8], place: usize) -> bool
    requires { place < length text.now }
    ensures { result ≡ is_and text.now place }
{
    // most bytes are no such letter
    if text[place].to_ascii_lowercase() != b'a' {
        return false;
    }
    if place == 0 || text.len() - place <= 3 {
        return false;
    }
    is_space(text[place - 1])
        && same_folded(&text[place..place + 3], b"and")
        && is_space(text[place + 3])
}

/// Whether a list is cut at the place.
fn is_cut(text: &[u8], place: usize, braces: Braces) -> bool
    requires within { place < length text.now }
    requires braces { (braces.opened == braces.closed) ≡ is_level text.now place }
    ensures { result ≡ is_cut text.now place }
{
    braces.are_level() && is_and(text, place)
}

/// The name between two places.
fn name_between(text: &[u8], start: usize, end: usize) -> &[u8]
    requires ordered { start ≤ end }
    requires within { end ≤ length text.now }
    ensures { result.now ≡ trimmed (slice_range text.now start end) }
{
    trimmed(&text[start..end])
}

/// The names of a list whose braces balance.
pub(crate) fn names_of(alloc: Global, text: &[u8]) -> Result<Seq<&[u8]>, AllocError>
    ensures { IfOk result (λ names. map (λ n. n.now) names ≡ names_of text.now) }
{
    if is_blank(text) {
        return Ok(Seq::empty(alloc));
    }
    let mut names = Vec::new(alloc);
    let mut start = 0;
    let mut braces = Braces::none();
    for (place, &byte) in text.iter().enumerate() {
        if is_cut(text, place, braces) {
            names.push(name_between(text, start, place))?;
            start = place + 3;
        }
        braces = braces.and(byte);
    }
    names.push(name_between(text, start, text.len()))?;
    Ok(Seq::from_vec(names))
}

/// The names of a list, as slices of it in order. It is cut at each word `and`, in letters of either case, at depth 0
/// with white space on both sides (btxhak 5.3); two such words may share white space. Names have no white space at
/// their ends and may be empty. The time is linear in the list's length.
///
/// A list whose braces do not balance is refused as 22; else the one refusal is want of memory.
pub fn split_names(alloc: Global, text: &[u8]) -> Result<Seq<&[u8]>, NameFault>
    ensures names { IfOk result (λ names. map (λ n. n.now) names ≡ names_of text.now) }
    ensures balanced { OnOk result (IsBalanced text.now) }
    ensures memory { IsBalanced text.now → IfErr result (λ fault. fault ≡ NameFault.Memory) }
    ensures unbalanced { (result ≡ Err NameFault.UnbalancedName) ↔ ¬ IsBalanced text.now }
{
    if !is_balanced(text) {
        return Err(NameFault::UnbalancedName);
    }
    Ok(names_of(alloc, text)?)
}

//! Whether each unit of a file is at one place.

ghost use Rattle.std.specs.Prelude.{◌≡◌, ◌<◌, true, false, map, length, slice_index_or, IfOk};
ghost use Rattle.std.specs.List.{list_all};
ghost use Rattle.merge_spec.specs.Merged.{are_once};
ghost use Rattle.bib_places.specs.PlacesSeen.{number_in};

use crate::place::{File, Place, number_in};
use std::alloc::{AllocError, Global};

/// Whether the number can be marked: it is one of the numbers, and not marked yet.
fn is_free(marks: &[bool], n: usize) -> bool
    ensures within { result ≡ true → n < length marks.now }
    ensures free { result ≡ true → slice_index_or marks.now n true ≡ false }
{
    n < marks.len() && !marks[n]
}

/// Whether all numbers are marked.
fn are_marked(marks: &[bool]) -> bool
    ensures { result ≡ list_all (λ mark. mark) marks.now }
{
    marks.iter().all(|mark| *mark)
}

/// Whether each unit of this file, which has this many, is at one place and no other.
pub(crate) fn are_once(
    alloc: Global,
    count: usize,
    places: &[Place<'_>],
    file: File,
) -> Result<bool, AllocError>
    ensures { IfOk result (λ once. once ≡ true → are_once count (map (number_in file) places.now) ≡ true) }
{
    let mut marks = vec![in alloc; false; count]?;
    'places: for k in 0..places.len() {
        if let Some(n) = number_in(&places[k], file) {
            if !is_free(marks.as_slice(), n) {
                return Ok(false);
            }
            marks[n] = true;
        }
    }
    Ok(are_marked(marks.as_slice()))
}

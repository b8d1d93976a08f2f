//! Where pieces begin and end.

ghost use Rattle.std.specs.Prelude.{◌≡◌, ℕ, ◌<◌, ◌≤◌, length};
ghost use Rattle.bib_spec.specs.Bytes.{file_limit};
ghost use Rattle.bib_spec.specs.Pieces.{EndBy};
ghost use Rattle.history_spec.specs.Composing.{BeginsAfter, old_end};
ghost use Rattle.bib_steps.specs.Amending.{end_at};

use bib_data::Piece;

/// Where the pieces begin; 0 if there are none.
pub(crate) fn begin_of(pieces: &[Piece]) -> u64
    ensures { (place : ℕ) → place < result → BeginsAfter place pieces.now }
{
    match pieces.first() {
        Some(piece) => piece.place,
        None => 0,
    }
}

/// Where the pieces end in the text that they fit; 0 if there are none.
pub(crate) fn end_of(pieces: &[Piece]) -> u64
    requires { EndBy file_limit pieces.now }
    ensures { result ≡ old_end 0 pieces.now }
{
    match pieces.last() {
        Some(piece) => piece.place + piece.old.as_slice().len() as u64,
        None => 0,
    }
}

/// Where the pieces before this position end in the text that all of them make; 0 if there are none.
pub(crate) fn end_before(ends: &[u64], position: usize) -> u64
    requires { position ≤ length ends.now }
    ensures { result ≡ end_at ends.now position }
{
    if position == 0 {
        return 0;
    }
    ends[position - 1]
}

/// How many of the places, which ascend, are before this one.
pub(crate) fn count_before(places: &[u64], place: u64) -> usize
    ensures within { result ≤ length places.now }
    ensures before { 0 < result → end_at places.now result < place }
{
    let mut from: usize = 0;
    let mut to = places.len();
    'halves: while from < to {
        let half = from + (to - from) / 2;
        if places[half] < place {
            from = half + 1;
        } else {
            to = half;
        }
    }
    from
}

//! Which pieces of a step an edit is near.

ghost use Rattle.std.specs.Prelude.{◌≡◌, ◌<◌, ◌≤◌, length, true, false};
ghost use Rattle.bib_spec.specs.Bytes.{file_limit};
ghost use Rattle.bib_spec.specs.Pieces.{EndBy};
ghost use Rattle.history_spec.specs.Composing.{AreEnds, BeginsAfter, old_end};
ghost use Rattle.bib_steps.specs.Amending.{BeginAfter, IsNear, end_at};

use crate::spans::{begin_of, count_before, end_before, end_of};
use bib_data::Piece;

/// Neighbouring pieces of a list: those from one position up to another.
#[derive(Debug, Clone, Copy)]
pub(crate) struct Span {
    pub from: usize,
    pub to: usize,
}

/// Whether the pieces from this position on begin after a place of the text that all of them make.
fn is_after(pieces: &[Piece], ends: &[u64], position: usize, place: u64) -> bool
    requires ends { AreEnds pieces.now ends.now }
    requires within { position ≤ length pieces.now }
    requires place { place ≤ file_limit }
    ensures after { result ≡ true → BeginAfter pieces.now position place }
    ensures more { result ≡ false → position < length pieces.now }
{
    if position == pieces.len() {
        return true;
    }
    let piece = &pieces[position];
    ends[position] > place + piece.new.as_slice().len() as u64
}

/// The pieces that this part of an edit is near: all except those that end before it begins and those that begin after it
/// ends. The first are found by halves, the last one by one.
pub(crate) fn near(pieces: &[Piece], ends: &[u64], part: &[Piece]) -> Span
    requires ends { AreEnds pieces.now ends.now }
    requires short { EndBy file_limit part.now }
    ensures { IsNear pieces.now part.now result.from result.to }
{
    let end = end_of(part);
    let from = count_before(ends, begin_of(part));
    let mut to = from;
    'on: while !is_after(pieces, ends, to, end) {
        to += 1;
    }
    Span { from, to }
}

/// Whether a part of an edit, and the pieces that it is near, end before the other pieces of the edit begin.
pub(crate) fn ends_before(ends: &[u64], span: Span, part: &[Piece], others: &[Piece]) -> bool
    requires within { span.to ≤ length ends.now }
    requires short { EndBy file_limit part.now }
    ensures others { result ≡ true → BeginsAfter (old_end 0 part.now) others.now }
    ensures pieces { result ≡ true → BeginsAfter (end_at ends.now span.to) others.now }
{
    let begin = begin_of(others);
    end_of(part) < begin && end_before(ends, span.to) < begin
}

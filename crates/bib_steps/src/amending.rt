//! An edit that joins a step.

ghost use Rattle.std.specs.Prelude.{◌≡◌, ◌-◌, ◌≤◌, length, take, drop, IfOk};
ghost use Rattle.history_spec.specs.Composing.{IsComposable, AreEnds, composed, composed_after, replaced};
ghost use Rattle.bib_steps.specs.Amending.{IsNear, AreWithin, amended};

use crate::amendment::{Amendment, Replacement};
use crate::near::{Span, ends_before, near};
use crate::spans::{end_before, end_of};
use bib_data::Piece;
use bib_pieces::compose_at;
use std::alloc::{AllocError, Global};

/// What a part of an edit replaces. It is near the pieces of the span.
fn replacement(
    alloc: Global,
    pieces: &[Piece],
    ends: &[u64],
    span: Span,
    part: &[Piece],
) -> Result<Replacement, AllocError>
    requires composable { IsComposable pieces.now part.now }
    requires ends { AreEnds pieces.now ends.now }
    requires near { IsNear pieces.now part.now span.from span.to }
    ensures from { IfOk result (λ r. r.from ≡ span.from) }
    ensures to { IfOk result (λ r. r.to ≡ span.to) }
    ensures pieces { IfOk result (λ r. r.pieces ≡ composed_after (take span.from pieces.now) (take (span.to - span.from) (drop span.from pieces.now)) part.now) }
    ensures value { IfOk result (λ r. replaced r pieces.now ≡ composed pieces.now part.now) }
{
    let (front, rest) = pieces.split_at(span.from);
    let (middle, _) = rest.split_at(span.to - span.from);
    let end = end_of(front);
    let middle_end = end_before(ends, span.from);
    let pieces = compose_at(alloc, end, middle_end, middle, part)?;
    Ok(Replacement {
        from: span.from,
        to: span.to,
        pieces,
    })
}

/// The position of the piece before which the most bytes are that no piece covers; 0 if there are fewer than two pieces. Only
/// the time of `amend` depends on it.
fn widest_gap(pieces: &[Piece]) -> usize
    ensures { result ≤ length pieces.now }
{
    let mut widest: usize = 0;
    let mut most: u64 = 0;
    let mut end: u64 = 0;
    for (i, piece) in pieces.iter().enumerate() {
        let gap = piece.place.saturating_sub(end);
        if i > 0 && gap >= most {
            widest = i;
            most = gap;
        }
        end = piece
            .place
            .saturating_add(piece.old.as_slice().len() as u64);
    }
    widest
}

/// How an edit changes the pieces of a step: they are then those of the step and the edit as one. No two pieces of the step
/// touch, and `ends` are the places where they end in the present text. It takes memory and time in the number and the bytes
/// of the pieces that the edit is near. If the edit's own pieces are far from one another, those on either side of the widest
/// gap between them are looked at alone.
pub fn amend(
    alloc: Global,
    pieces: &[Piece],
    ends: &[u64],
    edit: &[Piece],
) -> Result<Amendment, AllocError>
    requires composable { IsComposable pieces.now edit.now }
    requires ends { AreEnds pieces.now ends.now }
    ensures value { IfOk result (λ a. amended a pieces.now ≡ composed pieces.now edit.now) }
    ensures within { IfOk result (AreWithin (length pieces.now)) }
{
    let (part, others) = edit.split_at(widest_gap(edit));
    if !part.is_empty() {
        let before = near(pieces, ends, part);
        let after = near(pieces, ends, others);
        if before.to <= after.from && ends_before(ends, before, part, others) {
            let last = replacement(alloc, pieces, ends, after, others)?;
            let first = replacement(alloc, pieces, ends, before, part)?;
            return Ok(Amendment {
                last,
                others: Some(first),
            });
        }
    }
    let span = near(pieces, ends, edit);
    let last = replacement(alloc, pieces, ends, span, edit)?;
    Ok(Amendment { last, others: None })
}

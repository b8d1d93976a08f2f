//! An edit inside a piece of a step.

ghost use Rattle.std.specs.Prelude.{IfSome};
ghost use Rattle.history_spec.specs.Composing.{IsComposable, IsComposableAt, AreEnds};
ghost use Rattle.bib_steps.specs.Amending.{BeginsInside, LiesInside};

use crate::ends::end_after;
use crate::near::near;
use crate::spans::{end_before, end_of};
use bib_data::Piece;

/// A byte of the new text of a piece of a step, or its end: the position of the piece, and the byte.
#[derive(Debug, Clone, Copy)]
pub struct Spot {
    pub position: usize,
    pub byte: usize,
}

/// Where the second edit begins in the new text of the first, if each is one piece, and it begins there or at the end of that
/// text.
fn begin_inside(end: u64, middle_end: u64, first: &[Piece], second: &[Piece]) -> Option<usize>
    requires { IsComposableAt end middle_end first.now second.now }
    ensures { IfSome result (λ byte. BeginsInside end middle_end byte first.now second.now) }
{
    if first.len() != 1 || second.len() != 1 {
        return None;
    }
    let piece = &first[0];
    let more = &second[0];
    let last = end_after(piece, end, middle_end);
    let begin = last - piece.new.as_slice().len() as u64;
    if more.place < begin || last < more.place {
        return None;
    }
    Some((more.place - begin) as usize)
}

/// Where an edit begins inside a piece of a step, if the edit is one piece that touches no other. No two pieces of the step
/// touch, and `ends` are the places where they end in the present text. It takes no memory, and time in the number of the
/// pieces that the edit touches.
pub fn spot_of(pieces: &[Piece], ends: &[u64], edit: &[Piece]) -> Option<Spot>
    requires composable { IsComposable pieces.now edit.now }
    requires ends { AreEnds pieces.now ends.now }
    ensures { IfSome result (λ spot. LiesInside pieces.now edit.now spot.position spot.byte) }
{
    let span = near(pieces, ends, edit);
    let (front, rest) = pieces.split_at(span.from);
    let (middle, _) = rest.split_at(span.to - span.from);
    let end = end_of(front);
    let middle_end = end_before(ends, span.from);
    match begin_inside(end, middle_end, middle, edit) {
        Some(byte) => Some(Spot {
            position: span.from,
            byte,
        }),
        None => None,
    }
}

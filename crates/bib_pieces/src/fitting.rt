//! Whether pieces fit.

ghost use Rattle.std.specs.Prelude.{◌≤◌, ◌↔◌, IsTrue};
ghost use Rattle.bib_spec.specs.Pieces.{Stands};
ghost use Rattle.history_spec.specs.Shifting.{moved_back, FitAfter};

use bib_data::Piece;

/// Whether the piece lies inside the bytes, which begin at `at`, and its old bytes are there.
fn stands(piece: &Piece, at: usize, bytes: &[u8]) -> bool
    ensures { IsTrue result ↔ (at ≤ piece.now.place) × Stands bytes.now (moved_back at piece.now) }
{
    if (piece.place as usize) < at {
        return false;
    }
    let place = piece.place as usize - at;
    place <= bytes.len() && bytes[place..].starts_with(piece.old.as_slice())
}

/// Whether the pieces ascend without overlap, and each fits the bytes, which begin at `at`.
pub fn fits(pieces: &[Piece], at: usize, bytes: &[u8]) -> bool
    ensures { IsTrue result ↔ FitAfter at pieces.now bytes.now }
{
    let mut end: usize = 0;
    for piece in pieces {
        if !stands(piece, at, bytes) || (piece.place as usize - at) < end {
            return false;
        }
        end = piece.place as usize - at + piece.old.as_slice().len();
    }
    true
}

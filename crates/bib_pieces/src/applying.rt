//! Replacing pieces of a text.

ghost use Rattle.std.specs.Prelude.{◌≡◌, IfOk};
ghost use Rattle.bib_spec.specs.Pieces.{applied};
ghost use Rattle.history_spec.specs.Shifting.{all_moved_back, FitAfter};

use bib_data::Piece;
use std::alloc::{AllocError, Global};

/// At most how many bytes the text has once the pieces' new bytes are in it. Only time and memory depend on it.
fn most_len(len: usize, pieces: &[Piece]) -> usize {
    let mut most = len;
    for piece in pieces {
        most = most.saturating_add(piece.new.as_slice().len());
    }
    most
}

/// The bytes, which begin at `at`, with each piece's new bytes for its old.
pub fn apply(
    alloc: Global,
    bytes: &[u8],
    at: usize,
    pieces: &[Piece],
) -> Result<Vec<u8>, AllocError>
    requires { FitAfter at pieces.now bytes.now }
    ensures { IfOk result (λ text. text.items ≡ applied (all_moved_back at pieces.now) bytes.now) }
{
    let mut out = Vec::with_capacity(alloc, most_len(bytes.len(), pieces))?;
    let mut end: usize = 0;
    for piece in pieces {
        let place = piece.place as usize - at;
        out.extend_from_slice(&bytes[end..place])?;
        out.extend_from_slice(piece.new.as_slice())?;
        end = place + piece.old.as_slice().len();
    }
    out.extend_from_slice(&bytes[end..])?;
    Ok(out)
}

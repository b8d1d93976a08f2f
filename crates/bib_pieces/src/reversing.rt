//! The way back.

ghost use Rattle.std.specs.Prelude.{◌≡◌, ◌+◌, ◌<◌, ◌≤◌, length, sum_by, All, IfOk};
ghost use Rattle.bib_spec.specs.Bytes.{file_limit};
ghost use Rattle.bib_spec.specs.Pieces.{AscendFrom, reversed_from};
ghost use Rattle.bib_pieces.specs.Reversing.{new_bytes_limit};

use bib_data::Piece;
use bib_text::{Seq, copied};
use std::alloc::{AllocError, Global};

/// The pieces that lead back from the text that these pieces make: old and new bytes exchanged, at the places of that text.
/// Those before them end at `from` in the old text and at `new_from` in the new. The pieces ascend without overlap, begin
/// within the longest file (16,777,216 bytes), and have fewer than 4,294,967,296 new bytes, `new_from` included. It takes
/// memory for a copy of all their bytes, and time in their number.
pub fn reverse_from(
    alloc: Global,
    pieces: &[Piece],
    from: u64,
    new_from: u64,
) -> Result<Seq<Piece>, AllocError>
    requires ascending { AscendFrom from pieces.now }
    requires from { from ≤ file_limit }
    requires places { All (λ p. p.place ≤ file_limit) pieces.now }
    requires new_bytes { new_from + sum_by (λ p. length p.new) pieces.now < new_bytes_limit }
    ensures { IfOk result (λ back. back ≡ reversed_from from new_from pieces.now) }
{
    let mut back = Vec::new(alloc);
    let mut end = from;
    let mut new_end = new_from;
    for piece in pieces {
        let place = new_end + (piece.place - end);
        back.push(Piece {
            place,
            old: copied(alloc, piece.new.as_slice())?,
            new: copied(alloc, piece.old.as_slice())?,
        })?;
        end = piece
            .place
            .saturating_add(piece.old.as_slice().len() as u64);
        new_end = place + piece.new.as_slice().len() as u64;
    }
    Ok(Seq::from_vec(back))
}

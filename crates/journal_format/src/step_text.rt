//! The lengths of steps as text.

ghost use Rattle.std.specs.Prelude.{◌≡◌, ◌-◌, ◌^◌, ◌≤◌, length, min, sum_by, decimal};
ghost use Rattle.std.specs.List.{flat_map};
ghost use Rattle.history_spec.specs.Steps.{piece_text, pieces_text, step_text_len};

use crate::step::Step;
use bib_data::Piece;

/// The number of digits of a number.
pub fn decimal_len(n: u64) -> u64
    ensures value { result ≡ length (decimal n) }
    ensures small { result ≤ 20 }
{
    if n < 10 { 1 } else { 1 + decimal_len(n / 10) }
}

/// The length of a piece as text, in bytes, or the greatest `u64` if it is longer.
fn piece_text_len(piece: &Piece) -> u64
    ensures { result ≡ min (length (piece_text piece.now)) (2 ^ 64 - 1) }
{
    let old_len = piece.old.as_slice().len() as u64;
    let new_len = piece.new.as_slice().len() as u64;
    let numbers = decimal_len(piece.place) + decimal_len(old_len) + decimal_len(new_len);
    old_len.saturating_add(new_len).saturating_add(numbers + 4)
}

/// The length of the texts of the pieces together, in bytes, or the greatest `u64` if it is longer.
pub fn piece_texts_len(pieces: &[Piece]) -> u64
    ensures { result ≡ min (length (flat_map piece_text pieces.now)) (2 ^ 64 - 1) }
{
    let mut len: u64 = 0;
    for piece in pieces {
        len = len.saturating_add(piece_text_len(piece));
    }
    len
}

/// The length of pieces as text, with the line of their number, in bytes, or the greatest `u64` if it is longer.
fn pieces_text_len(pieces: &[Piece]) -> u64
    ensures { result ≡ min (length (pieces_text pieces.now)) (2 ^ 64 - 1) }
{
    piece_texts_len(pieces).saturating_add(decimal_len(pieces.len() as u64) + 1)
}

/// The length of a step with this label and these pieces as text, in bytes, or the greatest `u64` if it is longer.
pub fn step_text_len(label: &[u8], pieces: &[Piece]) -> u64
    ensures { result ≡ min (step_text_len (record { label = label.now; pieces = pieces.now })) (2 ^ 64 - 1) }
{
    pieces_text_len(pieces).saturating_add(label.len() as u64 + 1)
}

/// The length of the texts of steps together, in bytes, or the greatest `u64` if it is longer.
pub fn step_texts_len(steps: &[Step]) -> u64
    ensures { result ≡ min (sum_by step_text_len steps.now) (2 ^ 64 - 1) }
{
    let mut len: u64 = 0;
    'step: for step in steps {
        len = len.saturating_add(step_text_len(step.label.as_slice(), step.pieces.as_slice()));
    }
    len
}

//! How long the text of a step is after an edit joins it.

ghost use Rattle.std.specs.Prelude.{◌≡◌, ℕ, List, slice_index_or, ◌+◌, ◌-◌, ◌^◌, ◌<◌, ◌≤◌, length, min, take, drop, decimal};
ghost use Rattle.std.specs.List.{flat_map};
ghost use Rattle.bib_spec.specs.Text.{Text};
ghost use Rattle.bib_spec.specs.Pieces.{Piece as FilePiece};
ghost use Rattle.history_spec.specs.Steps.{piece_text, step_text_len};
ghost use Rattle.bib_steps.specs.Amending.{IsWithin, AreWithin, HasSpot, amended, edited_at};

use bib_steps::{Amendment, Replacement, Spot};
use bib_store::Piece;
use journal_format::{decimal_len, piece_texts_len};

/// The length of the texts of the pieces that a replacement takes away, or the greatest number.
fn removed_len(pieces: &[Piece], change: &Replacement) -> u64
    requires { IsWithin (length pieces.now) change.now }
    ensures { result ≡ min (length (flat_map piece_text (take (change.now.to - change.now.from) (drop change.now.from pieces.now)))) (2 ^ 64 - 1) }
{
    let (_, rest) = pieces.split_at(change.from);
    let (removed, _) = rest.split_at(change.to - change.from);
    piece_texts_len(removed)
}

/// The length of texts, or the greatest number, once `gone` bytes of pieces are taken away and `come` bytes are added. The
/// texts say the number of the pieces, which was `before` and is `now`.
fn changed_len(len: u64, gone: u64, come: u64, before: usize, now: usize) -> u64
    ensures { result ≡ min (min (len - min (gone + length (decimal before)) (2 ^ 64 - 1) + come) (2 ^ 64 - 1) + length (decimal now)) (2 ^ 64 - 1) }
{
    len.saturating_sub(gone.saturating_add(decimal_len(before as u64)))
        .saturating_add(come)
        .saturating_add(decimal_len(now as u64))
}

/// The length of the texts of steps, or the greatest number, once an edit has joined one of them, which has these pieces. It
/// was `len` before.
pub(crate) fn amended_len(len: u64, pieces: &[Piece], change: &Amendment) -> u64
    requires within { AreWithin (length pieces.now) change.now }
    requires few { length pieces.now ≤ 67174399 }
    ensures { (label : Text) → step_text_len (record { label = label; pieces = pieces.now }) ≤ len → len ≤ 67174399
        → result ≡ min (len - step_text_len (record { label = label; pieces = pieces.now }) + step_text_len (record { label = label; pieces = amended change.now pieces.now })) (2 ^ 64 - 1) }
{
    let last = &change.last;
    let gone = removed_len(pieces, last);
    let come = piece_texts_len(last.pieces.as_slice());
    let count = pieces.len() - (last.to - last.from) + last.pieces.as_slice().len();
    match &change.others {
        None => changed_len(len, gone, come, pieces.len(), count),
        Some(first) => {
            let gone = gone.saturating_add(removed_len(pieces, first));
            let come = come.saturating_add(piece_texts_len(first.pieces.as_slice()));
            let now = count - (first.to - first.from) + first.pieces.as_slice().len();
            changed_len(len, gone, come, pieces.len(), now)
        }
    }
}

/// The length of two texts and of the numbers that say how long they are, or the greatest number.
fn written_len(old: usize, new: usize) -> u64
    ensures { result ≡ min (old + new + (length (decimal old) + length (decimal new))) (2 ^ 64 - 1) }
{
    let digits = decimal_len(old as u64) + decimal_len(new as u64);
    (old as u64)
        .saturating_add(new as u64)
        .saturating_add(digits)
}

/// The length of the texts of steps, or the greatest number, once this piece of one of them is edited. It was `len` before.
fn edited_piece_len(len: u64, piece: &Piece, byte: usize, more: &Piece) -> u64
    requires { byte ≤ length piece.now.new }
    ensures { (label : Text) (pieces : List FilePiece) (n : ℕ) → HasSpot n byte pieces → piece.now ≡ slice_index_or pieces n piece.now
        → step_text_len (record { label = label; pieces = pieces }) ≤ len → len ≤ 67174399
        → result ≡ min (len - step_text_len (record { label = label; pieces = pieces }) + step_text_len (record { label = label; pieces = edited_at n byte more.now pieces })) (2 ^ 64 - 1) }
{
    let old = piece.old.as_slice().len();
    let new = piece.new.as_slice().len();
    let gone = more.old.as_slice().len();
    let come = more.new.as_slice().len();
    let now_old = old + gone.saturating_sub(new - byte);
    let now_new = byte + come + new.saturating_sub(byte + gone);
    len.saturating_sub(written_len(old, new))
        .saturating_add(written_len(now_old, now_new))
}

/// The length of the texts of steps, or the greatest number, once an edit has begun at this spot of one of them, which has
/// these pieces. It was `len` before.
pub(crate) fn edited_len(len: u64, pieces: &[Piece], spot: Spot, more: &Piece) -> u64
    requires inside { spot.position < length pieces.now }
    requires spot { HasSpot spot.position spot.byte pieces.now }
    ensures { (label : Text) → step_text_len (record { label = label; pieces = pieces.now }) ≤ len → len ≤ 67174399
        → result ≡ min (len - step_text_len (record { label = label; pieces = pieces.now }) + step_text_len (record { label = label; pieces = edited_at spot.position spot.byte more.now pieces.now })) (2 ^ 64 - 1) }
{
    edited_piece_len(len, &pieces[spot.position], spot.byte, more)
}

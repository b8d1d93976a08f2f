//! Pieces: replacements in a text.

use bib_text::Text;
use std::marker::Model;

/// A replacement in a text: where it begins in the old text, in bytes from 0, the old bytes, and the new bytes.
#[derive(Debug, Drop)]
pub struct Piece {
    pub place: u64,
    pub old: Text,
    pub new: Text,
}

impl Model for Piece {
    ghost use Rattle.bib_spec.specs.Pieces.{Piece as TextPiece};

    ghost Value = { TextPiece };

    ghost view = { λ p. record { place = p.place; old = p.old; new = p.new } };
}

//! How an edit changes the pieces of a step.

ghost use Rattle.std.specs.Prelude.{◌≡◌};
ghost use Rattle.bib_steps.specs.Amending.{added_count};

use bib_data::Piece;
use bib_text::Seq;
use std::marker::Model;

/// Pieces that replace those of a list from one position up to another.
#[derive(Debug, Drop)]
pub struct Replacement {
    pub from: usize,
    pub to: usize,
    pub pieces: Seq<Piece>,
}

impl Model for Replacement {
    ghost use Rattle.history_spec.specs.Composing.{Replacement as PieceReplacement};

    ghost Value = { PieceReplacement };

    ghost view = { λ r. record { from = r.from; to = r.to; pieces = r.pieces } };
}

/// What an edit replaces: the pieces near its last ones. If its other pieces are far from these, it also replaces pieces
/// before them.
#[derive(Debug, Drop)]
pub struct Amendment {
    pub last: Replacement,
    pub others: Option<Replacement>,
}

impl Model for Amendment {
    ghost use Rattle.bib_steps.specs.Amending.{Amendment as PieceAmendment};

    ghost Value = { PieceAmendment };

    ghost view = { λ a. record { last = a.last; others = a.others } };
}

impl Amendment {
    /// How many new pieces the amendment has.
    pub fn added_count(&self) -> usize
        ensures { result ≡ added_count self.now }
    {
        let last = self.last.pieces.as_slice().len();
        match &self.others {
            Some(first) => last + first.pieces.as_slice().len(),
            None => last,
        }
    }
}

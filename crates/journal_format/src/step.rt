//! One step of undo.

use bib_data::Piece;
use bib_text::{Seq, Text};
use std::marker::Model;

/// What one undo takes back: one edit, or several edits made as one step. It has a label, which may be empty, and the
/// pieces of all its edits together.
#[derive(Debug, Drop)]
pub struct Step {
    pub label: Text,
    pub pieces: Seq<Piece>,
}

impl Model for Step {
    ghost use Rattle.history_spec.specs.Steps.{Step as UndoStep};

    ghost Value = { UndoStep };

    ghost view = { λ s. record { label = s.label; pieces = s.pieces } };
}

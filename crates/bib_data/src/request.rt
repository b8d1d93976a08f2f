//! Requests to a session.

use crate::edit::Edit;
use crate::label::Label;
use crate::position::Position;
use bib_text::Text;

/// A request to a session.
#[derive(Debug, Drop)]
pub enum Request {
    /// Makes this edit.
    Edit(Edit),
    /// Makes this edit, which adds or moves an entry, at this position in place of its own.
    Place(Position, Edit),
    /// Puts this text in at this position, byte for byte.
    Insert(Position, Text),
    /// Begins a step with this label: the edits up to its end are one change.
    Begin(Label),
    /// Ends the step.
    End,
    /// Undoes the last change.
    Undo,
    /// Redoes the change that was undone last.
    Redo,
}

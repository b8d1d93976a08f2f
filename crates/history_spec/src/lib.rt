//! Histories of a file and the steps that a session keeps, in definitions: what undo and redo do, how the pieces of several
//! edits become the pieces of one, and the text of a step in a journal. It knows no edit, only pieces. There is no code
//! here, only functions that do nothing and carry the laws about the definitions.
#![tactic(auto)]

mod composing;
mod histories;
mod stepping;

pub use composing::composed_pieces_are_both_edits;
pub use histories::{
    each_move_leads_to_one_history, edits_of_a_step_are_one_edit, the_ends_are_reached,
    undo_and_redo_are_opposites,
};
pub use stepping::steps_move_as_the_history_does;

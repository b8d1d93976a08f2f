//! Replaces pieces of a text, finds the pieces that lead back, and makes the pieces of two edits in turn those of one. It knows
//! texts and pieces; it does not know items, files or edits. It promises exactly the texts and the pieces that `bib_spec` and
//! `history_spec` define; their laws say what these do. It refuses a call only out of memory.
#![tactic(auto)]

mod applying;
mod composing;
mod fitting;
mod grouping;
mod ordering;
mod reversing;

pub use applying::apply;
pub use composing::compose_at;
pub use fitting::fits;
pub use reversing::reverse_from;

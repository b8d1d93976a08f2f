//! The places of a merge of three open files: which unit of each file meets there, and what becomes of them. It knows units and
//! what they say; it searches for no places. It promises that a list of places that it lets pass is a merge of the definitions, the
//! places of a merge for any three files, the bytes of a list of places, and its conflicts.
#![tactic(auto)]

mod becoming;
mod checking;
mod codes;
mod conflicts;
mod naming;
mod numbers;
mod once;
mod owned_label;
mod place;
mod plain;
mod queues;
mod seldom;
mod settled;
mod side;
mod tally;
mod writing;

pub use bib_fields::{ChangedPart, Mix};
pub use checking::is_merge;
pub use conflicts::{Change, Conflict, conflicts_of};
pub use owned_label::OwnedLabel;
pub use place::{File, Outcome, Place};
pub use plain::plain_places;
pub use side::Side;
pub use writing::merged_text;

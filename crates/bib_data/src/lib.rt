//! Plain data that crates give to each other: records, pieces, edits, positions, labels, and requests to a session. It knows what they
//! consist of, and not how they are made or used. So the crates that make them and the crates that use them do not depend
//! on each other.
#![tactic(auto)]

mod edit;
mod label;
mod piece;
mod position;
mod record;
mod request;

pub use edit::{DEPTH_LIMIT, Edit, NewEntry};
pub use label::{LABEL_LIMIT, Label, is_label};
pub use piece::Piece;
pub use position::Position;
pub use record::Record;
pub use request::Request;

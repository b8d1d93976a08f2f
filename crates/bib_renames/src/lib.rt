//! Follows the names that two sides give to entries and macros of a common file: each file gets the names that the other side gave.
//! It knows open files and the edits of a session; it knows no units, and merges nothing. It promises that each file that it makes
//! is what renamings, accepted one after another, make of the file. It does not promise to find a renaming wherever there is one.
#![tactic(auto)]

mod agreeing;
mod conflict;
mod finding;
mod following;
mod given;
mod laws;
mod lone;
mod making;
mod rename;

pub use conflict::KeyConflict;
pub use following::{Followed, follow};
pub use given::GivenName;
pub use laws::followed_files_keep_their_records;
pub use rename::Named;

//! Hints: lines below a message, which say which key, field, macro, line or file it is about, and what to type next. It knows
//! what commands ask, the messages and the forms of edits, and finds in the file what they are about; it knows no readers and
//! no writers, and decides nothing. It promises a few lines that begin with two spaces and have no control byte.
#![tactic(auto)]

mod asking;
mod edits;
mod faults;
mod hinting;
mod inputs;
mod insertions;
mod items;
mod keys;
mod lines;
mod notes;
mod numbers;
mod parts;
mod positions;
mod renamed_fields;
mod said;
mod script;
mod usages;
mod verbs;

pub use asking::{Asked, Ended, Trouble};
pub use hinting::{hints, hints_of_storing, hints_of_trouble, hints_of_usage, invitation};

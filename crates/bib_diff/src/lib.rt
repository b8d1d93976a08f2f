//! Finds the edits that lead from one file to another, and checks them. It knows entries and edits, and not how files are changed;
//! it makes the edits in a session. It promises that the edits that it gives are accepted one after another, and that the entries
//! of the file that they make agree with those of the other file. It does not promise to find edits wherever there are any.
#![tactic(auto)]

mod agreeing;
mod checking;
mod fault;
mod leading;
mod longest;
mod looking;
mod ordering;
mod removing;
mod renaming;
mod searching;
mod setting;
mod signing;
mod texts;
mod trying;
mod values;

pub use fault::DiffFault;
pub use leading::difference;

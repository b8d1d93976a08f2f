//! Runs `merge`: it makes the lines of conflicts and the merged file of three files. It knows what `merge` answers to their bytes; it
//! reads no file, and stores nothing. It promises that output, message, status and the new file are those of a merge of the three
//! files, or why there is none.
#![tactic(auto)]

mod answering;
mod engine;
mod lines;

pub use answering::answer_merge;
pub use engine::run_merge;

//! Writes scripts: a line for each of some edits. It knows the words of the edits that lead from one file to another, and not what
//! they mean. It promises that the text says exactly these edits, as `edit` reads it: it reads the text again and compares.
#![tactic(auto)]

mod comparing;
mod scripts;
mod writing;

pub use scripts::script_text;

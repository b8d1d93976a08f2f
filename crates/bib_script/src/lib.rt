//! Reads scripts, whose lines say one edit each, in words; the words of one edit by themselves; and words that say a position. It knows the words
//! of each edit, and not what an edit means or whether it is refused. It promises the edits that the lines or the words
//! say, up to the first line that says none.
#![tactic(auto)]

mod fields;
mod labels;
mod lines;
mod numbers;
mod positions;
mod script;
mod steps;
mod verbs;

pub use positions::read_position;
pub use script::{Script, read_script};
pub use steps::read_words;

//! Knows what `diff` answers to two files: the lines of a script that leads from one to the other, that there is no difference, or
//! why there is no script. It knows no commands, and not where the files come from. It promises that what is printed says edits
//! that a session of the old file accepts, and that the file that they make agrees with the new one.
#![tactic(auto)]

mod answering;
mod messages;

pub use answering::answer_diff;

//! Lists that own their members, and what holds for any text: names that are equal if case does not count, and texts without
//! white space at their ends. It knows bytes, and nothing about what they mean. It promises the text without the white space
//! at its front and at its end, and nothing else taken away.
#![tactic(auto)]

mod names;
mod seq;
mod trimming;

pub use names::{NAME_LIMIT, same_folded};
pub use seq::{Seq, Text, copied};
pub use trimming::{is_space, trimmed};

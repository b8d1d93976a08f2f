//! Finds lines between items that look like what went wrong: markers that a merge left, and pieces of entries that lost their
//! at-sign. It knows lines, and not where items are: the caller hands in a text between two of them. It promises the lines of
//! its definition, `strays_in`, in order, and no others.
#![tactic(auto)]

mod lines;
mod strays;

pub use lines::StrayKind;
pub use strays::{StrayLine, Strays};

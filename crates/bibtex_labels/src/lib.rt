//! Labels of entries as BibTeX 0.99d makes them with the style `alpha`.
//!
//! Knows records and texts: the text characters of a text, what is left of it for sorting, the label, the order of a
//! bibliography, and the letters by which equal labels differ. Does not know files, or which entries are listed.
//! Promises: the label and the sort key of each record; its place in the one order; the letter.
#![tactic(auto)]

mod alpha;
mod fields;
mod kept;
mod label;
mod laws;
mod names;
mod ordering;
mod pieces;
mod prefix;
mod purifying;
mod rows;

pub use alpha::Alpha;
pub use fields::label_names;
pub use laws::{one_order, pieces_are_the_text};
pub use ordering::{Labelled, in_order, lettered};
pub use prefix::{is_one_character, text_prefix};
pub use purifying::{purified, sortified};
pub use rows::{
    letters_are_for_sort_labels, letters_follow_the_order, prefixes_keep_braces,
    signs_are_taken_away,
};

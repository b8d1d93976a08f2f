//! Finds parts of values in a file: the uses of a macro, or a text in braces or in quotes, each with its place and its
//! bytes. It knows which items a file has, and which parts their fields; it knows no edits, and changes nothing. It
//! promises exactly the parts of the definitions, in their order, or the one refusal, which is want of memory.
#![tactic(auto)]

mod tokens;

pub use bib_items::Sought;
pub use tokens::{First, Token, first_with, has_part, is_met_before, push_from};

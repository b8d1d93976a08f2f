//! What the insertion of a text makes of a database, and when it is refused: definitions, and the laws about them. It has no code.
//! It promises that an insertion that nothing refuses leads to a file whose one reading has the file's items and those of the text.
#![tactic(auto)]

mod examples;
mod insertions;

pub use examples::{a_text_follows_the_file, a_text_is_refused, a_text_stands_between_items};
pub use insertions::{
    an_insertion_keeps_the_rest, an_insertion_leads_to_a_file, an_insertion_makes_a_file_that_opens,
};

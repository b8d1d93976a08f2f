//! The extract of a file for a list of keys, in definitions: the entries that the keys find, and all that these need. There is
//! no code here, only functions that do nothing and carry the laws about the definitions.
#![tactic(auto)]

mod examples;
mod extracts;

pub use examples::an_extract_is_what_is_cited;
pub use extracts::{
    an_extract_can_be_opened, an_extract_is_kept_items, an_extract_keeps_its_cited_list,
    an_extract_keeps_its_records, an_extract_of_an_extract_is_that_extract,
    an_extract_says_what_the_file_says, cited_entries_are_kept, closed_entries_keep_their_records,
    kept_items_are_the_least,
};

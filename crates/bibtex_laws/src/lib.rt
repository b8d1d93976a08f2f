//! What edits keep of the lists that BibTeX 0.99d gives to a style, and which records of the dialect its records are. There is no
//! code here, only functions that do nothing and carry the laws.
#![tactic(auto)]

mod key_lists;
mod other_entries;
mod records;
mod renaming;
mod star_lists;

pub use key_lists::keys_give_the_cited_list_of_the_dialect;
pub use other_entries::{
    entries_that_nothing_names_keep_lists, removing_and_adding_keep_other_lists,
};
pub use records::{a_missing_key_gives_fields_of_another_entry, records_are_those_of_the_dialect};
pub use renaming::{
    macro_edits_keep_lists, regenerating_keys_keeps_lists, renaming_a_key_keeps_lists,
};
pub use star_lists::{
    entries_that_nothing_names_change_a_star_list_alone,
    removing_and_adding_change_a_star_list_alone,
};

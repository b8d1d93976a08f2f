//! The merge of two files that come from a common one, in definitions. There is no code here, only functions that do nothing and
//! carry the laws about the definitions.
#![tactic(auto)]

mod examples;
mod merges;

pub use examples::{
    a_child_of_a_removed_parent_is_in_conflict, added_entries_are_there_once,
    fields_are_merged_one_by_one, moved_entries_keep_their_fields,
    removed_entries_go_or_are_in_conflict,
};
pub use merges::{
    each_pair_of_versions_is_a_conflict, no_unit_of_a_side_is_lost, units_make_the_file,
};

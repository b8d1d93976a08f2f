//! What edits make of a `.bib` file, which of its bytes they replace, and why they are refused, in definitions. How keys are made is
//! in `bib_spec`. There is no code here, only functions that do nothing and carry the laws about the definitions.
#![tactic(auto)]

mod edits;
mod examples;
mod macros;
mod one_of_several;
mod other_entries;
mod renaming;
mod types;
mod untouched_items;

pub use edits::{an_accepted_edit_makes_a_file_that_opens, chunks_of_an_edit_are_the_files};
pub use examples::{
    a_crossref_of_parts_is_renamed, a_dangling_crossref_finds_a_key, a_definition_is_added,
    a_field_is_set_and_dropped, a_high_position_is_not_reached, a_key_base_is_needed,
    a_key_in_use_takes_children, a_key_with_spaces_loses_children,
    a_macro_defined_twice_has_two_texts, a_macro_gets_a_value, a_macro_is_inlined_as_text,
    a_macro_is_read_where_it_stands, a_month_is_overridden, a_name_in_use_gives_text,
    a_parent_is_cited_with_its_children, a_record_inherits_along_a_chain,
    a_removed_parent_leaves_children, a_repeated_key_takes_children, a_star_cites_all,
    a_text_gets_a_name, a_trail_joins_the_text_before, a_use_before_the_definition_is_left,
    an_added_key_takes_children, crossrefs_find_targets, edits_are_accepted,
    entries_are_added_and_moved, joined_text_stays_text, made_keys_change_places, made_keys_differ,
    made_keys_read_the_chain, one_definition_changes, one_of_several_changes, texts_are_joined,
    the_first_of_a_name_counts,
};
pub use macros::a_macro_stands_for_its_last_definition;
pub use one_of_several::{
    one_of_several_definitions_changes_alone, one_of_several_entries_changes_alone,
};
pub use other_entries::other_entries_are_kept;
pub use renaming::{
    defining_a_macro_keeps_the_rest, inlining_a_macro_keeps_the_rest,
    introducing_a_macro_keeps_the_rest, regenerating_keys_keeps_the_rest,
    renaming_a_key_keeps_the_rest, renaming_a_macro_keeps_the_rest, renaming_fields_keeps_the_rest,
    setting_a_macro_keeps_the_rest, undefining_a_macro_keeps_the_rest,
};
pub use types::a_type_is_set_and_all_else_kept;
pub use untouched_items::untouched_items_keep_their_bytes;

//! What BibTeX 0.99d gives to a style for a list of cited keys, in definitions over the entries of a file; and the files whose
//! items BibTeX reads, and no others. There is no code here, only functions that do nothing and carry the laws and the worked
//! examples.
#![tactic(auto)]

mod lists;
mod plain;
mod rows;

pub use lists::{a_change_of_names_keeps_lists, a_star_alone_gives_the_dialect};
pub use plain::{
    a_repeated_entry_is_left_at_its_key, a_return_ends_a_line, names_are_those_of_the_dialect,
    text_is_read_in_the_last_line, the_last_line_is_read_once,
};
pub use rows::{
    a_cited_spelling_stays, a_later_holder_is_the_parent, a_missing_key_names_a_place,
    a_parent_before_its_child_is_lost, a_repeated_entry_is_left, a_ring_inherits_in_order,
    a_self_is_counted, a_star_stands_beside_keys, added_parents_name_parents,
    an_empty_crossref_names, an_empty_field_is_there, an_empty_key_is_cited,
    fields_stay_without_a_crossref, inherited_fields_are_inherited, parents_are_added_as_named,
    the_first_cited_child_counts,
};

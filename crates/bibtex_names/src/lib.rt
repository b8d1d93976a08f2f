//! Knows how BibTeX 0.99d takes the names of a list apart, and how `format.name$` prints them by a template. It knows texts alone, and
//! no files and no records. It promises that the parts of a name, a template and a print are stated functions of their texts; a name
//! or a template for which BibTeX has no stated answer is refused.
#![tactic(auto)]

mod braces;
mod case;
mod counting;
mod initial;
mod letters;
mod name;
mod name_cut;
mod pieces;
mod printing;
mod rows;
mod special;
mod template;
mod template_reading;
mod word;

pub use bib_names::{NameFault, split_names};
pub use name::{Name, split_name};
pub use rows::{
    a_command_is_an_initial, a_name_begins_with_a_word, a_period_stays_without_an_initial,
    a_separator_before_a_comma_stays, an_initial_is_one_byte, bad_templates_are_refused,
    braces_count, bytes_are_letters_of_a_sequence, inner_groups_stay, later_commas_part_words,
    letters_have_either_case, the_depth_is_carried, ties_before_a_group_are_its_own,
};
pub use template::Template;
pub use word::Word;

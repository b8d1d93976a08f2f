//! Names of persons, the templates that print them, the labels of a bibliography, and the stems of made keys. It knows texts and
//! records alone, and no files and no edits. It promises the parts of a name and their places, the printed text, the label, and a stem
//! that is a valid key.
#![tactic(auto)]

mod braces;
mod case;
mod fault;
mod group_output;
mod initial;
mod label;
mod label_fields;
mod labelling;
mod made_key;
mod name;
mod name_cut;
mod name_list;
mod pieces;
mod printing;
mod special;
mod tally;
mod template;
mod text;
mod word;

pub use fault::NameFault;
pub use label::{label_base, label_names, text_in};
pub use label_fields::{
    Inherited, LabelParts, label_base_with, label_bases_are_made_of_parts, label_parts,
};
pub use labelling::{labels, labels_of};
pub use made_key::{BASE_LIMIT, candidate, key_base, key_bases_are_keys, key_letters};
pub use name::{Name, split_name};
pub use name_list::split_names;
pub use template::{Template, one_template};
pub use word::Word;

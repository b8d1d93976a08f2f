//! Plans edits: the pieces that make one, or why it is refused. It knows what each edit means; it changes nothing. It
//! promises exactly the pieces of the definitions, or the first reason that refuses the edit.
#![tactic(auto)]

mod add_entry;
mod add_many;
mod adding;
mod address;
mod choosing;
mod clashes;
mod dangling;
mod define_macro;
mod defining;
mod drop_field;
mod fault;
mod inline_macro;
mod insertion;
mod introduce_macro;
mod laws;
mod limits;
mod move_entry;
mod moving;
mod new_entries;
mod new_fields;
mod new_keys;
mod new_text;
mod numbers;
mod one_definition;
mod one_entry;
mod pieces;
mod planning;
mod positions;
mod referring;
mod regenerate_keys;
mod rekeying;
mod remove_entry;
mod rename_field;
mod rename_key;
mod rename_macro;
mod replacing;
mod set_field;
mod set_macro;
mod set_type;
mod taking_out;
mod trying;
mod undefine_macro;
mod unused_keys;
mod unused_values;
mod values;

pub use bib_data::{Edit, NewEntry, Position};
pub use fault::EditFault;
pub use insertion::plan_insertion;
pub use laws::{
    a_moved_entry_stands_beside_the_other, a_planned_insertion_leads_to_a_file, edits_are_asked_for,
};
pub use planning::plan;
pub use positions::{place_of, plan_at};
pub use unused_keys::{free_key, free_keys};

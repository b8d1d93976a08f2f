//! Reads on after a fault: all faults of a file in one pass, not the first alone. It knows where reading stops and where it
//! goes on, and not what stays of an item that breaks off. It promises the list of its definition, `Faults`, and the laws of
//! that list.
#![tactic(auto)]

mod laws;
mod reading_on;

pub use laws::{
    a_stretch_ends_at_a_fault, a_whole_item_is_read, each_text_has_its_faults, faults_are_listed,
    faults_are_one_list, faults_are_where_no_reading_is, no_byte_is_lost, places_of_faults_rise,
    the_first_fault_is_reported,
};
pub use reading_on::read_all;

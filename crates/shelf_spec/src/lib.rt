//! A shelf, in definitions: several files read as one, with a comment between two of them. There is no code here, only functions
//! that do nothing and carry the laws about the definitions.
#![tactic(auto)]

mod examples;
mod shelves;

pub use examples::a_shelf_has_a_seam;
pub use shelves::{
    a_shelf_has_the_reading_of_its_files, items_and_places_of_files_are_found,
    seams_define_nothing, seams_give_nothing,
};

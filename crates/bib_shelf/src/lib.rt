//! Opens several files as one database. It knows how the files lie in one text, with a seam between two of them, and not what
//! the database is asked. It promises the database of the shelf's text; or which of the files is at fault, and where.
#![tactic(auto)]

mod counting;
mod fault;
mod joining;
mod laws;
mod locating;
mod opening;
mod reading;

pub use fault::ShelfFault;
pub use joining::{Joined, seam};
pub use laws::{a_shelf_has_one_reading, files_that_are_parted_have_readings};
pub use locating::{file_in, locate};
pub use opening::Shelf;

//! Gives the extract of a file for a list of keys: the entries that the keys find, and all that these need. It knows the
//! definitions of extracts and what the store says of entries; it knows no edits, and changes nothing. It promises exactly the
//! extract of the definitions, or the first key that finds no entry.
#![tactic(auto)]

mod awaited;
mod entries;
mod extracting;
mod fault;
mod items;
mod writing;

pub use extracting::{extract, kept};
pub use fault::ExtractFault;

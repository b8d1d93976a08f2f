//! Finds the first at-sign for which BibTeX 0.99d may not read the items of a file alone. It knows the items, and nothing
//! about what their fields mean. It promises the place of that at-sign, by the definition of plain files.
#![tactic(auto)]

mod items;
mod lines;
mod names;
mod plain;
mod signs;

pub use plain::not_plain;

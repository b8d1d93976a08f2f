//! Explains faults: of each what it means, an example, and what to do. It knows their numbers and names, and a page on each,
//! which is its section of docs/FAULTS.md, as `.ci/docs` compares; it knows no files and no commands. It promises that the
//! page is on the fault that a word names.
#![tactic(auto)]

mod asking;
mod pages;

pub use asking::{Page, page_of};

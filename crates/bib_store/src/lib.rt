//! Keeps the file as a list of items, and replaces pieces of it. It knows what the items say together: entries, keys, crossrefs and
//! macros; it does not know edits. It promises the reading of the file's bytes, and that pieces that fit give the reading of the new
//! bytes.
#![tactic(auto)]

mod bounds;
mod change;
mod choosing;
mod citing;
mod composing;
mod crossrefs;
mod database;
mod exchanging;
mod expanding;
mod following;
mod following_runs;
mod gathering;
mod glancing;
mod in_place;
mod item_fault;
mod joining;
mod keeping;
mod measuring;
mod preambles;
mod record;
mod reversing;
mod runs;
mod scanning;
mod splicing;
mod tables;
mod touching;
mod window;

pub use bib_data::{Piece, Record};
pub use bib_definitions::MacrosAt;
pub use bib_entries::Holders;
pub use bib_items::{Flat, Item, ItemList, Paged, StoreFault};
pub use composing::{compose, compose_at};
pub use database::{Database, Unopened};
pub use record::{Cited, Expanded};
pub use reversing::reverse;

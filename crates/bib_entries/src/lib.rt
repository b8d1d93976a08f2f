//! Keeps what look-ups ask of the entries of a file: the key and the crossref text of each, by its number and by its key. It
//! knows no items and reads no bytes. It promises that an entry that comes or goes leaves what is said of the others,
//! whatever numbers they have then.
#![tactic(auto)]

mod crossref;
mod entry_table;

pub use entry_table::{EntryTable, Holders};

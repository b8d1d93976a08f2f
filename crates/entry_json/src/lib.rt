//! Writes entries as JSON. It knows records and their text in JSON; it does not know where records come from. It promises
//! the text of a record, which a reader of JSON reads as that record, or that one of the record's texts is not UTF-8.
#![tactic(auto)]

mod fault;
mod laws;
mod raw;
mod writing;

pub use fault::JsonFault;
pub use laws::entries_are_read_back;
pub use raw::{RawEntry, Standing, WrittenField, add_raw_line};
pub use writing::{add_line, add_line_in};

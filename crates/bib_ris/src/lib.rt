//! RIS records of an open file, both ways. It knows which entries of a file become which RIS records, and which entries
//! with which keys RIS records add to the file; it does not know the lines of RIS, edits, nor commands. It promises the
//! RIS text of entries, with texts as they are or as plain texts, the fields that RIS leaves out, and the entries of a RIS
//! text.
#![tactic(auto)]

mod drafts;
mod dropping;
mod exporting;
mod fault;
mod free_key;
mod importing;
mod judging;
mod plain_records;
mod texts;

pub use dropping::entries_dropped;
pub use exporting::{entries_plain, entries_ris};
pub use fault::ImportFault;
pub use importing::{Additions, import};
pub use plain_records::in_plain;

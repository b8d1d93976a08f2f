//! What look-ups of records and of cited lists return.

use bib_data::Record;
use bib_text::Seq;

/// The record of an entry, with what it inherits, and the number of the entry from which it inherits.
#[derive(Debug, Drop)]
pub struct Expanded {
    pub rec: Record,
    pub parent: Option<usize>,
}

/// The cited list of keys: the numbers of the entries listed, and the positions of the keys that find no entry.
#[derive(Debug, Drop)]
pub struct Cited {
    pub listed: Seq<usize>,
    pub unknown: Seq<usize>,
}

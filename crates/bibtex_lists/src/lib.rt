//! The list of entries that BibTeX 0.99d gives to a style for a list of keys, of a file that is open, and their records. It knows no
//! style, and none of a style's macros: the caller opens the file with them. It promises the lists and the records of the definition, or
//! a refusal.
#![tactic(auto)]

mod choosing;
mod entry_keys;
mod gathering;
mod listing;
mod records;
mod texts;

pub use bibtex_places::{BibtexEntry, BibtexFault, BibtexList};
pub use listing::listed_as_bibtex;
pub use records::{record_as_bibtex, record_as_bibtex_with};

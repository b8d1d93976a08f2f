//! The list that BibTeX 0.99d makes of a file's entries for a list of keys, if only the keys and the crossref texts of the entries are
//! known. It knows no bytes of a file, and no fields. It promises the entries of the definition, in its order, or a refusal.
#![tactic(auto)]

mod citing;
mod fault;
mod key_table;
mod listing;
mod lists;
mod parents;
mod place;
mod places;

pub use fault::BibtexFault;
pub use listing::list_as_bibtex;
pub use lists::{BibtexEntry, BibtexList, EntryKey};

//! Knows what `ris` answers with `--bibtex`: the records that BibTeX 0.99d gives to the style `plain` for a list of keys, for other
//! programs. It knows no journals and no edits, no readers and no writers. It promises that output, message and status are a stated
//! function of the file.
#![tactic(auto)]

mod answering;
mod dropping;
mod exporting;
mod laws;

pub use answering::answer_ris_as_bibtex;
pub use laws::listed_records_fit;

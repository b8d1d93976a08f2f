//! Knows what `show`, `cite`, `json`, `labels`, `names` and `ris` answer with `--bibtex`: what BibTeX 0.99d gives to the style
//! `plain` for a list of keys, and the labels that the style `alpha` makes. It knows no journals and no edits, no readers and no
//! writers. It promises that output, message and status are a stated function of the file; nothing is output if BibTeX may read
//! other items in the file than bibkeep.
#![tactic(auto)]

mod cite;
mod json;
mod labels;
mod lines;
mod messages;
mod names;
mod opening;
mod show;
mod style;

pub use cite::answer_cite_as_bibtex;
pub use json::{MIN_CROSSREFS, answer_json_as_bibtex};
pub use labels::answer_labels_as_bibtex;
pub use messages::{not_plain, too_deep};
pub use names::answer_names_as_bibtex;
pub use opening::answer_file;
pub use show::answer_show_as_bibtex;
pub use style::style_macros;

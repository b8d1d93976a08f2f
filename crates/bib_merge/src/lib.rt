//! The merge of two files that come from a common one, unit by unit. It knows units and places; it knows no edits. Whatever places
//! it finds, it takes them only if they are a merge of the definitions, or else those of a merge that needs no search. It promises the
//! bytes of such a merge, which is a file that opens, and its conflicts, or why the bytes of one are no such file.
#![tactic(auto)]

mod fault;
mod meeting;
mod merging;
mod mixing;
mod ordering;
mod outcomes;
mod pairing;
mod spacing;
mod told;
mod unchanged;

pub use bib_places::{Change, ChangedPart, Conflict, OwnedLabel};
pub use bib_renames::KeyConflict;
pub use bib_units::Label;
pub use bib_uses::LostUse;
pub use fault::MergeFault;
pub use merging::{Merged, merge, merge_files};

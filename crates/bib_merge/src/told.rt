//! What a merge says.

use bib_places::Conflict;
use bib_store::{Database, Paged};
use bib_text::Text;
use bib_uses::LostUse;

/// The merged file, its conflicts, the keys of the entries that have lost their parents, and the uses of macros that have lost their
/// meaning.
#[derive(Drop)]
pub(crate) struct Told {
    pub text: Text,
    pub conflicts: Vec<Conflict>,
    pub lost: Vec<Text>,
    pub uses: Vec<LostUse>,
}

/// The same, with the merged file open.
#[derive(Drop)]
pub(crate) struct OpenMerge {
    pub file: Database<Paged>,
    pub conflicts: Vec<Conflict>,
    pub lost: Vec<Text>,
    pub uses: Vec<LostUse>,
}

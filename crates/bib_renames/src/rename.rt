//! Changes of names.

use bib_text::Text;

/// What has a name: an entry has its key, and a macro the name by which it is used.
#[derive(Clone, Copy, Debug, PartialEq, Eq)]
pub enum Named {
    Entry,
    Macro,
}

/// A change of a name: the entry or the macro with the old name gets the new one.
#[derive(Debug, Drop)]
pub(crate) struct Change {
    pub what: Named,
    pub old: Text,
    pub new: Text,
}

//! What a file keeps in which names are followed.

ghost use Rattle.bib_renames.specs.Renamed.{renamed_files_keep};

/// A file in which names are followed has the entries that it had: each has its type and its fields, at every depth, and its parent.
/// So it is with preambles. Only keys and the names of macros may be other ones.
pub fn followed_files_keep_their_records()
    ensures { renamed_files_keep }
{}

//! Laws of the entries that an edit does not address.

ghost use Rattle.edit_spec.specs.OtherLaws.{remove_entry_keeps_others, add_entry_keeps_others, add_many_keeps_others};

/// Removing or adding an entry keeps every other entry's record, at every depth, and its parent. For an added entry this
/// holds if no dangling crossref names its key, since that crossref's entry would get a parent.
pub fn other_entries_are_kept()
    ensures removed { remove_entry_keeps_others }
    ensures added { add_entry_keeps_others }
    ensures many { add_many_keeps_others }
{}

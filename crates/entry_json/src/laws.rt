//! What readers of JSON make of an entry's text.

ghost use Rattle.entry_json.specs.Laws.{EntriesAreReadBack};

/// A reader of JSON reads the text of an entry as that entry: quotation marks, backslashes and control bytes in its texts
/// are unchanged.
pub fn entries_are_read_back()
    ensures { EntriesAreReadBack }
{}

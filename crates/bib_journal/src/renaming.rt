//! What renamings keep, in laws about what a session answers.

ghost use Rattle.bib_journal.specs.Renaming.{edit_keeps, keys_are_made_once, newkeys_are_those_of_regenerate, requests_keep};

/// Renaming keeps every record. If `Session::edit` renames a key or a macro, makes all keys again, writes a macro's text
/// for its uses, gives a text a name or removes a definition that nothing uses, each entry's record and parent, each preamble,
/// what each macro stands for at each item, and each cited list are as they were, except the names that the edit gives. If it
/// renames fields, each entry's own texts are as they were, except the names of these fields, and all else is. If it defines a
/// macro that nothing uses, all else is as it was. If it gives a macro another value, each entry's texts that use neither the
/// macro nor one that depends on it are as they were.
pub fn renaming_keeps_every_record()
    ensures { edit_keeps }
{}

/// Once `Session::edit` has made all keys again, no reason is against doing so once more at the same depth, and that gives the
/// same bytes. It may still be refused for want of room or of memory.
pub fn keys_are_made_once()
    ensures { keys_are_made_once }
{}

/// If `Session::edit` makes all keys again, the keys of the file are then those that `newkeys` prints for the file before, at the
/// same depth.
pub fn newkeys_are_those_of_regenerate()
    ensures { newkeys_are_those_of_regenerate }
{}

/// If all requests to `perform` are renamings, each entry's type, fields and parent, and each preamble, are as they were,
/// wherever it stopped.
pub fn a_script_of_renamings_keeps_every_record()
    ensures { requests_keep }
{}

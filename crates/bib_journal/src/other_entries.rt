//! What edits keep of other entries, in a law about what a session answers.

ghost use Rattle.bib_journal.specs.OtherEntries.{others_are_kept};

/// Other entries keep their records. Where `Session::edit` adds an entry or many, or removes one, each other entry's record
/// and parent, and each preamble, are as they were, if no dangling crossref waits for an added key. Where it adds many, each
/// entry that was there has its number too.
pub fn other_entries_keep_their_records()
    ensures { others_are_kept }
{}

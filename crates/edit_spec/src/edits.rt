//! Laws of what edits make.

ghost use Rattle.edit_spec.specs.EditLaws.{edited_reads, applied_opens};
ghost use Rattle.edit_spec.specs.Laws.{chunks_are_files, pieces_lead_to_edited};

/// What an accepted edit makes of a reading is again a reading: each tree is one of the grammar, and no command begins in a
/// text between them. The edit's pieces lead to its file, which can be opened. If keys are made, their base must be one of
/// made keys.
pub fn an_accepted_edit_makes_a_file_that_opens()
    ensures reads { edited_reads }
    ensures opens { applied_opens }
{}

/// The chunks of an edit have the file as their old text, and the file of the new database as their new text. So the
/// edit's pieces fit the file, and lead to the new file.
pub fn chunks_of_an_edit_are_the_files()
    ensures chunks { chunks_are_files }
    ensures pieces { pieces_lead_to_edited }
{}

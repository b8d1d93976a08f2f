//! Laws of histories.

ghost use Rattle.history_spec.specs.History.{one_edit, one_amendment, one_undo, one_redo, no_undo, no_redo, amended_edit, undo_after_edit, redo_after_undo, undo_after_redo, undoing_all, redoing_all};

/// An edit leads to one history, and so does a further edit of the same step. An undo leads to one history if there is a
/// past, and a redo if there is a future; else there is no undo or redo.
pub fn each_move_leads_to_one_history()
    ensures edit { one_edit }
    ensures amendment { one_amendment }
    ensures undo { one_undo }
    ensures redo { one_redo }
    ensures nothing_to_undo { no_undo }
    ensures nothing_to_redo { no_redo }
{}

/// All edits of one step are one edit.
pub fn edits_of_a_step_are_one_edit()
    ensures { amended_edit }
{}

/// An undo takes back an edit or a redo, and a redo takes back an undo.
pub fn undo_and_redo_are_opposites()
    ensures edit { undo_after_edit }
    ensures redo { redo_after_undo }
    ensures undo { undo_after_redo }
{}

/// As many undos as there are past files lead to the first file, and as many redos as there are future files to the last.
pub fn the_ends_are_reached()
    ensures first { undoing_all }
    ensures last { redoing_all }
{}

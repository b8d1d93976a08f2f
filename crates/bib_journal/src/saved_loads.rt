//! What a session saved, when it is loaded, in a law about what a session answers.

ghost use Rattle.bib_journal.specs.SavedLoads.{what_is_saved_is_loaded};

/// What `Session::saved` gives is loaded as what the session kept, and refused for want of memory alone.
pub fn what_is_saved_is_loaded()
    ensures { what_is_saved_is_loaded }
{}

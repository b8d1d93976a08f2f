//! What edits keep of the items that they do not touch, in a law about what a session answers.

ghost use Rattle.bib_journal.specs.UntouchedItems.{items_are_kept};

/// Untouched items keep their bytes. Each item that `Session::edit` neither changes, nor takes away, nor moves has its tree
/// afterwards, in the old order; its trail, or the front, gains at its end the trail of an item that goes beside it.
pub fn items_stay_as_they_are()
    ensures { items_are_kept }
{}

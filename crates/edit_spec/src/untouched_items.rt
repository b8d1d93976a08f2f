//! Laws of the items that an edit does not touch.

ghost use Rattle.edit_spec.specs.OtherLaws.{untouched_items_stay, moved_entry_stays, moved_one_stays};

/// Items that an edit neither changes nor moves keep their bytes and their order; the text before a removed item gets that
/// item's trail at its end. A moved entry keeps its body, and gets a line of its own.
pub fn untouched_items_keep_their_bytes()
    ensures items { untouched_items_stay }
    ensures moved { moved_entry_stays }
    ensures moved_one { moved_one_stays }
{}

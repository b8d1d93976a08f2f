//! Laws of what entries inherit.

ghost use Rattle.bib_spec.specs.Lineages.{rings_give_nothing_more, parent_alone_at_depth_1, deeper_records_only_gain};

/// In a ring of parents an entry that is met again gives nothing more: code that gathers inherited fields need not remember
/// which entries it has met.
pub fn a_ring_gives_nothing_more()
    ensures { rings_give_nothing_more }
{}

/// At depth 1 an entry inherits from its parent alone, as in BibTeX. (btxdoc 2.1)
pub fn depth_1_is_the_parent_alone()
    ensures { parent_alone_at_depth_1 }
{}

/// At a greater depth an entry's record only gains fields: what it has at a smaller depth stays, and comes first.
pub fn a_deeper_record_only_gains()
    ensures { deeper_records_only_gain }
{}

//! Laws of composed pieces.

ghost use Rattle.history_spec.specs.Composing.{composed_pieces_fit, composed_pieces_lead, members_are_parted, untouched_pieces_stay, parts_are_composed_in_turn, nothing_changes_nothing, composed_pieces_stand_apart, an_insertion_after_joins, pieces_apart_stay};

/// The composed pieces fit the text before the two edits, and lead to what the two edits make of it in turn. Each is made
/// of pieces that touch each other, and no two composed pieces touch. A piece of the first edit that nothing touches is
/// unchanged.
pub fn composed_pieces_are_both_edits()
    ensures fit { composed_pieces_fit }
    ensures lead { composed_pieces_lead }
    ensures parted { members_are_parted }
    ensures untouched { untouched_pieces_stay }
    ensures in_turn { parts_are_composed_in_turn }
    ensures nothing { nothing_changes_nothing }
    ensures stand_apart { composed_pieces_stand_apart }
    ensures joined { an_insertion_after_joins }
    ensures apart { pieces_apart_stay }
{}

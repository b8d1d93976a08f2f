//! Laws of merges.

ghost use Rattle.merge_spec.specs.Laws.{units_are_the_file, nothing_of_ours_is_lost, nothing_of_theirs_is_lost, conflicts_are_all_told};

/// The units of a file, with the white space before the first and after each, are the file, byte for byte.
pub fn units_make_the_file()
    ensures { units_are_the_file }
{}

/// For each unit of ours there is a place in the merge that keeps our version, whole or by its fields, or both versions; or we
/// left the unit as it was, and theirs is taken or they took it away. The same holds of each unit of theirs, but ours is also
/// taken if both say the same.
pub fn no_unit_of_a_side_is_lost()
    ensures ours { nothing_of_ours_is_lost }
    ensures theirs { nothing_of_theirs_is_lost }
{}

/// There is a conflict exactly if the merge keeps both versions of some unit. So no marker is written without a conflict.
pub fn each_pair_of_versions_is_a_conflict()
    ensures { conflicts_are_all_told }
{}

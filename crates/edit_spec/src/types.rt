//! The law of the edit that gives an entry another type.

ghost use Rattle.edit_spec.specs.Laws.{set_type_keeps};

/// Giving an entry another type keeps each record except for that type, each parent, each preamble, what each macro stands
/// for, and each cited list.
pub fn a_type_is_set_and_all_else_kept()
    ensures { set_type_keeps }
{}

//! Laws of what macros stand for.

ghost use Rattle.edit_spec.specs.Laws.{sees_last_definition, sees_months, macros_balance};

/// A macro stands for its last definition before the place; if there is none, it stands for the month of that name. The
/// braces of its text match, so the text in braces is a part.
pub fn a_macro_stands_for_its_last_definition()
    ensures last { sees_last_definition }
    ensures months { sees_months }
    ensures balance { macros_balance }
{}

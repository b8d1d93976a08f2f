//! Laws of steps.

ghost use Rattle.history_spec.specs.Steps.{adding_edits, joining_amends, going_back_undoes, going_on_redoes, steps_lead_back};

/// A file and the steps to and from it move as the history that they stand for, and are still sound; a step can be undone.
pub fn steps_move_as_the_history_does()
    ensures edit { adding_edits }
    ensures join { joining_amends }
    ensures undo { going_back_undoes }
    ensures redo { going_on_redoes }
    ensures back { steps_lead_back }
{}

//! Laws of edits, in the contracts of functions that do nothing.

ghost use Rattle.bib_edit.specs.Insertions.{PlannedInsertionsLead, PlannedInsertionsOpen};
ghost use Rattle.bib_edit.specs.Laws.{EditsAreAskedFor, MovedEntriesAreNeighbours};

/// Every edit of bytes asks for some edit of the definitions. So a contract that speaks of each edit that is asked for
/// speaks of at least one.
pub fn edits_are_asked_for()
    ensures { EditsAreAskedFor }
{}

/// The pieces of a planned insertion fit the file, and lead to the file with the text put in. That file can be opened
/// exactly if no raw text would be too long.
pub fn a_planned_insertion_leads_to_a_file()
    ensures lead { PlannedInsertionsLead }
    ensures opens { PlannedInsertionsOpen }
{}

/// An entry that moves after another one, or before it, gets the place beside it, wherever the two were before.
pub fn a_moved_entry_stands_beside_the_other()
    ensures { MovedEntriesAreNeighbours }
{}

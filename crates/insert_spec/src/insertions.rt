//! Laws of insertions.

ghost use Rattle.insert_spec.specs.Laws.{insertion_keeps_trees, insertion_leads, insertion_reads, insertion_opens, first_insertion_keeps, later_insertion_keeps};

/// The pieces of an insertion fit the file, and lead to the bytes of the new database.
pub fn an_insertion_leads_to_a_file()
    ensures { insertion_leads }
{}

/// If its texts are clean, the new database is the one reading of its bytes. If nothing refuses the insertion, the file that
/// it leads to can be opened.
pub fn an_insertion_makes_a_file_that_opens()
    ensures reads { insertion_reads }
    ensures opens { insertion_opens }
{}

/// The new database has the items of the file and those of the text, in order, and no other. Only the text directly before
/// the position changes: it has more bytes at its end.
pub fn an_insertion_keeps_the_rest()
    ensures trees { insertion_keeps_trees }
    ensures first { first_insertion_keeps }
    ensures later { later_insertion_keeps }
{}

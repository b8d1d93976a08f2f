//! Laws of the readings of shelves.

ghost use Rattle.bib_shelf.specs.Laws.{one_shelf_reading, parted_files_read};

/// If each file has a reading, the shelf has exactly the reading with the items of each file, and a comment for each seam.
pub fn a_shelf_has_one_reading()
    ensures { one_shelf_reading }
{}

/// If the text of a shelf has a reading in which an item begins at each seam, each file has a reading. Without an item at each seam
/// that need not be so: `@misc{a,t={x` is no file, and together with `y}}` it is an entry.
pub fn files_that_are_parted_have_readings()
    ensures { parted_files_read }
{}

//! Laws of shelves.

ghost use Rattle.shelf_spec.specs.Laws.{shelf_reads, items_are_numbered, places_are_located, items_are_placed, items_are_located, seams_say_nothing, items_are_listed, items_see_the_same};

/// If each file has a reading, the shelf has the reading with the items of each file, and a comment for each seam.
pub fn a_shelf_has_the_reading_of_its_files()
    ensures { shelf_reads }
{}

/// Item `p` of file `i` is item `first_item i + p` of the shelf. Its place in the shelf leads back to file `i`, and to the
/// item's place in that file.
pub fn items_and_places_of_files_are_found()
    ensures numbers { items_are_numbered }
    ensures located { places_are_located }
    ensures placed { items_are_placed }
    ensures found { items_are_located }
{}

/// The entries and preambles of a shelf are those of the items of all files in turn, and a macro of an earlier file is seen in
/// the later ones.
pub fn seams_give_nothing()
    ensures { seams_say_nothing }
{}

/// Each item of a shelf sees the macros that it sees in the list of the items of all files in turn, without the seams. In that
/// list item `p` of file `i` is item `items_before i + p`.
pub fn seams_define_nothing()
    ensures listed { items_are_listed }
    ensures macros { items_see_the_same }
{}

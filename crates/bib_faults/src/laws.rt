//! Laws of reading that goes on after a fault, in the contracts of functions that do nothing.

ghost use Rattle.bib_faults.specs.FaultLaws.{NoFaultsWhereRead, first_is_reported, places_rise, one_list_of_faults, each_has_faults, stretches_end_at_faults, nothing_is_lost, whole_items_are_read};
ghost use Rattle.bib_faults.specs.FaultRows.{FaultsAreListed};

/// A text with a reading has no faults, and a text without faults has a reading.
pub fn faults_are_where_no_reading_is()
    ensures { NoFaultsWhereRead }
{}

/// The first of the faults is the fault that reading a file reports.
pub fn the_first_fault_is_reported()
    ensures { first_is_reported }
{}

/// The places of the faults rise, and none is after the end of the text.
pub fn places_of_faults_rise()
    ensures { places_rise }
{}

/// A text has one list of faults.
pub fn faults_are_one_list()
    ensures { one_list_of_faults }
{}

/// Each text has a list of faults.
pub fn each_text_has_its_faults()
    ensures { each_has_faults }
{}

/// The stretches of a text end at its faults.
pub fn a_stretch_ends_at_a_fault()
    ensures { stretches_end_at_faults }
{}

/// The stretches and what is read after the last fault are the text.
pub fn no_byte_is_lost()
    ensures { nothing_is_lost }
{}

/// A whole item, cut out, is a file that is read.
pub fn a_whole_item_is_read()
    ensures { whole_items_are_read }
{}

/// All faults of small files.
pub fn faults_are_listed()
    ensures { FaultsAreListed }
{}

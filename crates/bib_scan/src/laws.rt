//! Laws of reading, in the contracts of functions that do nothing.

ghost use Rattle.bib_spec.specs.Bytes.{name_limit};
ghost use Rattle.bib_spec.specs.Reading.{HasReading, HasReadingWithin, IsValueWithin};
ghost use Rattle.bib_scan.specs.Laws.{OneReading, CleanBeforeSign, IsSuchOrFails, OnePlace, OneFault, CutEnds, JoinedReadings};

/// No file has two readings.
pub fn one_reading()
    ensures { OneReading }
{}

/// A text is clean if and only if no command begins in it when an at-sign follows it.
pub fn clean_before_sign()
    ensures { CleanBeforeSign }
{}

/// Each text is a valid file, or goes wrong at one place. In the same way each text is one value, or goes wrong at one
/// place.
pub fn one_place()
    ensures file { IsSuchOrFails HasReading }
    ensures value { IsSuchOrFails (IsValueWithin name_limit) }
    ensures one_in_file { OnePlace HasReading }
    ensures one_in_value { OnePlace (IsValueWithin name_limit) }
{}

/// At the place where a file goes wrong, exactly one fault applies. The same is true of a value.
pub fn one_fault()
    ensures file { OneFault HasReadingWithin }
    ensures value { OneFault IsValueWithin }
{}

/// A valid file, cut anywhere, is a valid file or has ended too early. The same is true of a value.
pub fn cut_ends()
    ensures file { CutEnds HasReadingWithin }
    ensures value { CutEnds IsValueWithin }
{}

/// A file, and after it a file that begins with an item, are one file with the items of both.
pub fn joined_readings()
    ensures { JoinedReadings }
{}

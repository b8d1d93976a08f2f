//! Laws of the mapping, in the contracts of functions that do nothing.

ghost use Rattle.ris_format.specs.Profile.{ProfileIsKept};
ghost use Rattle.ris_format.specs.Escapes.{EscapedTextsBalance};
ghost use Rattle.ris_format.specs.Fitting.{SpacedRecordsFit, GivenRecordsFit};

/// A record of the profile, written as RIS and read back, is the same again, and nothing of it is dropped.
pub fn a_record_of_the_profile_is_kept()
    ensures { ProfileIsKept }
{}

/// The RIS record of a record can be written as text if the record's texts are field texts and its key has no white
/// space. So it is for each record that a database gives.
pub fn given_records_fit()
    ensures spaced { SpacedRecordsFit }
    ensures given { GivenRecordsFit }
{}

/// The braces of a text as LaTeX prints it match, whatever the text is: so a braced value can say it.
pub fn escaped_texts_balance()
    ensures { EscapedTextsBalance }
{}

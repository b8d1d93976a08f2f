//! Laws of listed records, in the contracts of functions that do nothing.

ghost use Rattle.bibtex_ris.specs.Fitting.{ListedRecordsFit};

/// The RIS record of each record that BibTeX lists can be written as text.
pub fn listed_records_fit()
    ensures { ListedRecordsFit }
{}

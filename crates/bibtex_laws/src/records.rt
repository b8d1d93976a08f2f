//! What the records that BibTeX gives have in common with those of the dialect.

ghost use Rattle.bibtex_laws.specs.DialectRecords.{records_are_the_dialects, MissingKeysMatter};

/// If no two entries have one key, no crossref is empty beside an empty key and, with `*`, no crossref is a cited key that no
/// entry has: each listed record has the fields of the dialect's record, at the depth that is the number of entries from which
/// BibTeX inherits there (bibtex 277).
///
/// The last condition counts: of `@misc{b, t={2}}@misc{c, crossref={zz}}` and the keys `*` and `zz`, BibTeX gives c the field t
/// of b (`a_missing_key_gives_fields_of_another_entry`).
pub fn records_are_those_of_the_dialect()
    ensures { records_are_the_dialects }
{}

/// With `*` and `zz`, the crossref `zz`, which no entry has, gives c the fields of the entry with the place that `zz` has among
/// the cited keys, the first. The dialect gives c no field at any depth (bibtex 277).
pub fn a_missing_key_gives_fields_of_another_entry()
    ensures { MissingKeysMatter }
{}

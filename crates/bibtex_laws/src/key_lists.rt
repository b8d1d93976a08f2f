//! What the list for some keys has in common with the cited list of the dialect.

ghost use Rattle.bibtex_laws.specs.KeyLists.{keys_list_the_dialects};

/// For keys that are spelled as in the file, without `*` and the empty key: the list is the cited list of the dialect up to the
/// order of added parents, with the same records, if no two entries have one key, no crossref is empty beside an empty key, no
/// entry names itself, no parent has a crossref, and each parent is after all its children. If the parents are in the order of
/// their first cited children, the order is the same, too (bibtex 263 to 283).
pub fn keys_give_the_cited_list_of_the_dialect()
    ensures { keys_list_the_dialects }
{}

//! Laws of extracts.

ghost use Rattle.extract_spec.specs.Laws.{trees_are_kept, extract_reads, extract_is_closed, entries_are_picked, preambles_stay, closed_entries_mean_alike, kept_entries_are_closed, extract_means_alike, uses_stay, raw_texts_stay, extract_opens, extract_length, cited_lists_stay, listed_are_kept, extract_once};
ghost use Rattle.extract_spec.specs.Needs.{kept_have_needs, kept_are_least, kept_entries_are_least};

/// The extract of a file has the trees of the kept items, in order. It is a reading of its bytes. The extract of an extract
/// with all of its entries is that extract.
pub fn an_extract_is_kept_items()
    ensures trees { trees_are_kept }
    ensures reads { extract_reads }
    ensures closed { extract_is_closed }
{}

/// The extract has the kept entries and all preambles, and each says what it says in the file: the macros that they use are
/// defined alike.
pub fn an_extract_says_what_the_file_says()
    ensures entries { entries_are_picked }
    ensures preambles { preambles_stay }
{}

/// If the target of each kept entry is kept, each kept entry has the record, the target and the parent that it had.
pub fn closed_entries_keep_their_records()
    ensures { closed_entries_mean_alike }
{}

/// Each entry of the extract has the record that it has in the file, at every depth, and the same target and parent: the
/// extract has every entry from which one of its entries inherits.
pub fn an_extract_keeps_its_records()
    ensures closed { kept_entries_are_closed }
    ensures means { extract_means_alike }
{}

/// The keys of an extract cite in it what they cite in the file, in the same order, and the same keys are unknown.
pub fn an_extract_keeps_its_cited_list()
    ensures { cited_lists_stay }
{}

/// The extract of an extract, for the same keys, is that extract.
pub fn an_extract_of_an_extract_is_that_extract()
    ensures { extract_once }
{}

/// The kept items have the last definition before each of their uses, and each set of items that has its needs has them all.
pub fn kept_items_are_the_least()
    ensures needs { kept_have_needs }
    ensures least { kept_are_least }
    ensures entries { kept_entries_are_least }
{}

/// The entries that the keys cite are kept, and what these inherit from is all that is kept.
pub fn cited_entries_are_kept()
    ensures { listed_are_kept }
{}

/// Each use of a macro in an item of the extract means what it means in the file, and each value has the same raw text. So the
/// extract of a file that can be opened can be opened, if it is not longer than a file may be. It is longer than the file by at
/// most one byte for each item.
pub fn an_extract_can_be_opened()
    ensures uses { uses_stay }
    ensures texts { raw_texts_stay }
    ensures opens { extract_opens }
    ensures len { extract_length }
{}

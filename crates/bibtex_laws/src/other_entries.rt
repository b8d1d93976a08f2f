//! What entries more or less keep of the lists for other keys.

ghost use Rattle.bib_spec.specs.Text.{Text};
ghost use Rattle.bib_spec.specs.Reading.{Reading};
ghost use Rattle.bib_spec.specs.Records.{Record};
ghost use Rattle.bibtex_laws.specs.OtherEntries.{other_entries_keep_lists, EditsKeepOtherLists};

/// Entries that no crossref of the others and no key of the list names may be put in, or taken out, anywhere: the list stays.
pub fn entries_that_nothing_names_keep_lists()
    ensures { other_entries_keep_lists }
{}

/// Removing an entry keeps each list of keys that does not cite it; adding entries keeps each that cites none of the new keys,
/// if no dangling crossref is one of them. The list has no `*`.
pub fn removing_and_adding_keep_other_lists()
    ensures { (key_base : Record → Text) (db : Reading) → EditsKeepOtherLists key_base db }
{}

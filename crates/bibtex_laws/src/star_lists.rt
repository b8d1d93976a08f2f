//! What entries more or less change in the list for `*` alone.

ghost use Rattle.bib_spec.specs.Text.{Text};
ghost use Rattle.bib_spec.specs.Reading.{Reading};
ghost use Rattle.bib_spec.specs.Records.{Record};
ghost use Rattle.bibtex_laws.specs.StarLists.{star_gains_strangers, EditsGainOrLose};

/// Entries with new keys that no crossref names may be put in, or taken out, anywhere: the list for `*` alone (bibtex 265, 283)
/// gains, or loses, their records, and all others stay.
pub fn entries_that_nothing_names_change_a_star_list_alone()
    ensures { star_gains_strangers }
{}

/// Removing an entry takes its record alone out of the list for `*` alone (bibtex 265, 283); adding entries puts theirs alone
/// into it, if no dangling crossref is one of the new keys.
pub fn removing_and_adding_change_a_star_list_alone()
    ensures { (key_base : Record → Text) (db : Reading) → EditsGainOrLose key_base db }
{}

//! What edits of names keep of the lists.

ghost use Rattle.bib_spec.specs.Text.{Text};
ghost use Rattle.bib_spec.specs.Reading.{Reading};
ghost use Rattle.bib_spec.specs.Records.{Record};
ghost use Rattle.bibtex_laws.specs.RenamingLists.{rename_key_keeps_lists, regenerate_keys_keeps_lists, MacroEditsKeepLists};

/// Renaming a key keeps every list, except for that key.
pub fn renaming_a_key_keeps_lists()
    ensures { rename_key_keeps_lists }
{}

/// Regenerating all keys keeps every list, except for the keys, if no two entries have one key and no crossref is empty beside
/// an empty key.
pub fn regenerating_keys_keeps_lists()
    ensures { regenerate_keys_keeps_lists }
{}

/// Renaming a macro, replacing its uses by its text, and giving a text a name keep every list.
pub fn macro_edits_keep_lists()
    ensures { (key_base : Record → Text) (db : Reading) → MacroEditsKeepLists key_base db }
{}

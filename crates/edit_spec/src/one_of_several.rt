//! Laws of the edits that name one of several by its number.

ghost use Rattle.edit_spec.specs.OneLaws.{later_entries_are_no_targets, rename_one_key_keeps, set_one_type_keeps, rename_fields_of_one_keeps, remove_one_keeps_others, set_one_definition_keeps, set_one_definition_replaces_a_value, undefine_one_keeps};

/// Renaming one of several entries with the same key, giving it another type or removing it, and renaming its fields, keeps all
/// that the database says of the others. No crossref names a later one of them.
pub fn one_of_several_entries_changes_alone()
    ensures targets { later_entries_are_no_targets }
    ensures key { rename_one_key_keeps }
    ensures kind { set_one_type_keeps }
    ensures fields { rename_fields_of_one_keeps }
    ensures removed { remove_one_keeps_others }
{}

/// Giving one of several definitions of a macro another value replaces that value alone, and keeps each record that does not depend
/// on the macro. Removing a definition that no use sees keeps each record.
pub fn one_of_several_definitions_changes_alone()
    ensures set { set_one_definition_keeps }
    ensures replaces { set_one_definition_replaces_a_value }
    ensures removed { undefine_one_keeps }
{}

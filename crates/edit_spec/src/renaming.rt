//! Laws of the edits that rename: they keep all that a database says, except for the names.

ghost use Rattle.edit_spec.specs.Laws.{rename_key_keeps, rename_macro_keeps, inline_macro_keeps, introduce_macro_keeps, undefine_macro_keeps, define_macro_keeps, set_macro_keeps, set_macro_replaces_a_value, rename_field_keeps, renamed_fields_are_inherited, regenerate_keys_keeps, made_keys_differ, regenerating_again_changes_nothing};

/// Renaming a key keeps each record except for that key, each parent, each preamble, what each macro stands for, and each
/// cited list.
pub fn renaming_a_key_keeps_the_rest()
    ensures { rename_key_keeps }
{}

/// Renaming a macro keeps each record, each parent, each preamble and each cited list, and the new name stands
/// for what the old one stood for.
pub fn renaming_a_macro_keeps_the_rest()
    ensures { rename_macro_keeps }
{}

/// Replacing a macro's uses by its text keeps each record, each parent, each preamble, each cited list, and what each
/// other macro stands for.
pub fn inlining_a_macro_keeps_the_rest()
    ensures { inline_macro_keeps }
{}

/// Removing the definition of a macro that nothing uses keeps each record, each parent, each preamble, each cited list, and
/// what each other macro stands for.
pub fn undefining_a_macro_keeps_the_rest()
    ensures { undefine_macro_keeps }
{}

/// Defining a macro that nothing uses keeps each record, each parent, each preamble, each cited list, and what each other macro
/// stands for.
pub fn defining_a_macro_keeps_the_rest()
    ensures { define_macro_keeps }
{}

/// Giving a macro another value keeps each record whose fields use neither the macro nor a macro that depends on it. The value is
/// replaced, and no other byte.
pub fn setting_a_macro_keeps_the_rest()
    ensures keeps { set_macro_keeps }
    ensures replaces { set_macro_replaces_a_value }
{}

/// Renaming fields keeps each record except for these names, each parent, each preamble, what each macro stands for, and each
/// cited list. If fields are renamed in every entry, each record has at every depth the new name in place of the old one.
pub fn renaming_fields_keeps_the_rest()
    ensures keeps { rename_field_keeps }
    ensures inherited { renamed_fields_are_inherited }
{}

/// Giving a text a name keeps each record, each parent, each preamble, each cited list, and what each other
/// macro stands for.
pub fn introducing_a_macro_keeps_the_rest()
    ensures { introduce_macro_keeps }
{}

/// Regenerating all keys keeps each record except for its key, each parent, each preamble, what each macro stands for, and
/// each cited list. The keys differ. Regenerating them again is not refused, and changes nothing.
pub fn regenerating_keys_keeps_the_rest()
    ensures keeps { regenerate_keys_keeps }
    ensures differ { made_keys_differ }
    ensures again { regenerating_again_changes_nothing }
{}

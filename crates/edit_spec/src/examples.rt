//! What the definitions say of small files, and what would go wrong without each condition of an edit.

ghost use Rattle.edit_spec.specs.Examples.{MacroIsReadWhereItStands, MonthIsOverridden, MacroIsInlinedAsText, TextGetsName, DefinitionIsAdded, MacroGetsValue, UseBeforeDefinitionIsLeft, TextsAreJoined, FieldIsSetAndDropped, FirstCounts, EntriesAreAddedAndMoved, JoinedTextStaysText, TrailJoinsTextBefore, ParentIsCitedWithChildren, CrossrefsFindTargets, CrossrefOfPartsIsRenamed, RecordInheritsAlongChain, MadeKeysSwap, MadeKeysDiffer, MadeKeysReadTheChain, DanglingCrossrefFindsKey, KeyInUseTakesChildren, SpacedKeyLosesChildren, RepeatedKeyTakesChildren, RemovedParentLeavesChildren, AddedKeyTakesChildren, HighPlaceIsNotReached, KeyBaseIsNeeded, NameInUseGivesText, MacroDefinedTwiceHasTwoTexts, StarCitesAll, EditsAreAccepted, OneOfSeveralChanges, OneDefinitionChanges};

/// A use of a macro means the last definition before it; if there is none, it means the month of that name.
pub fn a_macro_is_read_where_it_stands()
    ensures { MacroIsReadWhereItStands }
{}

/// In its own definition a macro gives nothing; renaming the macro changes that use as every later one.
pub fn a_month_is_overridden()
    ensures { MonthIsOverridden }
{}

/// Inlining replaces a use by the text that the use gave, not by the parts of the macro's definition.
pub fn a_macro_is_inlined_as_text()
    ensures { MacroIsInlinedAsText }
{}

/// A part in braces and one in quotes become uses of one macro.
pub fn a_text_gets_a_name()
    ensures { TextGetsName }
{}

/// A definition is added in a line of its own, after the definitions before the first entry.
pub fn a_definition_is_added()
    ensures { DefinitionIsAdded }
{}

/// Another value of a macro changes the texts of its uses, also through another macro.
pub fn a_macro_gets_a_value()
    ensures { MacroGetsValue }
{}

/// A use before the definition means something else, so renaming the macro leaves it unchanged.
pub fn a_use_before_the_definition_is_left()
    ensures { UseBeforeDefinitionIsLeft }
{}

/// The texts of parts are joined unchanged, and a field text has single spaces.
pub fn texts_are_joined()
    ensures { TextsAreJoined }
{}

/// A new field is put after the last value; a dropped field takes its comma along.
pub fn a_field_is_set_and_dropped()
    ensures { FieldIsSetAndDropped }
{}

/// The first field of a name counts, and so does the first entry of a key.
pub fn the_first_of_a_name_counts()
    ensures { FirstCounts }
{}

/// An added entry gets lines of its own; a moved entry leaves behind the end of its old line.
pub fn entries_are_added_and_moved()
    ensures { EntriesAreAddedAndMoved }
{}

/// A removal whose joined text would begin a command is refused.
pub fn joined_text_stays_text()
    ensures { JoinedTextStaysText }
{}

/// The text after a removed item joins the text before it.
pub fn a_trail_joins_the_text_before()
    ensures { TrailJoinsTextBefore }
{}

/// A parent is listed once enough of its children are, and a child inherits the fields that it lacks.
pub fn a_parent_is_cited_with_its_children()
    ensures { ParentIsCitedWithChildren }
{}

/// A crossref may name its own entry, which then is no parent, or no entry at all.
pub fn crossrefs_find_targets()
    ensures { CrossrefsFindTargets }
{}

/// A crossref's text is the joined text of its parts, and renaming its target replaces them all.
pub fn a_crossref_of_parts_is_renamed()
    ensures { CrossrefOfPartsIsRenamed }
{}

/// A record inherits from its parents in turn, nearest first; a ring ends the chain.
pub fn a_record_inherits_along_a_chain()
    ensures { RecordInheritsAlongChain }
{}

/// All keys change at once, so two entries can exchange keys.
pub fn made_keys_change_places()
    ensures { MadeKeysSwap }
{}

/// A made key differs from all keys made before it and from the texts of dangling crossrefs.
pub fn made_keys_differ()
    ensures { MadeKeysDiffer }
{}

/// The base of a made key comes from the record at the requested depth.
pub fn made_keys_read_the_chain()
    ensures { MadeKeysReadTheChain }
{}

/// Without the condition, renaming a key to the text of a dangling crossref would give that crossref's entry a parent.
pub fn a_dangling_crossref_finds_a_key()
    ensures { DanglingCrossrefFindsKey }
{}

/// Without the condition, an entry that gets another entry's key would take that entry's children.
pub fn a_key_in_use_takes_children()
    ensures { KeyInUseTakesChildren }
{}

/// Without the condition, an entry could get a key with white space that no crossref can name.
pub fn a_key_with_spaces_loses_children()
    ensures { SpacedKeyLosesChildren }
{}

/// Without the condition, removing one of two entries with the same key would give its children to the other.
pub fn a_repeated_key_takes_children()
    ensures { RepeatedKeyTakesChildren }
{}

/// Without the condition, removing a parent would take from its children what they inherit.
pub fn a_removed_parent_leaves_children()
    ensures { RemovedParentLeavesChildren }
{}

/// Without the condition, an added entry with a key in use would take the children of the entry that has the key.
pub fn an_added_key_takes_children()
    ensures { AddedKeyTakesChildren }
{}

/// Without the condition, a moved entry would not be at the requested position.
pub fn a_high_position_is_not_reached()
    ensures { HighPlaceIsNotReached }
{}

/// Without the conditions on the base, made keys would change again each time, or lose their entries' children.
pub fn a_key_base_is_needed()
    ensures { KeyBaseIsNeeded }
{}

/// Without the condition, a new name that is in use would give a text to a use that gave none.
pub fn a_name_in_use_gives_text()
    ensures { NameInUseGivesText }
{}

/// Without the condition, inlining a macro that is defined twice would replace two texts by one.
pub fn a_macro_defined_twice_has_two_texts()
    ensures { MacroDefinedTwiceHasTwoTexts }
{}

/// A key may be `*`, and a list of that key alone cites all entries.
pub fn a_star_cites_all()
    ensures { StarCitesAll }
{}

/// Each kind of edit is accepted in some file, so the laws are not empty.
pub fn edits_are_accepted()
    ensures { EditsAreAccepted }
{}

/// A number says which of several entries with one key is meant, or which of several fields with one name.
pub fn one_of_several_changes()
    ensures { OneOfSeveralChanges }
{}

/// A number says which of several definitions of a macro is meant.
pub fn one_definition_changes()
    ensures { OneDefinitionChanges }
{}

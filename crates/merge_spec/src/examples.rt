//! What the definitions say of small files.

ghost use Rattle.merge_spec.specs.Examples.{BothAreAdded, SameIsAddedOnce, DifferentAreInConflict, BothFieldsAreSet, FieldIsAdded, FieldIsDropped, FieldIsInConflict, PartsAreTold, OtherBytesAreNoChange, RemovedIsInConflict, RemovedGoes, RenamedIsInConflict, MovedAndSet, ChildHasLostItsParent};

/// Entries that both sides add are there once each; two that differ and have one key are a conflict.
pub fn added_entries_are_there_once()
    ensures added { BothAreAdded }
    ensures same { SameIsAddedOnce }
    ensures different { DifferentAreInConflict }
{}

/// Fields of one entry are merged one by one; two values of one field are a conflict.
pub fn fields_are_merged_one_by_one()
    ensures set { BothFieldsAreSet }
    ensures added { FieldIsAdded }
    ensures dropped { FieldIsDropped }
    ensures conflict { FieldIsInConflict }
    ensures told { PartsAreTold }
    ensures other { OtherBytesAreNoChange }
{}

/// An entry that one side removes goes if the other left it; if the other changed it or gave it its key, this is a conflict.
pub fn removed_entries_go_or_are_in_conflict()
    ensures conflict { RemovedIsInConflict }
    ensures gone { RemovedGoes }
    ensures renamed { RenamedIsInConflict }
{}

/// An entry that one side moves has the fields that the other side set.
pub fn moved_entries_keep_their_fields()
    ensures { MovedAndSet }
{}

/// A child that one side adds has lost its parent if the other side removed that.
pub fn a_child_of_a_removed_parent_is_in_conflict()
    ensures { ChildHasLostItsParent }
{}

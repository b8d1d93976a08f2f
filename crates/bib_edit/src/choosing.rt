//! Chooses, by whether a name has a number, between the edit of the only one of its name and that of one of several.

ghost use Rattle.std.specs.Prelude.{Some, OnOk, IfOk, IfErr};
ghost use Rattle.bib_edit.specs.Planning.{IsAllowedEdit, ArePiecesOf, IsRefusal};
ghost use Rattle.bib_data.specs.declared.edit.Edit.TheVariants.{SetField, DropField, RemoveEntry, MoveEntry, RenameKey, SetType, UndefineMacro, RenameField, SetMacro};

use crate::drop_field::drop_field;
use crate::fault::EditFault;
use crate::move_entry::move_entry;
use crate::numbers::{is_either_numbered, is_numbered, which_of};
use crate::one_definition::{set_one_definition, undefine_one};
use crate::one_entry::{
    drop_one_field, move_one, remove_one, rename_fields_of_one, rename_one_key, set_one_field,
    set_one_type,
};
use crate::remove_entry::remove_entry;
use crate::rename_field::rename_in_entry;
use crate::rename_key::rename_key;
use crate::set_field::set_field;
use crate::set_macro::set_macro;
use crate::set_type::set_type;
use crate::undefine_macro::undefine_macro;
use bib_store::{Database, ItemList, Piece};
use bib_text::Seq;
use std::alloc::Global;

/// The pieces that set a field of an entry, or the first reason against it.
pub(crate) fn set<L: ItemList>(
    alloc: Global,
    db: &Database<L>,
    key: &[u8],
    field: &[u8],
    value: &[u8],
) -> Result<Seq<Piece>, EditFault>
    ensures pieces { IfOk result (ArePiecesOf db.now (SetField key.now field.now value.now)) }
    ensures allowed { OnOk result (IsAllowedEdit db.now (SetField key.now field.now value.now)) }
    ensures refused { IfErr result (IsRefusal db.now (SetField key.now field.now value.now)) }
{
    if is_either_numbered(key, field) {
        return set_one_field(alloc, db, which_of(key), which_of(field), value);
    }
    set_field(alloc, db, key, field, value)
}

/// The pieces that take a field out of an entry, or the first reason against it.
pub(crate) fn drop_row<L: ItemList>(
    alloc: Global,
    db: &Database<L>,
    key: &[u8],
    field: &[u8],
) -> Result<Seq<Piece>, EditFault>
    ensures pieces { IfOk result (ArePiecesOf db.now (DropField key.now field.now)) }
    ensures allowed { OnOk result (IsAllowedEdit db.now (DropField key.now field.now)) }
    ensures refused { IfErr result (IsRefusal db.now (DropField key.now field.now)) }
{
    if is_either_numbered(key, field) {
        return drop_one_field(alloc, db, which_of(key), which_of(field));
    }
    drop_field(alloc, db, key, field)
}

/// The pieces that take an entry out, or the first reason against it.
pub(crate) fn remove<L: ItemList>(
    alloc: Global,
    db: &Database<L>,
    key: &[u8],
) -> Result<Seq<Piece>, EditFault>
    ensures pieces { IfOk result (ArePiecesOf db.now (RemoveEntry key.now)) }
    ensures allowed { OnOk result (IsAllowedEdit db.now (RemoveEntry key.now)) }
    ensures refused { IfErr result (IsRefusal db.now (RemoveEntry key.now)) }
{
    if is_numbered(key) {
        return remove_one(alloc, db, which_of(key));
    }
    remove_entry(alloc, db, key)
}

/// The pieces that move an entry to this position, or the first reason against it.
pub(crate) fn move_to<L: ItemList>(
    alloc: Global,
    db: &Database<L>,
    key: &[u8],
    position: usize,
) -> Result<Seq<Piece>, EditFault>
    ensures pieces { IfOk result (ArePiecesOf db.now (MoveEntry key.now position)) }
    ensures allowed { OnOk result (IsAllowedEdit db.now (MoveEntry key.now position)) }
    ensures refused { IfErr result (IsRefusal db.now (MoveEntry key.now position)) }
{
    if is_numbered(key) {
        return move_one(alloc, db, which_of(key), position);
    }
    move_entry(alloc, db, key, position)
}

/// The pieces that give an entry another key, or the first reason against it.
pub(crate) fn rekey<L: ItemList>(
    alloc: Global,
    db: &Database<L>,
    from: &[u8],
    to: &[u8],
) -> Result<Seq<Piece>, EditFault>
    ensures pieces { IfOk result (ArePiecesOf db.now (RenameKey from.now to.now)) }
    ensures allowed { OnOk result (IsAllowedEdit db.now (RenameKey from.now to.now)) }
    ensures refused { IfErr result (IsRefusal db.now (RenameKey from.now to.now)) }
{
    if is_numbered(from) {
        return rename_one_key(alloc, db, which_of(from), to);
    }
    rename_key(alloc, db, from, to)
}

/// The pieces that give an entry another type, or the first reason against it.
pub(crate) fn retype<L: ItemList>(
    alloc: Global,
    db: &Database<L>,
    key: &[u8],
    kind_name: &[u8],
) -> Result<Seq<Piece>, EditFault>
    ensures pieces { IfOk result (ArePiecesOf db.now (SetType key.now kind_name.now)) }
    ensures allowed { OnOk result (IsAllowedEdit db.now (SetType key.now kind_name.now)) }
    ensures refused { IfErr result (IsRefusal db.now (SetType key.now kind_name.now)) }
{
    if is_numbered(key) {
        return set_one_type(alloc, db, which_of(key), kind_name);
    }
    set_type(alloc, db, key, kind_name)
}

/// The pieces that take a definition out, or the first reason against it.
pub(crate) fn undefine<L: ItemList>(
    alloc: Global,
    db: &Database<L>,
    name: &[u8],
) -> Result<Seq<Piece>, EditFault>
    ensures pieces { IfOk result (ArePiecesOf db.now (UndefineMacro name.now)) }
    ensures allowed { OnOk result (IsAllowedEdit db.now (UndefineMacro name.now)) }
    ensures refused { IfErr result (IsRefusal db.now (UndefineMacro name.now)) }
{
    if is_numbered(name) {
        let which = which_of(name);
        return undefine_one(alloc, db, which.name, which.number.unwrap_or(0));
    }
    undefine_macro(alloc, db, name)
}

/// The pieces that give fields of an entry another name, or the first reason against it.
pub(crate) fn rename_fields<L: ItemList>(
    alloc: Global,
    db: &Database<L>,
    from: &[u8],
    to: &[u8],
    key: &[u8],
) -> Result<Seq<Piece>, EditFault>
    ensures pieces { IfOk result (ArePiecesOf db.now (RenameField from.now to.now (Some key.now))) }
    ensures allowed { OnOk result (IsAllowedEdit db.now (RenameField from.now to.now (Some key.now))) }
    ensures refused { IfErr result (IsRefusal db.now (RenameField from.now to.now (Some key.now))) }
{
    if is_numbered(key) {
        return rename_fields_of_one(alloc, db, which_of(key), from, to);
    }
    rename_in_entry(alloc, db, from, to, key)
}

/// The pieces that give a definition another value, or the first reason against it.
pub(crate) fn redefine<L: ItemList>(
    alloc: Global,
    db: &Database<L>,
    name: &[u8],
    value: &[u8],
) -> Result<Seq<Piece>, EditFault>
    ensures pieces { IfOk result (ArePiecesOf db.now (SetMacro name.now value.now)) }
    ensures allowed { OnOk result (IsAllowedEdit db.now (SetMacro name.now value.now)) }
    ensures refused { IfErr result (IsRefusal db.now (SetMacro name.now value.now)) }
{
    if is_numbered(name) {
        let which = which_of(name);
        let number = which.number.unwrap_or(0);
        return set_one_definition(alloc, db, which.name, number, value);
    }
    set_macro(alloc, db, name, value)
}

//! Plans an edit.

ghost use Rattle.std.specs.Prelude.{OnOk, IfOk, IfErr};
ghost use Rattle.bib_data.specs.Depths.{HasDepth};
ghost use Rattle.bib_edit.specs.Planning.{IsAllowedEdit, ArePiecesOf, IsRefusal};

use crate::add_entry::add_entry;
use crate::add_many::add_many;
use crate::choosing::{
    drop_row, move_to, redefine, rekey, remove, rename_fields, retype, set, undefine,
};
use crate::define_macro::define_macro;
use crate::fault::EditFault;
use crate::inline_macro::inline_macro;
use crate::introduce_macro::introduce_macro;
use crate::regenerate_keys::regenerate_keys;
use crate::rename_field::rename_in_all;
use crate::rename_macro::rename_macro;
use bib_data::Edit;
use bib_store::{Database, ItemList, Piece};
use bib_text::Seq;
use std::alloc::Global;

/// The pieces that make the edit, or the first reason that refuses it. Nothing has changed yet. It takes time in the
/// length of the edit and of the entries that it changes, beside what the database takes to find these and their
/// places; new keys for all entries take time in the length of the file, old and new. So does an edit of macros, unless
/// `Database::note_parts` was called before: then it takes time in the length of the pages of items that have what it
/// seeks. An edit that gives a macro a value takes time and memory as opening the file does, if an item after the definition
/// uses the macro or the value's text is too long. A change of one of several definitions of a macro looks at each item up to
/// that one. Want of memory may come before any other reason. An edit
/// that makes keys has a depth of 1 to `bib_data::DEPTH_LIMIT`. (dialect)
pub fn plan<L: ItemList>(
    alloc: Global,
    db: &Database<L>,
    edit: &Edit,
) -> Result<Seq<Piece>, EditFault>
    requires { HasDepth edit.now }
    ensures pieces { IfOk result (ArePiecesOf db.now edit.now) }
    ensures allowed { OnOk result (IsAllowedEdit db.now edit.now) }
    ensures refused { IfErr result (IsRefusal db.now edit.now) }
{
    match edit {
        Edit::SetField { key, field, value } => set(
            alloc,
            db,
            key.as_slice(),
            field.as_slice(),
            value.as_slice(),
        ),
        Edit::DropField { key, field } => { drop_row(alloc, db, key.as_slice(), field.as_slice()) }
        Edit::AddEntry { place, entry } => add_entry(alloc, db, *place, entry),
        Edit::AddMany { entries } => add_many(alloc, db, entries.as_slice()),
        Edit::RemoveEntry { key } => remove(alloc, db, key.as_slice()),
        Edit::MoveEntry { key, place } => move_to(alloc, db, key.as_slice(), *place),
        Edit::RenameKey { from, to } => rekey(alloc, db, from.as_slice(), to.as_slice()),
        Edit::RegenerateKeys { depth } => regenerate_keys(alloc, db, *depth),
        Edit::RenameMacro { from, to } => {
            rename_macro(alloc, db, from.as_slice(), to.as_slice())
        }
        Edit::InlineMacro { name } => inline_macro(alloc, db, name.as_slice()),
        Edit::IntroduceMacro { name, text } => {
            introduce_macro(alloc, db, name.as_slice(), text.as_slice())
        }
        Edit::SetType { key, kind_name } => {
            retype(alloc, db, key.as_slice(), kind_name.as_slice())
        }
        Edit::UndefineMacro { name } => undefine(alloc, db, name.as_slice()),
        Edit::RenameField {
            from,
            to,
            key: None,
        } => rename_in_all(alloc, db, from.as_slice(), to.as_slice()),
        Edit::RenameField {
            from,
            to,
            key: Some(key),
        } => rename_fields(alloc, db, from.as_slice(), to.as_slice(), key.as_slice()),
        Edit::DefineMacro { name, value } => {
            define_macro(alloc, db, name.as_slice(), value.as_slice())
        }
        Edit::SetMacro { name, value } => { redefine(alloc, db, name.as_slice(), value.as_slice()) }
    }
}

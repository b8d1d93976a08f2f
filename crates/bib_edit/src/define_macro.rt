//! Defines a macro.

ghost use Rattle.std.specs.Prelude.{◌≡◌, ◌≤◌, ◌+◌, length, OnOk, IfOk, IfErr};
ghost use Rattle.edit_spec.specs.Edits.{definitions_end};
ghost use Rattle.edit_spec.specs.OtherLaws.{number_of_first};
ghost use Rattle.bib_scan.specs.Layout.{start_of};
ghost use Rattle.bib_store.specs.Readings.{OfReading, IsItemNumber, IsItemGap, is_entry_tree};
ghost use Rattle.bib_edit.specs.Removal.{body_at};
ghost use Rattle.bib_edit.specs.MacroValues.{definition_line, defining_piece};
ghost use Rattle.bib_edit.specs.Planning.{IsAllowedEdit, ArePiecesOf, IsRefusal};
ghost use Rattle.bib_data.specs.declared.edit.Edit.TheVariants.{DefineMacro};
ghost use Rattle.bib_edit.specs.declared.fault.EditFault.TheVariants.{Memory};

use crate::fault::EditFault;
use crate::pieces::{insertion_of, one_piece};
use crate::taking_out::body_of;
use crate::trying::unless_too_long;
use crate::unused_values::stays_short;
use crate::values::is_value;
use bib_scan::{Kind, is_name, one_reading};
use bib_store::{Database, ItemList, Piece};
use bib_text::{Seq, Text};
use std::alloc::{AllocError, Global};

/// The piece that defines the macro as this value, or the first reason against it. It looks at items as `push_from` does, from the
/// place of the definition on. If one uses the macro, or the value's text is too long, it takes time and memory as opening the
/// file does.
pub(crate) fn define_macro<L: ItemList>(
    alloc: Global,
    db: &Database<L>,
    name: &[u8],
    value: &[u8],
) -> Result<Seq<Piece>, EditFault>
    ensures pieces { IfOk result (ArePiecesOf db.now (DefineMacro name.now value.now)) }
    ensures allowed { OnOk result (IsAllowedEdit db.now (DefineMacro name.now value.now)) }
    ensures refused { IfErr result (IsRefusal db.now (DefineMacro name.now value.now)) }
{
    db.opens();
    one_reading();
    if !is_name(name) {
        return Err(EditFault::BadName);
    }
    if !is_value(alloc, value)? {
        return Err(EditFault::BadValue);
    }
    if db.definition_count(name) > 0 {
        return Err(EditFault::NameInUse);
    }
    let end = definitions_end(db);
    let piece = defining_piece(alloc, db, end, name, value)?;
    let pieces = one_piece(alloc, piece)?;
    let short = stays_short(alloc, db, end, end, name, value)?;
    unless_too_long(alloc, db, pieces, short)
}

/// The piece that puts the definition after the first `end` items.
fn defining_piece<L: ItemList>(
    alloc: Global,
    db: &Database<L>,
    end: usize,
    name: &[u8],
    value: &[u8],
) -> Result<Piece, EditFault>
    requires { IsItemGap db.now end }
    ensures piece { IfOk result (λ piece. OfReading db.now (λ r. piece ≡ defining_piece r end name.now value.now)) }
    ensures only { IfErr result (λ fault. fault ≡ Memory) }
{
    if end == 0 {
        let line = definition_line(alloc, b"", name, value, b"\n")?;
        return Ok(insertion_of(alloc, db, 0, line));
    }
    let line = definition_line(alloc, b"\n", name, value, b"")?;
    Ok(Piece {
        place: body_end(db, end - 1) as u64,
        old: Seq::empty(alloc),
        new: line,
    })
}

/// The place in the file at which the body of item `n` ends.
fn body_end<L: ItemList>(db: &Database<L>, n: usize) -> usize
    requires { IsItemNumber db.now n }
    ensures { OfReading db.now (λ r. result ≡ start_of r n + length (body_at r.items n)) }
{
    db.opens();
    db.item_place(n) + body_of(db, n).len()
}

/// How many items there are before the first entry.
fn count_before_entries<L: ItemList>(db: &Database<L>) -> usize
    ensures { OfReading db.now (λ r. result ≡ number_of_first is_entry_tree r.items) }
{
    if db.entry_count() == 0 {
        return db.item_count();
    }
    db.entry_item(0)
}

/// How many items there are up to the last definition before the first entry; 0 if there is no such definition. It looks at the
/// items between that definition and that entry.
fn definitions_end<L: ItemList>(db: &Database<L>) -> usize
    ensures end { OfReading db.now (λ r. result ≡ definitions_end r.items) }
    ensures within { OfReading db.now (λ r. result ≤ length r.items) }
{
    db.opens();
    let count = count_before_entries(db);
    'items: for passed in 0..count {
        let end = count - passed;
        match db.item(end - 1).kind() {
            Kind::Macro => return end,
            Kind::Entry | Kind::Preamble | Kind::Comment => {}
        }
    }
    0
}

/// A definition as it is written, between these texts. (dialect)
fn definition_line(
    alloc: Global,
    before: &[u8],
    name: &[u8],
    value: &[u8],
    after: &[u8],
) -> Result<Text, AllocError>
    ensures { IfOk result (λ line. line ≡ definition_line before.now name.now value.now after.now) }
{
    let mut line = Vec::from_slice(alloc, before)?;
    line.extend_from_slice(b"@string{")?;
    line.extend_from_slice(name)?;
    line.extend_from_slice(b" = ")?;
    line.extend_from_slice(value)?;
    line.extend_from_slice(b"}")?;
    line.extend_from_slice(after)?;
    Ok(Seq::from_vec(line))
}

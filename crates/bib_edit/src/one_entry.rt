//! Changes one entry of several that have the same key, or a field of several that have the same name.

ghost use Rattle.std.specs.Prelude.{◌≡◌, ◌↔◌, ◌<◌, ◌^◌, ◌||◌, IsTrue, Some, true, option_map, OnOk, IfOk, IfErr, IfSome};
ghost use Rattle.std.specs.List.{list_any};
ghost use Rattle.std.specs.Option.{IfNone};
ghost use Rattle.bib_spec.specs.Records.{entries_of, entry_named, keys_of};
ghost use Rattle.bib_spec.specs.Text.{is_new_key, same};
ghost use Rattle.bib_scan.specs.View.{field_seen};
ghost use Rattle.edit_spec.specs.Edits.{SetsField, DropsField, RenamesFields, SetsType, RenamesKey, Removes, Moves, nth_of, item_meant, is_entry, is_unclear, holders, last_position, IsParentMeant};
ghost use Rattle.bib_store.specs.Readings.{OfReading};
ghost use Rattle.bib_tokens.specs.FirstItem.{first_item};
ghost use Rattle.bib_edit.specs.Dangling.{is_awaited};
ghost use Rattle.bib_edit.specs.Moving.{IsOneMovable};
ghost use Rattle.bib_edit.specs.Numbers.{which_seen};
ghost use Rattle.bib_edit.specs.FieldPieces.{rows_end, set_at};
ghost use Rattle.bib_edit.specs.MeantFields.{nth_field, IsMeantField, is_lacking};
ghost use Rattle.bib_edit.specs.OneOfSeveral.{ArePiecesFor, IsAllowedFor, IsRefusalFor, OfSpelled, IsMeantAt, IsMeantFault, change};
ghost use Rattle.bib_edit.specs.declared.fault.EditFault.TheVariants.{Memory};

use crate::address::sought_fields;
use crate::dangling::is_awaited;
use crate::drop_field::{cut, joins_key};
use crate::fault::EditFault;
use crate::limits::{are_too_long, is_text_too_long};
use crate::moving::{is_field_long, moved_pieces, next_item};
use crate::new_keys::key_for;
use crate::numbers::Which;
use crate::pieces::one_piece;
use crate::referring::is_parent;
use crate::rekeying::{push_key, renaming};
use crate::rename_field::{are_renamable, found_in_item, renaming as renaming_fields};
use crate::set_field::{row_text, rows_end};
use crate::set_type::typing;
use crate::taking_out::{joins_cleanly, removal_of};
use crate::values::value_parts;
use bib_scan::{FieldView, ItemView, is_key, is_name, is_type, one_reading};
use bib_store::{Database, ItemList, Piece};
use bib_text::{Seq, copied, same_folded};
use std::alloc::Global;

/// The number of the item that is the one with this number among the entries that have the key. It takes time in the key's length.
fn nth_entry<L: ItemList>(db: &Database<L>, name: &[u8], number: usize) -> Option<usize>
    ensures { OfReading db.now (λ r. result ≡ nth_of (λ item. is_entry name.now item.tree) number r.items) }
{
    let m = db.nth_holder(name, number)?;
    Some(db.entry_item(m))
}

/// The number of the item that is the entry that is meant.
pub(crate) fn item_meant<L: ItemList>(db: &Database<L>, key: Which<'_>) -> Option<usize>
    ensures { OfReading db.now (λ r. result ≡ item_meant (which_seen key.entry) r.items) }
{
    nth_entry(db, key.name, key.number.unwrap_or(0))
}

/// The field that is meant, and whether it is unclear which is: there are several, and no number tells.
#[derive(Clone, Copy)]
struct MeantField<'a> {
    field: Option<FieldView<'a>>,
    is_unclear: bool,
}

/// The field with this number among those that have the name.
fn nth_field<'a>(view: &ItemView<'a>, name: &[u8], number: usize) -> Option<FieldView<'a>>
    ensures { option_map field_seen result ≡ nth_field name.now number view.now.fields }
{
    let mut more = number;
    let mut rest = view.fields();
    'fields: while let Some(field) = rest.next() {
        if same_folded(field.name, name) {
            if more == 0 {
                return Some(field);
            }
            more -= 1;
        }
    }
    None
}

/// The field of the item that is meant.
fn field_meant<'a>(view: &ItemView<'a>, which: Which<'_>) -> MeantField<'a>
    ensures { IsMeantField (which_seen which.entry) view.now.fields result }
{
    match which.number {
        Some(number) => MeantField {
            field: nth_field(view, which.name, number),
            is_unclear: false,
        },
        None => {
            let sought = sought_fields(view, which.name);
            MeantField {
                field: sought.first,
                is_unclear: sought.is_repeated,
            }
        }
    }
}

/// Whether a number names a field that is not there.
fn is_lacking(which: Which<'_>, meant: MeantField<'_>) -> bool
    ensures { result ≡ is_lacking (which_seen which.entry) (option_map field_seen meant.entry.field) }
{
    which.number.is_some() && meant.field.is_none()
}

/// Whether it is unclear which entry is meant, or which of its fields.
fn is_either_unclear<L: ItemList>(db: &Database<L>, key: Which<'_>, meant: MeantField<'_>) -> bool
    ensures { OfReading db.now (λ r. result ≡ (is_unclear (which_seen key.entry) (holders key.entry.name.now r) || meant.entry.is_unclear)) }
{
    is_unclear(db, key) || meant.is_unclear
}

/// Whether several entries have the key, and no number tells which is meant.
fn is_unclear<L: ItemList>(db: &Database<L>, key: Which<'_>) -> bool
    ensures { OfReading db.now (λ r. result ≡ is_unclear (which_seen key.entry) (holders key.entry.name.now r)) }
{
    key.number.is_none() && db.holders(key.name) > 1
}

/// The pieces that set this field of this entry, or the first reason against it. A field that a number names must be there.
pub(crate) fn set_one_field<L: ItemList>(
    alloc: Global,
    db: &Database<L>,
    key: Which<'_>,
    field: Which<'_>,
    value: &[u8],
) -> Result<Seq<Piece>, EditFault>
    ensures pieces { IfOk result (λ pieces. OfSpelled value.now (λ v. ArePiecesFor (change key.entry (SetsField (which_seen field.entry) v)) db.now pieces)) }
    ensures allowed { OnOk result (OfSpelled value.now (λ v. IsAllowedFor (change key.entry (SetsField (which_seen field.entry) v)) db.now)) }
    ensures refused { IfErr result (λ fault. OfSpelled value.now (λ v. IsRefusalFor (change key.entry (SetsField (which_seen field.entry) v)) db.now fault)) }
{
    db.opens();
    if !is_name(field.name) {
        return Err(EditFault::BadName);
    }
    let Some(parts) = value_parts(alloc, value)? else {
        return Err(EditFault::BadValue);
    };
    let Some(n) = item_meant(db, key) else {
        return Err(EditFault::NotFound);
    };
    let view = db.item(n);
    let meant = field_meant(&view, field);
    if is_lacking(field, meant) {
        return Err(EditFault::NotFound);
    }
    if is_either_unclear(db, key, meant) {
        return Err(EditFault::Ambiguous);
    }
    let piece = set_piece(
        alloc,
        db.item_place(n),
        &view,
        meant.field,
        field.name,
        value,
    )?;
    let pieces = one_piece(alloc, piece)?;
    if are_too_long(db, pieces.as_slice()) {
        return Err(EditFault::FileTooLong);
    }
    if is_text_too_long(db, n, &parts, value) {
        return Err(EditFault::TextTooLong);
    }
    Ok(pieces)
}

/// The piece that gives the field the value, or puts a new field at the end, in an item that begins at this place.
fn set_piece(
    alloc: Global,
    start: usize,
    view: &ItemView<'_>,
    field: Option<FieldView<'_>>,
    name: &[u8],
    value: &[u8],
) -> Result<Piece, EditFault>
    requires { (set_at start name.now value.now (rows_end view.now) (option_map field_seen field)).place < 2 ^ 64 }
    ensures piece { IfOk result (λ p. p ≡ set_at start name.now value.now (rows_end view.now) (option_map field_seen field.entry)) }
    ensures only { IfErr result (λ fault. fault ≡ Memory) }
{
    match field {
        Some(old) => Ok(Piece {
            place: (start + old.value_at) as u64,
            old: copied(alloc, old.value)?,
            new: copied(alloc, value)?,
        }),
        None => Ok(Piece {
            place: (start + rows_end(view, sought_fields(view, name).last)) as u64,
            old: copied(alloc, b"")?,
            new: row_text(alloc, name, value)?,
        }),
    }
}

/// The pieces that take this field out of this entry, or the first reason against it.
pub(crate) fn drop_one_field<L: ItemList>(
    alloc: Global,
    db: &Database<L>,
    key: Which<'_>,
    field: Which<'_>,
) -> Result<Seq<Piece>, EditFault>
    ensures pieces { IfOk result (ArePiecesFor (change key.entry (DropsField (which_seen field.entry))) db.now) }
    ensures allowed { OnOk result (IsAllowedFor (change key.entry (DropsField (which_seen field.entry))) db.now) }
    ensures refused { IfErr result (IsRefusalFor (change key.entry (DropsField (which_seen field.entry))) db.now) }
{
    db.opens();
    if !is_name(field.name) {
        return Err(EditFault::BadName);
    }
    let Some(n) = item_meant(db, key) else {
        return Err(EditFault::NotFound);
    };
    let view = db.item(n);
    let meant = field_meant(&view, field);
    let Some(row) = meant.field else {
        return Err(EditFault::NotFound);
    };
    if is_either_unclear(db, key, meant) {
        return Err(EditFault::Ambiguous);
    }
    if joins_key(&view, row) {
        return Err(EditFault::WouldMerge);
    }
    let piece = cut(alloc, db.item_place(n), view.body(), row)?;
    one_piece(alloc, piece)
}

/// The pieces that give each field of the name `from` the name `to` in this entry, or the first reason against it.
pub(crate) fn rename_fields_of_one<L: ItemList>(
    alloc: Global,
    db: &Database<L>,
    key: Which<'_>,
    from: &[u8],
    to: &[u8],
) -> Result<Seq<Piece>, EditFault>
    ensures pieces { IfOk result (ArePiecesFor (change key.entry (RenamesFields from.now to.now)) db.now) }
    ensures allowed { OnOk result (IsAllowedFor (change key.entry (RenamesFields from.now to.now)) db.now) }
    ensures refused { IfErr result (IsRefusalFor (change key.entry (RenamesFields from.now to.now)) db.now) }
{
    db.opens();
    if !are_renamable(from, to) {
        return Err(EditFault::BadName);
    }
    let Some(n) = item_meant(db, key) else {
        return Err(EditFault::NotFound);
    };
    let found = found_in_item(alloc, db, n, from, to)?;
    let is_ambiguous = are_two(db, key, found.clashes);
    renaming_fields(alloc, db, found.names.as_slice(), is_ambiguous, to)
}

/// Whether two are meant where the edit means one: the entry would have two fields of the new name, or it is unclear which entry is
/// meant.
fn are_two<L: ItemList>(db: &Database<L>, key: Which<'_>, clashes: bool) -> bool
    ensures { OfReading db.now (λ r. result ≡ (clashes || is_unclear (which_seen key.entry) (holders key.entry.name.now r))) }
{
    clashes || is_unclear(db, key)
}

/// The pieces that give this entry this type, or the first reason against it.
pub(crate) fn set_one_type<L: ItemList>(
    alloc: Global,
    db: &Database<L>,
    key: Which<'_>,
    kind_name: &[u8],
) -> Result<Seq<Piece>, EditFault>
    ensures pieces { IfOk result (ArePiecesFor (change key.entry (SetsType kind_name.now)) db.now) }
    ensures allowed { OnOk result (IsAllowedFor (change key.entry (SetsType kind_name.now)) db.now) }
    ensures refused { IfErr result (IsRefusalFor (change key.entry (SetsType kind_name.now)) db.now) }
{
    db.opens();
    if !is_type(kind_name) {
        return Err(EditFault::BadName);
    }
    let n = lone_or_nth(db, key)?;
    let piece = typing(alloc, db, n, kind_name)?;
    let pieces = one_piece(alloc, piece)?;
    if are_too_long(db, pieces.as_slice()) {
        return Err(EditFault::FileTooLong);
    }
    Ok(pieces)
}

/// The number of the item that is the entry that is meant, or why none is.
fn lone_or_nth<L: ItemList>(db: &Database<L>, key: Which<'_>) -> Result<usize, EditFault>
    ensures meant { IfOk result (λ n. OfReading db.now (λ r. IsMeantAt key.entry r n)) }
    ensures refused { IfErr result (IsMeantFault db.now key.entry) }
{
    let Some(n) = item_meant(db, key) else {
        return Err(EditFault::NotFound);
    };
    if is_unclear(db, key) {
        return Err(EditFault::Ambiguous);
    }
    Ok(n)
}

/// The number, among the entries, of the entry that is item `n`, if it is the first with its key: then crossrefs name it.
fn first_number<L: ItemList>(db: &Database<L>, key: Which<'_>, n: usize) -> Option<usize>
    ensures first { IfSome result (λ m. OfReading db.now (λ r. (entry_named (entries_of r) key.entry.name.now ≡ Some m) × (first_item (is_entry key.entry.name.now) r.items ≡ Some n))) }
    ensures later { IfNone result (OfReading db.now (λ r. first_item (is_entry key.entry.name.now) r.items ≡ Some n → ⊥)) }
{
    let Ok(m) = db.find(key.name) else {
        return None;
    };
    if db.entry_item(m) == n {
        return Some(m);
    }
    None
}

/// Whether an entry has this key, or a dangling crossref waits for it.
fn is_taken<L: ItemList>(db: &Database<L>, key: &[u8]) -> bool
    requires { is_new_key key.now ≡ true }
    ensures { OfReading db.now (λ r. result ≡ (list_any (same key.now) (keys_of (entries_of r)) || is_awaited key.now (entries_of r))) }
{
    db.holders(key) > 0 || is_awaited(db, key)
}

/// The pieces that give item `n`, which is the entry that the key means, the new key. If it is the first that has its key, they put
/// the new key into the crossrefs that name it too.
fn new_key_pieces<L: ItemList>(
    alloc: Global,
    db: &Database<L>,
    key: Which<'_>,
    n: usize,
    to: &[u8],
) -> Result<Seq<Piece>, EditFault>
    requires { OfReading db.now (λ r. item_meant (which_seen key) r.items ≡ Some n) }
    ensures pieces { IfOk result (ArePiecesFor (change key.entry (RenamesKey to.now)) db.now) }
    ensures only { IfErr result (λ fault. fault ≡ Memory) }
{
    db.opens();
    if let Some(m) = first_number(db, key, n) {
        let new = key_for(alloc, m, to)?;
        return renaming(alloc, db, &new, key.name, m);
    }
    let view = db.item(n);
    let mut pieces = Vec::new(alloc);
    push_key(alloc, &mut pieces, db.item_place(n), &view, Some(to))?;
    Ok(Seq::from_vec(pieces))
}

/// The pieces that give this entry the new key, or the first reason against it. If it is the first that has its key, the
/// crossrefs that name it get the new key too; a later one is named by none.
pub(crate) fn rename_one_key<L: ItemList>(
    alloc: Global,
    db: &Database<L>,
    key: Which<'_>,
    to: &[u8],
) -> Result<Seq<Piece>, EditFault>
    ensures pieces { IfOk result (ArePiecesFor (change key.entry (RenamesKey to.now)) db.now) }
    ensures allowed { OnOk result (IsAllowedFor (change key.entry (RenamesKey to.now)) db.now) }
    ensures refused { IfErr result (IsRefusalFor (change key.entry (RenamesKey to.now)) db.now) }
{
    db.opens();
    one_reading();
    if !is_key(to) {
        return Err(EditFault::BadKey);
    }
    let n = lone_or_nth(db, key)?;
    if is_taken(db, to) {
        return Err(EditFault::KeyInUse);
    }
    let pieces = new_key_pieces(alloc, db, key, n, to)?;
    if are_too_long(db, pieces.as_slice()) {
        return Err(EditFault::FileTooLong);
    }
    Ok(pieces)
}

/// Whether item `n`, which is the entry that the key means, is the parent of another entry. A later entry with the key of another
/// one is no parent.
fn is_parent_at<L: ItemList>(db: &Database<L>, key: Which<'_>, n: usize) -> bool
    requires { OfReading db.now (λ r. item_meant (which_seen key) r.items ≡ Some n) }
    ensures { OfReading db.now (λ r. IsTrue result ↔ IsParentMeant (which_seen key.entry) (entries_of r)) }
{
    db.opens();
    match first_number(db, key, n) {
        Some(m) => is_parent(db, key.name, m),
        None => false,
    }
}

/// The piece that takes this entry's body out, or the first reason against it.
pub(crate) fn remove_one<L: ItemList>(
    alloc: Global,
    db: &Database<L>,
    key: Which<'_>,
) -> Result<Seq<Piece>, EditFault>
    ensures pieces { IfOk result (ArePiecesFor (change key.entry Removes) db.now) }
    ensures allowed { OnOk result (IsAllowedFor (change key.entry Removes) db.now) }
    ensures refused { IfErr result (IsRefusalFor (change key.entry Removes) db.now) }
{
    db.opens();
    one_reading();
    let n = lone_or_nth(db, key)?;
    if is_parent_at(db, key, n) {
        return Err(EditFault::Referred);
    }
    if !joins_cleanly(alloc, db, n)? {
        return Err(EditFault::WouldMerge);
    }
    let removal = removal_of(alloc, db, n)?;
    one_piece(alloc, removal)
}

/// The highest position that this entry can have among the others, or that an item can have if there is no such entry.
fn last_position<L: ItemList>(db: &Database<L>, key: Which<'_>) -> usize
    ensures { OfReading db.now (λ r. result ≡ last_position r (change key.entry (Moves 0))) }
{
    match item_meant(db, key) {
        Some(_) => db.item_count().saturating_sub(1),
        None => db.item_count(),
    }
}

/// The item that is the entry that is meant, if it can move before item `position` of what remains. No length is looked at yet.
fn movable_one<L: ItemList>(
    alloc: Global,
    db: &Database<L>,
    key: Which<'_>,
    position: usize,
) -> Result<usize, EditFault>
    ensures movable { IfOk result (λ n. OfReading db.now (λ r. IsOneMovable key.entry position r n)) }
    ensures refused { IfErr result (IsRefusalFor (change key.entry (Moves position)) db.now) }
{
    db.opens();
    if position > last_position(db, key) {
        return Err(EditFault::BadPosition);
    }
    let n = lone_or_nth(db, key)?;
    if !joins_cleanly(alloc, db, n)? {
        return Err(EditFault::WouldMerge);
    }
    Ok(n)
}

/// The pieces that take this entry's body out and put it before item `position` of what remains, in a line of its own, or the
/// first reason against it.
pub(crate) fn move_one<L: ItemList>(
    alloc: Global,
    db: &Database<L>,
    key: Which<'_>,
    position: usize,
) -> Result<Seq<Piece>, EditFault>
    ensures pieces { IfOk result (ArePiecesFor (change key.entry (Moves position)) db.now) }
    ensures allowed { OnOk result (IsAllowedFor (change key.entry (Moves position)) db.now) }
    ensures refused { IfErr result (IsRefusalFor (change key.entry (Moves position)) db.now) }
{
    db.opens();
    one_reading();
    let n = movable_one(alloc, db, key, position)?;
    let pieces = moved_pieces(alloc, db, n, position)?;
    if are_too_long(db, pieces.as_slice()) {
        return Err(EditFault::FileTooLong);
    }
    if is_field_long(alloc, db, next_item(db, n, position), db.item(n).fields())? {
        return Err(EditFault::TextTooLong);
    }
    Ok(pieces)
}

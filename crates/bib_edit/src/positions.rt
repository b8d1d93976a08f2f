//! The place that a position says, and edits at a position.

ghost use Rattle.std.specs.Prelude.{ℕ, ◌≡◌, ◌<◌, ◌+◌, length, OnOk, IfOk, IfErr};
ghost use Rattle.bib_store.specs.Readings.{OfReading};
ghost use Rattle.bib_data.specs.declared.edit.Edit.TheVariants.{MoveEntry};
ghost use Rattle.bib_data.specs.Depths.{HasDepth};
ghost use Rattle.bib_edit.specs.Positions.{items_before, items_before_meant, count_meant, others_before, place_for, IsCountFault, IsPositionPlace, IsPositionRefusal, ArePiecesAt, IsAllowedAt, IsRefusalAt};

use crate::add_entry::add_entry;
use crate::address::lone_entry;
use crate::choosing::move_to;
use crate::fault::EditFault;
use crate::numbers::{is_numbered, which_of};
use crate::one_entry::item_meant;
use crate::planning::plan;
use bib_data::{Edit, Position};
use bib_store::{Database, ItemList, Piece};
use bib_text::Seq;
use std::alloc::Global;

/// The place of the one entry that is meant.
fn place_before<L: ItemList>(db: &Database<L>, key: &[u8]) -> Result<usize, EditFault>
    ensures place { IfOk result (λ place. OfReading db.now (λ r. (count_meant key.now r ≡ 1) × (place ≡ items_before_meant key.now r.items))) }
    ensures within { IfOk result (λ place. OfReading db.now (λ r. place < length r.items)) }
    ensures refused { IfErr result (IsCountFault db.now key.now) }
{
    if !is_numbered(key) {
        return lone_entry(db, key);
    }
    match item_meant(db, which_of(key)) {
        Some(n) => Ok(n),
        None => Err(EditFault::NotFound),
    }
}

/// The place directly after the one entry that is meant.
fn place_after<L: ItemList>(db: &Database<L>, key: &[u8]) -> Result<usize, EditFault>
    ensures place { IfOk result (λ place. OfReading db.now (λ r. (count_meant key.now r ≡ 1) × (place ≡ items_before_meant key.now r.items + 1))) }
    ensures refused { IfErr result (IsCountFault db.now key.now) }
{
    // for the proof: the number of an item can grow by one
    db.opens();
    let _ = db.item_count();
    let n = place_before(db, key)?;
    Ok(n + 1)
}

/// The place that a position says: how many items are before it. It is refused if no entry has the key of the position, or
/// several have it and no number tells which is meant. It takes a look-up of the key. (dialect)
pub fn place_of<L: ItemList>(db: &Database<L>, position: &Position) -> Result<usize, EditFault>
    ensures place { IfOk result (IsPositionPlace db.now position.now) }
    ensures refused { IfErr result (IsPositionRefusal db.now position.now) }
{
    match position {
        Position::Number(n) => Ok(*n),
        Position::End => Ok(db.item_count()),
        Position::Before(key) => place_before(db, key.as_slice()),
        Position::After(key) => place_after(db, key.as_slice()),
    }
}

/// How many items are before the first entry that the key names: all, if it names none.
fn items_before<L: ItemList>(db: &Database<L>, key: &[u8]) -> usize
    ensures { OfReading db.now (λ r. result ≡ items_before key.now r.items) }
{
    match db.find(key) {
        Ok(n) => db.entry_item(n),
        Err(_) => db.item_count(),
    }
}

/// How many items are before the entry that is meant: all, if there is no such entry.
fn items_before_meant<L: ItemList>(db: &Database<L>, key: &[u8]) -> usize
    ensures { OfReading db.now (λ r. result ≡ items_before_meant key.now r.items) }
{
    if !is_numbered(key) {
        return items_before(db, key);
    }
    match item_meant(db, which_of(key)) {
        Some(n) => n,
        None => db.item_count(),
    }
}

/// How many of the first `place` items are others than the entry that moves.
fn others_before<L: ItemList>(db: &Database<L>, key: &[u8], place: usize) -> usize
    ensures { OfReading db.now (λ r. result ≡ others_before key.now r.items place) }
{
    if items_before_meant(db, key) < place {
        return place - 1;
    }
    place
}

/// The place that the position says for an entry that moves, which isn't counted itself, except in a number.
fn place_among_others<L: ItemList>(
    db: &Database<L>,
    position: &Position,
    key: &[u8],
    place: usize,
) -> usize
    requires { IsPositionPlace db.now position.now place }
    ensures { OfReading db.now (λ r. (own : ℕ) → result ≡ place_for position.now (MoveEntry key.now own) r) }
{
    match position {
        Position::Number(n) => *n,
        Position::End | Position::Before(_) | Position::After(_) => others_before(db, key, place),
    }
}

/// The pieces that make the edit at this position in place of its own, or the first reason that refuses it. The reasons
/// against the position come first. If an entry moves before or after another one, or to the end, it isn't counted itself;
/// a number counts as in `MoveEntry`. It takes two look-ups more than `plan`. An edit that makes
/// keys has a depth of 1 to `bib_data::DEPTH_LIMIT`. (dialect)
pub fn plan_at<L: ItemList>(
    alloc: Global,
    db: &Database<L>,
    position: &Position,
    edit: &Edit,
) -> Result<Seq<Piece>, EditFault>
    requires { HasDepth edit.now }
    ensures pieces { IfOk result (ArePiecesAt db.now position.now edit.now) }
    ensures allowed { OnOk result (IsAllowedAt db.now position.now edit.now) }
    ensures refused { IfErr result (IsRefusalAt db.now position.now edit.now) }
{
    let place = place_of(db, position)?;
    match edit {
        Edit::AddEntry { entry, .. } => add_entry(alloc, db, place, entry),
        Edit::MoveEntry { key, .. } => {
            let key = key.as_slice();
            move_to(alloc, db, key, place_among_others(db, position, key, place))
        }
        _ => plan(alloc, db, edit),
    }
}

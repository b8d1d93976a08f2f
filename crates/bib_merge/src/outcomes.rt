//! What becomes of a unit that three files have in up to three forms.

use crate::mixing::{Found, mix};
use bib_places::Side;
use bib_sayings::items_agree;
use bib_store::{Database, ItemList};
use bib_units::{Label, UnitView};
use std::alloc::{AllocError, Global};

/// What becomes of a unit: it stays as in ours or as in theirs, is the merged entry with this number, goes, or both versions stay.
#[derive(Clone, Copy)]
pub(crate) enum Becomes {
    Ours,
    Theirs,
    Mixed(usize),
    Gone,
    Both,
}

/// Whether the two units have the same bytes, or say the same.
fn agree<L: ItemList>(
    alloc: Global,
    file_a: &Database<L>,
    a: UnitView<'_>,
    file_b: &Database<L>,
    b: UnitView<'_>,
) -> Result<bool, AllocError> {
    if a.bytes == b.bytes {
        return Ok(true);
    }
    match (a.item, b.item) {
        (Some(n), Some(m)) => items_agree(alloc, file_a, n, file_b, m),
        _ => Ok(false),
    }
}

/// Whether they spell the key of an entry in a new way, and we do not.
fn has_new_key(b: UnitView<'_>, o: UnitView<'_>, t: UnitView<'_>) -> bool {
    match (b.label, o.label, t.label) {
        (Label::Entry(b), Label::Entry(o), Label::Entry(t)) => o == b && t != b,
        _ => false,
    }
}

/// Whether ours may stay, as a whole: they left the unit, or say what we say.
fn may_be_ours<L: ItemList>(
    alloc: Global,
    base: &Side<'_, L>,
    b: UnitView<'_>,
    ours: &Side<'_, L>,
    o: UnitView<'_>,
    theirs: &Side<'_, L>,
    t: UnitView<'_>,
) -> Result<bool, AllocError> {
    if agree(alloc, base.db, b, theirs.db, t)? {
        return Ok(true);
    }
    agree(alloc, ours.db, o, theirs.db, t)
}

/// What becomes of a unit that both sides have, and the common file too. A key that they spell in a new way is taken, if the entry can be
/// merged field by field.
fn of_three<L: ItemList>(
    alloc: Global,
    mixes: &mut Vec<Found>,
    base: &Side<'_, L>,
    b: UnitView<'_>,
    ours: &Side<'_, L>,
    o: UnitView<'_>,
    theirs: &Side<'_, L>,
    t: UnitView<'_>,
) -> Result<Becomes, AllocError> {
    if o.bytes == t.bytes {
        return Ok(Becomes::Ours);
    }
    if o.bytes == b.bytes {
        return Ok(Becomes::Theirs);
    }
    let ours_may_stay = may_be_ours(alloc, base, b, ours, o, theirs, t)?;
    if ours_may_stay && !has_new_key(b, o, t) {
        return Ok(Becomes::Ours);
    }
    match mix(alloc, base, b, ours, o, theirs, t)? {
        Some(found) => {
            mixes.push(found)?;
            Ok(Becomes::Mixed(mixes.len().saturating_sub(1)))
        }
        None if ours_may_stay => Ok(Becomes::Ours),
        None => Ok(Becomes::Both),
    }
}

/// What becomes of a unit that one side has, and the common file too.
fn of_two<L: ItemList>(
    alloc: Global,
    base: &Side<'_, L>,
    b: UnitView<'_>,
    side: &Side<'_, L>,
    one: UnitView<'_>,
) -> Result<Becomes, AllocError> {
    if agree(alloc, base.db, b, side.db, one)? {
        return Ok(Becomes::Gone);
    }
    Ok(Becomes::Both)
}

/// What becomes of a unit. If it is merged field by field, the merged entry is added to these.
pub(crate) fn outcome_of<L: ItemList>(
    alloc: Global,
    mixes: &mut Vec<Found>,
    base: &Side<'_, L>,
    b: Option<UnitView<'_>>,
    ours: &Side<'_, L>,
    o: Option<UnitView<'_>>,
    theirs: &Side<'_, L>,
    t: Option<UnitView<'_>>,
) -> Result<Becomes, AllocError> {
    match (b, o, t) {
        (Some(b), Some(o), Some(t)) => of_three(alloc, mixes, base, b, ours, o, theirs, t),
        (Some(b), Some(o), None) => of_two(alloc, base, b, ours, o),
        (Some(b), None, Some(t)) => of_two(alloc, base, b, theirs, t),
        (None, Some(o), Some(t)) => {
            if agree(alloc, ours.db, o, theirs.db, t)? {
                return Ok(Becomes::Ours);
            }
            Ok(Becomes::Both)
        }
        (None, Some(_), None) => Ok(Becomes::Ours),
        (None, None, Some(_)) => Ok(Becomes::Theirs),
        (Some(_), None, None) => Ok(Becomes::Gone),
        (None, None, None) => Ok(Becomes::Gone),
    }
}

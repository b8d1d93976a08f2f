//! Meets the items of a merged file with those of its units.

ghost use Rattle.std.specs.Prelude.{◌≡◌, ◌≢◌, ◌↔◌, true, false, [], ◌∷◌, ◌++◌, List, Option, map, get_or, IsTrue, IfOk, IfSome, IfNone};
ghost use Rattle.bib_spec.specs.Text.{Text};
ghost use Rattle.bib_spec.specs.Tree.{tree_bytes};
ghost use Rattle.bib_spec.specs.Reading.{Item, Reading};
ghost use Rattle.bib_store.specs.Readings.{OfReading, IsItemNumber};
ghost use Rattle.merge_spec.specs.Units.{Unit, units_of};
ghost use Rattle.merge_spec.specs.ThreeWay.{entry_of};
ghost use Rattle.bib_fields.specs.MixSeen.{mix_bytes};
ghost use Rattle.bib_units.specs.UnitsSeen.{IsItemAt};
ghost use Rattle.bib_places.specs.PlacesSeen.{MaySee, IsItemUnit, IsSide, outcome_seen, place_seen};
ghost use Rattle.bib_merge.specs.Bodies.{bodies_of, version_bodies, outcome_bodies, place_bodies, merged_bodies, AreMet};

use crate::spacing::unit;
use bib_fields::add_mixed;
use bib_places::{Mix, Outcome, Place, Side};
use bib_store::{Database, Paged};
use bib_units::UnitView;
use std::alloc::{AllocError, Global};

/// The number of the item that a unit is, if it is there and no text.
fn item_of(unit: Option<UnitView<'_>>) -> Option<usize>
    ensures item { (r : Reading) (u : Option Unit) → MaySee r unit.entry u → IfSome result (λ n. IsItemUnit r n u) }
    ensures none { (r : Reading) (u : Option Unit) → MaySee r unit.entry u → IfNone result (version_bodies u ≡ []) }
{
    match unit {
        Some(unit) => unit.item,
        None => None,
    }
}

/// Whether item `n` of a file has this body.
fn has_body(db: &Database<Paged>, n: usize, body: &[u8]) -> bool
    requires { IsItemNumber db.now n }
    ensures same { result ≡ true → OfReading db.now (λ r. get_or (bodies_of r) n body.now ≡ body.now) }
    ensures differ { result ≡ false → OfReading db.now (λ r. get_or (bodies_of r) n body.now ≢ body.now) }
{
    db.item(n).body() == body
}

/// How many items of the merged file are met after one more, which is to have this body; nothing if they do not have the bodies that
/// they are to have.
fn meet(merged: &Database<Paged>, met: Option<usize>, body: &[u8]) -> Option<usize>
    ensures { OfReading merged.now (λ rm. (wanted : List Text) → AreMet (bodies_of rm) wanted met → AreMet (bodies_of rm) (wanted ++ body.now ∷ []) result) }
{
    match met {
        Some(n) => {
            if n >= merged.item_count() {
                return None;
            }
            if !has_body(merged, n, body) {
                return None;
            }
            Some(n + 1)
        }
        None => None,
    }
}

/// The same after the body of item `n` of a file.
fn meet_item(
    merged: &Database<Paged>,
    met: Option<usize>,
    db: &Database<Paged>,
    n: usize,
) -> Option<usize>
    ensures { OfReading merged.now (λ rm. OfReading db.now (λ r. (i : Item) (wanted : List Text) → IsItemAt r n i → AreMet (bodies_of rm) wanted met → AreMet (bodies_of rm) (wanted ++ tree_bytes i.tree ∷ []) result)) }
{
    if n >= db.item_count() {
        return None;
    }
    meet(merged, met, db.item(n).body())
}

/// The same after the body of the item that a unit is, if it is one.
fn meet_unit(
    merged: &Database<Paged>,
    met: Option<usize>,
    db: &Database<Paged>,
    unit: Option<UnitView<'_>>,
) -> Option<usize>
    ensures { OfReading merged.now (λ rm. OfReading db.now (λ r. (u : Option Unit) (wanted : List Text) → MaySee r unit.entry u → AreMet (bodies_of rm) wanted met → AreMet (bodies_of rm) (wanted ++ version_bodies u) result)) }
{
    match item_of(unit) {
        Some(n) => meet_item(merged, met, db, n),
        None => met,
    }
}

/// The bytes of a merged entry.
fn mixed_body(
    alloc: Global,
    ours: &Database<Paged>,
    o: Option<UnitView<'_>>,
    theirs: &Database<Paged>,
    t: Option<UnitView<'_>>,
    mix: Mix<'_>,
) -> Result<Vec<u8>, AllocError>
    ensures { IfOk result (λ body. OfReading ours.now (λ ro. OfReading theirs.now (λ rt. (uo ut : Option Unit) → MaySee ro o.entry uo → MaySee rt t.entry ut
        → body.items ≡ mix_bytes (entry_of uo) (entry_of ut) mix.entry))) }
{
    let mut body = Vec::new(alloc);
    match (item_of(o), item_of(t)) {
        (Some(n), Some(m)) => {
            add_mixed(alloc, &mut body, ours, n, theirs, m, mix)?;
            Ok(body)
        }
        // A merged entry is made of two items.
        _ => Err(AllocError),
    }
}

/// How many items of the merged file are met after those of a unit of which our form and theirs are these.
fn meet_outcome(
    alloc: Global,
    merged: &Database<Paged>,
    met: Option<usize>,
    ours: &Database<Paged>,
    o: Option<UnitView<'_>>,
    theirs: &Database<Paged>,
    t: Option<UnitView<'_>>,
    outcome: Outcome<'_>,
) -> Result<Option<usize>, AllocError>
    ensures { IfOk result (λ next. OfReading merged.now (λ rm. OfReading ours.now (λ ro. OfReading theirs.now (λ rt. (uo ut : Option Unit) (wanted : List Text) → MaySee ro o.entry uo → MaySee rt t.entry ut
        → AreMet (bodies_of rm) wanted met → AreMet (bodies_of rm) (wanted ++ outcome_bodies uo ut (outcome_seen uo ut outcome.entry)) next)))) }
{
    match outcome {
        Outcome::Ours => Ok(meet_unit(merged, met, ours, o)),
        Outcome::Theirs => Ok(meet_unit(merged, met, theirs, t)),
        Outcome::Mixed(mix) => {
            let body = mixed_body(alloc, ours, o, theirs, t, mix)?;
            Ok(meet(merged, met, body.as_slice()))
        }
        Outcome::Gone => Ok(met),
        Outcome::Both => {
            let after_ours = meet_unit(merged, met, ours, o);
            Ok(meet_unit(merged, after_ours, theirs, t))
        }
    }
}

/// How many items of the merged file are met after those of a place.
fn meet_place(
    alloc: Global,
    merged: &Database<Paged>,
    met: Option<usize>,
    ours: &Side<'_, Paged>,
    theirs: &Side<'_, Paged>,
    place: &Place<'_>,
) -> Result<Option<usize>, AllocError>
    ensures { IfOk result (λ next. OfReading merged.now (λ rm. (ro rt : Reading) (wanted : List Text) → IsSide ro ours.now.db.now ours.now.units.now → IsSide rt theirs.now.db.now theirs.now.units.now
        → AreMet (bodies_of rm) wanted met → AreMet (bodies_of rm) (wanted ++ place_bodies (units_of ro) (units_of rt) (place_seen (units_of ro) (units_of rt) place.now)) next)) }
{
    let o = unit(ours.units, place.ours);
    let t = unit(theirs.units, place.theirs);
    meet_outcome(alloc, merged, met, ours.db, o, theirs.db, t, place.outcome)
}

/// Whether all items of the merged file are met.
fn are_all(merged: &Database<Paged>, met: Option<usize>) -> bool
    ensures { OfReading merged.now (λ rm. (wanted : List Text) → AreMet (bodies_of rm) wanted met → IsTrue result ↔ (wanted ≡ bodies_of rm)) }
{
    match met {
        Some(n) => n >= merged.item_count(),
        None => false,
    }
}

/// Whether the items of the merged file are those of a merge of these places, with the same bodies. It takes time in their lengths, and
/// memory for the longest entry that is merged field by field.
pub(crate) fn has_items(
    alloc: Global,
    merged: &Database<Paged>,
    ours: &Side<'_, Paged>,
    theirs: &Side<'_, Paged>,
    places: &[Place<'_>],
) -> Result<bool, AllocError>
    ensures { IfOk result (λ has. OfReading merged.now (λ rm. (ro rt : Reading) → IsSide ro ours.now.db.now ours.now.units.now → IsSide rt theirs.now.db.now theirs.now.units.now
        → IsTrue has ↔ (merged_bodies (units_of ro) (units_of rt) (map (place_seen (units_of ro) (units_of rt)) places.now) ≡ bodies_of rm))) }
{
    let mut met = Some(0);
    'places: for k in 0..places.len() {
        met = meet_place(alloc, merged, met, ours, theirs, &places[k])?;
    }
    Ok(are_all(merged, met))
}

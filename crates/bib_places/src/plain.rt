//! A merge that needs no search.

ghost use Rattle.std.specs.Prelude.{◌≡◌, true, ℕ, [], ◌∷◌, List, Option, map, IfOk, OnOk};
ghost use Rattle.std.specs.List.{list_all};
ghost use Rattle.bib_spec.specs.Text.{is_space};
ghost use Rattle.bib_spec.specs.Reading.{Reading};
ghost use Rattle.bib_store.specs.Readings.{OfReading};
ghost use Rattle.merge_spec.specs.Units.{Unit, Label, units_of};
ghost use Rattle.merge_spec.specs.Merged.{may_come, is_merge, unit_at};
ghost use Rattle.bib_places.specs.OwnedLabels.{owned_seen};
ghost use Rattle.bib_places.specs.Tallies.{CountsLabels};
ghost use Rattle.bib_places.specs.PlacesSeen.{MaySee, IsSide, outcome_seen, place_seen};
ghost use Rattle.bib_places.specs.NumbersLeft.{AreSoFar};
ghost use Rattle.bib_places.specs.Queues.{left_of, AreOfUnits};

use crate::codes::{code_of, codes_of};
use crate::naming::{codes_given, is_removed_and_named};
use crate::numbers::numbers;
use crate::owned_label::OwnedLabel;
use crate::place::{Outcome, Place};
use crate::queues::Queues;
use crate::settled::{Met, is_white, may_be_ours, may_be_theirs, may_go};
use crate::side::{Side, unit_at, unit_with};
use crate::tally::Tally;
use bib_store::{Database, ItemList};
use bib_units::UnitView;
use std::alloc::{AllocError, Global};

/// The first of what may come of the units, as a whole: ours, theirs, nothing, both.
fn first_that_may<'a, L: ItemList>(
    alloc: Global,
    given: &Tally<'_>,
    base: &Database<L>,
    ours: &Database<L>,
    theirs: &Database<L>,
    met: Met<'_>,
) -> Result<Outcome<'a>, AllocError>
    ensures { IfOk result (λ outcome. OfReading base.now (λ rb. OfReading ours.now (λ ro. OfReading theirs.now (λ rt. (labels : List Label) → CountsLabels given.now.counts labels → (b o t : Option Unit)
        → MaySee rb met.entry.base b → MaySee ro met.entry.ours o → MaySee rt met.entry.theirs t → may_come labels b o t (outcome_seen o t outcome) ≡ true)))) }
{
    if is_removed_and_named(alloc, given, met)? {
        return Ok(Outcome::Both);
    }
    if may_be_ours(alloc, base, ours, theirs, met)? {
        return Ok(Outcome::Ours);
    }
    if may_be_theirs(met) {
        return Ok(Outcome::Theirs);
    }
    if may_go(alloc, base, ours, theirs, met)? {
        return Ok(Outcome::Gone);
    }
    Ok(Outcome::Both)
}

/// The white space after our unit, or after theirs if we have none.
fn own_space<'a>(ours: Option<UnitView<'a>>, theirs: Option<UnitView<'a>>) -> &'a [u8] {
    match (ours, theirs) {
        (Some(unit), _) => unit.space,
        (None, Some(unit)) => unit.space,
        (None, None) => b"",
    }
}

/// The text, if it is white space with a line feed, or else a line feed.
fn white(text: &[u8]) -> &[u8]
    ensures { list_all is_space result.now ≡ true }
{
    if is_white(text) && text.contains(&b'\n') {
        return text;
    }
    b"\n"
}

/// The place of the units with these numbers.
fn plain_place<'a, L: ItemList>(
    alloc: Global,
    given: &Tally<'_>,
    base: &Side<'_, L>,
    ours: &Side<'a, L>,
    theirs: &Side<'a, L>,
    b: Option<usize>,
    o: Option<usize>,
    t: Option<usize>,
) -> Result<Place<'a>, AllocError>
    ensures base { IfOk result (λ place. place.base ≡ b) }
    ensures ours { IfOk result (λ place. place.ours ≡ o) }
    ensures theirs { IfOk result (λ place. place.theirs ≡ t) }
    ensures white { IfOk result (λ place. list_all is_space place.space.now ≡ true) }
    ensures may { IfOk result (λ place. (rb ro rt : Reading) → IsSide rb base.now.db.now base.now.units.now → IsSide ro ours.now.db.now ours.now.units.now → IsSide rt theirs.now.db.now theirs.now.units.now
        → (labels : List Label) → CountsLabels given.now.counts labels → may_come labels (unit_at (units_of rb) b) (unit_at (units_of ro) o) (unit_at (units_of rt) t) (outcome_seen (unit_at (units_of ro) o) (unit_at (units_of rt) t) place.outcome) ≡ true) }
{
    let our_unit = unit_at(ours.units, o);
    let their_unit = unit_at(theirs.units, t);
    let met = Met {
        base: unit_at(base.units, b),
        ours: our_unit,
        theirs: their_unit,
    };
    let outcome = first_that_may(alloc, given, base.db, ours.db, theirs.db, met)?;
    let space = white(own_space(our_unit, their_unit));
    Ok(Place {
        base: b,
        ours: o,
        theirs: t,
        outcome,
        space,
    })
}

/// Puts the unit of the common file with this number at a place, with the first unit of either side that has its label and is still left.
fn put_base_unit<'a, L: ItemList>(
    alloc: Global,
    given: &Tally<'_>,
    base: &Side<'_, L>,
    ours: &Side<'a, L>,
    theirs: &Side<'a, L>,
    n: usize,
    of_ours: &mut Queues<'_>,
    of_theirs: &mut Queues<'_>,
    places: &mut Vec<Place<'a>>,
) -> Result<(), AllocError>
    ensures { OnOk result ((rb ro rt : Reading) → IsSide rb base.now.db.now base.now.units.now → IsSide ro ours.now.db.now ours.now.units.now → IsSide rt theirs.now.db.now theirs.now.units.now
        → (labels : List Label) → CountsLabels given.now.counts labels → AreOfUnits (units_of ro) of_ours.old → AreOfUnits (units_of rt) of_theirs.old → (left : List ℕ)
        → AreSoFar labels (units_of rb) (units_of ro) (units_of rt) (map (place_seen (units_of ro) (units_of rt)) places.old.items) (n ∷ left) (left_of of_ours.old) (left_of of_theirs.old)
        → AreOfUnits (units_of ro) of_ours.new × AreOfUnits (units_of rt) of_theirs.new × AreSoFar labels (units_of rb) (units_of ro) (units_of rt) (map (place_seen (units_of ro) (units_of rt)) places.new.items) left (left_of of_ours.new) (left_of of_theirs.new)) }
{
    match unit_with(base.units, n) {
        Some(unit) => {
            let code = code_of(alloc, unit.label)?;
            let o = of_ours.take(code.as_slice());
            let t = of_theirs.take(code.as_slice());
            let place = plain_place(alloc, given, base, ours, theirs, Some(n), o, t)?;
            places.push(place)?;
            Ok(())
        }
        None => Ok(()),
    }
}

/// Puts the units of the common file with these numbers at places.
fn put_base<'a, L: ItemList>(
    alloc: Global,
    given: &Tally<'_>,
    base: &Side<'_, L>,
    ours: &Side<'a, L>,
    theirs: &Side<'a, L>,
    numbers: &[usize],
    of_ours: &mut Queues<'_>,
    of_theirs: &mut Queues<'_>,
    places: &mut Vec<Place<'a>>,
) -> Result<(), AllocError>
    ensures { OnOk result ((rb ro rt : Reading) → IsSide rb base.now.db.now base.now.units.now → IsSide ro ours.now.db.now ours.now.units.now → IsSide rt theirs.now.db.now theirs.now.units.now
        → (labels : List Label) → CountsLabels given.now.counts labels → AreOfUnits (units_of ro) of_ours.old → AreOfUnits (units_of rt) of_theirs.old
        → AreSoFar labels (units_of rb) (units_of ro) (units_of rt) (map (place_seen (units_of ro) (units_of rt)) places.old.items) numbers.now (left_of of_ours.old) (left_of of_theirs.old)
        → AreOfUnits (units_of ro) of_ours.new × AreOfUnits (units_of rt) of_theirs.new × AreSoFar labels (units_of rb) (units_of ro) (units_of rt) (map (place_seen (units_of ro) (units_of rt)) places.new.items) [] (left_of of_ours.new) (left_of of_theirs.new)) }
{
    'numbers: for k in 0..numbers.len() {
        put_base_unit(
            alloc, given, base, ours, theirs, numbers[k], of_ours, of_theirs, places,
        )?;
    }
    Ok(())
}

/// Puts our unit with this number at a place, with the first unit of theirs that has its label and is still left.
fn put_our_unit<'a, L: ItemList>(
    alloc: Global,
    given: &Tally<'_>,
    base: &Side<'_, L>,
    ours: &Side<'a, L>,
    theirs: &Side<'a, L>,
    n: usize,
    of_theirs: &mut Queues<'_>,
    places: &mut Vec<Place<'a>>,
) -> Result<(), AllocError>
    ensures { OnOk result ((rb ro rt : Reading) → IsSide rb base.now.db.now base.now.units.now → IsSide ro ours.now.db.now ours.now.units.now → IsSide rt theirs.now.db.now theirs.now.units.now
        → (labels : List Label) → CountsLabels given.now.counts labels → AreOfUnits (units_of rt) of_theirs.old → (left : List ℕ)
        → AreSoFar labels (units_of rb) (units_of ro) (units_of rt) (map (place_seen (units_of ro) (units_of rt)) places.old.items) [] (n ∷ left) (left_of of_theirs.old)
        → AreOfUnits (units_of rt) of_theirs.new × AreSoFar labels (units_of rb) (units_of ro) (units_of rt) (map (place_seen (units_of ro) (units_of rt)) places.new.items) [] left (left_of of_theirs.new)) }
{
    match unit_with(ours.units, n) {
        Some(unit) => {
            let code = code_of(alloc, unit.label)?;
            let t = of_theirs.take(code.as_slice());
            let place = plain_place(alloc, given, base, ours, theirs, None, Some(n), t)?;
            places.push(place)?;
            Ok(())
        }
        None => Ok(()),
    }
}

/// Puts our units with these numbers at places.
fn put_ours<'a, L: ItemList>(
    alloc: Global,
    given: &Tally<'_>,
    base: &Side<'_, L>,
    ours: &Side<'a, L>,
    theirs: &Side<'a, L>,
    numbers: &[usize],
    of_theirs: &mut Queues<'_>,
    places: &mut Vec<Place<'a>>,
) -> Result<(), AllocError>
    ensures { OnOk result ((rb ro rt : Reading) → IsSide rb base.now.db.now base.now.units.now → IsSide ro ours.now.db.now ours.now.units.now → IsSide rt theirs.now.db.now theirs.now.units.now
        → (labels : List Label) → CountsLabels given.now.counts labels → AreOfUnits (units_of rt) of_theirs.old
        → AreSoFar labels (units_of rb) (units_of ro) (units_of rt) (map (place_seen (units_of ro) (units_of rt)) places.old.items) [] numbers.now (left_of of_theirs.old)
        → AreOfUnits (units_of rt) of_theirs.new × AreSoFar labels (units_of rb) (units_of ro) (units_of rt) (map (place_seen (units_of ro) (units_of rt)) places.new.items) [] [] (left_of of_theirs.new)) }
{
    'numbers: for k in 0..numbers.len() {
        put_our_unit(
            alloc, given, base, ours, theirs, numbers[k], of_theirs, places,
        )?;
    }
    Ok(())
}

/// Puts their unit with this number at a place.
fn put_their_unit<'a, L: ItemList>(
    alloc: Global,
    given: &Tally<'_>,
    base: &Side<'_, L>,
    ours: &Side<'a, L>,
    theirs: &Side<'a, L>,
    n: usize,
    places: &mut Vec<Place<'a>>,
) -> Result<(), AllocError>
    ensures { OnOk result ((rb ro rt : Reading) → IsSide rb base.now.db.now base.now.units.now → IsSide ro ours.now.db.now ours.now.units.now → IsSide rt theirs.now.db.now theirs.now.units.now
        → (labels : List Label) → CountsLabels given.now.counts labels → (left : List ℕ)
        → AreSoFar labels (units_of rb) (units_of ro) (units_of rt) (map (place_seen (units_of ro) (units_of rt)) places.old.items) [] [] (n ∷ left)
        → AreSoFar labels (units_of rb) (units_of ro) (units_of rt) (map (place_seen (units_of ro) (units_of rt)) places.new.items) [] [] left) }
{
    match unit_with(theirs.units, n) {
        Some(_) => {
            let place = plain_place(alloc, given, base, ours, theirs, None, None, Some(n))?;
            places.push(place)?;
            Ok(())
        }
        None => Ok(()),
    }
}

/// Puts their units with these numbers at places.
fn put_theirs<'a, L: ItemList>(
    alloc: Global,
    given: &Tally<'_>,
    base: &Side<'_, L>,
    ours: &Side<'a, L>,
    theirs: &Side<'a, L>,
    numbers: &[usize],
    places: &mut Vec<Place<'a>>,
) -> Result<(), AllocError>
    ensures { OnOk result ((rb ro rt : Reading) → IsSide rb base.now.db.now base.now.units.now → IsSide ro ours.now.db.now ours.now.units.now → IsSide rt theirs.now.db.now theirs.now.units.now
        → (labels : List Label) → CountsLabels given.now.counts labels
        → AreSoFar labels (units_of rb) (units_of ro) (units_of rt) (map (place_seen (units_of ro) (units_of rt)) places.old.items) [] [] numbers.now
        → AreSoFar labels (units_of rb) (units_of ro) (units_of rt) (map (place_seen (units_of ro) (units_of rt)) places.new.items) [] [] []) }
{
    'numbers: for k in 0..numbers.len() {
        put_their_unit(alloc, given, base, ours, theirs, numbers[k], places)?;
    }
    Ok(())
}

/// The places of a merge that needs no search, in which the sides gave units these labels: the units of one label meet in their order,
/// and of those that meet ours stays if it may, or else theirs is taken if it may, or else they go if they may, or else both stay. The
/// units of the common file come first, then ours, then theirs. It takes time and memory in the number of units, and in the lengths of
/// their labels and of the units that differ. It is refused only out of memory.
pub fn plain_places<'a, L: ItemList>(
    alloc: Global,
    given: &[OwnedLabel],
    base: &Side<'_, L>,
    ours: &Side<'a, L>,
    theirs: &Side<'a, L>,
) -> Result<Vec<Place<'a>>, AllocError>
    ensures { IfOk result (λ places. (rb ro rt : Reading) → IsSide rb base.now.db.now base.now.units.now → IsSide ro ours.now.db.now ours.now.units.now → IsSide rt theirs.now.db.now theirs.now.units.now
        → is_merge (map owned_seen given.now) (units_of rb) (units_of ro) (units_of rt) (map (place_seen (units_of ro) (units_of rt)) places.items) ≡ true) }
{
    let codes = codes_given(alloc, given)?;
    let tally = Tally::of(alloc, codes.as_slice())?;
    let of_base = numbers(alloc, base.units.len())?;
    let our_codes = codes_of(alloc, ours.units)?;
    let mut of_ours = Queues::of(alloc, our_codes.as_slice())?;
    let their_codes = codes_of(alloc, theirs.units)?;
    let mut of_theirs = Queues::of(alloc, their_codes.as_slice())?;
    let mut places = Vec::new(alloc);
    put_base(
        alloc,
        &tally,
        base,
        ours,
        theirs,
        of_base.as_slice(),
        &mut of_ours,
        &mut of_theirs,
        &mut places,
    )?;
    let ours_left = of_ours.numbers(alloc)?;
    put_ours(
        alloc,
        &tally,
        base,
        ours,
        theirs,
        ours_left.as_slice(),
        &mut of_theirs,
        &mut places,
    )?;
    let theirs_left = of_theirs.numbers(alloc)?;
    put_theirs(
        alloc,
        &tally,
        base,
        ours,
        theirs,
        theirs_left.as_slice(),
        &mut places,
    )?;
    Ok(places)
}

//! Whether the units that meet at a place may become what becomes of them.

ghost use Rattle.std.specs.Prelude.{◌≡◌, ◌&&◌, true, List, Option, IfOk};
ghost use Rattle.std.specs.List.{list_all};
ghost use Rattle.bib_spec.specs.Text.{is_space};
ghost use Rattle.bib_spec.specs.Reading.{Reading};
ghost use Rattle.bib_store.specs.Readings.{OfReading};
ghost use Rattle.merge_spec.specs.Units.{Unit, Label, units_of};
ghost use Rattle.merge_spec.specs.ThreeWay.{Ours as OursBecomes, Theirs as TheirsBecomes, Gone as GoneBecomes, Both as BothBecomes, entry_of, are_both, may_become};
ghost use Rattle.merge_spec.specs.Merged.{share_label, may_come, is_settled};
ghost use Rattle.bib_places.specs.PlacesSeen.{MaySee, IsSide, outcome_seen, place_seen};
ghost use Rattle.bib_places.specs.Tallies.{CountsLabels};
ghost use Rattle.bib_fields.specs.MixSeen.{Mixes};

use crate::becoming::{is_left, is_unchanged, share_label};
use crate::naming::is_removed_and_named;
use crate::place::{Outcome, Place};
use crate::side::{Side, item_of, unit_at};
use crate::tally::Tally;
use bib_fields::{Mix, may_mix};
use bib_store::{Database, ItemList};
use bib_text::is_space;
use bib_units::UnitView;
use std::alloc::{AllocError, Global};

/// The units that meet at a place.
#[derive(Clone, Copy)]
pub(crate) struct Met<'a> {
    pub base: Option<UnitView<'a>>,
    pub ours: Option<UnitView<'a>>,
    pub theirs: Option<UnitView<'a>>,
}

/// Whether ours may stay.
pub(crate) fn may_be_ours<L: ItemList>(
    alloc: Global,
    base: &Database<L>,
    ours: &Database<L>,
    theirs: &Database<L>,
    met: Met<'_>,
) -> Result<bool, AllocError>
    ensures { IfOk result (λ may. OfReading base.now (λ rb. OfReading ours.now (λ ro. OfReading theirs.now (λ rt. (b o t : Option Unit)
        → MaySee rb met.entry.base b → MaySee ro met.entry.ours o → MaySee rt met.entry.theirs t → may ≡ may_become b o t OursBecomes)))) }
{
    if met.ours.is_none() {
        return Ok(false);
    }
    if is_unchanged(alloc, base, met.base, theirs, met.theirs)? {
        return Ok(true);
    }
    let same = is_unchanged(alloc, ours, met.ours, theirs, met.theirs)?;
    Ok(same)
}

/// Whether theirs may be taken.
pub(crate) fn may_be_theirs(met: Met<'_>) -> bool
    ensures { (rb ro rt : Reading) (b o t : Option Unit) → MaySee rb met.entry.base b → MaySee ro met.entry.ours o → MaySee rt met.entry.theirs t → result ≡ may_become b o t TheirsBecomes }
{
    met.theirs.is_some() && is_left(met.base, met.ours)
}

/// Whether the unit may go.
pub(crate) fn may_go<L: ItemList>(
    alloc: Global,
    base: &Database<L>,
    ours: &Database<L>,
    theirs: &Database<L>,
    met: Met<'_>,
) -> Result<bool, AllocError>
    ensures { IfOk result (λ may. OfReading base.now (λ rb. OfReading ours.now (λ ro. OfReading theirs.now (λ rt. (b o t : Option Unit)
        → MaySee rb met.entry.base b → MaySee ro met.entry.ours o → MaySee rt met.entry.theirs t → may ≡ may_become b o t GoneBecomes)))) }
{
    match (met.ours, met.theirs) {
        (None, None) => Ok(true),
        (None, Some(_)) => {
            let same = is_unchanged(alloc, base, met.base, theirs, met.theirs)?;
            Ok(same)
        }
        (Some(_), None) => {
            let same = is_unchanged(alloc, base, met.base, ours, met.ours)?;
            Ok(same)
        }
        (Some(_), Some(_)) => Ok(false),
    }
}

/// Whether both may stay: nothing else may become of the unit.
fn may_be_both<L: ItemList>(
    alloc: Global,
    base: &Database<L>,
    ours: &Database<L>,
    theirs: &Database<L>,
    met: Met<'_>,
) -> Result<bool, AllocError>
    ensures { IfOk result (λ may. OfReading base.now (λ rb. OfReading ours.now (λ ro. OfReading theirs.now (λ rt. (b o t : Option Unit)
        → MaySee rb met.entry.base b → MaySee ro met.entry.ours o → MaySee rt met.entry.theirs t → may ≡ may_become b o t BothBecomes)))) }
{
    if may_be_ours(alloc, base, ours, theirs, met)? {
        return Ok(false);
    }
    if may_be_theirs(met) {
        return Ok(false);
    }
    let goes = may_go(alloc, base, ours, theirs, met)?;
    Ok(!goes)
}

/// Whether the unit may be this merged entry.
fn may_be_mixed<L: ItemList>(
    alloc: Global,
    base: &Database<L>,
    ours: &Database<L>,
    theirs: &Database<L>,
    met: Met<'_>,
    mix: Mix<'_>,
) -> Result<bool, AllocError>
    ensures { IfOk result (λ may. may ≡ true → OfReading base.now (λ rb. OfReading ours.now (λ ro. OfReading theirs.now (λ rt. (b o t : Option Unit)
        → MaySee rb met.entry.base b → MaySee ro met.entry.ours o → MaySee rt met.entry.theirs t → Mixes (entry_of b) (entry_of o) (entry_of t) mix.entry)))) }
{
    match (item_of(met.base), item_of(met.ours), item_of(met.theirs)) {
        (Some(b), Some(o), Some(t)) => {
            let may = may_mix(alloc, base, b, ours, o, theirs, t, mix)?;
            Ok(may)
        }
        _ => Ok(false),
    }
}

/// Whether the units may become this.
fn may_become<L: ItemList>(
    alloc: Global,
    base: &Database<L>,
    ours: &Database<L>,
    theirs: &Database<L>,
    met: Met<'_>,
    outcome: Outcome<'_>,
) -> Result<bool, AllocError>
    ensures { IfOk result (λ may. may ≡ true → OfReading base.now (λ rb. OfReading ours.now (λ ro. OfReading theirs.now (λ rt. (b o t : Option Unit)
        → MaySee rb met.entry.base b → MaySee ro met.entry.ours o → MaySee rt met.entry.theirs t → may_become b o t (outcome_seen o t outcome.entry) ≡ true)))) }
{
    match outcome {
        Outcome::Ours => {
            let may = may_be_ours(alloc, base, ours, theirs, met)?;
            Ok(may)
        }
        Outcome::Theirs => Ok(may_be_theirs(met)),
        Outcome::Mixed(mix) => {
            let may = may_be_mixed(alloc, base, ours, theirs, met, mix)?;
            Ok(may)
        }
        Outcome::Gone => {
            let may = may_go(alloc, base, ours, theirs, met)?;
            Ok(may)
        }
        Outcome::Both => {
            let may = may_be_both(alloc, base, ours, theirs, met)?;
            Ok(may)
        }
    }
}

/// Whether both versions stay.
fn are_both(outcome: Outcome<'_>) -> bool
    ensures { (o t : Option Unit) → result ≡ are_both (outcome_seen o t outcome.entry) }
{
    match outcome {
        Outcome::Both => true,
        Outcome::Ours | Outcome::Theirs | Outcome::Mixed(_) | Outcome::Gone => false,
    }
}

/// Whether this may come of the units, where the sides gave units the labels that were counted.
fn may_come<L: ItemList>(
    alloc: Global,
    given: &Tally<'_>,
    base: &Database<L>,
    ours: &Database<L>,
    theirs: &Database<L>,
    met: Met<'_>,
    outcome: Outcome<'_>,
) -> Result<bool, AllocError>
    ensures { IfOk result (λ may. may ≡ true → OfReading base.now (λ rb. OfReading ours.now (λ ro. OfReading theirs.now (λ rt. (labels : List Label) → CountsLabels given.now.counts labels → (b o t : Option Unit)
        → MaySee rb met.entry.base b → MaySee ro met.entry.ours o → MaySee rt met.entry.theirs t → may_come labels b o t (outcome_seen o t outcome.entry) ≡ true)))) }
{
    if is_removed_and_named(alloc, given, met)? {
        return Ok(are_both(outcome));
    }
    let may = may_become(alloc, base, ours, theirs, met, outcome)?;
    Ok(may)
}

/// Whether the units have one label.
fn have_one_label(met: Met<'_>) -> bool
    ensures { (rb ro rt : Reading) (b o t : Option Unit) → MaySee rb met.entry.base b → MaySee ro met.entry.ours o → MaySee rt met.entry.theirs t
        → result ≡ (share_label b o && share_label b t && share_label o t) }
{
    share_label(met.base, met.ours)
        && share_label(met.base, met.theirs)
        && share_label(met.ours, met.theirs)
}

/// Whether the text is white space.
pub(crate) fn is_white(text: &[u8]) -> bool
    ensures { result ≡ list_all is_space text.now }
{
    text.iter().all(|byte| is_space(*byte))
}

/// Whether the units of a place have one label and may become what becomes of them, where the sides gave units the labels that were
/// counted, and only white space follows.
pub(crate) fn is_settled<L: ItemList>(
    alloc: Global,
    given: &Tally<'_>,
    base: &Side<'_, L>,
    ours: &Side<'_, L>,
    theirs: &Side<'_, L>,
    place: &Place<'_>,
) -> Result<bool, AllocError>
    ensures { IfOk result (λ settled. settled ≡ true → (rb ro rt : Reading) → IsSide rb base.now.db.now base.now.units.now → IsSide ro ours.now.db.now ours.now.units.now
        → IsSide rt theirs.now.db.now theirs.now.units.now → (labels : List Label) → CountsLabels given.now.counts labels → is_settled labels (units_of rb) (units_of ro) (units_of rt) (place_seen (units_of ro) (units_of rt) place.now) ≡ true) }
{
    let met = Met {
        base: unit_at(base.units, place.base),
        ours: unit_at(ours.units, place.ours),
        theirs: unit_at(theirs.units, place.theirs),
    };
    if !have_one_label(met) {
        return Ok(false);
    }
    if !is_white(place.space) {
        return Ok(false);
    }
    let may = may_come(
        alloc,
        given,
        base.db,
        ours.db,
        theirs.db,
        met,
        place.outcome,
    )?;
    Ok(may)
}

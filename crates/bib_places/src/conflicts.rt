//! The units of which both versions stay.

ghost use Rattle.std.specs.Prelude.{◌≡◌, ◌++◌, [], ◌∷◌, Option, Some, map, option_map, IfOk, OnOk};
ghost use Rattle.std.specs.Option.{option_to_list};
ghost use Rattle.bib_spec.specs.Reading.{Reading};
ghost use Rattle.bib_store.specs.Readings.{OfReading};
ghost use Rattle.merge_spec.specs.Units.{Unit, units_of};
ghost use Rattle.merge_spec.specs.ThreeWay.{entry_of};
ghost use Rattle.merge_spec.specs.Conflicts.{Whole as WholePart, parts_in_conflict, change_of, label_of_either, conflict_over, conflicts_of};
ghost use Rattle.bib_units.specs.Labels.{label_seen};
ghost use Rattle.bib_fields.specs.PartsSeen.{part_seen};
ghost use Rattle.bib_places.specs.PlacesSeen.{MaySee, IsSide, outcome_seen, place_seen};
ghost use Rattle.bib_places.specs.ConflictsSeen.{change_seen, conflict_seen};

use crate::owned_label::OwnedLabel;
use crate::place::{Outcome, Place};
use crate::side::unit_at;
use bib_fields::{ChangedPart, parts_in_conflict};
use bib_store::{Database, ItemList};
use bib_text::Seq;
use bib_units::{Label, UnitView};
use std::alloc::{AllocError, Global};

/// How two sides came into conflict over a unit.
#[derive(Debug, Drop)]
pub enum Change {
    /// Each changed these parts of what the common file has.
    Changed(Seq<ChangedPart>),
    /// Each added it.
    BothAdded,
    /// We took it away, and they changed it.
    RemovedByOurs,
    /// They took it away, and we changed it.
    RemovedByTheirs,
}

/// A conflict over the unit with this label.
#[derive(Debug, Drop)]
pub struct Conflict {
    pub change: Change,
    pub label: OwnedLabel,
}

/// The label of our form of a unit, or of theirs if we took it away.
fn label_of_either<'a>(ours: Option<UnitView<'a>>, theirs: Option<UnitView<'a>>) -> Label<'a>
    ensures { (ro rt : Reading) (o t : Option Unit) → MaySee ro ours.entry o → MaySee rt theirs.entry t → label_seen result ≡ label_of_either o t }
{
    match (ours, theirs) {
        (Some(unit), _) => unit.label,
        (None, Some(unit)) => unit.label,
        (None, None) => Label::Bytes(b""),
    }
}

/// The unit as a whole.
fn whole(alloc: Global) -> Result<Vec<ChangedPart>, AllocError>
    ensures { IfOk result (λ parts. map part_seen parts.items ≡ WholePart ∷ []) }
{
    let mut parts = Vec::new(alloc);
    parts.push(ChangedPart::Whole)?;
    Ok(parts)
}

/// The parts in conflict of a unit that each side has changed.
fn parts_of<L: ItemList>(
    alloc: Global,
    base: &Database<L>,
    b: UnitView<'_>,
    ours: &Database<L>,
    o: UnitView<'_>,
    theirs: &Database<L>,
    t: UnitView<'_>,
) -> Result<Vec<ChangedPart>, AllocError>
    ensures { IfOk result (λ parts. OfReading base.now (λ rb. OfReading ours.now (λ ro. OfReading theirs.now (λ rt. (ub uo ut : Option Unit)
        → MaySee rb (Some b.entry) ub → MaySee ro (Some o.entry) uo → MaySee rt (Some t.entry) ut
        → map part_seen parts.items ≡ parts_in_conflict (entry_of ub) (entry_of uo) (entry_of ut))))) }
{
    match (b.item, o.item, t.item) {
        (Some(b), Some(o), Some(t)) => {
            let parts = parts_in_conflict(alloc, base, b, ours, o, theirs, t)?;
            Ok(parts)
        }
        _ => {
            let parts = whole(alloc)?;
            Ok(parts)
        }
    }
}

/// How the sides came into conflict over a unit.
fn change_of<L: ItemList>(
    alloc: Global,
    base: &Database<L>,
    b: Option<UnitView<'_>>,
    ours: &Database<L>,
    o: Option<UnitView<'_>>,
    theirs: &Database<L>,
    t: Option<UnitView<'_>>,
) -> Result<Change, AllocError>
    ensures { IfOk result (λ change. OfReading base.now (λ rb. OfReading ours.now (λ ro. OfReading theirs.now (λ rt. (ub uo ut : Option Unit)
        → MaySee rb b.entry ub → MaySee ro o.entry uo → MaySee rt t.entry ut → change_seen change ≡ change_of ub uo ut)))) }
{
    match (b, o, t) {
        (_, None, _) => Ok(Change::RemovedByOurs),
        (_, Some(_), None) => Ok(Change::RemovedByTheirs),
        (None, Some(_), Some(_)) => Ok(Change::BothAdded),
        (Some(b), Some(o), Some(t)) => {
            let parts = parts_of(alloc, base, b, ours, o, theirs, t)?;
            Ok(Change::Changed(Seq::from_vec(parts)))
        }
    }
}

/// The conflict over a unit, if both versions of it stay.
fn conflict_over<L: ItemList>(
    alloc: Global,
    base: &Database<L>,
    b: Option<UnitView<'_>>,
    ours: &Database<L>,
    o: Option<UnitView<'_>>,
    theirs: &Database<L>,
    t: Option<UnitView<'_>>,
    outcome: Outcome<'_>,
) -> Result<Option<Conflict>, AllocError>
    ensures { IfOk result (λ conflict. OfReading base.now (λ rb. OfReading ours.now (λ ro. OfReading theirs.now (λ rt. (ub uo ut : Option Unit)
        → MaySee rb b.entry ub → MaySee ro o.entry uo → MaySee rt t.entry ut
        → option_to_list (option_map conflict_seen conflict) ≡ conflict_over ub uo ut (outcome_seen uo ut outcome.entry))))) }
{
    match outcome {
        Outcome::Both => {
            let change = change_of(alloc, base, b, ours, o, theirs, t)?;
            let label = OwnedLabel::of(alloc, label_of_either(o, t))?;
            Ok(Some(Conflict { change, label }))
        }
        Outcome::Ours | Outcome::Theirs | Outcome::Mixed(_) | Outcome::Gone => Ok(None),
    }
}

/// Adds the conflict, if there is one.
fn add(conflicts: &mut Vec<Conflict>, conflict: Option<Conflict>) -> Result<(), AllocError>
    ensures { OnOk result (conflicts.new.items ≡ conflicts.old.items ++ option_to_list conflict) }
{
    if let Some(conflict) = conflict {
        conflicts.push(conflict)?;
    }
    Ok(())
}

/// The conflicts of a merge of these places, in their order, given three open files and their units. It takes time in the number of
/// places, and time and memory for each conflict, in the lengths of the three versions.
pub fn conflicts_of<L: ItemList>(
    alloc: Global,
    base: &Database<L>,
    base_units: &[UnitView<'_>],
    ours: &Database<L>,
    our_units: &[UnitView<'_>],
    theirs: &Database<L>,
    their_units: &[UnitView<'_>],
    places: &[Place<'_>],
) -> Result<Vec<Conflict>, AllocError>
    ensures { IfOk result (λ conflicts. (rb ro rt : Reading) → IsSide rb base.now base_units.now → IsSide ro ours.now our_units.now → IsSide rt theirs.now their_units.now
        → map conflict_seen conflicts.items ≡ conflicts_of (units_of rb) (units_of ro) (units_of rt) (map (place_seen (units_of ro) (units_of rt)) places.now)) }
{
    let mut conflicts = Vec::new(alloc);
    'places: for k in 0..places.len() {
        let place = &places[k];
        let b = unit_at(base_units, place.base);
        let o = unit_at(our_units, place.ours);
        let t = unit_at(their_units, place.theirs);
        let conflict = conflict_over(alloc, base, b, ours, o, theirs, t, place.outcome)?;
        add(&mut conflicts, conflict)?;
    }
    Ok(conflicts)
}

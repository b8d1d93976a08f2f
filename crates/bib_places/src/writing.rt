//! The bytes of a merge.

ghost use Rattle.std.specs.Prelude.{◌≡◌, ◌++◌, [], Option, map, IfOk, OnOk};
ghost use Rattle.std.specs.Option.{option_map_or};
ghost use Rattle.bib_spec.specs.Reading.{Reading};
ghost use Rattle.bib_store.specs.Readings.{OfReading};
ghost use Rattle.merge_spec.specs.Units.{Unit, unit_bytes, units_of};
ghost use Rattle.merge_spec.specs.ThreeWay.{entry_of};
ghost use Rattle.merge_spec.specs.Merged.{version, conflict_bytes, outcome_bytes, merged_bytes};
ghost use Rattle.bib_fields.specs.MixSeen.{mix_bytes};
ghost use Rattle.bib_places.specs.PlacesSeen.{MaySee, IsSide, outcome_seen, place_seen};

use crate::place::{Outcome, Place};
use crate::side::{Side, item_of, unit_at};
use bib_fields::{Mix, add_mixed};
use bib_store::{Database, ItemList};
use bib_text::Text;
use bib_units::UnitView;
use std::alloc::{AllocError, Global};

/// Adds the bytes of a unit, if it is there.
fn add_unit(out: &mut Vec<u8>, unit: Option<UnitView<'_>>) -> Result<(), AllocError>
    ensures { OnOk result ((r : Reading) (u : Option Unit) → MaySee r unit.entry u → out.new.items ≡ out.old.items ++ option_map_or unit_bytes u []) }
{
    if let Some(unit) = unit {
        out.extend_from_slice(unit.bytes)?;
    }
    Ok(())
}

/// Adds a version of a unit in conflict, if it is there.
fn add_version(out: &mut Vec<u8>, unit: Option<UnitView<'_>>) -> Result<(), AllocError>
    ensures { OnOk result ((r : Reading) (u : Option Unit) → MaySee r unit.entry u → out.new.items ≡ out.old.items ++ version u) }
{
    if let Some(unit) = unit {
        out.extend_from_slice(unit.bytes)?;
        out.push(b'\n')?;
    }
    Ok(())
}

/// Adds two versions of a unit between markers.
fn add_conflict(
    out: &mut Vec<u8>,
    ours: Option<UnitView<'_>>,
    theirs: Option<UnitView<'_>>,
) -> Result<(), AllocError>
    ensures { OnOk result ((ro rt : Reading) (o t : Option Unit) → MaySee ro ours.entry o → MaySee rt theirs.entry t → out.new.items ≡ out.old.items ++ conflict_bytes o t) }
{
    out.extend_from_slice(b"<<<<<<< ours\n")?;
    add_version(out, ours)?;
    out.extend_from_slice(b"=======\n")?;
    add_version(out, theirs)?;
    out.extend_from_slice(b">>>>>>> theirs")?;
    Ok(())
}

/// Adds the bytes of a merged entry.
fn add_mix<L: ItemList>(
    alloc: Global,
    out: &mut Vec<u8>,
    ours: &Database<L>,
    o: Option<UnitView<'_>>,
    theirs: &Database<L>,
    t: Option<UnitView<'_>>,
    mix: Mix<'_>,
) -> Result<(), AllocError>
    ensures { OnOk result (OfReading ours.now (λ ro. OfReading theirs.now (λ rt. (uo ut : Option Unit) → MaySee ro o.entry uo → MaySee rt t.entry ut
        → out.new.items ≡ out.old.items ++ mix_bytes (entry_of uo) (entry_of ut) mix.entry))) }
{
    match (item_of(o), item_of(t)) {
        (Some(n), Some(m)) => {
            add_mixed(alloc, out, ours, n, theirs, m, mix)?;
            Ok(())
        }
        // A merged entry is made of two items.
        _ => Err(AllocError),
    }
}

/// Adds the bytes of what became of the units of a place, and of the white space after it.
fn add_outcome<L: ItemList>(
    alloc: Global,
    out: &mut Vec<u8>,
    ours: &Database<L>,
    o: Option<UnitView<'_>>,
    theirs: &Database<L>,
    t: Option<UnitView<'_>>,
    space: &[u8],
    outcome: Outcome<'_>,
) -> Result<(), AllocError>
    ensures { OnOk result (OfReading ours.now (λ ro. OfReading theirs.now (λ rt. (uo ut : Option Unit) → MaySee ro o.entry uo → MaySee rt t.entry ut
        → out.new.items ≡ out.old.items ++ outcome_bytes uo ut space.now (outcome_seen uo ut outcome.entry)))) }
{
    match outcome {
        Outcome::Ours => {
            add_unit(out, o)?;
            out.extend_from_slice(space)?;
        }
        Outcome::Theirs => {
            add_unit(out, t)?;
            out.extend_from_slice(space)?;
        }
        Outcome::Mixed(mix) => {
            add_mix(alloc, out, ours, o, theirs, t, mix)?;
            out.extend_from_slice(space)?;
        }
        Outcome::Gone => {}
        Outcome::Both => {
            add_conflict(out, o, t)?;
            out.extend_from_slice(space)?;
        }
    }
    Ok(())
}

/// How many bytes our unit of a place has, or theirs if we have none, with the white space after it.
fn len_at(ours: &[UnitView<'_>], theirs: &[UnitView<'_>], place: &Place<'_>) -> usize {
    let unit = match unit_at(ours, place.ours) {
        Some(unit) => Some(unit),
        None => unit_at(theirs, place.theirs),
    };
    match unit {
        Some(unit) => unit.bytes.len().saturating_add(place.space.len()),
        None => 0,
    }
}

/// About how many bytes the merge of these places has, so that there is room for them at once.
fn about_len(ours: &[UnitView<'_>], theirs: &[UnitView<'_>], places: &[Place<'_>]) -> usize {
    let mut len: usize = 0;
    'places: for k in 0..places.len() {
        len = len.saturating_add(len_at(ours, theirs, &places[k]));
    }
    len
}

/// The bytes of the merge of these places, which begins with this white space. It takes time and memory in their number, and in
/// the lengths of the entries that are merged field by field.
pub fn merged_text<L: ItemList>(
    alloc: Global,
    ours: &Side<'_, L>,
    theirs: &Side<'_, L>,
    space: &[u8],
    places: &[Place<'_>],
) -> Result<Text, AllocError>
    ensures { IfOk result (λ text. (ro rt : Reading) → IsSide ro ours.now.db.now ours.now.units.now → IsSide rt theirs.now.db.now theirs.now.units.now
        → text ≡ merged_bytes (units_of ro) (units_of rt) space.now (map (place_seen (units_of ro) (units_of rt)) places.now)) }
{
    let mut out = Vec::from_slice(alloc, space)?;
    out.reserve(about_len(ours.units, theirs.units, places))?;
    'places: for k in 0..places.len() {
        let place = &places[k];
        let o = unit_at(ours.units, place.ours);
        let t = unit_at(theirs.units, place.theirs);
        add_outcome(
            alloc,
            &mut out,
            ours.db,
            o,
            theirs.db,
            t,
            place.space,
            place.outcome,
        )?;
    }
    Ok(Text::from_vec(out))
}

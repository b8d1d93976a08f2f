//! Whether a list of places is a merge.

ghost use Rattle.std.specs.Prelude.{◌≡◌, true, List, map, IfOk};
ghost use Rattle.std.specs.List.{list_all};
ghost use Rattle.bib_spec.specs.Reading.{Reading};
ghost use Rattle.merge_spec.specs.Units.{Label, units_of};
ghost use Rattle.merge_spec.specs.Merged.{is_merge, is_settled as is_settled_in};
ghost use Rattle.bib_places.specs.OwnedLabels.{owned_seen};
ghost use Rattle.bib_places.specs.Tallies.{CountsLabels};
ghost use Rattle.bib_places.specs.PlacesSeen.{IsSide, place_seen};

use crate::naming::codes_given;
use crate::once::are_once;
use crate::owned_label::OwnedLabel;
use crate::place::{File, Place};
use crate::seldom::are_seldom;
use crate::settled::is_settled;
use crate::side::Side;
use crate::tally::Tally;
use bib_store::ItemList;
use std::alloc::{AllocError, Global};

/// Whether the units of each place have one label, and may become what becomes of them, where the sides gave units the labels that were
/// counted.
fn are_settled<L: ItemList>(
    alloc: Global,
    given: &Tally<'_>,
    base: &Side<'_, L>,
    ours: &Side<'_, L>,
    theirs: &Side<'_, L>,
    places: &[Place<'_>],
) -> Result<bool, AllocError>
    ensures { IfOk result (λ settled. settled ≡ true → (rb ro rt : Reading) → IsSide rb base.now.db.now base.now.units.now → IsSide ro ours.now.db.now ours.now.units.now
        → IsSide rt theirs.now.db.now theirs.now.units.now → (labels : List Label) → CountsLabels given.now.counts labels → list_all (is_settled_in labels (units_of rb) (units_of ro) (units_of rt)) (map (place_seen (units_of ro) (units_of rt)) places.now) ≡ true) }
{
    'places: for k in 0..places.len() {
        if !is_settled(alloc, given, base, ours, theirs, &places[k])? {
            return Ok(false);
        }
    }
    Ok(true)
}

/// Whether the places are a merge of these files, in which the sides gave units these labels: each unit of each file is at one place,
/// what becomes of it is what may, and no unit is there twice because each side has added it. It takes time and memory in the number of units and places, and in the
/// lengths of their labels and of the units that differ. It is refused only out of memory.
pub fn is_merge<L: ItemList>(
    alloc: Global,
    given: &[OwnedLabel],
    base: &Side<'_, L>,
    ours: &Side<'_, L>,
    theirs: &Side<'_, L>,
    places: &[Place<'_>],
) -> Result<bool, AllocError>
    ensures { IfOk result (λ merge. merge ≡ true → (rb ro rt : Reading) → IsSide rb base.now.db.now base.now.units.now → IsSide ro ours.now.db.now ours.now.units.now
        → IsSide rt theirs.now.db.now theirs.now.units.now → is_merge (map owned_seen given.now) (units_of rb) (units_of ro) (units_of rt) (map (place_seen (units_of ro) (units_of rt)) places.now) ≡ true) }
{
    if !are_once(alloc, base.units.len(), places, File::Base)? {
        return Ok(false);
    }
    if !are_once(alloc, ours.units.len(), places, File::Ours)? {
        return Ok(false);
    }
    if !are_once(alloc, theirs.units.len(), places, File::Theirs)? {
        return Ok(false);
    }
    let codes = codes_given(alloc, given)?;
    let given = Tally::of(alloc, codes.as_slice())?;
    if !are_settled(alloc, &given, base, ours, theirs, places)? {
        return Ok(false);
    }
    let seldom = are_seldom(alloc, ours.units, theirs.units, places)?;
    Ok(seldom)
}

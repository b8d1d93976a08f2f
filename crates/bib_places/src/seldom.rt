//! Whether no unit is in a merge twice because each side has added it.

ghost use Rattle.std.specs.Prelude.{◌≡◌, ◌||◌, true, nat_le, List, map, IfOk};
ghost use Rattle.std.specs.List.{list_all};
ghost use Rattle.bib_spec.specs.Reading.{Reading};
ghost use Rattle.merge_spec.specs.Units.{Spaced};
ghost use Rattle.merge_spec.specs.Merged.{are_seldom};
ghost use Rattle.bib_units.specs.UnitsSeen.{AreUnits};
ghost use Rattle.bib_places.specs.Tallies.{count_of, times};
ghost use Rattle.bib_places.specs.PlacesSeen.{place_seen};

use crate::codes::{codes_left, codes_of};
use crate::place::Place;
use crate::tally::Tally;
use bib_text::Text;
use bib_units::UnitView;
use std::alloc::{AllocError, Global};

/// Whether the text was counted no more often by the first than by one of the others.
fn is_seldom(merged: &Tally<'_>, ours: &Tally<'_>, theirs: &Tally<'_>, code: &[u8]) -> bool
    ensures { result ≡ (nat_le (times merged.now.counts code.now) (times ours.now.counts code.now) || nat_le (times merged.now.counts code.now) (times theirs.now.counts code.now)) }
{
    let count = merged.count(code);
    count <= ours.count(code) || count <= theirs.count(code)
}

/// Whether each of these codes is there no more often than among one of the others.
fn are_all_seldom(
    alloc: Global,
    merged: &[Text],
    ours: &[Text],
    theirs: &[Text],
) -> Result<bool, AllocError>
    ensures { IfOk result (λ seldom. seldom ≡ true → list_all (λ code. nat_le (count_of code merged.now) (count_of code ours.now) || nat_le (count_of code merged.now) (count_of code theirs.now)) merged.now ≡ true) }
{
    let all = Tally::of(alloc, merged)?;
    let ours = Tally::of(alloc, ours)?;
    let theirs = Tally::of(alloc, theirs)?;
    'codes: for k in 0..merged.len() {
        if !is_seldom(&all, &ours, &theirs, merged[k].as_slice()) {
            return Ok(false);
        }
    }
    Ok(true)
}

/// Whether each of these codes is there once.
fn are_single(alloc: Global, merged: &[Text]) -> Result<bool, AllocError>
    ensures { IfOk result (λ single. single ≡ true → list_all (λ code. nat_le (count_of code merged.now) 1) merged.now ≡ true) }
{
    let all = Tally::of(alloc, merged)?;
    'codes: for k in 0..merged.len() {
        let is_once = all.count(merged[k].as_slice()) <= 1;
        if !is_once {
            return Ok(false);
        }
    }
    Ok(true)
}

/// Whether no unit is in the merge twice because each side has added it. What is there once is there no more often than in the file
/// that it is from, so that the units of the two files are counted only if something is there twice.
pub(crate) fn are_seldom(
    alloc: Global,
    ours: &[UnitView<'_>],
    theirs: &[UnitView<'_>],
    places: &[Place<'_>],
) -> Result<bool, AllocError>
    ensures { IfOk result (λ seldom. seldom ≡ true → (ro rt : Reading) (uo ut : List Spaced) → AreUnits ro ours.now uo → AreUnits rt theirs.now ut
        → are_seldom (map (λ s. s.unit) uo) (map (λ s. s.unit) ut) (map (place_seen (map (λ s. s.unit) uo) (map (λ s. s.unit) ut)) places.now) ≡ true) }
{
    let merged = codes_left(alloc, ours, theirs, places)?;
    let single = are_single(alloc, merged.as_slice())?;
    if single {
        return Ok(true);
    }
    let of_ours = codes_of(alloc, ours)?;
    let of_theirs = codes_of(alloc, theirs)?;
    let seldom = are_all_seldom(
        alloc,
        merged.as_slice(),
        of_ours.as_slice(),
        of_theirs.as_slice(),
    )?;
    Ok(seldom)
}

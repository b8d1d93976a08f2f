//! Labels as texts, so that they can be counted and found.

ghost use Rattle.std.specs.Prelude.{◌≡◌, ◌∷◌, ◌++◌, List, Option, None, Some, map, option_map, IfOk, OnOk};
ghost use Rattle.std.specs.Option.{option_map_or, option_to_list};
ghost use Rattle.bib_spec.specs.Text.{folded, Text as Bytes};
ghost use Rattle.bib_spec.specs.Reading.{Reading};
ghost use Rattle.merge_spec.specs.Units.{Unit, Spaced, label_of};
ghost use Rattle.merge_spec.specs.Merged.{label_left, labels_left};
ghost use Rattle.bib_units.specs.Labels.{label_seen};
ghost use Rattle.bib_units.specs.UnitsSeen.{AreUnits};
ghost use Rattle.bib_places.specs.LabelCodes.{code_of};
ghost use Rattle.bib_places.specs.PlacesSeen.{MaySee, outcome_seen, place_seen};

use crate::place::{Outcome, Place};
use crate::side::unit_at;
use bib_text::{Seq, Text};
use bib_units::{Label, UnitView};
use std::alloc::{AllocError, Global};

/// The text after this byte.
fn after(alloc: Global, first: u8, text: &[u8]) -> Result<Vec<u8>, AllocError>
    ensures { IfOk result (λ bytes. bytes.items ≡ first ∷ text.now) }
{
    let mut bytes = Vec::with_capacity(alloc, text.len().saturating_add(1))?;
    bytes.push(first)?;
    bytes.extend_from_slice(text)?;
    Ok(bytes)
}

/// The text in lower case after this byte, which is no letter.
fn lower_after(alloc: Global, first: u8, text: &[u8]) -> Result<Text, AllocError>
    ensures { IfOk result (λ bytes. bytes ≡ folded (first ∷ text.now)) }
{
    let mut bytes = after(alloc, first, text)?;
    bytes.make_ascii_lowercase();
    Ok(Seq::from_vec(bytes))
}

/// The code of a label.
pub(crate) fn code_of(alloc: Global, label: Label<'_>) -> Result<Text, AllocError>
    ensures { IfOk result (λ code. code ≡ code_of (label_seen label.entry)) }
{
    match label {
        Label::Entry(key) => lower_after(alloc, 0, key),
        Label::Macro(name) => lower_after(alloc, 1, name),
        Label::Bytes(bytes) => Ok(Seq::from_vec(after(alloc, 2, bytes)?)),
    }
}

/// The codes of the labels of these units, in order. It takes time and memory in the lengths of the labels.
pub(crate) fn codes_of(alloc: Global, units: &[UnitView<'_>]) -> Result<Vec<Text>, AllocError>
    ensures { IfOk result (λ codes. (r : Reading) (all : List Spaced) → AreUnits r units.now all → codes.items ≡ map code_of (map label_of (map (λ s. s.unit) all))) }
{
    let mut codes = Vec::new(alloc);
    'units: for k in 0..units.len() {
        codes.push(code_of(alloc, units[k].label)?)?;
    }
    Ok(codes)
}

/// The label of a unit, if it is there.
fn label_in<'a>(unit: Option<UnitView<'a>>) -> Option<Label<'a>>
    ensures { (r : Reading) (u : Option Unit) → MaySee r unit.entry u → option_map label_seen result ≡ option_map_or (λ v. Some (label_of v)) u None }
{
    match unit {
        Some(unit) => Some(unit.label),
        None => None,
    }
}

/// The label of what is left at a place, if anything is.
fn label_left<'a>(
    ours: Option<UnitView<'a>>,
    theirs: Option<UnitView<'a>>,
    outcome: Outcome<'_>,
) -> Option<Label<'a>>
    ensures { (ro rt : Reading) (o t : Option Unit) → MaySee ro ours.entry o → MaySee rt theirs.entry t → option_map label_seen result ≡ label_left o t (outcome_seen o t outcome.entry) }
{
    match outcome {
        Outcome::Ours => label_in(ours),
        Outcome::Theirs => label_in(theirs),
        Outcome::Mixed(_) => label_in(ours),
        Outcome::Gone => None,
        Outcome::Both => match ours {
            Some(unit) => Some(unit.label),
            None => label_in(theirs),
        },
    }
}

/// Adds the code of the label, if there is one.
fn add_code(
    alloc: Global,
    codes: &mut Vec<Text>,
    label: Option<Label<'_>>,
) -> Result<(), AllocError>
    ensures { OnOk result (codes.new.items ≡ codes.old.items ++ option_to_list (option_map code_of (option_map label_seen label.entry))) }
{
    if let Some(label) = label {
        codes.push(code_of(alloc, label)?)?;
    }
    Ok(())
}

/// The codes of the labels of what is left in a merge, in order. It takes time and memory in the lengths of the labels.
pub(crate) fn codes_left(
    alloc: Global,
    ours: &[UnitView<'_>],
    theirs: &[UnitView<'_>],
    places: &[Place<'_>],
) -> Result<Vec<Text>, AllocError>
    ensures { IfOk result (λ codes. (ro rt : Reading) (uo ut : List Spaced) → AreUnits ro ours.now uo → AreUnits rt theirs.now ut
        → codes.items ≡ map code_of (labels_left (map (λ s. s.unit) uo) (map (λ s. s.unit) ut) (map (place_seen (map (λ s. s.unit) uo) (map (λ s. s.unit) ut)) places.now))) }
{
    let mut codes = Vec::with_capacity(alloc, places.len())?;
    'places: for k in 0..places.len() {
        let place = &places[k];
        let o = unit_at(ours, place.ours);
        let t = unit_at(theirs, place.theirs);
        add_code(alloc, &mut codes, label_left(o, t, place.outcome))?;
    }
    Ok(codes)
}

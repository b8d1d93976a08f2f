//! The labels that the sides gave to units.

ghost use Rattle.std.specs.Prelude.{◌≡◌, List, Option, map, IfOk};
ghost use Rattle.std.specs.List.{list_any};
ghost use Rattle.bib_spec.specs.Reading.{Reading};
ghost use Rattle.merge_spec.specs.Units.{Unit, Label as SeenLabel, same_label};
ghost use Rattle.merge_spec.specs.Merged.{is_removed_and_named};
ghost use Rattle.bib_units.specs.Labels.{label_seen};
ghost use Rattle.bib_places.specs.LabelCodes.{code_of};
ghost use Rattle.bib_places.specs.OwnedLabels.{owned_seen};
ghost use Rattle.bib_places.specs.Tallies.{CountsLabels};
ghost use Rattle.bib_places.specs.PlacesSeen.{MaySee};

use crate::codes::code_of;
use crate::owned_label::OwnedLabel;
use crate::settled::Met;
use crate::tally::Tally;
use bib_text::Text;
use bib_units::Label;
use std::alloc::{AllocError, Global};

/// The codes of these labels, in order.
pub(crate) fn codes_given(alloc: Global, labels: &[OwnedLabel]) -> Result<Vec<Text>, AllocError>
    ensures { IfOk result (λ codes. codes.items ≡ map code_of (map owned_seen labels.now)) }
{
    let mut codes = Vec::new(alloc);
    'labels: for k in 0..labels.len() {
        codes.push(code_of(alloc, labels[k].as_label())?)?;
    }
    Ok(codes)
}

/// Whether the label is one of those that were counted.
fn is_among(alloc: Global, given: &Tally<'_>, label: Label<'_>) -> Result<bool, AllocError>
    ensures { IfOk result (λ is. (labels : List SeenLabel) → CountsLabels given.now.counts labels → is ≡ list_any (same_label (label_seen label.entry)) labels) }
{
    let code = code_of(alloc, label)?;
    Ok(given.count(code.as_slice()) != 0)
}

/// Whether one side took away a unit of the common file, and the other gave its name to the form of it that it has.
pub(crate) fn is_removed_and_named(
    alloc: Global,
    given: &Tally<'_>,
    met: Met<'_>,
) -> Result<bool, AllocError>
    ensures { IfOk result (λ is. (labels : List SeenLabel) → CountsLabels given.now.counts labels → (rb ro rt : Reading) (b o t : Option Unit)
        → MaySee rb met.entry.base b → MaySee ro met.entry.ours o → MaySee rt met.entry.theirs t → is ≡ is_removed_and_named labels b o t) }
{
    match (met.base, met.ours, met.theirs) {
        (Some(_), Some(unit), None) => {
            let is = is_among(alloc, given, unit.label)?;
            Ok(is)
        }
        (Some(_), None, Some(unit)) => {
            let is = is_among(alloc, given, unit.label)?;
            Ok(is)
        }
        _ => Ok(false),
    }
}

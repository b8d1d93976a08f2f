//! One of the files of a merge, with its units.

ghost use Rattle.std.specs.Prelude.{◌≡◌, List, Option, map, slice_get, IfSome};
ghost use Rattle.bib_spec.specs.Reading.{Reading};
ghost use Rattle.merge_spec.specs.Units.{Unit, Spaced};
ghost use Rattle.merge_spec.specs.Merged.{unit_at};
ghost use Rattle.bib_units.specs.UnitsSeen.{AreUnits};
ghost use Rattle.bib_places.specs.PlacesSeen.{MaySee, IsItemUnit};

use bib_store::{Database, ItemList};
use bib_units::UnitView;

/// An open file and its units.
#[derive(Drop)]
pub struct Side<'a, L: ItemList> {
    pub db: &'a Database<L>,
    pub units: &'a [UnitView<'a>],
}

/// The unit with this number, if there are so many.
pub(crate) fn unit_with<'a>(units: &[UnitView<'a>], n: usize) -> Option<UnitView<'a>>
    ensures { result ≡ slice_get units.now n }
{
    match units.get(n) {
        Some(unit) => Some(*unit),
        None => None,
    }
}

/// The unit with this number, if there is a number.
pub(crate) fn unit_at<'a>(units: &[UnitView<'a>], number: Option<usize>) -> Option<UnitView<'a>>
    ensures { (r : Reading) (all : List Spaced) → AreUnits r units.now all → MaySee r result (unit_at (map (λ s. s.unit) all) number) }
{
    match number {
        Some(n) => unit_with(units, n),
        None => None,
    }
}

/// The number of the item that a unit is, if it is there and no text.
pub(crate) fn item_of(unit: Option<UnitView<'_>>) -> Option<usize>
    ensures { (r : Reading) (u : Option Unit) → MaySee r unit.entry u → IfSome result (λ n. IsItemUnit r n u) }
{
    match unit {
        Some(unit) => unit.item,
        None => None,
    }
}

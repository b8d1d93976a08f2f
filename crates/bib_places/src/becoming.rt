//! What may become of the units that meet at a place.

ghost use Rattle.std.specs.Prelude.{◌≡◌, Option, IfOk};
ghost use Rattle.bib_spec.specs.Reading.{Reading};
ghost use Rattle.bib_store.specs.Readings.{OfReading};
ghost use Rattle.merge_spec.specs.Units.{Unit};
ghost use Rattle.merge_spec.specs.ThreeWay.{is_left, is_unchanged, says_the_same};
ghost use Rattle.merge_spec.specs.Merged.{share_label};
ghost use Rattle.bib_places.specs.PlacesSeen.{MaySee, SeesUnit};

use bib_sayings::items_agree;
use bib_store::{Database, ItemList};
use bib_units::{UnitView, is_same};
use std::alloc::{AllocError, Global};

/// Whether the units that are there have one label.
pub(crate) fn share_label(a: Option<UnitView<'_>>, b: Option<UnitView<'_>>) -> bool
    ensures { (ra rb : Reading) (ua ub : Option Unit) → MaySee ra a.entry ua → MaySee rb b.entry ub → result ≡ share_label ua ub }
{
    match (a, b) {
        (Some(a), Some(b)) => is_same(a.label, b.label),
        _ => true,
    }
}

/// Whether the two units have the same bytes, or both are absent.
pub(crate) fn is_left(a: Option<UnitView<'_>>, b: Option<UnitView<'_>>) -> bool
    ensures { (ra rb : Reading) (ua ub : Option Unit) → MaySee ra a.entry ua → MaySee rb b.entry ub → result ≡ is_left ua ub }
{
    match (a, b) {
        (Some(a), Some(b)) => a.bytes == b.bytes,
        (None, None) => true,
        _ => false,
    }
}

/// Whether the two units have the same bytes, or say the same.
fn says_the_same<L: ItemList>(
    alloc: Global,
    file_a: &Database<L>,
    a: UnitView<'_>,
    file_b: &Database<L>,
    b: UnitView<'_>,
) -> Result<bool, AllocError>
    ensures { IfOk result (λ same. OfReading file_a.now (λ ra. OfReading file_b.now (λ rb. (ua ub : Unit) → SeesUnit ra a.entry ua → SeesUnit rb b.entry ub
        → same ≡ says_the_same ua ub))) }
{
    if a.bytes == b.bytes {
        return Ok(true);
    }
    match (a.item, b.item) {
        (Some(n), Some(m)) => {
            let same = items_agree(alloc, file_a, n, file_b, m)?;
            Ok(same)
        }
        _ => Ok(false),
    }
}

/// Whether the two units have the same bytes, or say the same; or both are absent.
pub(crate) fn is_unchanged<L: ItemList>(
    alloc: Global,
    file_a: &Database<L>,
    a: Option<UnitView<'_>>,
    file_b: &Database<L>,
    b: Option<UnitView<'_>>,
) -> Result<bool, AllocError>
    ensures { IfOk result (λ same. OfReading file_a.now (λ ra. OfReading file_b.now (λ rb. (ua ub : Option Unit) → MaySee ra a.entry ua → MaySee rb b.entry ub
        → same ≡ is_unchanged ua ub))) }
{
    match (a, b) {
        (Some(a), Some(b)) => {
            let same = says_the_same(alloc, file_a, a, file_b, b)?;
            Ok(same)
        }
        (None, None) => Ok(true),
        _ => Ok(false),
    }
}

//! The white space after each unit of a merge.

ghost use Rattle.std.specs.Prelude.{◌≡◌, List, map, slice_get};
ghost use Rattle.bib_spec.specs.Reading.{Reading};
ghost use Rattle.merge_spec.specs.Units.{Spaced};
ghost use Rattle.merge_spec.specs.Merged.{unit_at};
ghost use Rattle.bib_units.specs.UnitsSeen.{AreUnits};
ghost use Rattle.bib_places.specs.PlacesSeen.{MaySee};

use crate::pairing::Row;
use bib_units::UnitView;

/// The unit with this number, if there are so many.
fn unit_with<'a>(units: &[UnitView<'a>], n: usize) -> Option<UnitView<'a>>
    ensures { result ≡ slice_get units.now n }
{
    match units.get(n) {
        Some(unit) => Some(*unit),
        None => None,
    }
}

/// The unit with this number, if there is a number.
pub(crate) fn unit<'a>(units: &[UnitView<'a>], number: Option<usize>) -> Option<UnitView<'a>>
    ensures { (r : Reading) (all : List Spaced) → AreUnits r units.now all → MaySee r result (unit_at (map (λ s. s.unit) all) number) }
{
    match number {
        Some(n) => unit_with(units, n),
        None => None,
    }
}

/// The number before this one, or nothing before the first.
fn before(n: usize) -> Option<usize> {
    if n == 0 { None } else { Some(n - 1) }
}

/// Whether the second unit comes right after the first in a file.
fn follows(first: Option<usize>, second: Option<usize>) -> bool {
    match (first, second) {
        (Some(first), Some(second)) => before(second) == Some(first),
        _ => false,
    }
}

/// How many line feeds the text has.
fn lines(text: &[u8]) -> usize {
    text.iter().filter(|byte| **byte == b'\n').count()
}

/// Of three white spaces, theirs if ours is that of the common file, or else ours.
pub(crate) fn chosen<'a>(base: &[u8], ours: &'a [u8], theirs: &'a [u8]) -> &'a [u8] {
    if ours == base {
        return theirs;
    }
    ours
}

/// The white space after a unit by itself.
fn own_space<'a>(
    b: Option<UnitView<'_>>,
    o: Option<UnitView<'a>>,
    t: Option<UnitView<'a>>,
) -> &'a [u8] {
    match (b, o, t) {
        (Some(b), Some(o), Some(t)) => chosen(b.space, o.space, t.space),
        (_, Some(o), _) => o.space,
        (_, None, Some(t)) => t.space,
        (_, None, None) => b"",
    }
}

/// The white space before a unit in its file.
fn space_before<'a>(units: &[UnitView<'a>], n: Option<usize>) -> Option<&'a [u8]> {
    let n = n?;
    let found = unit(units, before(n))?;
    Some(found.space)
}

/// The wider of two white spaces, by line feeds, and at least a line feed.
fn wider<'a>(one: &'a [u8], other: &'a [u8]) -> &'a [u8] {
    let wide = if lines(one) < lines(other) {
        other
    } else {
        one
    };
    if lines(wide) == 0 {
        return b"\n";
    }
    wide
}

/// The three lists of units.
#[derive(Clone, Copy)]
pub(crate) struct Units<'b, 'a> {
    pub base: &'b [UnitView<'b>],
    pub ours: &'a [UnitView<'a>],
    pub theirs: &'a [UnitView<'a>],
}

/// The white space after the unit of a row, if that of another row comes next.
pub(crate) fn space_after<'a>(units: Units<'_, 'a>, row: Row, next: Option<Row>) -> &'a [u8] {
    let own = own_space(
        unit(units.base, row.base()),
        unit(units.ours, row.ours()),
        unit(units.theirs, row.theirs()),
    );
    let Some(next) = next else {
        return own;
    };
    if follows(row.ours(), next.ours()) || follows(row.theirs(), next.theirs()) {
        return own;
    }
    let ahead = match space_before(units.ours, next.ours()) {
        Some(space) => space,
        None => match space_before(units.theirs, next.theirs()) {
            Some(space) => space,
            None => b"",
        },
    };
    wider(own, ahead)
}

//! Names that one side gave to what the other side took away.

ghost use Rattle.std.specs.Prelude.{◌≡◌, true};
ghost use Rattle.bib_renames.specs.Renamed.{IsGivenBy, IsGiven, AreGiven};
ghost use Rattle.bib_store.specs.Readings.{OfReading};

use crate::lone::count;
use crate::rename::Named;
use bib_store::{Database, ItemList};
use bib_text::Text;

/// The name that one side gave to an entry or a macro of the common file, which the other side took away.
#[derive(Debug, Drop)]
pub struct GivenName {
    pub what: Named,
    pub name: Text,
}

/// Whether this side has the name, once, and neither the common file nor the other side has it.
fn is_given_by<L: ItemList>(
    side: &Database<L>,
    other: &Database<L>,
    base: &Database<L>,
    given: &GivenName,
) -> bool
    ensures { result ≡ true → OfReading side.now (λ rs. OfReading other.now (λ ro. OfReading base.now (λ rb. IsGivenBy rs ro rb given.now))) }
{
    let name = given.name.as_slice();
    count(side, given.what, name) == 1
        && count(base, given.what, name) == 0
        && count(other, given.what, name) == 0
}

/// Whether one of the sides gave the name.
fn is_given<L: ItemList>(
    base: &Database<L>,
    ours: &Database<L>,
    theirs: &Database<L>,
    given: &GivenName,
) -> bool
    ensures { result ≡ true → OfReading base.now (λ rb. OfReading ours.now (λ ro. OfReading theirs.now (λ rt. IsGiven rb ro rt given.now))) }
{
    is_given_by(ours, theirs, base, given) || is_given_by(theirs, ours, base, given)
}

/// Whether one of the sides gave each of these names.
pub(crate) fn are_given<L: ItemList>(
    base: &Database<L>,
    ours: &Database<L>,
    theirs: &Database<L>,
    given: &[GivenName],
) -> bool
    ensures { result ≡ true → AreGiven base.now ours.now theirs.now given.now }
{
    'given: for k in 0..given.len() {
        if !is_given(base, ours, theirs, &given[k]) {
            return false;
        }
    }
    true
}

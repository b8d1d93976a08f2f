//! Places of keys.

ghost use Rattle.std.specs.Prelude.{◌≡◌, ◌+◌, ◌<◌, ◌^◌, IfOk, OnOk};
ghost use Rattle.bib_spec.specs.Records.{EntryTexts};
ghost use Rattle.bibtex_spec.specs.Places.{held_by, named_again};
ghost use Rattle.bibtex_places.specs.Seen.{seen};
ghost use Rattle.bibtex_places.specs.Steps.{place_of};

use bib_text::{Text, copied};
use std::alloc::{AllocError, Global};

/// A key that is to be listed: how it is spelled, the number of its entry if one was taken, how many entries name it, and
/// whether it is cited.
#[derive(Drop)]
pub(crate) struct Place {
    pub spelled: Text,
    pub entry: Option<usize>,
    pub count: usize,
    pub is_cited: bool,
}

/// The place of a key that only `*` cites, with its entry `n`.
pub(crate) fn added(alloc: Global, key: &[u8], n: usize) -> Result<Place, AllocError>
    ensures { IfOk result (λ place. seen place ≡ place_of key.now n) }
{
    Ok(Place {
        spelled: copied(alloc, key)?,
        entry: Some(n),
        count: 0,
        is_cited: false,
    })
}

/// Takes entry `n` for the place of its key.
pub(crate) fn hold(alloc: Global, place: &mut Place, key: &[u8], n: usize) -> Result<(), AllocError>
    ensures { OnOk result ((entry : EntryTexts) → entry.key ≡ key.now → seen place.new ≡ held_by entry n (seen place.old)) }
{
    if !place.is_cited {
        place.spelled = copied(alloc, key)?;
    }
    place.entry = Some(n);
    Ok(())
}

/// Names the place once more.
pub(crate) fn name_again(place: &mut Place)
    requires { place.old.count + 1 < 2 ^ 64 }
    ensures { seen place.new ≡ named_again (seen place.old) }
{
    place.count += 1;
}

//! The entries that keys cite, if each key finds one.

ghost use Rattle.std.specs.Prelude.{◌≡◌, IfOk, IfSome};
ghost use Rattle.bib_spec.specs.Records.{entries_of};
ghost use Rattle.bib_store.specs.Readings.{OfReading};
ghost use Rattle.bib_answers.specs.Cited.{all_cited};
ghost use Rattle.bib_answers.specs.Marks.{AreEntryNumbers};

use bib_store::{Database, Paged};
use bib_text::{Seq, Text};
use std::alloc::AllocError;

/// How many children of a parent must be cited before the parent is listed too. (btxdoc 2.1)
const MIN_CROSSREFS: u32 = 2;

/// The numbers of the entries that the keys cite, or `None` if a key finds no entry.
pub fn all_cited(db: &Database<Paged>, keys: &[Text]) -> Result<Option<Seq<usize>>, AllocError>
    ensures list { IfOk result (λ list. OfReading db.now (λ r. list ≡ all_cited (entries_of r) keys.now)) }
    ensures numbers { IfOk result (λ list. IfSome list (AreEntryNumbers db.now)) }
{
    let Ok(cited) = db.cited(keys, MIN_CROSSREFS) else {
        return Err(AllocError);
    };
    if cited.unknown.as_slice().is_empty() {
        Ok(Some(cited.listed))
    } else {
        Ok(None)
    }
}

//! Lists.

ghost use Rattle.std.specs.Prelude.{◌≡◌, false, true, Some, map, IfOk, IfErr, OnOk};
ghost use Rattle.bib_spec.specs.Records.{entries_of};
ghost use Rattle.bib_store.specs.Readings.{OfReading};
ghost use Rattle.bibtex_spec.specs.Listed.{listed_as_bibtex};
ghost use Rattle.bibtex_places.specs.Lists.{listed_entries, record_of_listed, is_too_deep, unknown_places};
ghost use Rattle.bibtex_places.specs.declared.fault.BibtexFault.TheVariants.{TooDeep};

use crate::entry_keys::entry_keys;
use bib_store::{Database, ItemList};
use bib_text::Text;
use bibtex_places::{BibtexFault, BibtexList, list_as_bibtex};
use std::alloc::Global;

/// The list that BibTeX 0.99d gives to a style for these keys, and the places of those keys that no entry has. A parent that is not
/// cited is listed if at least `least` listed entries name it. It takes time in the number of entries and keys, in the bytes of keys
/// and crossrefs, and in the places from which listed entries inherit, and memory for places and keys. It is refused if a listed
/// entry inherits from more than 64 places, and out of memory. (bibtex 132 to 136, 259 to 286; the limit: dialect)
pub fn listed_as_bibtex<L: ItemList>(
    alloc: Global,
    db: &Database<L>,
    keys: &[Text],
    least: u32,
) -> Result<BibtexList, BibtexFault>
    ensures listed { IfOk result (λ list. OfReading db.now (λ r. list.listed ≡ listed_entries (entries_of r) keys.now least)) }
    ensures records { IfOk result (λ list. OfReading db.now (λ r. map (record_of_listed (entries_of r)) list.listed ≡ map Some (listed_as_bibtex (entries_of r) keys.now least))) }
    ensures unknown { IfOk result (λ list. OfReading db.now (λ r. list.unknown ≡ unknown_places (entries_of r) keys.now)) }
    ensures short { OnOk result (OfReading db.now (λ r. is_too_deep (entries_of r) keys.now least ≡ false)) }
    ensures deep { IfErr result (λ fault. fault ≡ TooDeep → OfReading db.now (λ r. is_too_deep (entries_of r) keys.now least ≡ true)) }
{
    let entries = entry_keys(alloc, db)?;
    match list_as_bibtex(alloc, entries.as_slice(), keys, least) {
        Ok(list) => Ok(list),
        Err(fault) => Err(fault),
    }
}

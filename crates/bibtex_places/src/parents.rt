//! Parents of places, and what they give.

ghost use Rattle.std.specs.Prelude.{◌≡◌, ◌++◌, false, true, List, [], Some, map, filter_map, option_and_then, slice_get, IfOk, IfErr, OnOk};
ghost use Rattle.std.specs.List.{cons_option};
ghost use Rattle.std.specs.Option.{option_copied, option_map};
ghost use Rattle.bib_spec.specs.Text.{Text as Bytes};
ghost use Rattle.bib_spec.specs.Records.{EntryTexts, crossref_text, keys_of};
ghost use Rattle.bibtex_spec.specs.Places.{cited_keys, are_all_cited};
ghost use Rattle.bibtex_spec.specs.Listed.{holder, within, place_named, up, is_shown};
ghost use Rattle.bibtex_places.specs.KeyTables.{FindsKeys};
ghost use Rattle.bibtex_places.specs.Seen.{seen};
ghost use Rattle.bibtex_places.specs.Lists.{AreKeysOf, is_deep};
ghost use Rattle.bibtex_places.specs.Parents.{parent_in, AreParents, listed_place};
ghost use Rattle.bibtex_places.specs.declared.fault.BibtexFault.TheVariants.{TooDeep};

use crate::citing::Cited;
use crate::fault::BibtexFault;
use crate::key_table::KeyTable;
use crate::lists::EntryKey;
use crate::place::Place;
use crate::places::Places;
use std::alloc::{AllocError, Global};

/// The greatest number of places from which a listed place may inherit. (dialect)
const UP_LIMIT: usize = 64;

/// The keys of all entries, with the number of the first entry that has each.
pub(crate) fn table_of(alloc: Global, entries: &[EntryKey<'_>]) -> Result<KeyTable, AllocError>
    ensures { IfOk result (λ table. (texts : List EntryTexts) → AreKeysOf entries.now texts → FindsKeys table (keys_of texts)) }
{
    let mut table = KeyTable::new(alloc);
    'keys: for n in 0..entries.len() {
        let Some(entry) = given_at(entries, n) else {
            return Ok(table);
        };
        table.add(entry.key, n)?;
    }
    Ok(table)
}

/// What is given of entry `n`, if there is such an entry.
pub(crate) fn given_at<'a>(entries: &[EntryKey<'a>], n: usize) -> Option<EntryKey<'a>>
    ensures { result ≡ slice_get entries.now n }
{
    entries.get(n).copied()
}

/// The crossref text of the entry that holds a place.
pub(crate) fn crossref_of<'a>(entries: &[EntryKey<'a>], held: Option<usize>) -> Option<&'a [u8]>
    ensures { (texts : List EntryTexts) → AreKeysOf entries.now texts → option_copied result ≡ option_and_then crossref_text (option_and_then (slice_get texts) held) }
{
    given_at(entries, held?)?.crossref
}

/// The number, if there is a place with it.
fn within(places: &[Place], i: usize) -> Option<usize>
    ensures { result ≡ within (map seen places.now) i }
{
    if i < places.len() { Some(i) } else { None }
}

/// The place that a crossref text names. `table` has the keys of all entries, and `all` says whether all are cited.
fn place_named(
    table: &KeyTable,
    all: bool,
    cited: &Cited,
    places: &Places,
    text: &[u8],
) -> Result<Option<usize>, AllocError>
    ensures { IfOk result (λ i. (entries : List EntryTexts) (keys : List Bytes) → FindsKeys table.now (keys_of entries) → all ≡ are_all_cited keys → cited.now ≡ cited_keys keys → i ≡ place_named entries keys places.now text.now) }
{
    if !all {
        let first = places.find(text)?;
        return Ok(first);
    }
    if table.get(text)?.is_some() {
        let known = places.find(text)?;
        return Ok(known);
    }
    let Some(n) = cited.find(text)? else {
        let uncited = places.find(text)?;
        return Ok(uncited);
    };
    Ok(within(places.as_slice(), n))
}

/// The parent place of a place.
fn parent_of(
    table: &KeyTable,
    all: bool,
    cited: &Cited,
    places: &Places,
    crossref: Option<&[u8]>,
) -> Result<Option<usize>, AllocError>
    ensures { IfOk result (λ i. (entries : List EntryTexts) (keys : List Bytes) → FindsKeys table.now (keys_of entries) → all ≡ are_all_cited keys → cited.now ≡ cited_keys keys → i ≡ option_and_then (place_named entries keys places.now) (option_copied crossref.entry)) }
{
    let Some(text) = crossref else {
        return Ok(None);
    };
    let named = place_named(table, all, cited, places, text)?;
    Ok(named)
}

/// The parent places of all places. `table` has the keys of all entries.
pub(crate) fn parents_of(
    alloc: Global,
    table: &KeyTable,
    entries: &[EntryKey<'_>],
    all: bool,
    cited: &Cited,
    places: &Places,
) -> Result<Vec<Option<usize>>, AllocError>
    ensures { IfOk result (λ parents. (texts : List EntryTexts) (keys : List Bytes) → AreKeysOf entries.now texts → FindsKeys table.now (keys_of texts) → all ≡ are_all_cited keys → cited.now ≡ cited_keys keys → AreParents texts keys places.now parents.items) }
{
    let mut parents = Vec::new(alloc);
    'parents: for place in places.as_slice() {
        let crossref = crossref_of(entries, place.entry);
        parents.push(parent_of(table, all, cited, places, crossref)?)?;
    }
    Ok(parents)
}

/// The parent that is kept for a place, if any.
pub(crate) fn parent_in(parents: &[Option<usize>], i: usize) -> Option<usize>
    ensures { result ≡ parent_in parents.now i }
{
    *parents.get(i)?
}

/// The places from which place `i` inherits, in turn. It is refused if there are more than 64.
pub(crate) fn up(
    alloc: Global,
    parents: &[Option<usize>],
    i: usize,
) -> Result<Vec<usize>, BibtexFault>
    ensures run { IfOk result (λ run. run.items ≡ up (parent_in parents.now) i) }
    ensures short { OnOk result (is_deep (parent_in parents.now) i ≡ false) }
    ensures deep { IfErr result (λ fault. fault ≡ TooDeep → is_deep (parent_in parents.now) i ≡ true) }
{
    let mut run = Vec::new(alloc);
    let mut heir = i;
    'walk: for _ in 0..UP_LIMIT {
        let Some(parent) = parent_in(parents, heir) else {
            return Ok(run);
        };
        run.push(parent)?;
        if parent >= heir {
            return Ok(run);
        }
        heir = parent;
    }
    if parent_in(parents, heir).is_some() {
        return Err(BibtexFault::TooDeep);
    }
    Ok(run)
}

/// Adds what there is to the list.
pub(crate) fn push_some<T: Drop>(list: &mut Vec<T>, item: Option<T>) -> Result<(), AllocError>
    ensures { OnOk result (list.new.items ≡ list.old.items ++ cons_option item []) }
{
    let Some(item) = item else {
        return Ok(());
    };
    list.push(item)?;
    Ok(())
}

/// The entry that holds place `i`, if any.
fn holder(places: &[Place], i: usize) -> Option<usize>
    ensures { result ≡ holder (map seen places.now) i }
{
    places.get(i)?.entry
}

/// The entries that hold these places.
pub(crate) fn holders(
    alloc: Global,
    places: &[Place],
    run: &[usize],
) -> Result<Vec<usize>, AllocError>
    ensures { IfOk result (λ held. held.items ≡ filter_map (holder (map seen places.now)) run.now) }
{
    let mut held = Vec::new(alloc);
    'holders: for i in run {
        push_some(&mut held, holder(places, *i))?;
    }
    Ok(held)
}

/// Whether an entry holds the place, and it is listed: all are cited, or its key is, or at least `least` entries name it.
pub(crate) fn is_shown(all: bool, least: u32, place: &Place) -> bool
    ensures { result ≡ is_shown all least (seen place.now) }
{
    place.entry.is_some() && (all || place.is_cited || least as usize <= place.count)
}

/// The place with this number, if it is held and listed.
pub(crate) fn listed_place<'a>(
    all: bool,
    least: u32,
    places: &'a [Place],
    i: usize,
) -> Option<&'a Place>
    ensures { option_map seen (option_copied result) ≡ listed_place all least (map seen places.now) i }
{
    let place = places.get(i)?;
    if is_shown(all, least, place) {
        Some(place)
    } else {
        None
    }
}

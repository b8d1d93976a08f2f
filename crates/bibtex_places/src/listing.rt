//! The list for some keys.

ghost use Rattle.std.specs.Prelude.{◌≡◌, false, true, List, Some, None, if◌then◌else◌, map, option_map, option_and_then, slice_get, IfOk, IfErr, IfSome, OnOk};
ghost use Rattle.std.specs.Option.{option_copied};
ghost use Rattle.bib_spec.specs.Text.{Text as Bytes};
ghost use Rattle.bib_spec.specs.Records.{EntryTexts, keys_of, cites_all};
ghost use Rattle.bibtex_spec.specs.Places.{cited_keys, are_all_cited, places_of, read_entries, read_all};
ghost use Rattle.bibtex_spec.specs.Listed.{listed_as_bibtex, crossref_spelling, parent_place};
ghost use Rattle.bibtex_places.specs.KeyTables.{FindsKeys};
ghost use Rattle.bibtex_places.specs.Seen.{seen};
ghost use Rattle.bibtex_places.specs.Steps.{CountsAtMost};
ghost use Rattle.bibtex_places.specs.Parents.{listed_place};
ghost use Rattle.bibtex_places.specs.Lists.{AreKeysOf, listed_entry, is_deep, entry_at, listed_entries, record_of_listed, is_deep_at, is_too_deep, is_unknown, unknown_places, ArePlacesOfEach};
ghost use Rattle.bibtex_places.specs.Sources.{AreSources};
ghost use Rattle.bibtex_places.specs.declared.fault.BibtexFault.TheVariants.{TooDeep};

use crate::citing::{Cited, are_all_cited, before_star, is_star};
use crate::fault::BibtexFault;
use crate::key_table::KeyTable;
use crate::lists::{BibtexEntry, BibtexList, EntryKey};
use crate::parents::{
    crossref_of, given_at, holders, is_shown, listed_place, parent_in, parents_of, push_some,
    table_of, up,
};
use crate::place::Place;
use crate::places::Places;
use bib_text::{Seq, Text, copied};
use std::alloc::{AllocError, Global};

/// The places after these entries are read.
fn read_entries(places: Places, entries: &[EntryKey<'_>]) -> Result<Places, AllocError>
    requires { CountsAtMost 0 places }
    ensures { IfOk result (λ read. (texts : List EntryTexts) → AreKeysOf entries.now texts → read ≡ read_entries 0 places texts) }
{
    let mut read = places;
    'read: for n in 0..entries.len() {
        let Some(entry) = given_at(entries, n) else {
            return Ok(read);
        };
        read = read.read_entry(n, entry.key, entry.crossref)?;
    }
    Ok(read)
}

/// The places after these entries are read, if all are cited.
fn read_all(places: Places, cited: &Cited, entries: &[EntryKey<'_>]) -> Result<Places, AllocError>
    ensures { IfOk result (λ read. (texts : List EntryTexts) → AreKeysOf entries.now texts → read ≡ read_all cited.now 0 places texts) }
{
    let mut read = places;
    'read: for n in 0..entries.len() {
        let Some(one) = given_at(entries, n) else {
            return Ok(read);
        };
        read = read.read_any(cited, n, one.key)?;
    }
    Ok(read)
}

/// The places for a list of keys.
fn places_of(
    alloc: Global,
    entries: &[EntryKey<'_>],
    keys: &[Text],
    cited: &Cited,
) -> Result<Places, AllocError>
    requires { cited.now ≡ cited_keys keys.now }
    ensures { IfOk result (λ places. (texts : List EntryTexts) → AreKeysOf entries.now texts → places ≡ places_of texts keys.now) }
{
    if are_all_cited(keys) {
        let before = Cited::of(alloc, before_star(keys))?;
        let first = Places::of_cited(alloc, before.as_slice())?;
        let all = read_all(first, cited, entries)?;
        return Ok(all);
    }
    let first = Places::of_cited(alloc, cited.as_slice())?;
    let read = read_entries(first, entries)?;
    Ok(read)
}

/// What the entries of a list are made of: the keys of all entries, the cited keys, the places with their parent places, whether
/// all are cited, and how many children a parent needs that is not cited.
#[derive(Clone, Copy)]
struct Sources<'a> {
    alloc: Global,
    entries: &'a [EntryKey<'a>],
    cited: &'a Cited,
    places: &'a [Place],
    parents: &'a [Option<usize>],
    all: bool,
    least: u32,
}

/// The key that a crossref names, as the list spells it, if its parent place is listed.
fn key_named(
    sources: &Sources<'_>,
    crossref: Option<&[u8]>,
    parent: Option<usize>,
) -> Result<Option<Text>, AllocError>
    ensures { IfOk result (λ named. named ≡ option_and_then (λ text. option_map (crossref_spelling sources.now.cited.now text) (option_and_then (listed_place sources.now.all sources.now.least (map seen sources.now.places.now)) parent)) (option_copied crossref.entry)) }
{
    let Some(text) = crossref else {
        return Ok(None);
    };
    let Some(i) = parent else {
        return Ok(None);
    };
    let Some(place) = listed_place(sources.all, sources.least, sources.places, i) else {
        return Ok(None);
    };
    let named = sources.cited.spelling(text, place.spelled.as_slice())?;
    Ok(Some(named))
}

/// The listed entry of place `i`, which entry `n` holds.
fn entry_held(
    sources: &Sources<'_>,
    i: usize,
    place: &Place,
    n: usize,
) -> Result<BibtexEntry, BibtexFault>
    ensures entry { IfOk result (λ listed. (texts : List EntryTexts) (keys : List Bytes) → AreSources sources.now texts keys → slice_get (map seen sources.now.places.now) i ≡ Some (seen place.now) → place.now.entry ≡ Some n → listed ≡ listed_entry texts keys sources.now.least (map seen sources.now.places.now) i (seen place.now) n) }
    ensures short { OnOk result ((texts : List EntryTexts) (keys : List Bytes) → AreSources sources.now texts keys → is_deep (parent_place texts keys (map seen sources.now.places.now)) i ≡ false) }
    ensures deep { IfErr result (λ fault. fault ≡ TooDeep → (texts : List EntryTexts) (keys : List Bytes) → AreSources sources.now texts keys → is_deep (parent_place texts keys (map seen sources.now.places.now)) i ≡ true) }
{
    let run = match up(sources.alloc, sources.parents, i) {
        Ok(run) => run,
        Err(fault) => return Err(fault),
    };
    let crossref = crossref_of(sources.entries, Some(n));
    let named = key_named(sources, crossref, parent_in(sources.parents, i))?;
    let held = holders(sources.alloc, sources.places, run.as_slice())?;
    Ok(BibtexEntry {
        entry: n,
        key: copied(sources.alloc, place.spelled.as_slice())?,
        named,
        up: Seq::from_vec(held),
    })
}

/// The listed entry of place `i`, if the place is listed.
fn entry_at(
    sources: &Sources<'_>,
    i: usize,
    place: &Place,
) -> Result<Option<BibtexEntry>, BibtexFault>
    ensures entry { IfOk result (λ listed. (texts : List EntryTexts) (keys : List Bytes) → AreSources sources.now texts keys → slice_get (map seen sources.now.places.now) i ≡ Some (seen place.now) → listed ≡ entry_at texts keys sources.now.least (map seen sources.now.places.now) (i, seen place.now)) }
    ensures short { OnOk result ((texts : List EntryTexts) (keys : List Bytes) → AreSources sources.now texts keys → is_deep_at texts keys sources.now.least (map seen sources.now.places.now) (i, seen place.now) ≡ false) }
    ensures deep { IfErr result (λ fault. fault ≡ TooDeep → (texts : List EntryTexts) (keys : List Bytes) → AreSources sources.now texts keys → is_deep_at texts keys sources.now.least (map seen sources.now.places.now) (i, seen place.now) ≡ true) }
{
    if !is_shown(sources.all, sources.least, place) {
        return Ok(None);
    }
    let Some(n) = place.entry else {
        return Ok(None);
    };
    let listed = entry_held(sources, i, place, n)?;
    Ok(Some(listed))
}

/// Place `i`, if there is one.
fn place_at(places: &[Place], i: usize) -> Option<&Place>
    ensures { option_copied result ≡ slice_get places.now i }
{
    places.get(i)
}

/// The listed entries.
fn list(sources: &Sources<'_>) -> Result<Vec<BibtexEntry>, BibtexFault>
    ensures listed { IfOk result (λ listed. (texts : List EntryTexts) (keys : List Bytes) → AreSources sources.now texts keys → map seen sources.now.places.now ≡ places_of texts keys → listed.items ≡ listed_entries texts keys sources.now.least) }
    ensures short { OnOk result ((texts : List EntryTexts) (keys : List Bytes) → AreSources sources.now texts keys → map seen sources.now.places.now ≡ places_of texts keys → is_too_deep texts keys sources.now.least ≡ false) }
    ensures deep { IfErr result (λ fault. fault ≡ TooDeep → (texts : List EntryTexts) (keys : List Bytes) → AreSources sources.now texts keys → map seen sources.now.places.now ≡ places_of texts keys → is_too_deep texts keys sources.now.least ≡ true) }
{
    let mut listed = Vec::new(sources.alloc);
    'list: for i in 0..sources.places.len() {
        let Some(place) = place_at(sources.places, i) else {
            return Ok(listed);
        };
        let entry = match entry_at(sources, i, place) {
            Ok(entry) => entry,
            Err(fault) => return Err(fault),
        };
        push_some(&mut listed, entry)?;
    }
    Ok(listed)
}

/// Whether the key is not `*`, and no entry has it. `table` has the keys of all entries.
fn is_unknown(table: &KeyTable, key: &[u8]) -> Result<bool, AllocError>
    ensures { IfOk result (λ is. (texts : List EntryTexts) → FindsKeys table.now (keys_of texts) → is ≡ is_unknown texts key.now) }
{
    if is_star(key) {
        return Ok(false);
    }
    if table.get(key)?.is_some() {
        return Ok(false);
    }
    Ok(true)
}

/// The place, if the key there is unknown.
fn unknown_at(table: &KeyTable, place: usize, key: &[u8]) -> Result<Option<usize>, AllocError>
    ensures { IfOk result (λ at. (texts : List EntryTexts) → FindsKeys table.now (keys_of texts) → at ≡ (if is_unknown texts key.now then Some place else None)) }
{
    if is_unknown(table, key)? {
        Ok(Some(place))
    } else {
        Ok(None)
    }
}

/// The places of the keys that no entry has. `table` has the keys of all entries.
fn unknown_places(alloc: Global, table: &KeyTable, keys: &[Text]) -> Result<Vec<usize>, AllocError>
    ensures { IfOk result (λ unknown. (texts : List EntryTexts) → FindsKeys table.now (keys_of texts) → unknown.items ≡ unknown_places texts keys.now) }
{
    let mut unknown = Vec::new(alloc);
    'seek: for place in 0..keys.len() {
        let at = unknown_at(table, place, keys[place].as_slice())?;
        push_some(&mut unknown, at)?;
    }
    Ok(unknown)
}

/// What `list_as_bibtex` gives. `table` has the keys of all entries, and `places` are those for the keys.
fn list_of(
    alloc: Global,
    entries: &[EntryKey<'_>],
    keys: &[Text],
    least: u32,
    table: &KeyTable,
    cited: &Cited,
    places: &Places,
) -> Result<BibtexList, BibtexFault>
    requires { cited.now ≡ cited_keys keys.now }
    ensures listed { IfOk result (λ list. (texts : List EntryTexts) → AreKeysOf entries.now texts → FindsKeys table.now (keys_of texts) → places.now ≡ places_of texts keys.now → list.listed ≡ listed_entries texts keys.now least) }
    ensures unknown { IfOk result (λ list. (texts : List EntryTexts) → AreKeysOf entries.now texts → FindsKeys table.now (keys_of texts) → list.unknown ≡ unknown_places texts keys.now) }
    ensures short { OnOk result ((texts : List EntryTexts) → AreKeysOf entries.now texts → FindsKeys table.now (keys_of texts) → places.now ≡ places_of texts keys.now → is_too_deep texts keys.now least ≡ false) }
    ensures deep { IfErr result (λ fault. fault ≡ TooDeep → (texts : List EntryTexts) → AreKeysOf entries.now texts → FindsKeys table.now (keys_of texts) → places.now ≡ places_of texts keys.now → is_too_deep texts keys.now least ≡ true) }
{
    let all = are_all_cited(keys);
    let parents = parents_of(alloc, table, entries, all, cited, places)?;
    let unknown = unknown_places(alloc, table, keys)?;
    let sources = Sources {
        alloc,
        entries,
        cited,
        places: places.as_slice(),
        parents: parents.as_slice(),
        all,
        least,
    };
    match list(&sources) {
        Ok(listed) => Ok(BibtexList {
            listed: Seq::from_vec(listed),
            unknown: Seq::from_vec(unknown),
        }),
        Err(fault) => Err(fault),
    }
}

/// Whether the list is `*` alone.
fn is_star_alone(keys: &[Text]) -> bool
    ensures { result ≡ cites_all keys.now }
{
    match keys {
        [key] => is_star(key.as_slice()),
        _ => false,
    }
}

/// The places for a list of keys, if it is `*` alone and no two entries have one key.
fn each_place(
    alloc: Global,
    entries: &[EntryKey<'_>],
    keys: &[Text],
) -> Result<Option<Places>, AllocError>
    ensures { IfOk result (λ some. IfSome some (λ places. (texts : List EntryTexts) → AreKeysOf entries.now texts → ArePlacesOfEach texts keys.now places)) }
{
    if !is_star_alone(keys) {
        return Ok(None);
    }
    let places = Places::of_each(alloc, entries)?;
    Ok(places)
}

/// What `list_as_bibtex` gives if each entry has its own place. Those places find the keys of all entries, too.
fn list_of_each(
    alloc: Global,
    entries: &[EntryKey<'_>],
    keys: &[Text],
    least: u32,
    cited: &Cited,
    places: &Places,
) -> Result<BibtexList, BibtexFault>
    requires cited { cited.now ≡ cited_keys keys.now }
    requires each { (texts : List EntryTexts) → AreKeysOf entries.now texts → ArePlacesOfEach texts keys.now places.now }
    ensures listed { IfOk result (λ list. (texts : List EntryTexts) → AreKeysOf entries.now texts → list.listed ≡ listed_entries texts keys.now least) }
    ensures unknown { IfOk result (λ list. (texts : List EntryTexts) → AreKeysOf entries.now texts → list.unknown ≡ unknown_places texts keys.now) }
    ensures short { OnOk result ((texts : List EntryTexts) → AreKeysOf entries.now texts → is_too_deep texts keys.now least ≡ false) }
    ensures deep { IfErr result (λ fault. fault ≡ TooDeep → (texts : List EntryTexts) → AreKeysOf entries.now texts → is_too_deep texts keys.now least ≡ true) }
{
    match list_of(alloc, entries, keys, least, places.table(), cited, places) {
        Ok(list) => Ok(list),
        Err(fault) => Err(fault),
    }
}

/// What `list_as_bibtex` gives, whichever keys the entries have.
fn list_of_any(
    alloc: Global,
    entries: &[EntryKey<'_>],
    keys: &[Text],
    least: u32,
    cited: &Cited,
) -> Result<BibtexList, BibtexFault>
    requires { cited.now ≡ cited_keys keys.now }
    ensures listed { IfOk result (λ list. (texts : List EntryTexts) → AreKeysOf entries.now texts → list.listed ≡ listed_entries texts keys.now least) }
    ensures unknown { IfOk result (λ list. (texts : List EntryTexts) → AreKeysOf entries.now texts → list.unknown ≡ unknown_places texts keys.now) }
    ensures short { OnOk result ((texts : List EntryTexts) → AreKeysOf entries.now texts → is_too_deep texts keys.now least ≡ false) }
    ensures deep { IfErr result (λ fault. fault ≡ TooDeep → (texts : List EntryTexts) → AreKeysOf entries.now texts → is_too_deep texts keys.now least ≡ true) }
{
    let table = table_of(alloc, entries)?;
    let places = places_of(alloc, entries, keys, cited)?;
    match list_of(alloc, entries, keys, least, &table, cited, &places) {
        Ok(list) => Ok(list),
        Err(fault) => Err(fault),
    }
}

/// What `list_as_bibtex` gives.
fn make_list(
    alloc: Global,
    entries: &[EntryKey<'_>],
    keys: &[Text],
    least: u32,
) -> Result<BibtexList, BibtexFault>
    ensures listed { IfOk result (λ list. (texts : List EntryTexts) → AreKeysOf entries.now texts → list.listed ≡ listed_entries texts keys.now least) }
    ensures unknown { IfOk result (λ list. (texts : List EntryTexts) → AreKeysOf entries.now texts → list.unknown ≡ unknown_places texts keys.now) }
    ensures short { OnOk result ((texts : List EntryTexts) → AreKeysOf entries.now texts → is_too_deep texts keys.now least ≡ false) }
    ensures deep { IfErr result (λ fault. fault ≡ TooDeep → (texts : List EntryTexts) → AreKeysOf entries.now texts → is_too_deep texts keys.now least ≡ true) }
{
    let cited = Cited::of(alloc, keys)?;
    if let Some(places) = each_place(alloc, entries, keys)? {
        return list_of_each(alloc, entries, keys, least, &cited, &places);
    }
    list_of_any(alloc, entries, keys, least, &cited)
}

/// The list that BibTeX 0.99d gives to a style for these keys, and the places of those keys that no entry has. `entries` has the
/// keys and the crossref texts of all entries of a file, and a parent that is not cited is listed if at least `least` entries name
/// it. It takes time in the number of entries and keys, in their bytes, and in the places from which listed entries inherit, and memory
/// for places and keys. It is refused if a listed entry inherits from more than 64 places, and out of memory. (bibtex 132 to 136, 259 to
/// 286)
pub fn list_as_bibtex(
    alloc: Global,
    entries: &[EntryKey<'_>],
    keys: &[Text],
    least: u32,
) -> Result<BibtexList, BibtexFault>
    ensures listed { IfOk result (λ list. (texts : List EntryTexts) → AreKeysOf entries.now texts → list.listed ≡ listed_entries texts keys.now least) }
    ensures records { IfOk result (λ list. (texts : List EntryTexts) → AreKeysOf entries.now texts → map (record_of_listed texts) list.listed ≡ map Some (listed_as_bibtex texts keys.now least)) }
    ensures unknown { IfOk result (λ list. (texts : List EntryTexts) → AreKeysOf entries.now texts → list.unknown ≡ unknown_places texts keys.now) }
    ensures short { OnOk result ((texts : List EntryTexts) → AreKeysOf entries.now texts → is_too_deep texts keys.now least ≡ false) }
    ensures deep { IfErr result (λ fault. fault ≡ TooDeep → (texts : List EntryTexts) → AreKeysOf entries.now texts → is_too_deep texts keys.now least ≡ true) }
{
    match make_list(alloc, entries, keys, least) {
        Ok(list) => Ok(list),
        Err(fault) => Err(fault),
    }
}

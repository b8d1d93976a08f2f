//! The places of keys, as entries are read.

use crate::citing::Cited;
use crate::key_table::KeyTable;
use crate::lists::EntryKey;
use crate::parents::given_at;
use crate::place::{Place, added, hold, name_again};
use bib_text::{Text, copied};
use std::alloc::{AllocError, Global};
use std::marker::Model;

/// The keys that are to be listed, in order, and a table that finds them.
#[derive(Drop)]
pub(crate) struct Places {
    alloc: Global,
    all: Vec<Place>,
    table: KeyTable,
}

impl Model for Places {
    ghost use Rattle.std.specs.Prelude.{List, map};
    ghost use Rattle.bibtex_spec.specs.Places.{Place as KeyPlace};
    ghost use Rattle.bibtex_places.specs.KeyTables.{FindsKeys};
    ghost use Rattle.bibtex_places.specs.Seen.{seen};

    ghost Value = { List KeyPlace };

    ghost view = { λ p. map seen p.all.items };

    ghost invariant = { λ p. FindsKeys p.table (map (λ place. place.spelled) (map seen p.all.items)) };
}

impl Places {
    ghost use Rattle.std.specs.Prelude.{◌≡◌, ◌+◌, ◌<◌, ◌^◌, List, [], ◌∷◌, ◌++◌, Some, None, map, IfOk};
    ghost use Rattle.std.specs.Option.{IfSome};
    ghost use Rattle.std.specs.Option.{option_copied};
    ghost use Rattle.bib_spec.specs.Records.{EntryTexts, crossref_text};
    ghost use Rattle.bibtex_spec.specs.Places.{cited_place, taken, named, read_entry, read_any};
    ghost use Rattle.bibtex_spec.specs.Listed.{place_with};
    ghost use Rattle.bibtex_places.specs.Seen.{seen};
    ghost use Rattle.bibtex_places.specs.KeyTables.{FindsKeys};
    ghost use Rattle.bibtex_places.specs.Lists.{AreKeysOf, star_alone, ArePlacesOfEach};
    ghost use Rattle.bibtex_places.specs.Steps.{awaiting, CountsAtMost};

    /// No places. It takes no memory.
    fn none(alloc: Global) -> Self
        ensures { result ≡ [] }
    {
        Places {
            alloc,
            all: Vec::new(alloc),
            table: KeyTable::new(alloc),
        }
    }

    /// These places, and one more after them.
    fn with(self, place: Place) -> Result<Self, AllocError>
        ensures { IfOk result (λ places. places ≡ self ++ seen place ∷ []) }
    {
        let Places {
            alloc,
            mut all,
            mut table,
        } = self;
        table.add(place.spelled.as_slice(), all.len())?;
        all.push(place)?;
        Ok(Places { alloc, all, table })
    }

    /// The places of cited keys, before the file is read.
    pub fn of_cited(alloc: Global, keys: &[Text]) -> Result<Self, AllocError>
        ensures { IfOk result (λ places. places ≡ map cited_place keys.now) }
    {
        let mut places = Places::none(alloc);
        'add: for key in keys {
            let place = Place {
                spelled: copied(alloc, key.as_slice())?,
                entry: None,
                count: 0,
                is_cited: true,
            };
            places = places.with(place)?;
        }
        Ok(places)
    }

    /// The places where `*` alone is cited, if no two entries have one key: one for each entry.
    pub fn of_each(alloc: Global, entries: &[EntryKey<'_>]) -> Result<Option<Self>, AllocError>
        ensures { IfOk result (λ some. IfSome some (λ places. (texts : List EntryTexts) → AreKeysOf entries.now texts → ArePlacesOfEach texts star_alone places)) }
    {
        let mut all = Vec::with_capacity(alloc, entries.len())?;
        let mut table = KeyTable::new(alloc);
        'each: for n in 0..entries.len() {
            let Some(entry) = given_at(entries, n) else {
                return Ok(None);
            };
            if !table.add(entry.key, n)? {
                return Ok(None);
            }
            all.push(added(alloc, entry.key, n)?)?;
        }
        Ok(Some(Places { alloc, all, table }))
    }

    /// The table that finds the keys of the places.
    pub fn table(&self) -> &KeyTable
        ensures { FindsKeys result.now (map (λ place. place.spelled) self.now) }
    {
        &self.table
    }

    /// The places.
    pub fn as_slice(&self) -> &[Place]
        ensures { map seen result.now ≡ self.now }
    {
        self.all.as_slice()
    }

    /// The number of the place that has this key, if any.
    pub fn find(&self, key: &[u8]) -> Result<Option<usize>, AllocError>
        ensures { IfOk result (λ i. i ≡ place_with key.now self.now) }
    {
        self.table.get(key)
    }

    /// The number of the place that awaits an entry of this key, if any.
    fn awaiting(&self, key: &[u8]) -> Result<Option<usize>, AllocError>
        ensures { IfOk result (λ i. i ≡ awaiting key.now self.now) }
    {
        let Some(i) = self.find(key)? else {
            return Ok(None);
        };
        if self.all[i].entry.is_some() {
            return Ok(None);
        }
        Ok(Some(i))
    }

    /// The places after entry `n`, whose key place `i` has, is taken for that place.
    fn hold(self, i: usize, key: &[u8], n: usize) -> Result<Self, AllocError>
        requires { place_with key.now self ≡ Some i }
        ensures { IfOk result (λ places. (entry : EntryTexts) → entry.key ≡ key.now → places ≡ taken entry n self) }
    {
        let Places {
            alloc,
            mut all,
            table,
        } = self;
        hold(alloc, &mut all[i], key, n)?;
        Ok(Places { alloc, all, table })
    }

    /// The places after the key is named once more. `most` is the greatest count.
    fn name(self, key: &[u8], most: usize) -> Result<Self, AllocError>
        requires counts { CountsAtMost most self }
        requires most { most + 1 < 2 ^ 64 }
        ensures { IfOk result (λ places. places ≡ named key.now self) }
    {
        let Some(i) = self.find(key)? else {
            let place = Place {
                spelled: copied(self.alloc, key)?,
                entry: None,
                count: 1,
                is_cited: false,
            };
            let added = self.with(place)?;
            return Ok(added);
        };
        let Places {
            alloc,
            mut all,
            table,
        } = self;
        name_again(&mut all[i]);
        Ok(Places { alloc, all, table })
    }

    /// The places after entry `n` is read.
    pub fn read_entry(
        self,
        n: usize,
        key: &[u8],
        crossref: Option<&[u8]>,
    ) -> Result<Self, AllocError>
        requires counts { CountsAtMost n self }
        requires number { n + 1 < 2 ^ 64 }
        ensures counts { IfOk result (CountsAtMost (n + 1)) }
        ensures read { IfOk result (λ places. (entry : EntryTexts) → entry.key ≡ key.now → crossref_text entry ≡ option_copied crossref.entry → places ≡ read_entry entry n self) }
    {
        let Some(i) = self.awaiting(key)? else {
            return Ok(self);
        };
        let held = self.hold(i, key, n)?;
        let Some(text) = crossref else {
            return Ok(held);
        };
        let named = held.name(text, n)?;
        Ok(named)
    }

    /// The places after entry `n` is read, if all are cited.
    pub fn read_any(self, cited: &Cited, n: usize, key: &[u8]) -> Result<Self, AllocError>
        ensures { IfOk result (λ places. (entry : EntryTexts) → entry.key ≡ key.now → places ≡ read_any cited.now entry n self) }
    {
        let Some(i) = self.find(key)? else {
            let place = cited.added_place(key, n)?;
            let added = self.with(place)?;
            return Ok(added);
        };
        if self.all[i].entry.is_some() {
            return Ok(self);
        }
        let held = self.hold(i, key, n)?;
        Ok(held)
    }
}

//! Cited keys.

ghost use Rattle.std.specs.Prelude.{◌≡◌, List, not, IfOk};
ghost use Rattle.std.specs.List.{prefix_len, take_while};
ghost use Rattle.bib_spec.specs.Text.{Text as Bytes};
ghost use Rattle.bibtex_spec.specs.Places.{is_star, are_all_cited};

use crate::key_table::KeyTable;
use crate::place::Place;
use bib_text::{Text, copied};
use std::alloc::{AllocError, Global};
use std::marker::Model;

/// Whether the key is `*`.
pub(crate) fn is_star(key: &[u8]) -> bool
    ensures { result ≡ is_star key.now }
{
    key == b"*".as_slice()
}

/// Whether `*` is in the list.
pub(crate) fn are_all_cited(keys: &[Text]) -> bool
    ensures { result ≡ are_all_cited keys.now }
{
    keys.iter().any(|key| is_star(key.as_slice()))
}

/// How many keys there are before the first `*`.
fn count_before_star(keys: &[Text]) -> usize
    ensures { result ≡ prefix_len (λ key. not (is_star key)) keys.now }
{
    keys.iter()
        .take_while(|key| !is_star(key.as_slice()))
        .count()
}

/// The keys before the first `*`.
pub(crate) fn before_star(keys: &[Text]) -> &[Text]
    ensures { result.now ≡ take_while (λ key. not (is_star key)) keys.now }
{
    keys.split_at(count_before_star(keys)).0
}

/// The cited keys of a list: each once, at its first spelling, without `*`.
#[derive(Drop)]
pub(crate) struct Cited {
    alloc: Global,
    keys: Vec<Text>,
    table: KeyTable,
}

impl Model for Cited {
    ghost use Rattle.std.specs.Prelude.{List};
    ghost use Rattle.bib_spec.specs.Text.{Text as Bytes};
    ghost use Rattle.bibtex_places.specs.KeyTables.{FindsKeys};

    ghost Value = { List Bytes };

    ghost view = { λ c. c.keys.items };

    ghost invariant = { λ c. FindsKeys c.table c.keys.items };
}

impl Cited {
    ghost use Rattle.std.specs.Prelude.{◌≡◌, List, [], IfOk};
    ghost use Rattle.bib_spec.specs.Text.{Text as Bytes};
    ghost use Rattle.bib_spec.specs.Records.{EntryTexts};
    ghost use Rattle.bibtex_spec.specs.Places.{cited_keys, spelling, added_place};
    ghost use Rattle.bibtex_spec.specs.Listed.{first_same};
    ghost use Rattle.bibtex_places.specs.Steps.{with_cited, spelled_as};
    ghost use Rattle.bibtex_places.specs.Seen.{seen};

    /// No keys. It takes no memory.
    fn none(alloc: Global) -> Self
        ensures { result ≡ [] }
    {
        Cited {
            alloc,
            keys: Vec::new(alloc),
            table: KeyTable::new(alloc),
        }
    }

    /// These keys, and one more after them, unless it is the same as one of them.
    fn with(self, key: &[u8]) -> Result<Self, AllocError>
        ensures { IfOk result (λ cited. cited ≡ with_cited self key.now) }
    {
        let Cited {
            alloc,
            mut keys,
            mut table,
        } = self;
        if is_star(key) || table.get(key)?.is_some() {
            return Ok(Cited { alloc, keys, table });
        }
        table.add(key, keys.len())?;
        keys.push(copied(alloc, key)?)?;
        Ok(Cited { alloc, keys, table })
    }

    /// The cited keys of this list.
    pub fn of(alloc: Global, keys: &[Text]) -> Result<Self, AllocError>
        ensures { IfOk result (λ cited. cited ≡ cited_keys keys.now) }
    {
        let mut cited = Cited::none(alloc);
        'cite: for key in keys {
            cited = cited.with(key.as_slice())?;
        }
        Ok(cited)
    }

    /// The keys.
    pub fn as_slice(&self) -> &[Text]
        ensures { result.now ≡ self.now }
    {
        self.keys.as_slice()
    }

    /// The number of the first cited key that is the same as the text.
    pub fn find(&self, text: &[u8]) -> Result<Option<usize>, AllocError>
        ensures { IfOk result (λ n. n ≡ first_same text.now self.now) }
    {
        if self.keys.is_empty() {
            return Ok(None);
        }
        let found = self.table.get(text)?;
        Ok(found)
    }

    /// How the key is spelled: as it is cited, or else as `other`.
    pub fn spelling(&self, key: &[u8], other: &[u8]) -> Result<Text, AllocError>
        ensures { IfOk result (λ text. text ≡ spelled_as self.now key.now other.now) }
    {
        let Some(n) = self.find(key)? else {
            let text = copied(self.alloc, other)?;
            return Ok(text);
        };
        let cited = copied(self.alloc, self.keys[n].as_slice())?;
        Ok(cited)
    }

    /// The place of a key that has entry `n` and none yet, if all are cited.
    pub fn added_place(&self, key: &[u8], n: usize) -> Result<Place, AllocError>
        ensures { IfOk result (λ place. (entry : EntryTexts) → entry.key ≡ key.now → seen place ≡ added_place self.now entry n) }
    {
        Ok(Place {
            spelled: self.spelling(key, key)?,
            entry: Some(n),
            count: 0,
            is_cited: self.find(key)?.is_some(),
        })
    }
}

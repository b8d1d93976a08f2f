//! Numbers by keys, without regard to ASCII case.

ghost use Rattle.std.specs.Prelude.{◌≡◌, [], ◌∷◌, IfOk};
ghost use Rattle.bib_spec.specs.Text.{folded};

use bib_text::NAME_LIMIT;
use folded_map::FoldedMap;
use indexmap::IndexMap;
use std::alloc::{AllocError, Global};
use std::hash::{Hash, Hasher};
use std::marker::Model;

/// A key in lower case, of any length.
#[derive(Drop)]
struct FoldedKey {
    bytes: Vec<u8>,
}

impl Model for FoldedKey {
    ghost use Rattle.bib_spec.specs.Text.{Text};

    ghost Value = { Text };

    ghost view = { λ k. k.bytes.items };
}

impl FoldedKey {
    /// The key, folded.
    fn of(alloc: Global, key: &[u8]) -> Result<Self, AllocError>
        ensures { IfOk result (λ kept. kept ≡ folded key.now) }
    {
        let mut bytes = Vec::from_slice(alloc, key)?;
        bytes.as_mut_slice().make_ascii_lowercase();
        Ok(FoldedKey { bytes })
    }

    /// The bytes of the key.
    fn as_slice(&self) -> &[u8]
        ensures { result.now ≡ self.now }
    {
        self.bytes.as_slice()
    }
}

impl PartialEq for FoldedKey {
    ghost use Rattle.std.specs.Cmp.{partial_equiv_from_equiv};
    ghost use Rattle.std.specs.Cmp.Lexicographic.{nat_list_eq_equiv};
    ghost use Rattle.std.specs.Str.{bytes_eq};

    ghost eq = { bytes_eq };

    ghost laws = { partial_equiv_from_equiv nat_list_eq_equiv };

    fn eq(&self, other: &FoldedKey) -> bool {
        self.as_slice() == other.as_slice()
    }
}

impl Eq for FoldedKey {
    ghost use Rattle.std.specs.Cmp.Lexicographic.{nat_list_eq_equiv};

    ghost laws = { nat_list_eq_equiv };
}

impl Hash for FoldedKey {
    ghost use Rattle.std.proofs.Common.{ap, []};
    ghost use Rattle.std.specs.Cmp.Lexicographic.{bytes_decides};

    // all bytes by one write, which takes eight of them at once
    ghost hash_input = { λ n. n ∷ [] };

    ghost respects_eq = { λ x y h. ap (λ t. t ∷ []) ((bytes_decides x y).0 h) };

    fn hash<H: Hasher>(&self, state: &mut H) {
        state.write(self.as_slice());
    }
}

/// A number for each key of a list: that of the first key that is the same. Keys may be longer than those of a file.
#[derive(Drop)]
pub(crate) struct KeyTable {
    alloc: Global,
    // without memory for a look-up
    short: FoldedMap<usize>,
    long: IndexMap<FoldedKey, usize>,
}

impl Model for KeyTable {
    ghost use Rattle.bibtex_places.specs.KeyTables.{Numbers};

    ghost Value = { Numbers };

    ghost view = { λ t. record { short = t.short; long = t.long.entries } };
}

impl KeyTable {
    ghost use Rattle.std.specs.Prelude.{◌≡◌, List, [], ◌∷◌, ◌++◌, length, is_none, IfOk, OnOk};
    ghost use Rattle.bib_spec.specs.Text.{Text as Bytes, folded};
    ghost use Rattle.bibtex_places.specs.KeyTables.{number_of, FindsKeys, IsNumbered};

    /// The table of no keys. It takes no memory.
    pub fn new(alloc: Global) -> Self
        ensures { FindsKeys result [] }
    {
        KeyTable {
            alloc,
            short: FoldedMap::new(alloc),
            long: IndexMap::new(alloc),
        }
    }

    /// The number of the key, if it has one. It takes no memory if the key is no longer than one of a file.
    pub fn get(&self, key: &[u8]) -> Result<Option<usize>, AllocError>
        ensures { IfOk result (λ n. n ≡ number_of self.now key.now) }
    {
        if key.len() <= NAME_LIMIT {
            return Ok(self.short.get(key).copied());
        }
        let folded = FoldedKey::of(self.alloc, key)?;
        Ok(self.long.get(&folded).copied())
    }

    /// Gives the key this number, and returns its former one.
    fn set(&mut self, key: &[u8], n: usize) -> Result<Option<usize>, AllocError>
        ensures former { IfOk result (λ former. former ≡ number_of self.old key.now) }
        ensures numbered { OnOk result (IsNumbered self.old key.now n self.new) }
    {
        if key.len() <= NAME_LIMIT {
            let former = self.short.insert(key, n)?;
            return Ok(former);
        }
        let folded = FoldedKey::of(self.alloc, key)?;
        let former = self.long.insert(folded, n)?;
        Ok(former)
    }

    /// Adds the key after all others, of which there are `n`, and says whether none of them is the same: only then it gets a number.
    pub fn add(&mut self, key: &[u8], n: usize) -> Result<bool, AllocError>
        ensures keys { OnOk result ((keys : List Bytes) → FindsKeys self.old keys → n ≡ length keys → FindsKeys self.new (keys ++ key.now ∷ [])) }
        ensures new { IfOk result (λ is_new. is_new ≡ is_none (number_of self.old key.now)) }
    {
        // few keys of a file are repeated, so that most need no look-up
        let Some(first) = self.set(key, n)? else {
            return Ok(true);
        };
        self.set(key, first)?;
        Ok(false)
    }
}

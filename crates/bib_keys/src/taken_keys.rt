//! Keys that made keys must not be.

use crate::dangling::dangling_text;
use bib_names::candidate;
use bib_store::{Database, ItemList};
use bib_text::{NAME_LIMIT, Text};
use folded_map::FoldedMap;
use std::alloc::{AllocError, Global};

/// Keys that are taken, compared without regard to ASCII case; and for each base how many of its candidates are known
/// to be taken. A key that is taken stays taken: the first free candidate of a base is never an earlier one than
/// before. This makes many keys of one base in time linear in their number.
#[derive(Drop)]
pub(crate) struct TakenKeys {
    pub(crate) alloc: Global,
    pub(crate) taken: FoldedMap<bool>,
    pub(crate) tried: FoldedMap<usize>,
    pub(crate) count: usize,
}

impl TakenKeys {
    ghost use Rattle.std.specs.Prelude.{◌≡◌, ◌≤◌, ◌<◌, ◌+◌, ◌^◌, List, [], ◌∷◌, ◌++◌, length, OnOk, IfOk};
    ghost use Rattle.std.specs.List.{cons_option};
    ghost use Rattle.bib_spec.specs.Bytes.{name_limit};
    ghost use Rattle.bib_spec.specs.Text.{Text as Bytes};
    ghost use Rattle.bib_spec.specs.Records.{entries_of, keys_of, dangling_texts};
    ghost use Rattle.bib_spec.specs.MadeKeys.{candidate, free_key, base_limit};
    ghost use Rattle.bib_store.specs.Readings.{OfReading, IsEntryNumber};
    ghost use Rattle.bib_keys.specs.TakenKeys.{AreTaken, AreTried};
    ghost use Rattle.bib_keys.specs.Dangling.{dangling_at};

    /// No key is taken. It takes no memory.
    pub(crate) fn none(alloc: Global) -> TakenKeys
        ensures { AreTaken [] result }
    {
        TakenKeys {
            alloc,
            taken: FoldedMap::new(alloc),
            tried: FoldedMap::new(alloc),
            count: 0,
        }
    }

    /// Takes this key. A key that is longer than a key may be is no candidate; it only counts.
    pub(crate) fn add(&mut self, key: &[u8]) -> Result<(), AllocError>
        requires { self.old.count + 1 < 2 ^ 64 }
        ensures taken { OnOk result ((keys : List Bytes) → AreTaken keys self.old → AreTaken (key.now ∷ keys) self.new) }
        ensures count { OnOk result (self.new.count ≡ self.old.count + 1) }
    {
        if key.len() <= NAME_LIMIT {
            self.taken.insert(key, true)?;
        }
        self.count += 1;
        Ok(())
    }

    /// How many candidates of the base are known to be taken.
    fn tried(&self, base: &[u8]) -> usize
        ensures { (keys : List Bytes) → AreTaken keys self.now → AreTried keys base.now result }
    {
        match self.tried.get(base) {
            Some(n) => *n,
            None => 0,
        }
    }

    /// The first candidate of the base that is not taken, and its number, if all candidates before number `from` are
    /// taken.
    fn first_free(&self, base: &[u8], from: usize) -> Result<(Text, usize), AllocError>
        requires short { length base.now ≤ base_limit }
        requires count { self.now.count + 1 < 2 ^ 64 }
        ensures key { IfOk result (λ found. (keys : List Bytes) → AreTaken keys self.now → AreTried keys base.now from → found.0 ≡ free_key keys base.now) }
        ensures number { IfOk result (λ found. (found.0 ≡ candidate base.now found.1) × (found.1 ≤ self.now.count)) }
        ensures tried { IfOk result (λ found. (keys : List Bytes) → AreTaken keys self.now → AreTried keys base.now from → AreTried keys base.now found.1) }
        ensures short { IfOk result (λ found. length found.0 ≤ name_limit) }
    {
        let mut n = from;
        'candidates: while n <= self.count {
            let key = candidate(self.alloc, base, n)?;
            if self.taken.get(key.as_slice()).is_none() {
                return Ok((key, n));
            }
            n += 1;
        }
        // Never reached: if there is one candidate more than there are taken keys, a candidate is free.
        Ok((candidate(self.alloc, base, 0)?, 0))
    }

    /// Notes that the first `n` candidates of the base are taken. A single one is not noted: to try it again is
    /// cheaper.
    fn note(&mut self, base: &[u8], n: usize) -> Result<(), AllocError>
        requires { length base.now ≤ base_limit }
        ensures taken { OnOk result ((keys : List Bytes) → AreTaken keys self.old → AreTried keys base.now n → AreTaken keys self.new) }
        ensures count { OnOk result (self.new.count ≡ self.old.count) }
    {
        if n < 2 {
            return Ok(());
        }
        match self.tried.replace(base, n) {
            Some(_) => Ok(()),
            None => {
                self.tried.insert(base, n)?;
                Ok(())
            }
        }
    }

    /// Takes the key that is candidate `n` of the base, if all candidates before it are taken.
    fn take(&mut self, base: &[u8], n: usize, key: &[u8]) -> Result<(), AllocError>
        requires short { length base.now ≤ base_limit }
        requires count { self.old.count + 1 < 2 ^ 64 }
        requires number { n + 1 < 2 ^ 64 }
        ensures taken { OnOk result ((keys : List Bytes) → AreTaken keys self.old → AreTried keys base.now n → key.now ≡ candidate base.now n → AreTaken (key.now ∷ keys) self.new) }
        ensures count { OnOk result (self.new.count ≡ self.old.count + 1) }
    {
        self.add(key)?;
        self.note(base, n + 1)?;
        Ok(())
    }

    /// The texts of dangling crossrefs are taken, and nothing else.
    pub(crate) fn of_dangling<L: ItemList>(
        alloc: Global,
        db: &Database<L>,
    ) -> Result<Self, AllocError>
        ensures taken { IfOk result (λ taken. OfReading db.now (λ r. AreTaken (dangling_texts (entries_of r)) taken)) }
        ensures count { IfOk result (λ taken. OfReading db.now (λ r. taken.count ≤ length (entries_of r))) }
    {
        db.opens();
        let mut taken = TakenKeys::none(alloc);
        taken.add_dangling(db)?;
        Ok(taken)
    }

    /// Takes the first candidate of the base that is not taken.
    pub(crate) fn take_free(&mut self, base: &[u8]) -> Result<Text, AllocError>
        requires short { length base.now ≤ base_limit }
        requires count { self.old.count + 1 < 2 ^ 64 }
        ensures key { IfOk result (λ key. (keys : List Bytes) → AreTaken keys self.old → key ≡ free_key keys base.now) }
        ensures short { IfOk result (λ key. length key ≤ name_limit) }
        ensures taken { IfOk result (λ key. (keys : List Bytes) → AreTaken keys self.old → AreTaken (key ∷ keys) self.new) }
        ensures count { OnOk result (self.new.count ≡ self.old.count + 1) }
    {
        let from = self.tried(base);
        let (free, n) = self.first_free(base, from)?;
        self.take(base, n, free.as_slice())?;
        Ok(free)
    }

    /// Takes these keys.
    pub(crate) fn add_all(&mut self, keys: &[Text]) -> Result<(), AllocError>
        requires { self.old.count + length keys.now < 2 ^ 64 }
        ensures taken { OnOk result ((others : List Bytes) → AreTaken others self.old → AreTaken (keys.now ++ others) self.new) }
        ensures count { OnOk result (self.new.count ≡ self.old.count + length keys.now) }
    {
        for key in keys {
            self.add(key.as_slice())?;
        }
        Ok(())
    }

    /// Takes the keys of all entries.
    pub(crate) fn add_entries<L: ItemList>(&mut self, db: &Database<L>) -> Result<(), AllocError>
        requires { OfReading db.now (λ r. self.old.count + length (entries_of r) < 2 ^ 64) }
        ensures taken { OnOk result (OfReading db.now (λ r. (others : List Bytes) → AreTaken others self.old → AreTaken (keys_of (entries_of r) ++ others) self.new)) }
        ensures count { OnOk result (OfReading db.now (λ r. self.new.count ≡ self.old.count + length (entries_of r))) }
    {
        db.opens();
        'entries: for n in 0..db.entry_count() {
            self.add(db.entry(n).key())?;
        }
        Ok(())
    }

    /// Takes the text of the crossref of entry `n`, if that dangles.
    fn add_text<L: ItemList>(&mut self, db: &Database<L>, n: usize) -> Result<(), AllocError>
        requires number { IsEntryNumber db.now n }
        requires count { self.old.count + 1 < 2 ^ 64 }
        ensures taken { OnOk result (OfReading db.now (λ r. (keys : List Bytes) → AreTaken keys self.old → AreTaken (cons_option (dangling_at (entries_of r) n) keys) self.new)) }
        ensures count { OnOk result (self.new.count ≤ self.old.count + 1) }
    {
        match dangling_text(db, n) {
            Some(text) => self.add(text),
            None => Ok(()),
        }
    }

    /// Takes the texts of all dangling crossrefs.
    fn add_dangling<L: ItemList>(&mut self, db: &Database<L>) -> Result<(), AllocError>
        requires { OfReading db.now (λ r. self.old.count + length (entries_of r) < 2 ^ 64) }
        ensures taken { OnOk result (OfReading db.now (λ r. (others : List Bytes) → AreTaken others self.old → AreTaken (dangling_texts (entries_of r) ++ others) self.new)) }
        ensures count { OnOk result (OfReading db.now (λ r. self.new.count ≤ self.old.count + length (entries_of r))) }
    {
        db.opens();
        'entries: for n in 0..db.entry_count() {
            self.add_text(db, n)?;
        }
        Ok(())
    }
}

//! The entries of a file by number and by key.

ghost use Rattle.std.specs.Prelude.{◌≡◌, ◌≤◌, ◌<◌, ℕ, List, Option, None, length, IsSome, OnOk, OnErr};
ghost use Rattle.bib_spec.specs.Bytes.{name_limit};
ghost use Rattle.bib_spec.specs.Text.{Text as Bytes};
ghost use Rattle.bib_index.specs.KeyIndex.{IsIndexOf, ids_in, IsKept};
ghost use Rattle.bib_entries.specs.EntryTable.{name_of, named_by, crossref_of, IsIndexWith, GivesCrossref, HaveTheSame};

use crate::crossref::Crossref;
use bib_index::KeyIndex;
use bib_order::Order;
use bib_text::{NAME_LIMIT, Text};
use std::alloc::{AllocError, Global};
use std::marker::Model;

// After this many entries the table tells whether most entries have a key of their own.
const SAMPLE: usize = 65_536;

/// The keys and the crossref texts of a file's entries. An entry that comes or goes costs a few steps for each page of
/// entries, and the lengths of its key and its crossref text.
#[derive(Drop)]
pub struct EntryTable {
    alloc: Global,
    order: Order,
    keys: KeyIndex,
    // by id, up to the last that has one
    crossrefs: Vec<Crossref>,
    // the ids by the keys that their crossref texts name
    referring: KeyIndex,
    // how many entries the caller expects
    expected_count: usize,
}

/// The number of the first entry that has a key, and how many entries have it.
#[derive(Clone, Copy, Debug, PartialEq, Eq)]
pub struct Holders {
    pub first: usize,
    pub count: usize,
}

/// Gives its key to an id of the order that has none. If memory is refused, each key has the ids that it had.
fn add_key(keys: &mut KeyIndex, order: &Order, key: &[u8], id: usize) -> Result<(), AllocError>
    requires { length key.now ≤ name_limit }
    ensures ok { OnOk result ((names : ℕ → Option Bytes) → names id ≡ None → IsIndexOf names order.now (ids_in keys.old) → IsIndexWith names id (name_of key.now) order.now keys.new) }
    ensures err { OnErr result (IsKept (ids_in keys.old) (ids_in keys.new)) }
{
    // no text names an empty key
    if key.is_empty() {
        return Ok(());
    }
    keys.add(order, key, id)
}

/// Takes the key from an id that has it. It asks for no memory.
fn take_key(keys: &mut KeyIndex, key: &[u8], id: usize)
    ensures { (names : ℕ → Option Bytes) (order : List ℕ) → names id ≡ name_of key.now → IsIndexOf names order (ids_in keys.old) → IsIndexWith names id None order keys.new }
{
    if !key.is_empty() {
        keys.remove(key, id);
    }
}

/// Makes room for the crossref text of an id, if it has one.
fn make_room(
    crossrefs: &mut Vec<Crossref>,
    id: usize,
    crossref: &Crossref,
) -> Result<(), AllocError>
    ensures room { OnOk result (IsSome crossref.now → id < length crossrefs.new.items) }
    ensures same { HaveTheSame crossrefs.old.items crossrefs.new.items }
{
    if crossref.as_slice().is_none() {
        return Ok(());
    }
    'grow: while crossrefs.len() <= id {
        crossrefs.push(Crossref::none())?;
    }
    Ok(())
}

/// Keeps the crossref text of an id. If it has one, there is room for it.
fn put_crossref(crossrefs: &mut Vec<Crossref>, id: usize, crossref: Crossref)
    requires { IsSome crossref → id < length crossrefs.old.items }
    ensures { GivesCrossref crossrefs.old.items crossrefs.new.items id crossref }
{
    if id < crossrefs.len() {
        crossrefs[id] = crossref;
    }
}

/// The key that a crossref text names, or an empty key if it names none.
fn named_key(crossref: &Crossref) -> &[u8]
    ensures key { name_of result.now ≡ named_by crossref.now }
    ensures short { length result.now ≤ name_limit }
{
    match crossref.as_slice() {
        Some(text) if text.len() <= NAME_LIMIT => text,
        _ => &[],
    }
}

/// Takes from an id the key that its crossref text names. It asks for no memory.
#[tactic(auto, using(crate::proofs::Tables::none_kept, crate::proofs::Tables::unnamed_stays))]
fn take_named(referring: &mut KeyIndex, crossrefs: &[Crossref], id: usize)
    ensures { (names : ℕ → Option Bytes) (order : List ℕ) → names id ≡ named_by (crossref_of crossrefs.now id) → IsIndexOf names order (ids_in referring.old) → IsIndexWith names id None order referring.new }
{
    if let Some(crossref) = crossrefs.get(id) {
        take_key(referring, named_key(crossref), id);
    }
}

impl Model for EntryTable {
    ghost use Rattle.bib_entries.specs.EntryTable.{Kept};

    ghost Value = { Kept };

    ghost view = { λ t. record { ids = t.order; keys = t.keys; crossrefs = t.crossrefs.items; referring = t.referring } };
}

impl EntryTable {
    ghost use Rattle.std.specs.Prelude.{◌≡◌, ◌≤◌, ℕ, List, [], Option, None, length, insert, remove, slice_get, count_by, IsTrue, OnOk, OnErr};
    ghost use Rattle.std.specs.Option.{option_copied, option_flatten, option_map, IfSome};
    ghost use Rattle.bib_spec.specs.Bytes.{name_limit};
    ghost use Rattle.bib_spec.specs.Text.{Text as Bytes};
    ghost use Rattle.bib_spec.specs.Records.{is_named, first_named};
    ghost use Rattle.bib_entries.specs.EntryTable.{IsTableOf, SaysTheSame, AreApart, name_of, named_by, numbers_having, referrers, IsIndexWith, StaysIndex, GivesCrossref, HaveTheSame};
    ghost use Rattle.bib_index.specs.KeyIndex.{IsIndexOf, ids_in};

    /// The table of no entries. It asks for no memory.
    pub fn new(alloc: Global) -> Self
        ensures { IsTableOf [] [] result }
    {
        EntryTable {
            alloc,
            order: Order::new(alloc),
            keys: KeyIndex::new(alloc),
            crossrefs: Vec::new(alloc),
            referring: KeyIndex::new(alloc),
            expected_count: 0,
        }
    }

    /// Makes room for `additional` more entries, as far as there is memory for it: for at most 65,536 keys at first, and
    /// for all keys once 65,536 entries show that most entries have a key of their own. The table says what it said. The
    /// room is not promised; it only saves time.
    pub fn prepare(&mut self, additional: usize)
        ensures { SaysTheSame self.old self.new }
    {
        self.order.prepare(additional);
        self.expected_count = self.order.count().saturating_add(additional);
        let _ = self.crossrefs.reserve(additional);
        let _ = self.keys.reserve(additional.min(SAMPLE));
    }

    /// Makes room for the keys of all expected entries, if the first 65,536 show that most have a key of their own.
    fn prepare_keys(&mut self)
        ensures { self.new ≡ self.old }
    {
        let count = self.order.count();
        if count == SAMPLE && self.keys.len() > SAMPLE / 2 {
            let _ = self.keys.reserve(self.expected_count.saturating_sub(count));
        }
    }

    /// How many entries there are.
    pub fn count(&self) -> usize
        ensures { (keys : List Bytes) (crossrefs : List (Option Bytes)) → IsTableOf keys crossrefs self.now → result ≡ length keys }
    {
        self.order.count()
    }

    /// The number of the first entry that has this key, folded. It takes time in the key's length.
    pub fn first(&self, key: &[u8]) -> Option<usize>
        ensures { (keys : List Bytes) (crossrefs : List (Option Bytes)) → IsTableOf keys crossrefs self.now → result ≡ first_named key.now keys }
    {
        // for the proof: the ids of an order are distinct
        let _ = self.order.count();
        match self.keys.first(key) {
            Some(id) => self.order.position_of(id),
            None => None,
        }
    }

    /// How many entries have this key, folded. None has the empty key.
    pub fn holders(&self, key: &[u8]) -> usize
        ensures { (keys : List Bytes) (crossrefs : List (Option Bytes)) → IsTableOf keys crossrefs self.now → result ≡ count_by (is_named key.now) keys }
    {
        self.keys.count(key)
    }

    /// The first entry that has this key, folded, and how many have it, if any has. It takes time in the key's length.
    pub fn holders_of(&self, key: &[u8]) -> Option<Holders>
        ensures first { (keys : List Bytes) (crossrefs : List (Option Bytes)) → IsTableOf keys crossrefs self.now → option_map (λ h. h.first) result ≡ first_named key.now keys }
        ensures count { IfSome result (λ h. (keys : List Bytes) (crossrefs : List (Option Bytes)) → IsTableOf keys crossrefs self.now → h.count ≡ count_by (is_named key.now) keys) }
    {
        // for the proof: the ids of an order are distinct
        let _ = self.order.count();
        let ids = self.keys.holders(key);
        let id = ids.first()?;
        let first = self.order.position_of(*id)?;
        Some(Holders {
            first,
            count: ids.len(),
        })
    }

    /// The number of entry `k`, counted from 0, among those that have this key, folded, in order. It takes time in the key's
    /// length.
    pub fn nth_holder(&self, key: &[u8], k: usize) -> Option<usize>
        ensures { (keys : List Bytes) (crossrefs : List (Option Bytes)) → IsTableOf keys crossrefs self.now → result ≡ slice_get (numbers_having key.now keys) k }
    {
        // for the proof: the ids of an order are distinct
        let _ = self.order.count();
        match self.keys.holders(key).get(k) {
            Some(id) => self.order.position_of(*id),
            None => None,
        }
    }

    /// Whether it is known that no two entries have the same key, folded. Once two entries have had the same key, this is
    /// no longer known. `false` promises nothing: the caller then has to look for itself, which only costs time.
    pub fn are_apart(&self) -> bool
        ensures { IsTrue result → (keys : List Bytes) (crossrefs : List (Option Bytes)) → IsTableOf keys crossrefs self.now → AreApart keys }
    {
        self.keys.are_apart()
    }

    /// The crossref text of entry `n`, if there is such an entry and it has one.
    pub fn crossref(&self, n: usize) -> Option<&[u8]>
        ensures { (keys : List Bytes) (crossrefs : List (Option Bytes)) → IsTableOf keys crossrefs self.now → option_copied result ≡ option_flatten (slice_get crossrefs n) }
    {
        if n >= self.order.count() {
            return None;
        }
        match self.crossrefs.get(self.order.id_at(n)) {
            Some(crossref) => crossref.as_slice(),
            None => None,
        }
    }

    /// The number of entry `k`, counted from 0, among those whose crossref texts name this key, in order. It takes a few
    /// steps for each page of entries, and time in the key's length.
    pub fn referrer(&self, key: &[u8], k: usize) -> Option<usize>
        requires { length key.now ≤ name_limit }
        ensures { (keys : List Bytes) (crossrefs : List (Option Bytes)) → IsTableOf keys crossrefs self.now → result ≡ slice_get (referrers key.now crossrefs) k }
    {
        // for the proof: the ids of an order are distinct
        let _ = self.order.count();
        match self.referring.holders(key).get(k) {
            Some(id) => self.order.position_of(*id),
            None => None,
        }
    }

    /// Inserts an entry before entry `n`, or at the end. If memory is refused, the table says what it said.
    pub fn insert(&mut self, n: usize, key: &[u8], crossref: Option<Text>) -> Result<(), AllocError>
        requires { length key.now ≤ name_limit }
        ensures ok { OnOk result ((keys : List Bytes) (crossrefs : List (Option Bytes)) → n ≤ length keys → IsTableOf keys crossrefs self.old → IsTableOf (insert keys n key.now) (insert crossrefs n crossref) self.new) }
        ensures err { OnErr result (SaysTheSame self.old self.new) }
    {
        self.prepare_keys();
        let crossref = Crossref::of(self.alloc, crossref)?;
        let n = n.min(self.order.count());
        let id = self.order.insert(n)?;
        match self.describe(id, key, crossref) {
            Ok(()) => Ok(()),
            Err(fault) => {
                self.order.remove(n);
                Err(fault)
            }
        }
    }

    /// Gives a key and a crossref text to an id that has neither. If memory is refused, it still has neither.
    #[tactic(auto, using(crate::proofs::Tables::given_after))]
    fn describe(&mut self, id: usize, key: &[u8], crossref: Crossref) -> Result<(), AllocError>
        requires { length key.now ≤ name_limit }
        ensures ids { self.new.ids ≡ self.old.ids }
        ensures key { OnOk result ((names : ℕ → Option Bytes) → names id ≡ None → IsIndexOf names self.old.ids (ids_in self.old.keys) → IsIndexWith names id (name_of key.now) self.old.ids self.new.keys) }
        ensures named { OnOk result ((names : ℕ → Option Bytes) → names id ≡ None → IsIndexOf names self.old.ids (ids_in self.old.referring) → IsIndexWith names id (named_by crossref) self.old.ids self.new.referring) }
        ensures crossref { OnOk result (GivesCrossref self.old.crossrefs self.new.crossrefs id crossref) }
        ensures keys_err { OnErr result (StaysIndex id self.old.ids self.old.keys self.new.keys) }
        ensures named_err { OnErr result (StaysIndex id self.old.ids self.old.referring self.new.referring) }
        ensures crossrefs_err { OnErr result (HaveTheSame self.old.crossrefs self.new.crossrefs) }
    {
        make_room(&mut self.crossrefs, id, &crossref)?;
        add_key(&mut self.keys, &self.order, key, id)?;
        match add_key(&mut self.referring, &self.order, named_key(&crossref), id) {
            Ok(()) => {
                put_crossref(&mut self.crossrefs, id, crossref);
                Ok(())
            }
            Err(fault) => {
                take_key(&mut self.keys, key, id);
                Err(fault)
            }
        }
    }

    /// Removes entry `n`, which has this key. It asks for no memory.
    pub fn remove(&mut self, n: usize, key: &[u8])
        ensures { (keys : List Bytes) (crossrefs : List (Option Bytes)) → slice_get keys n ≡ Some key.now → IsTableOf keys crossrefs self.old → IsTableOf (remove keys n) (remove crossrefs n) self.new }
    {
        if n >= self.order.count() {
            return;
        }
        let gone = self.order.id_at(n);
        take_key(&mut self.keys, key, gone);
        take_named(&mut self.referring, &self.crossrefs, gone);
        self.order.remove(n);
    }
}

//! Ids by their texts, without regard to ASCII case.

ghost use Rattle.std.specs.Prelude.{◌≡◌, ◌≤◌, ℕ, Bool, false, List, [], None, Some, Option, length, insert, slice_get, IsSome, IsTrue, OnOk, OnErr};
ghost use Rattle.bib_spec.specs.Bytes.{name_limit};
ghost use Rattle.bib_spec.specs.Text.{Text, folded};
ghost use Rattle.folded_map.specs.FoldedMap.{value_at};
ghost use Rattle.bib_order.specs.Holders.{holders};
ghost use Rattle.bib_index.specs.KeyIndex.{ids_in, also, with_text, without, IsIndexOf, Has, IsKept, HaveOneAtMost, TextsFollow};

use crate::holders::Holders;
use bib_order::Order;
use folded_map::FoldedMap;
use std::alloc::{AllocError, Global};
use std::marker::Model;

/// The ids that have each text, in an order that is kept elsewhere. Texts of at most 255 bytes are compared without
/// regard to ASCII case. A contract sees the ids of each folded text.
#[derive(Drop)]
pub struct KeyIndex {
    alloc: Global,
    lists: FoldedMap<Holders>,
    // whether some text has, or had, two ids
    shared: bool,
}

impl Model for KeyIndex {
    ghost use Rattle.std.specs.Prelude.{List, ℕ, IsFalse};
    ghost use Rattle.bib_spec.specs.Text.{Text};
    ghost use Rattle.bib_index.specs.KeyIndex.{HaveOneAtMost};

    ghost Value = { List (Text × List ℕ) };

    ghost view = { λ index. index.lists };

    ghost invariant = { λ index. IsFalse index.shared → HaveOneAtMost index.lists };
}

/// An index stays right while ids without a text come and go. It does nothing.
pub fn texts_follow()
    ensures { TextsFollow }
{}

impl KeyIndex {
    /// The index without ids. It asks for no memory.
    pub fn new(alloc: Global) -> Self
        ensures nothing { (x : Text) → ids_in result x ≡ [] }
        ensures index { (order : List ℕ) → IsIndexOf (λ _. None) order (ids_in result) }
    {
        KeyIndex {
            alloc,
            lists: FoldedMap::new(alloc),
            shared: false,
        }
    }

    /// How many texts have, or had, an id.
    pub fn len(&self) -> usize
        ensures { result ≡ length self.now }
    {
        self.lists.len()
    }

    /// Makes room for `additional` more texts. The index is unchanged. The room is not promised; it only saves time.
    pub fn reserve(&mut self, additional: usize) -> Result<(), AllocError>
        ensures { self.new ≡ self.old }
    {
        self.lists.reserve(additional)
    }

    /// Whether it is known that no text has two ids. Once a text has had two, this is no longer known. `false` promises
    /// nothing: the caller then has to look for itself, which only costs time.
    pub fn are_apart(&self) -> bool
        ensures { IsTrue result → HaveOneAtMost self.now }
    {
        !self.shared
    }

    /// The ids that have the text, in order.
    pub fn holders(&self, text: &[u8]) -> &[usize]
        ensures { result.now ≡ ids_in self.now (folded text.now) }
    {
        if let Some(held) = self.lists.get(text) {
            return held.as_slice();
        }
        &[]
    }

    /// The first id that has the text.
    pub fn first(&self, text: &[u8]) -> Option<usize>
        ensures { result ≡ slice_get (ids_in self.now (folded text.now)) 0 }
    {
        self.holders(text).first().copied()
    }

    /// How many ids have the text.
    pub fn count(&self, text: &[u8]) -> usize
        ensures { result ≡ length (ids_in self.now (folded text.now)) }
    {
        self.holders(text).len()
    }

    /// Gives this text to an id of the order that has none. If memory is refused, each text has the ids that it had.
    pub fn add(&mut self, order: &Order, text: &[u8], id: usize) -> Result<(), AllocError>
        requires { length text.now ≤ name_limit }
        ensures ok { OnOk result ((texts : ℕ → Option Text) → texts id ≡ None → IsIndexOf texts order.now (ids_in self.old) → IsIndexOf (with_text texts id (Some text.now)) order.now (ids_in self.new)) }
        ensures err { OnErr result (IsKept (ids_in self.old) (ids_in self.new)) }
    {
        self.put_in(order, text, id)
    }

    /// Takes the text from an id that has it. It asks for no memory.
    pub fn remove(&mut self, text: &[u8], id: usize)
        ensures { (texts : ℕ → Option Text) → (order : List ℕ) → texts id ≡ Some text.now → IsIndexOf texts order (ids_in self.old) → IsIndexOf (with_text texts id None) order (ids_in self.new) }
    {
        self.take_out(text, id);
    }

    /// Gives another text to an id of the order that has one. If memory is refused, each text has the ids that it had.
    pub fn rekey(
        &mut self,
        order: &Order,
        old: &[u8],
        new: &[u8],
        id: usize,
    ) -> Result<(), AllocError>
        requires { length new.now ≤ name_limit }
        ensures ok { OnOk result ((texts : ℕ → Option Text) → texts id ≡ Some old.now → IsIndexOf texts order.now (ids_in self.old) → IsIndexOf (with_text texts id (Some new.now)) order.now (ids_in self.new)) }
        ensures err { OnErr result (IsKept (ids_in self.old) (ids_in self.new)) }
    {
        if old.eq_ignore_ascii_case(new) {
            return Ok(());
        }
        self.put_in(order, new, id)?;
        self.take_out(old, id);
        Ok(())
    }

    /// Adds an id of the order to the ids that have the text, if it is none of them yet. If memory is refused, each text
    /// has the ids that it had.
    fn put_in(&mut self, order: &Order, text: &[u8], id: usize) -> Result<(), AllocError>
        requires { length text.now ≤ name_limit }
        ensures ok { OnOk result ((test : ℕ → Bool) → test id ≡ false → ids_in self.old (folded text.now) ≡ holders test order.now → Has (ids_in self.old) (folded text.now) (holders (also id test) order.now) (ids_in self.new)) }
        ensures err { OnErr result (IsKept (ids_in self.old) (ids_in self.new)) }
    {
        // for the proof: the ids of an order are distinct
        let _ = order.count();
        let Some(n) = order.position_of(id) else {
            return Ok(());
        };
        let alone = Holders::of(self.alloc, id);
        match self.lists.insert(text, alone)? {
            None => Ok(()),
            Some(held) => {
                let k = order.count_before(held.as_slice(), n);
                self.put_back(text, held, k, id)
            }
        }
    }

    /// Gives a text its ids back, and one more id before id `k` of them or at the end. If memory is refused, the text gets
    /// back only the ids that it had.
    fn put_back(
        &mut self,
        text: &[u8],
        held: Holders,
        k: usize,
        id: usize,
    ) -> Result<(), AllocError>
        requires some { IsSome (value_at self.old (folded text.now)) }
        requires within { k ≤ length held }
        ensures ok { OnOk result (Has (ids_in self.old) (folded text.now) (insert held k id) (ids_in self.new)) }
        ensures err { OnErr result (Has (ids_in self.old) (folded text.now) held (ids_in self.new)) }
    {
        let mut held = held;
        let put = held.insert(k, id);
        self.shared = true;
        self.lists.replace(text, held);
        put
    }

    /// Removes an id from those that have the text. It asks for no memory.
    fn take_out(&mut self, text: &[u8], id: usize)
        ensures { Has (ids_in self.old) (folded text.now) (without id (ids_in self.old (folded text.now))) (ids_in self.new) }
    {
        let Some(mut held) = self.lists.replace(text, Holders::new(self.alloc)) else {
            return;
        };
        held.take_out(id);
        if held.as_slice().is_empty() {
            self.lists.remove(text);
            return;
        }
        self.lists.replace(text, held);
    }
}

//! Numbers in ascending order.

ghost use Rattle.std.specs.Prelude.{◌≡◌, ◌≤◌, ◌<◌, ◌+◌, ◌^◌, ℕ, List, length};
ghost use Rattle.bib_numbers.specs.Numbers.{PartAt, HasParts, HaveNext};

use crate::number_pages::NumberPages;
use std::alloc::{AllocError, Global};
use std::marker::Model;

/// The numbers that the items of a kind have among all items, in order. When an item comes or goes, the numbers of the
/// items after it change. That takes one step for each page of up to 512 numbers, and some for the numbers of one page.
#[derive(Drop)]
pub struct Numbers {
    list: NumberPages,
}

impl Model for Numbers {
    ghost use Rattle.std.specs.Prelude.{List, ℕ};
    ghost use Rattle.bib_numbers.specs.Numbers.{Ascend};

    ghost Value = { List ℕ };

    ghost view = { λ numbers. numbers.list };

    ghost invariant = { λ numbers. Ascend numbers.list };
}

impl Numbers {
    ghost use Rattle.std.specs.Prelude.{[], ◌++◌, ◌∷◌, suc, map, Some, slice_get, OnOk, OnErr, IsTrue, IsFalse, ◌≢◌};
    ghost use Rattle.std.specs.List.{AllByRecursion};
    ghost use Rattle.std.specs.Option.{IfSome, IfNone};
    ghost use Rattle.bib_numbers.specs.Numbers.{rank_in};

    /// No numbers. It asks for no memory.
    pub fn new(alloc: Global) -> Self
        ensures { result ≡ [] }
    {
        Numbers {
            list: NumberPages::new(alloc),
        }
    }

    /// How many numbers there are.
    pub fn count(&self) -> usize
        ensures { result ≡ length self.now }
    {
        self.list.count()
    }

    /// Number `n` in order, counted from 0. It takes time in the logarithm of their count.
    pub fn get(&self, n: usize) -> usize
        requires { n < length self.now }
        ensures { slice_get self.now n ≡ Some result }
    {
        self.list.get(n)
    }

    /// How many numbers are below `n`. It takes one step if all are, else time in the logarithm of their count.
    pub fn rank(&self, n: usize) -> usize
        ensures within { result ≤ length self.now }
        ensures below { (front rest : List ℕ) → PartAt n front rest self.now → result ≡ length front }
        ensures counted { result ≡ rank_in n self.now }
    {
        self.list.count_below(n)
    }

    /// The place of number `n` in the order, counted from 0, if it is one of the numbers.
    pub fn position(&self, n: usize) -> Option<usize>
        ensures found { IfSome result (λ k. slice_get self.now k ≡ Some n) }
        ensures rank { IfSome result (λ k. k ≡ rank_in n self.now) }
        ensures none { IfNone result (AllByRecursion (λ m. m ≢ n) self.now) }
    {
        let k = self.list.count_below(n);
        if k == self.list.count() {
            return None;
        }
        if self.list.get(k) == n { Some(k) } else { None }
    }

    /// Whether the greatest number of a machine, 2^64 - 1, is one of them.
    fn has_greatest(&self) -> bool
        ensures fit { AllByRecursion (λ m. m < 2 ^ 64) self.now }
        ensures none { IsFalse result → HaveNext self.now }
        ensures some { IsTrue result → (n : ℕ) (front rest : List ℕ) → n < 2 ^ 64 → PartAt n front rest self.now → HaveNext rest → ⊥ }
    {
        match self.list.last() {
            Some(last) => last == usize::MAX,
            None => false,
        }
    }

    /// Inserts number `n` for an item that comes: the numbers from `n` on become one greater. If memory is refused, or the
    /// last of them has no successor, nothing changes.
    pub fn insert(&mut self, n: usize) -> Result<(), AllocError>
        ensures ok { OnOk result ((front rest : List ℕ) → PartAt n front rest self.old → HaveNext rest → self.new ≡ front ++ n ∷ map suc rest) }
        ensures count { OnOk result (length self.new ≡ suc (length self.old)) }
        ensures parts { OnOk result (HasParts n self.old × HaveNext self.old) }
        ensures err { OnErr result (self.new ≡ self.old) }
    {
        if self.has_greatest() {
            return Err(AllocError);
        }
        let k = self.list.count_below(n);
        self.list.insert(k, n)?;
        self.list.shift_from(k + 1, 1);
        Ok(())
    }

    /// Removes number `n` of an item that goes: the numbers after it become one less. It asks for no memory.
    pub fn remove(&mut self, n: usize)
        ensures taken { (front rest : List ℕ) → PartAt n front rest (front ++ rest) → HaveNext rest → self.old ≡ front ++ n ∷ map suc rest → self.new ≡ front ++ rest }
        ensures count { length self.old ≤ length self.new + 1 }
    {
        let k = self.list.count_below(n);
        if k < self.list.count() {
            self.list.remove(k);
            self.close(n);
        }
    }

    /// Makes way for an item of another kind that comes: the numbers from `n` on become one greater, if the last of them
    /// has a successor.
    pub fn make_way(&mut self, n: usize)
        ensures moved { (front rest : List ℕ) → PartAt n front rest self.old → HaveNext rest → self.new ≡ front ++ map suc rest }
        ensures count { length self.new ≡ length self.old }
        ensures rank { rank_in n self.new ≡ rank_in n self.old }
    {
        if self.has_greatest() {
            return;
        }
        let k = self.list.count_below(n);
        self.list.shift_from(k, 1);
    }

    /// Closes the gap of an item of another kind that goes: the numbers after `n` become one less.
    pub fn close(&mut self, n: usize)
        ensures moved { (front rest : List ℕ) → PartAt n front rest (front ++ rest) → HaveNext rest → self.old ≡ front ++ map suc rest → self.new ≡ front ++ rest }
        ensures count { length self.new ≡ length self.old }
    {
        // for the proof: the numbers are below 2^64
        let _ = self.has_greatest();
        // zero stays
        let k = self.list.count_below(n.max(1));
        self.list.shift_from(k, usize::MAX);
    }
}

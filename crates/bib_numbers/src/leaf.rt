//! A page of numbers.

ghost use Rattle.std.specs.Prelude.{◌≡◌, ◌≤◌, ◌<◌, [], length, take, drop, insert, remove, slice_get, Some, OnOk, OnErr, IfOk, map};
ghost use Rattle.bib_numbers.specs.Numbers.{Ascend, rank_in};
ghost use Rattle.bib_numbers.specs.Moves.{plus, moved_from, ends_below};

use crate::moving::move_from;
use std::alloc::{AllocError, Global};
use std::marker::Model;

/// Numbers of one page. Each is kept as its difference from the base, modulo 2^64, so that a change of the base moves all
/// of them at once.
#[derive(Drop)]
pub(crate) struct Leaf {
    base: usize,
    list: Vec<usize>,
}

impl Model for Leaf {
    ghost use Rattle.std.specs.Prelude.{◌<◌, ◌^◌, List, ℕ, map};
    ghost use Rattle.bib_numbers.specs.Moves.{plus};

    ghost Value = { List ℕ };

    ghost view = { λ leaf. map (plus leaf.base) leaf.list.items };

    ghost invariant = { λ leaf. leaf.base < 2 ^ 64 };
}

impl Leaf {
    /// No numbers. It asks for no memory.
    pub(crate) fn new(alloc: Global) -> Self
        ensures { result ≡ [] }
    {
        Leaf {
            base: 0,
            list: Vec::new(alloc),
        }
    }

    /// How many numbers there are.
    pub(crate) fn len(&self) -> usize
        ensures { result ≡ length self.now }
    {
        self.list.len()
    }

    /// Number `k`, counted from 0.
    pub(crate) fn get(&self, k: usize) -> usize
        requires { k < length self.now }
        ensures { slice_get self.now k ≡ Some result }
    {
        self.base.wrapping_add(self.list[k])
    }

    /// How many of the numbers are below `n`.
    pub(crate) fn count_below(&self, n: usize) -> usize
        ensures within { result ≤ length self.now }
        ensures counted { Ascend self.now → result ≡ rank_in n self.now }
    {
        let base = self.base;
        self.list.partition_point(|m| base.wrapping_add(*m) < n)
    }

    /// Whether the last number is below `n`. If there are no numbers, 0 counts as the last.
    pub(crate) fn ends_below(&self, n: usize) -> bool
        ensures { result ≡ ends_below n self.now }
    {
        let len = self.list.len();
        if len == 0 {
            return 0 < n;
        }
        self.get(len - 1) < n
    }

    /// Puts number `n` before number `k`, or at the end.
    pub(crate) fn insert(&mut self, k: usize, n: usize) -> Result<(), AllocError>
        requires { k ≤ length self.old }
        ensures ok { OnOk result (self.new ≡ insert self.old k n) }
        ensures err { OnErr result (self.new ≡ self.old) }
    {
        self.list.insert(k, n.wrapping_sub(self.base))?;
        Ok(())
    }

    /// Removes number `k`. It asks for no memory.
    pub(crate) fn remove(&mut self, k: usize)
        requires { k < length self.old }
        ensures { self.new ≡ remove self.old k }
    {
        self.list.remove(k);
    }

    /// A page with the numbers from place `k` on.
    pub(crate) fn tail(&self, alloc: Global, k: usize) -> Result<Leaf, AllocError>
        requires { k ≤ length self.now }
        ensures { IfOk result (λ leaf. leaf ≡ drop k self.now) }
    {
        Ok(Leaf {
            base: self.base,
            list: Vec::from_slice(alloc, self.list.split_at(k).1)?,
        })
    }

    /// Keeps only the numbers before place `k`. It asks for no memory.
    pub(crate) fn truncate(&mut self, k: usize)
        requires { k ≤ length self.old }
        ensures { self.new ≡ take k self.old }
    {
        self.list.truncate(k);
    }

    /// Moves all numbers by a step, at once.
    pub(crate) fn shift(&mut self, step: usize)
        ensures { self.new ≡ map (plus step) self.old }
    {
        self.base = self.base.wrapping_add(step);
    }

    /// Moves the numbers from place `k` on by a step.
    pub(crate) fn shift_from(&mut self, k: usize, step: usize)
        requires { k ≤ length self.old }
        ensures { self.new ≡ moved_from (plus step) k self.old }
    {
        move_from(self.list.as_mut_slice(), k, step);
    }
}

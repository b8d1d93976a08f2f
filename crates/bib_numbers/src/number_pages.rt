//! A list of numbers in pages.

ghost use Rattle.std.specs.Prelude.{◌≡◌, ◌+◌, ◌-◌, ◌≤◌, ◌<◌, ◌^◌, [], length, insert, remove, slice_get, Some, OnOk, OnErr};
ghost use Rattle.std.specs.Option.{IfSome, IfNone};
ghost use Rattle.bib_numbers.specs.Numbers.{Ascend, rank_in};
ghost use Rattle.bib_numbers.specs.Moves.{plus, moved_from};

use crate::leaf::Leaf;
use crate::leaves::{count_below, locate, put, put_last, shift_from, take_away};
use crate::starts::count_anew;
use std::alloc::{AllocError, Global};
use std::marker::Model;

/// A list of numbers in pages of 1 to 512. A look-up takes time in the logarithm of their count; a change takes a few steps
/// for each page, and some for the numbers of one page.
#[derive(Drop)]
pub(crate) struct NumberPages {
    alloc: Global,
    leaves: Vec<Leaf>,
    // how many numbers stand before each page
    firsts: Vec<usize>,
    count: usize,
}

impl Model for NumberPages {
    ghost use Rattle.std.specs.Prelude.{List, ℕ};
    ghost use Rattle.bib_pages.specs.Pages.{joined};
    ghost use Rattle.bib_numbers.specs.Moves.{IsKept};

    ghost Value = { List ℕ };

    ghost view = { λ p. joined p.leaves.items };

    ghost invariant = { λ p. IsKept p.leaves.items p.firsts.items p.count };
}

impl NumberPages {
    /// No numbers. It asks for no memory.
    pub(crate) fn new(alloc: Global) -> Self
        ensures { result ≡ [] }
    {
        NumberPages {
            alloc,
            leaves: Vec::new(alloc),
            firsts: Vec::new(alloc),
            count: 0,
        }
    }

    /// How many numbers there are.
    pub(crate) fn count(&self) -> usize
        ensures { result ≡ length self.now }
    {
        self.count
    }

    /// Number `k`, counted from 0.
    pub(crate) fn get(&self, k: usize) -> usize
        requires { k < length self.now }
        ensures { slice_get self.now k ≡ Some result }
    {
        let (p, j) = locate(&self.leaves, &self.firsts, k);
        self.leaves[p].get(j)
    }

    /// The last number. It takes one step.
    pub(crate) fn last(&self) -> Option<usize>
        ensures last { IfSome result (λ n. slice_get self.now (length self.now - 1) ≡ Some n) }
        ensures some { IfSome result (λ n. (1 ≤ length self.now) × (n < 2 ^ 64)) }
        ensures none { IfNone result (self.now ≡ []) }
    {
        let leaf = self.leaves.last()?;
        Some(leaf.get(leaf.len() - 1))
    }

    /// How many of the numbers are below `n`: at once if all are.
    #[inline]
    pub(crate) fn count_below(&self, n: usize) -> usize
        ensures within { result ≤ length self.now }
        ensures counted { Ascend self.now → result ≡ rank_in n self.now }
    {
        count_below(&self.leaves, &self.firsts, self.count, n)
    }

    /// Inserts number `n` before number `k`, or at the end. If memory is refused, nothing changes.
    pub(crate) fn insert(&mut self, k: usize, n: usize) -> Result<(), AllocError>
        requires { k ≤ length self.old }
        ensures ok { OnOk result (self.new ≡ insert self.old k n) }
        ensures fits { OnOk result (k + 1 < 2 ^ 64) }
        ensures err { OnErr result (self.new ≡ self.old) }
    {
        let Some(count) = self.count.checked_add(1) else {
            return Err(AllocError);
        };
        if k < self.count {
            let put = put(self.alloc, &mut self.leaves, &mut self.firsts, k, n);
            count_anew(&self.leaves, &mut self.firsts);
            put?;
        } else {
            put_last(
                self.alloc,
                &mut self.leaves,
                &mut self.firsts,
                self.count,
                n,
            )?;
        }
        self.count = count;
        Ok(())
    }

    /// Removes number `k`. It asks for no memory.
    pub(crate) fn remove(&mut self, k: usize)
        requires { k < length self.old }
        ensures { self.new ≡ remove self.old k }
    {
        take_away(&mut self.leaves, &mut self.firsts, k);
        count_anew(&self.leaves, &mut self.firsts);
        self.count -= 1;
    }

    /// Moves the numbers from place `k` on by a step.
    pub(crate) fn shift_from(&mut self, k: usize, step: usize)
        ensures { self.new ≡ moved_from (plus step) k self.old }
    {
        if k < self.count {
            let (p, j) = locate(&self.leaves, &self.firsts, k);
            shift_from(&mut self.leaves, p, j, step);
        }
    }
}

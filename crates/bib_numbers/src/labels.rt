//! Labels that stand for an order.

ghost use Rattle.std.specs.Prelude.{◌≡◌, ◌<◌, ◌≤◌, ℕ, suc, [], length, insert, remove, slice_get, slice_index_or, Some, None, IfOk, IfSome, OnErr};
ghost use Rattle.bib_numbers.specs.Labels.{label_limit, AreLabels};
ghost use Rattle.bib_numbers.specs.Numbers.{rank_in};

use crate::number_pages::NumberPages;
use std::alloc::{AllocError, Global};
use std::marker::Model;

/// How far from the label before it a label is that comes after all others.
const GAP: usize = 1 << 42;

/// A label that comes beside the one that came last leaves all but one in this many of the free numbers to the other side.
const SHARE: usize = 1 << 12;

/// The labels of things in order. A label is a number, greater than the labels before it; it stays the same when others
/// come or go. A label that comes or goes takes a few steps for each page of up to 512 labels.
#[derive(Drop)]
pub struct Labels {
    list: NumberPages,
    // the label that came last, beside which the next one is likely to come
    last: usize,
}

impl Model for Labels {
    ghost use Rattle.std.specs.Prelude.{List, ℕ};
    ghost use Rattle.bib_numbers.specs.Labels.{AreLabels};

    ghost Value = { List ℕ };

    ghost view = { λ labels. labels.list };

    ghost invariant = { λ labels. AreLabels labels.list };
}

impl Labels {
    /// No labels. It asks for no memory.
    pub fn new(alloc: Global) -> Self
        ensures none { result ≡ [] }
        ensures labels { AreLabels result }
    {
        Labels {
            list: NumberPages::new(alloc),
            last: 0,
        }
    }

    /// How many labels there are.
    pub fn count(&self) -> usize
        ensures { result ≡ length self.now }
    {
        self.list.count()
    }

    /// Label `k` in order, counted from 0.
    pub fn get(&self, k: usize) -> usize
        requires { k < length self.now }
        ensures { slice_get self.now k ≡ Some result }
    {
        self.list.get(k)
    }

    /// How many labels are below this number.
    pub fn rank(&self, label: usize) -> usize
        ensures { result ≡ rank_in label self.now }
    {
        self.list.count_below(label)
    }

    /// Makes a new label before label `k`, or after the last, and returns it. If no number is left between its neighbours,
    /// it returns none; nothing changes then, nor if memory is refused.
    pub fn make(&mut self, k: usize) -> Result<Option<usize>, AllocError>
        requires { k ≤ length self.old }
        ensures made { IfOk result (λ made. IfSome made (λ label. self.new ≡ insert self.old k label)) }
        ensures none { IfOk result (λ made. made ≡ None → self.new ≡ self.old) }
        ensures labels { AreLabels self.new }
        ensures err { OnErr result (self.new ≡ self.old) }
    {
        let low = self.low(k);
        let high = self.high(k);
        if low >= high {
            return Ok(None);
        }
        let label = between(low, high, self.last);
        self.list.insert(k, label)?;
        self.last = label;
        Ok(Some(label))
    }

    /// A number above the labels before label `k`.
    fn low(&self, k: usize) -> usize
        requires { k ≤ length self.now }
        ensures { (j : ℕ) → suc j ≡ k → slice_index_or self.now j 0 < result }
    {
        if k == 0 {
            return 0;
        }
        self.list.get(k - 1) + 1
    }

    /// The label before which a new one comes as label `k`, or the limit if it comes last.
    fn high(&self, k: usize) -> usize
        ensures next { k < length self.now → result ≡ slice_index_or self.now k 0 }
        ensures limit { result ≤ label_limit }
    {
        if k >= self.list.count() {
            return usize::MAX;
        }
        self.list.get(k)
    }

    /// Removes label `k`. It asks for no memory.
    pub fn remove(&mut self, k: usize)
        requires { k < length self.old }
        ensures gone { self.new ≡ remove self.old k }
        ensures labels { AreLabels self.new }
    {
        self.list.remove(k);
    }
}

/// A label from `low` on and below `high`. A label after all others comes `GAP` after them. Labels often come one after
/// another, or each before the one that came last: so that many can, and others between them later, these leave most
/// numbers free on one side, and a share on the other. Only time depends on it.
fn between(low: usize, high: usize, last: usize) -> usize
    requires { low < high }
    ensures low { low ≤ result }
    ensures high { result < high }
{
    let room = high - low;
    if high == usize::MAX && room > GAP {
        return low + GAP;
    }
    if low > 0 && low - 1 == last {
        return low + room / SHARE;
    }
    if high == last {
        return high - 1 - room / SHARE;
    }
    low + room / 2
}

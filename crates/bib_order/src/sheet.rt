//! A page of an order.

ghost use Rattle.std.specs.Prelude.{◌≡◌, ◌≤◌, ◌<◌, length, take, drop, insert, remove, slice_get, Some, OnOk, OnErr, IfOk};
ghost use Rattle.std.specs.Option.{IfSome, IfNone};
ghost use Rattle.bib_order.specs.Orders.{Lacks};

use std::alloc::{AllocError, Global};
use std::marker::Model;

/// Ids of one page, in order, and the page's name, which no contract sees.
#[derive(Drop)]
pub(crate) struct Sheet {
    name: usize,
    ids: Vec<usize>,
}

impl Model for Sheet {
    ghost use Rattle.std.specs.Prelude.{List, ℕ};

    ghost Value = { List ℕ };

    ghost view = { λ s. s.ids.items };
}

impl Sheet {
    /// The page with these ids. It asks for no memory.
    pub(crate) fn new(name: usize, ids: Vec<usize>) -> Self
        ensures { result ≡ ids.items }
    {
        Sheet { name, ids }
    }

    pub(crate) fn name(&self) -> usize {
        self.name
    }

    /// How many ids there are.
    pub(crate) fn len(&self) -> usize
        ensures { result ≡ length self.now }
    {
        self.ids.len()
    }

    /// The ids.
    pub(crate) fn ids(&self) -> &[usize]
        ensures { result.now ≡ self.now }
    {
        self.ids.as_slice()
    }

    /// Puts an id before id `k`, or at the end.
    pub(crate) fn insert(&mut self, k: usize, id: usize) -> Result<(), AllocError>
        requires { k ≤ length self.old }
        ensures ok { OnOk result (self.new ≡ insert self.old k id) }
        ensures err { OnErr result (self.new ≡ self.old) }
    {
        self.ids.insert(k, id)?;
        Ok(())
    }

    /// Removes id `k`. It asks for no memory.
    pub(crate) fn remove(&mut self, k: usize)
        requires { k < length self.old }
        ensures { self.new ≡ remove self.old k }
    {
        self.ids.remove(k);
    }

    /// A page with the ids from number `k` on.
    pub(crate) fn tail(&self, alloc: Global, k: usize, name: usize) -> Result<Sheet, AllocError>
        requires { k ≤ length self.now }
        ensures { IfOk result (λ sheet. sheet ≡ drop k self.now) }
    {
        let ids = Vec::from_slice(alloc, self.ids().split_at(k).1)?;
        Ok(Sheet { name, ids })
    }

    /// Keeps the ids before number `k` alone. It asks for no memory.
    pub(crate) fn truncate(&mut self, k: usize)
        requires { k ≤ length self.old }
        ensures { self.new ≡ take k self.old }
    {
        self.ids.truncate(k);
    }
}

/// The index of the id in this list, if it is there.
pub(crate) fn position_in(ids: &[usize], id: usize) -> Option<usize>
    ensures found { IfSome result (λ k. slice_get ids.now k ≡ Some id) }
    ensures none { IfNone result (Lacks ids.now id) }
{
    'pass: for k in 0..ids.len() {
        if ids[k] == id {
            return Some(k);
        }
    }
    None
}

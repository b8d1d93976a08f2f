//! Ids that ascend.

ghost use Rattle.std.specs.Prelude.{◌≡◌, ◌<◌, ◌≤◌, ◌++◌, [], length, insert, slice_get, Some, IfOk, OnErr, vec_capacity};
ghost use Rattle.std.specs.List.{AllByRecursion};
ghost use Rattle.std.specs.Option.{IfSome, IfNone};
ghost use Rattle.bib_order.specs.Orders.{Lacks, Ascend};
ghost use Rattle.bib_order.specs.Counted.{counted};

use std::alloc::{AllocError, Global};
use std::marker::Model;

/// Ids that ascend. As long as each id is its own number, none is written down. Then they take no memory except room for a
/// list, which is needed once an id from their middle is removed.
#[derive(Drop)]
pub(crate) struct Listed {
    // how many ids are not written down
    count: usize,
    // those that are, after the others
    list: Vec<usize>,
}

impl Model for Listed {
    ghost use Rattle.std.specs.Prelude.{◌++◌, List, ℕ};
    ghost use Rattle.bib_order.specs.Counted.{counted, HasRoom};

    ghost Value = { List ℕ };

    ghost view = { λ l. counted l.count ++ l.list.items };

    ghost invariant = { λ l. HasRoom l.count l.list };
}

impl Listed {
    ghost use Rattle.std.specs.Prelude.{remove, slice_index};

    /// No ids. It asks for no memory.
    pub(crate) fn new(alloc: Global) -> Self
        ensures { result ≡ [] }
    {
        Listed {
            count: 0,
            list: Vec::new(alloc),
        }
    }

    /// How many ids there are.
    #[tactic(auto, using(crate::proofs::Counted::length_all))]
    pub(crate) fn len(&self) -> usize
        ensures { result ≡ length self.now }
    {
        self.count + self.list.len()
    }

    /// Id `n`, counted from 0.
    pub(crate) fn id_at(&self, n: usize) -> usize
        requires { n < length self.now }
        ensures { result ≡ slice_index self.now n }
    {
        if n < self.count {
            n
        } else {
            self.list[n - self.count]
        }
    }

    /// The number of the id, if it is one of these: at once if the id is its own number, else by a search.
    pub(crate) fn position_of(&self, id: usize) -> Option<usize>
        requires { Ascend self.now }
        ensures found { IfSome result (λ n. slice_get self.now n ≡ Some id) }
        ensures none { IfNone result (Lacks self.now id) }
    {
        if id < self.count {
            return Some(id);
        }
        let n = position_among(&self.list, id)?;
        Some(self.count + n)
    }

    /// Makes room for `additional` more ids. No id changes.
    pub(crate) fn reserve(&mut self, additional: usize) -> Result<(), AllocError>
        ensures { self.new ≡ self.old }
    {
        self.list.reserve(self.count.saturating_add(additional))
    }

    /// Adds a new id after all others, which is larger than each of them.
    pub(crate) fn push(&mut self) -> Result<usize, AllocError>
        requires { Ascend self.old }
        ensures ok { IfOk result (λ id. (self.new ≡ insert self.old (length self.old) id) × Lacks self.old id) }
        ensures up { Ascend self.new }
        ensures err { OnErr result (self.new ≡ self.old) }
    {
        if !self.list.is_empty() {
            return add_next(&mut self.list);
        }
        let id = self.count;
        let Some(count) = id.checked_add(1) else {
            return Err(AllocError);
        };
        self.list.reserve(count)?;
        self.count = count;
        Ok(id)
    }

    /// Removes id `n`. It asks for no memory.
    pub(crate) fn remove(&mut self, n: usize)
        requires within { n < length self.old }
        requires up { Ascend self.old }
        ensures list { self.new ≡ remove self.old n }
        ensures up { Ascend self.new }
    {
        if self.count > 0 && n == self.count - 1 {
            self.count = n;
            return;
        }
        write_down(&mut self.list, self.count);
        self.count = 0;
        self.list.remove(n);
    }
}

/// Writes down the `count` ids that are their own numbers. If there are any, the list is empty before, and has room for
/// them.
fn write_down(list: &mut Vec<usize>, count: usize)
    requires none { 0 < count → list.old.items ≡ [] }
    requires room { 0 < count → count ≤ vec_capacity list.old }
    ensures { list.new.items ≡ counted count ++ list.old.items }
{
    'fill: for id in 0..count {
        list.push_reserved(id);
    }
}

/// The index of the id in this list, if it is there.
fn position_among(ids: &[usize], id: usize) -> Option<usize>
    requires { Ascend ids.now }
    ensures found { IfSome result (λ n. slice_get ids.now n ≡ Some id) }
    ensures none { IfNone result (Lacks ids.now id) }
{
    ids.binary_search(&id).ok()
}

/// An id larger than all of these: the last one's successor, or 0 if there is none.
#[tactic(auto, using(crate::proofs::Ascending::below_next))]
fn next_id(ids: &[usize]) -> Option<usize>
    requires { Ascend ids.now }
    ensures { IfSome result (λ id. AllByRecursion (λ other. other < id) ids.now) }
{
    match ids.last() {
        Some(last) => last.checked_add(1),
        None => Some(0),
    }
}

/// Adds a new id after all of these, which is larger than each of them.
#[tactic(auto, using(crate::proofs::Ascending::ascend_more, crate::proofs::Ascending::below_lacks))]
fn add_next(ids: &mut Vec<usize>) -> Result<usize, AllocError>
    requires { Ascend ids.old.items }
    ensures ok { IfOk result (λ id. (ids.new.items ≡ insert ids.old.items (length ids.old.items) id) × Lacks ids.old.items id) }
    ensures up { Ascend ids.new.items }
    ensures err { OnErr result (ids.new.items ≡ ids.old.items) }
{
    let Some(id) = next_id(ids) else {
        return Err(AllocError);
    };
    ids.push(id)?;
    Ok(id)
}

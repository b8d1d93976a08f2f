//! Ids of the members of a list, in their order.

ghost use Rattle.std.specs.Prelude.{◌≡◌, ◌≤◌, ◌<◌, ℕ, Bool, [], length, take, insert, remove, slice_index, slice_get, Some, IfOk, OnErr};
ghost use Rattle.std.specs.Option.{IfSome, IfNone};
ghost use Rattle.bib_order.specs.Holders.{holders, before, FollowOrder};
ghost use Rattle.bib_order.specs.Orders.{Lacks, IsDistinct, is_among, KeepsOrder};

use crate::id_pages::IdPages;
use crate::listed::Listed;
use std::alloc::{AllocError, Global};
use std::marker::Model;

/// How the ids of an order are kept.
#[derive(Drop)]
enum Ids {
    // they ascend: each new one came after all others
    Listed(Listed),
    Paged(IdPages),
}

/// Distinct ids in an order: one for each member of a list that is kept elsewhere. An id stays with its member while others
/// come and go, and can be used again once it is removed. As long as each new id came after all others and only the last
/// was removed, each id is its own number: both are found at once, and the ids take only room for a list that is not
/// written to. After any other change the ids are in pages, and a call takes one step for each page and some for the ids of
/// one page.
#[derive(Drop)]
pub struct Order {
    alloc: Global,
    ids: Ids,
}

impl Model for Order {
    ghost use Rattle.std.specs.Prelude.{List, ℕ};
    ghost use Rattle.bib_order.specs.Ids.{ids_of, AreKept};

    ghost Value = { List ℕ };

    ghost view = { λ o. ids_of o.ids };

    ghost invariant = { λ o. AreKept o.ids };
}

/// Ids keep their order while others come and go. It does nothing.
pub fn keeps_order()
    ensures { KeepsOrder }
{}

/// The ids that pass a test follow the order of all. It does nothing.
pub fn holders_follow()
    ensures { FollowOrder }
{}

impl Order {
    /// The order without ids. It asks for no memory.
    pub fn new(alloc: Global) -> Self
        ensures { result ≡ [] }
    {
        Order {
            alloc,
            ids: Ids::Listed(Listed::new(alloc)),
        }
    }

    /// Makes room for `additional` more ids, as far as there is memory for it. The order is unchanged. The room is not
    /// promised; it only saves time.
    pub fn prepare(&mut self, additional: usize)
        ensures { self.new ≡ self.old }
    {
        if let Ids::Listed(ids) = &mut self.ids {
            let _ = ids.reserve(additional);
        }
    }

    /// How many ids there are. They are distinct.
    pub fn count(&self) -> usize
        ensures count { result ≡ length self.now }
        ensures distinct { IsDistinct self.now }
    {
        match &self.ids {
            Ids::Listed(ids) => ids.len(),
            Ids::Paged(paged) => paged.count(),
        }
    }

    /// Id `n`, counted from 0.
    pub fn id_at(&self, n: usize) -> usize
        requires { n < length self.now }
        ensures { result ≡ slice_index self.now n }
    {
        match &self.ids {
            Ids::Listed(ids) => ids.id_at(n),
            Ids::Paged(paged) => paged.id_at(n),
        }
    }

    /// The number of the id, if the id is in use.
    pub fn position_of(&self, id: usize) -> Option<usize>
        ensures found { IfSome result (λ n. slice_get self.now n ≡ Some id) }
        ensures none { IfNone result (Lacks self.now id) }
    {
        match &self.ids {
            Ids::Listed(ids) => ids.position_of(id),
            Ids::Paged(paged) => paged.position_of(id),
        }
    }

    /// Whether the id is one of the first `n`.
    fn stands_before(&self, id: usize, n: usize) -> bool
        ensures { result ≡ is_among (take n self.now) id }
    {
        let _ = &self.ids;
        match self.position_of(id) {
            Some(m) => m < n,
            None => false,
        }
    }

    /// How many of the first `n` ids pass a test, if `ids` are all the ids that pass it, in order. It looks at the last of
    /// `ids` first, and then searches by halves.
    pub fn count_before(&self, ids: &[usize], n: usize) -> usize
        ensures count { (test : ℕ → Bool) → ids.now ≡ holders test self.now → result ≡ before test self.now n }
        ensures within { result ≤ length ids.now }
    {
        let _ = &self.ids;
        match ids.last() {
            Some(last) if self.stands_before(*last, n) => ids.len(),
            _ => ids.partition_point(|id| self.stands_before(*id, n)),
        }
    }

    /// Puts a new id before id `n`, or at the end.
    pub fn insert(&mut self, n: usize) -> Result<usize, AllocError>
        requires { n ≤ length self.old }
        ensures ok { IfOk result (λ id. (self.new ≡ insert self.old n id) × Lacks self.old id) }
        ensures err { OnErr result (self.new ≡ self.old) }
    {
        match &mut self.ids {
            Ids::Listed(ids) if n == ids.len() => ids.push(),
            Ids::Listed(ids) => {
                let mut paged = IdPages::of(self.alloc, ids)?;
                let id = paged.insert(n)?;
                self.ids = Ids::Paged(paged);
                Ok(id)
            }
            Ids::Paged(paged) => paged.insert(n),
        }
    }

    /// Removes id `n`. It needs no memory.
    pub fn remove(&mut self, n: usize)
        requires { n < length self.old }
        ensures { self.new ≡ remove self.old n }
    {
        if n < self.count() - 1 {
            self.make_pages();
        }
        self.take_out(n);
    }

    /// Moves the ids from the list into pages, if there is memory for pages. No id changes.
    fn make_pages(&mut self)
        ensures { self.new ≡ self.old }
    {
        if let Ids::Listed(ids) = &self.ids {
            if let Ok(paged) = IdPages::of(self.alloc, ids) {
                self.ids = Ids::Paged(paged);
            }
        }
    }

    /// Removes id `n` from the list, or from its page.
    fn take_out(&mut self, n: usize)
        requires { n < length self.old }
        ensures { self.new ≡ remove self.old n }
    {
        match &mut self.ids {
            Ids::Listed(ids) => ids.remove(n),
            Ids::Paged(paged) => paged.remove(n),
        }
    }
}

//! Ids in pages.

ghost use Rattle.std.specs.Prelude.{◌≡◌, ◌≤◌, ◌<◌, [], length, insert, remove, slice_index, slice_get, Some, IfOk, OnOk, OnErr};
ghost use Rattle.std.specs.Option.{IfSome, IfNone};
ghost use Rattle.bib_order.specs.Orders.{Lacks, IsDistinct, Ascend, IsTold};

use crate::listed::Listed;
use crate::sheet::Sheet;
use crate::sheets::{id_of, put, seek, take_away};
use std::alloc::{AllocError, Global};
use std::marker::Model;

/// Distinct ids in pages of at most 512. A call takes one step for each page, and some for the ids of one page.
#[derive(Drop)]
pub(crate) struct IdPages {
    alloc: Global,
    sheets: Vec<Sheet>,
    count: usize,
    // for each id in use, the name of the page to search first
    homes: Vec<Option<usize>>,
    // removed ids, to be used again from the last one on
    free: Vec<usize>,
    next_name: usize,
}

impl Model for IdPages {
    ghost use Rattle.std.specs.Prelude.{List, ℕ};
    ghost use Rattle.bib_pages.specs.Pages.{joined};
    ghost use Rattle.bib_order.specs.Orders.{IsOrdered};

    ghost Value = { List ℕ };

    ghost view = { λ p. joined p.sheets.items };

    ghost invariant = { λ p. IsOrdered p.sheets.items p.homes.items p.count };
}

/// Makes a place for the id in `homes`.
fn make_place(homes: &mut Vec<Option<usize>>, id: usize) -> Result<(), AllocError>
    ensures within { OnOk result (id < length homes.new.items) }
    ensures told { IsTold homes.old.items homes.new.items }
{
    'grow: for k in homes.len()..=id {
        homes.push(None)?;
    }
    Ok(())
}

impl IdPages {
    /// The pages without ids. It asks for no memory.
    fn new(alloc: Global) -> Self
        ensures { result ≡ [] }
    {
        IdPages {
            alloc,
            sheets: Vec::new(alloc),
            count: 0,
            homes: Vec::new(alloc),
            free: Vec::new(alloc),
            next_name: 0,
        }
    }

    /// These ids in pages.
    pub(crate) fn of(alloc: Global, ids: &Listed) -> Result<Self, AllocError>
        requires { Ascend ids.now }
        ensures { IfOk result (λ paged. paged ≡ ids.now) }
    {
        let mut paged = IdPages::new(alloc);
        'fill: for k in 0..ids.len() {
            paged.take_in(k, ids.id_at(k))?;
        }
        Ok(paged)
    }

    /// How many ids there are. They are distinct.
    pub(crate) fn count(&self) -> usize
        ensures count { result ≡ length self.now }
        ensures distinct { IsDistinct self.now }
    {
        self.count
    }

    /// Id `n`, counted from 0.
    pub(crate) fn id_at(&self, n: usize) -> usize
        requires { n < length self.now }
        ensures { result ≡ slice_index self.now n }
    {
        id_of(&self.sheets, n)
    }

    /// The number of the id, if the id is in use.
    pub(crate) fn position_of(&self, id: usize) -> Option<usize>
        ensures found { IfSome result (λ n. slice_get self.now n ≡ Some id) }
        ensures none { IfNone result (Lacks self.now id) }
    {
        if id >= self.homes.len() || self.homes[id].is_none() {
            return None;
        }
        match seek(&self.sheets, self.homes[id], id) {
            Some(n) => Some(n),
            None => seek(&self.sheets, None, id),
        }
    }

    /// The id that the next insertion uses: it is not in use.
    fn spare(&self) -> usize
        ensures { Lacks self.now result }
    {
        if let Some(id) = self.free.last() {
            if *id < self.homes.len() && self.homes[*id].is_none() {
                return *id;
            }
        }
        self.homes.len()
    }

    /// Inserts an id that is not in use before id `n`, or at the end.
    fn take_in(&mut self, n: usize, id: usize) -> Result<(), AllocError>
        requires within { n ≤ length self.old }
        requires spare { Lacks self.old id }
        ensures ok { OnOk result (self.new ≡ insert self.old n id) }
        ensures err { OnErr result (self.new ≡ self.old) }
    {
        let Some(count) = self.count.checked_add(1) else {
            return Err(AllocError);
        };
        make_place(&mut self.homes, id)?;
        // room for all ids, so that removing an id asks for no memory
        self.free
            .reserve(self.homes.len().saturating_sub(self.free.len()))?;
        let name = put(
            self.alloc,
            &mut self.sheets,
            &mut self.homes,
            self.next_name,
            self.count,
            n,
            id,
        )?;
        self.homes[id] = Some(name);
        self.count = count;
        self.next_name = self.next_name.wrapping_add(1);
        Ok(())
    }

    /// Puts a new id before id `n`, or at the end.
    pub(crate) fn insert(&mut self, n: usize) -> Result<usize, AllocError>
        requires { n ≤ length self.old }
        ensures ok { IfOk result (λ id. (self.new ≡ insert self.old n id) × Lacks self.old id) }
        ensures err { OnErr result (self.new ≡ self.old) }
    {
        let id = self.spare();
        self.take_in(n, id)?;
        self.free.pop();
        Ok(id)
    }

    /// Removes id `n`. It asks for no memory.
    pub(crate) fn remove(&mut self, n: usize)
        requires { n < length self.old }
        ensures { self.new ≡ remove self.old n }
    {
        let id = take_away(&mut self.sheets, n);
        self.count -= 1;
        self.homes[id] = None;
        if self.free.len() < self.free.capacity() {
            let _ = self.free.push(id);
        }
    }
}

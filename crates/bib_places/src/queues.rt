//! Units that are still to be put at places, found by the codes of their labels.

ghost use Rattle.std.specs.Prelude.{◌≡◌, true, false, ℕ, List, [], ◌∷◌, None, Some, length, set, replicate, slice_get, IfOk, OnOk};
ghost use Rattle.std.specs.List.{range_with_len};
ghost use Rattle.std.specs.Str.{bytes_eq};
ghost use Rattle.bib_spec.specs.Text.{Text as Bytes};
ghost use Rattle.bib_places.specs.Queues.{first_of, marked_from, has_code, AreQueued, IsTakenBy};

use bib_text::Text;
use std::alloc::{AllocError, Global};
use std::collections::HashMap;

/// The number of a unit in a queue, and where in the list the next of the queue is.
#[derive(Clone, Copy)]
pub(crate) struct Link {
    number: usize,
    next: Option<usize>,
}

/// The numbers of the units of a file that are still to be put at places: those of one code are in a queue.
#[derive(Drop)]
pub(crate) struct Queues<'a> {
    /// Where in the list the first number of each code is, if any is left.
    firsts: HashMap<&'a [u8], Option<usize>>,
    links: Vec<Link>,
    /// Whether each number is left.
    left: Vec<bool>,
}

/// The link at this place of the list, if there is one.
fn link_at(links: &[Link], at: usize) -> Option<Link>
    ensures { result ≡ slice_get links.now at }
{
    match links.get(at) {
        Some(link) => Some(*link),
        None => None,
    }
}

/// Takes the mark from this number.
fn unmark(marks: &mut Vec<bool>, n: usize)
    ensures { marks.new.items ≡ set marks.old.items n false }
{
    if n < marks.len() {
        marks[n] = false;
    }
}

impl<'a> Queues<'a> {
    /// Where the first number with this code is, if one is left.
    fn first(&self, code: &[u8]) -> Option<usize>
        ensures { result ≡ first_of self.now.firsts code.now }
    {
        match self.firsts.get(code) {
            Some(first) => *first,
            None => None,
        }
    }

    /// No number is in a queue yet; there is room for this many, and each is left.
    fn none(alloc: Global, count: usize) -> Result<Self, AllocError>
        ensures first { IfOk result (λ q. (code : Bytes) → first_of q.firsts code ≡ None) }
        ensures links { IfOk result (λ q. q.links.items ≡ []) }
        ensures left { IfOk result (λ q. q.left.items ≡ replicate count true) }
    {
        let firsts = HashMap::with_capacity(alloc, count)?;
        let links = Vec::with_capacity(alloc, count)?;
        let left = vec![in alloc; true; count]?;
        Ok(Queues {
            firsts,
            links,
            left,
        })
    }

    /// Puts the number before the others of its code.
    fn put(&mut self, n: usize, code: &'a [u8]) -> Result<(), AllocError>
        ensures left { OnOk result (self.new.left ≡ self.old.left) }
        ensures queued { OnOk result ((codes : List Bytes) (numbers : List ℕ) → has_code codes code.now n ≡ true → AreQueued codes self.old.firsts self.old.links.items numbers → AreQueued codes self.new.firsts self.new.links.items (n ∷ numbers)) }
    {
        let next = self.first(code);
        let at = self.links.len();
        self.links.push(Link { number: n, next })?;
        self.firsts.insert(code, Some(at))?;
        Ok(())
    }

    /// The numbers of all units, which have these codes. It takes memory in their number, and time in the lengths of the codes.
    pub fn of(alloc: Global, codes: &'a [Text]) -> Result<Self, AllocError>
        ensures all { IfOk result (λ q. marked_from 0 q.left.items ≡ range_with_len 0 (length codes.now)) }
        ensures queued { IfOk result (λ q. AreQueued codes.now q.firsts q.links.items (marked_from 0 q.left.items)) }
    {
        let mut queues = Queues::none(alloc, codes.len())?;
        let mut n = codes.len();
        'codes: while n > 0 {
            n -= 1;
            queues.put(n, codes[n].as_slice())?;
        }
        Ok(queues)
    }

    /// Lets the queue of the code begin here.
    fn begin(&mut self, code: &[u8], first: Option<usize>)
        ensures others { (other : Bytes) → bytes_eq code.now other ≡ false → first_of self.new.firsts other ≡ first_of self.old.firsts other }
        ensures this { (at : ℕ) → first_of self.old.firsts code.now ≡ Some at → first_of self.new.firsts code.now ≡ first }
        ensures links { self.new.links ≡ self.old.links }
        ensures left { self.new.left ≡ self.old.left }
    {
        if let Some(kept) = self.firsts.get_mut(code) {
            *kept = first;
        }
    }

    /// Takes the first number with this code, if one is left. It takes time in the length of the code.
    pub fn take(&mut self, code: &[u8]) -> Option<usize>
        ensures { (codes : List Bytes) → AreQueued codes self.old.firsts self.old.links.items (marked_from 0 self.old.left.items)
            → AreQueued codes self.new.firsts self.new.links.items (marked_from 0 self.new.left.items) × IsTakenBy codes code.now result (marked_from 0 self.old.left.items) (marked_from 0 self.new.left.items) }
    {
        let at = self.first(code)?;
        let link = link_at(self.links.as_slice(), at)?;
        self.begin(code, link.next);
        unmark(&mut self.left, link.number);
        Some(link.number)
    }

    /// The numbers that are left, in order.
    pub fn numbers(&self, alloc: Global) -> Result<Vec<usize>, AllocError>
        ensures { IfOk result (λ numbers. numbers.items ≡ marked_from 0 self.now.left.items) }
    {
        let mut numbers = Vec::new(alloc);
        'marks: for n in 0..self.left.len() {
            if self.left[n] {
                numbers.push(n)?;
            }
        }
        Ok(numbers)
    }
}

//! Cited lists.

ghost use Rattle.std.specs.Prelude.{◌≡◌, ◌<◌, ◌≤◌, [], length, All, IfOk};
ghost use Rattle.std.specs.List.{range_with_len};
ghost use Rattle.bib_spec.specs.Records.{once, cites_all};
ghost use Rattle.bib_store.specs.Citing.{AreMarks, with_added};

use crate::database::Database;
use crate::record::Cited;
use bib_items::{ItemList, StoreFault};
use bib_text::{Seq, Text};
use std::alloc::{AllocError, Global};

/// Whether the list is `*` alone.
fn cites_all(keys: &[Text]) -> bool
    ensures { result ≡ cites_all keys.now }
{
    match keys {
        [key] => key.as_slice() == b"*".as_slice(),
        _ => false,
    }
}

/// The numbers below the count.
fn all_numbers(alloc: Global, count: usize) -> Result<Vec<usize>, AllocError>
    ensures { IfOk result (λ numbers. numbers.items ≡ range_with_len 0 count) }
{
    let mut numbers = Vec::with_capacity(alloc, count)?;
    for n in 0..count {
        numbers.push(n)?;
    }
    Ok(numbers)
}

/// Each number once, at its first place. It marks these numbers.
fn once(alloc: Global, numbers: &[usize], marks: &mut [bool]) -> Result<Vec<usize>, AllocError>
    requires numbers { All (λ n. n < length marks.old) numbers.now }
    requires unmarked { AreMarks [] marks.old }
    ensures numbers { IfOk result (λ listed. listed.items ≡ once numbers.now) }
    ensures marked { IfOk result (λ listed. AreMarks listed.items marks.new) }
{
    let mut listed = Vec::new(alloc);
    for n in numbers {
        if !marks[*n] {
            marks[*n] = true;
            listed.push(*n)?;
        }
    }
    Ok(listed)
}

/// The list, and after it, in order, the numbers that are not marked and whose count is at least `min`.
fn with_added(
    listed: Vec<usize>,
    marks: &[bool],
    counts: &[usize],
    min: u32,
) -> Result<Vec<usize>, AllocError>
    requires { length counts.now ≡ length marks.now }
    ensures { IfOk result (λ all. all.items ≡ with_added marks.now counts.now min listed.items) }
{
    let mut all = listed;
    for n in 0..marks.len() {
        if !marks[n] && counts[n] >= min as usize {
            all.push(n)?;
        }
    }
    Ok(all)
}

/// The entries that keys find, in the order of the keys, and the positions of the keys that find none.
#[derive(Drop)]
struct Found {
    numbers: Vec<usize>,
    unknown: Vec<usize>,
}

impl<L: ItemList> Database<L> {
    ghost use Rattle.std.specs.Prelude.{◌≡◌, ◌≤◌, ◌<◌, length, filter, filter_map, is_none, map, All, IfOk, IfErr};
    ghost use Rattle.std.specs.List.{enumerate_from};
    ghost use Rattle.bib_spec.specs.Records.{entries_of, entry_named, with_parents, once, listed, unknown};
    ghost use Rattle.bib_store.specs.Readings.{OfReading};
    ghost use Rattle.bib_store.specs.Citing.{AreCounts};
    ghost use Rattle.bib_items.specs.declared.fault.StoreFault.TheVariants.{Memory};

    /// The cited list of these keys: the entries that they find, each at its first citation, and after them in file order
    /// the others that are the parent of at least `min` of those. An added parent cites no parent of its own. `*` alone
    /// cites all entries, in file order. With the list come the positions, from 0, of the keys that find no entry. It takes
    /// time and memory in the number of keys and of entries. It is refused only out of memory. (btxdoc 2.1; dialect)
    pub fn cited(&self, keys: &[Text], min: u32) -> Result<Cited, StoreFault>
        requires { 1 ≤ min }
        ensures listed { IfOk result (λ c. OfReading self.now (λ db. c.listed ≡ listed (entries_of db) keys.now min)) }
        ensures unknown { IfOk result (λ c. OfReading self.now (λ db. c.unknown ≡ unknown (entries_of db) keys.now)) }
        ensures only { IfErr result (λ fault. fault ≡ Memory) }
    {
        let alloc = self.allocator();
        if cites_all(keys) {
            return Ok(Cited {
                listed: Seq::from_vec(all_numbers(alloc, self.entry_count())?),
                unknown: Seq::empty(alloc),
            });
        }
        let found = self.find_all(keys)?;
        Ok(Cited {
            listed: Seq::from_vec(self.with_parents(found.numbers.as_slice(), min)?),
            unknown: Seq::from_vec(found.unknown),
        })
    }

    /// Looks up each key.
    fn find_all(&self, keys: &[Text]) -> Result<Found, StoreFault>
        ensures numbers { IfOk result (λ found. OfReading self.now (λ db. found.numbers.items ≡ filter_map (entry_named (entries_of db)) keys.now)) }
        ensures unknown { IfOk result (λ found. OfReading self.now (λ db. found.unknown.items ≡ map (λ p. p.0) (filter (λ p. is_none (entry_named (entries_of db) p.1)) (enumerate_from 0 keys.now)))) }
        ensures only { IfErr result (λ fault. fault ≡ Memory) }
    {
        let alloc = self.allocator();
        let mut numbers = Vec::new(alloc);
        let mut unknown = Vec::new(alloc);
        for (place, key) in keys.iter().enumerate() {
            match self.find(key.as_slice()) {
                Ok(n) => numbers.push(n)?,
                Err(_) => unknown.push(place)?,
            }
        }
        Ok(Found { numbers, unknown })
    }

    /// Each of these entries once, and after them the parents of at least `min` of them.
    fn with_parents(&self, numbers: &[usize], min: u32) -> Result<Vec<usize>, StoreFault>
        requires { OfReading self.now (λ db. All (λ n. n < length (entries_of db)) numbers.now) }
        ensures listed { IfOk result (λ all. OfReading self.now (λ db. all.items ≡ with_parents (entries_of db) min (once numbers.now))) }
        ensures only { IfErr result (λ fault. fault ≡ Memory) }
    {
        self.opens();
        let alloc = self.allocator();
        let mut marks = vec![in alloc; false; self.entry_count()]?;
        let listed = once(alloc, numbers, marks.as_mut_slice())?;
        let counts = self.counts_of_parents(listed.as_slice())?;
        Ok(with_added(listed, marks.as_slice(), counts.as_slice(), min)?)
    }

    /// For each entry, of how many of these entries it is the parent.
    fn counts_of_parents(&self, listed: &[usize]) -> Result<Vec<usize>, StoreFault>
        requires { OfReading self.now (λ db. All (λ n. n < length (entries_of db)) listed.now) }
        ensures counts { IfOk result (λ counts. OfReading self.now (λ db. AreCounts (entries_of db) listed.now counts.items)) }
        ensures count { IfOk result (λ counts. OfReading self.now (λ db. length counts.items ≡ length (entries_of db))) }
        ensures only { IfErr result (λ fault. fault ≡ Memory) }
    {
        self.opens();
        let mut counts = vec![in self.allocator(); 0usize; self.entry_count()]?;
        for n in listed {
            if let Some(parent) = self.parent(*n) {
                counts[parent] += 1;
            }
        }
        Ok(counts)
    }
}

//! Entries that the new file lacks, or has with another type.

use crate::fault::Stop;
use crate::looking::{entry, find, key_at, parent, referrer};
use crate::trying::Trial;
use bib_data::Edit;
use bib_store::{Database, Paged};
use bib_text::{Text, copied, same_folded};
use folded_map::FoldedMap;
use std::alloc::{AllocError, Global};

/// The entries that go.
#[derive(Drop)]
struct Leaving {
    /// Their keys, in file order.
    keys: Vec<Text>,
    /// Which of them is the parent of each.
    parents: Vec<Option<usize>>,
    /// How many of them have each as parent and are still there.
    children: Vec<usize>,
    /// Which of them went.
    gone: Vec<bool>,
}

/// Whether the new file lacks this entry, or has it with another type.
fn leaves(db: &Database<Paged>, n: usize, new: &Database<Paged>) -> bool {
    let Some(was) = entry(db, n) else {
        return false;
    };
    let Some(m) = find(new, was.key()) else {
        return true;
    };
    match entry(new, m) {
        Some(is) => !same_folded(was.type_name(), is.type_name()),
        None => true,
    }
}

/// The keys of the entries that go.
fn leaving_keys(
    alloc: Global,
    db: &Database<Paged>,
    new: &Database<Paged>,
) -> Result<Vec<Text>, AllocError> {
    let mut keys = Vec::new(alloc);
    for n in 0..db.entry_count() {
        if leaves(db, n, new) {
            if let Some(key) = key_at(alloc, db, n)? {
                keys.push(key)?;
            }
        }
    }
    Ok(keys)
}

/// The numbers of keys in a list, by the keys.
fn numbers(alloc: Global, keys: &[Text]) -> Result<FoldedMap<usize>, AllocError> {
    let mut numbers = FoldedMap::new(alloc);
    for n in 0..keys.len() {
        let key = keys[n].as_slice();
        if key.len() <= bib_text::NAME_LIMIT {
            numbers.insert(key, n)?;
        }
    }
    Ok(numbers)
}

/// Which of the entries with these numbers is the parent of the entry with this key.
fn parent_of(db: &Database<Paged>, numbers: &FoldedMap<usize>, key: &[u8]) -> Option<usize> {
    let n = find(db, key)?;
    let parent = entry(db, parent(db, n)?)?;
    numbers.get(parent.key()).copied()
}

impl Leaving {
    /// The entries that go.
    fn of(
        alloc: Global,
        db: &Database<Paged>,
        new: &Database<Paged>,
    ) -> Result<Leaving, AllocError> {
        let keys = leaving_keys(alloc, db, new)?;
        let numbers = numbers(alloc, keys.as_slice())?;
        let mut parents = Vec::new(alloc);
        let mut children = vec![in alloc; 0usize; keys.len()]?;
        for n in 0..keys.len() {
            let parent = parent_of(db, &numbers, keys[n].as_slice());
            parents.push(parent)?;
            if let Some(p) = parent {
                if p < children.len() {
                    children[p] = children[p].saturating_add(1);
                }
            }
        }
        let gone = vec![in alloc; false; keys.len()]?;
        Ok(Leaving {
            keys,
            parents,
            children,
            gone,
        })
    }

    /// Whether this one is still there, and none of the others that are has it as parent.
    fn is_free(&self, n: usize) -> bool {
        n < self.gone.len() && !self.gone[n] && n < self.children.len() && self.children[n] == 0
    }

    /// Notes that this one is no child of its parent any more. The parent is given, if it is free now.
    fn leave_parent(&mut self, n: usize) -> Option<usize> {
        if n >= self.parents.len() {
            return None;
        }
        let p = self.parents[n]?;
        self.parents[n] = None;
        if p < self.children.len() {
            self.children[p] = self.children[p].saturating_sub(1);
        }
        if self.is_free(p) { Some(p) } else { None }
    }
}

/// Drops the crossrefs of other entries that name the entry with this key.
fn drop_crossrefs(trial: &mut Trial, key: &[u8]) -> Result<(), Stop> {
    let alloc = trial.alloc;
    let mut passed = 0;
    for _ in 0..trial.file().entry_count() {
        let Some(n) = referrer(trial.file(), key, passed) else {
            return Ok(());
        };
        if find(trial.file(), key) == Some(n) {
            passed = 1;
        } else if let Some(child) = key_at(alloc, trial.file(), n)? {
            trial.drop_field(child.as_slice(), b"crossref")?;
        }
    }
    Ok(())
}

/// Removes the entry with this key, after the crossrefs that name it.
fn remove(trial: &mut Trial, key: &[u8]) -> Result<(), Stop> {
    drop_crossrefs(trial, key)?;
    let edit = Edit::RemoveEntry {
        key: copied(trial.alloc, key)?,
    };
    trial.make(key, edit)
}

/// Removes one that is free, then its parent if that is free now, and so on.
fn remove_line(trial: &mut Trial, leaving: &mut Leaving, n: usize) -> Result<(), Stop> {
    let mut next = n;
    for _ in 0..leaving.keys.len() {
        if next >= leaving.keys.len() || next >= leaving.gone.len() {
            return Ok(());
        }
        remove(trial, leaving.keys[next].as_slice())?;
        leaving.gone[next] = true;
        match leaving.leave_parent(next) {
            Some(parent) => next = parent,
            None => return Ok(()),
        }
    }
    Ok(())
}

/// Takes one out of a ring of parents, by dropping its crossref, and then removes the others of the ring.
fn open_ring(trial: &mut Trial, leaving: &mut Leaving, n: usize) -> Result<(), Stop> {
    if n >= leaving.keys.len() || n >= leaving.gone.len() || leaving.gone[n] {
        return Ok(());
    }
    trial.drop_field(leaving.keys[n].as_slice(), b"crossref")?;
    match leaving.leave_parent(n) {
        Some(parent) => remove_line(trial, leaving, parent),
        None => Ok(()),
    }
}

/// Removes the entries that the new file lacks or has with another type, children before their parents.
pub(crate) fn remove_all(trial: &mut Trial, new: &Database<Paged>) -> Result<(), Stop> {
    let mut leaving = Leaving::of(trial.alloc, trial.file(), new)?;
    for n in 0..leaving.keys.len() {
        if leaving.is_free(n) {
            remove_line(trial, &mut leaving, n)?;
        }
    }
    for n in 0..leaving.keys.len() {
        open_ring(trial, &mut leaving, n)?;
    }
    Ok(())
}

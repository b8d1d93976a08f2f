//! The names that a side gave.

use crate::lone::{Lone, lone_items};
use crate::rename::Change;
use bib_store::{Database, ItemList};
use bib_text::copied;
use std::alloc::{AllocError, Global};
use std::collections::HashMap;

/// How many say the same, and the first of them.
#[derive(Clone, Copy, Drop)]
struct Seen {
    count: usize,
    first: usize,
}

/// Of each text how many of these say it, and the first that does.
fn counted(alloc: Global, lone: &[Lone]) -> Result<HashMap<&[u8], Seen>, AllocError> {
    let mut seen = HashMap::new(alloc);
    'lone: for n in 0..lone.len() {
        let says = lone[n].says.as_slice();
        let before = match seen.get(says) {
            Some(before) => *before,
            None => Seen { count: 0, first: n },
        };
        let now = Seen {
            count: before.count.saturating_add(1),
            first: before.first,
        };
        seen.insert(says, now)?;
    }
    Ok(seen)
}

/// The only one of these that says this, if there is exactly one.
fn only<'a>(seen: &HashMap<&[u8], Seen>, lone: &'a [Lone], says: &[u8]) -> Option<&'a Lone> {
    match seen.get(says) {
        Some(of) if of.count == 1 => lone.get(of.first),
        _ => None,
    }
}

/// The names of entries and macros that a side gave: the common file has the old name once, and the side lacks it; the side has the new
/// name once, and the common file lacks it. What has the name says the same in both, and nothing else of the two files that
/// one lacks says so. It takes time in the number of items, and time and memory in the lengths of those that a file lacks.
pub(crate) fn given_names<L: ItemList>(
    alloc: Global,
    base: &Database<L>,
    side: &Database<L>,
) -> Result<Vec<Change>, AllocError> {
    let mut names = Vec::new(alloc);
    let gone = lone_items(alloc, base, side)?;
    if gone.is_empty() {
        return Ok(names);
    }
    let come = lone_items(alloc, side, base)?;
    let seen_gone = counted(alloc, gone.as_slice())?;
    let seen_come = counted(alloc, come.as_slice())?;
    'gone: for was in &gone {
        let says = was.says.as_slice();
        if only(&seen_gone, gone.as_slice(), says).is_some() {
            if let Some(is) = only(&seen_come, come.as_slice(), says) {
                names.push(Change {
                    what: was.what,
                    old: copied(alloc, was.name.as_slice())?,
                    new: copied(alloc, is.name.as_slice())?,
                })?;
            }
        }
    }
    Ok(names)
}

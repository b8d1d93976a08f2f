//! What becomes of the names that two sides gave.

use crate::conflict::KeyConflict;
use crate::finding::given_names;
use crate::given::GivenName;
use crate::lone::count;
use crate::rename::{Change, Named};
use bib_store::{Database, ItemList};
use bib_text::{Text, copied, same_folded};
use std::alloc::{AllocError, Global};
use std::collections::HashMap;

/// Names that one side gave: how the other side follows each of them, and how the common file does, in the same order; and how the
/// common file alone follows those of what the other side took away.
#[derive(Drop)]
pub(crate) struct Renames {
    pub in_other: Vec<Change>,
    pub in_base: Vec<Change>,
    pub in_base_alone: Vec<Change>,
}

impl Renames {
    /// No changes.
    fn none(alloc: Global) -> Self {
        Renames {
            in_other: Vec::new(alloc),
            in_base: Vec::new(alloc),
            in_base_alone: Vec::new(alloc),
        }
    }

    /// Whether there are no changes.
    fn is_none(&self) -> bool {
        self.in_other.is_empty() && self.in_base_alone.is_empty()
    }

    /// Adds a change of the common file, if what it is about has this name on the other side.
    fn add(&mut self, alloc: Global, change: &Change, other: &Text) -> Result<(), AllocError> {
        self.in_other.push(change_from(alloc, change, other)?)?;
        self.in_base.push(change_from(alloc, change, &change.old)?)?;
        Ok(())
    }
}

/// The change of this name to the same new name.
pub(crate) fn change_from(
    alloc: Global,
    change: &Change,
    old: &Text,
) -> Result<Change, AllocError> {
    Ok(Change {
        what: change.what,
        old: copied(alloc, old.as_slice())?,
        new: copied(alloc, change.new.as_slice())?,
    })
}

/// What each side renamed, the keys over which the sides are in conflict, and the names that one side gave to what the other took
/// away.
#[derive(Drop)]
pub(crate) struct Found {
    pub ours: Renames,
    pub theirs: Renames,
    pub keys: Vec<KeyConflict>,
    pub given: Vec<GivenName>,
}

impl Found {
    /// Whether there is nothing to follow.
    pub fn is_none(&self) -> bool {
        self.ours.is_none() && self.theirs.is_none()
    }
}

/// The old name of a change, as a key of a map: entries and macros may have the same names.
fn code(alloc: Global, change: &Change) -> Result<Vec<u8>, AllocError> {
    let mut code = Vec::from_slice(alloc, change.old.as_slice())?;
    code.push(match change.what {
        Named::Entry => 0,
        Named::Macro => 1,
    })?;
    Ok(code)
}

/// The positions of these changes by their old names.
fn by_old_names(alloc: Global, changes: &[Change]) -> Result<HashMap<Vec<u8>, usize>, AllocError> {
    let mut positions = HashMap::new(alloc);
    'changes: for k in 0..changes.len() {
        positions.insert(code(alloc, &changes[k])?, k)?;
    }
    Ok(positions)
}

/// The one of these changes that has the same old name, if there is one.
fn same_old<'a>(
    alloc: Global,
    changes: &'a [Change],
    positions: &HashMap<Vec<u8>, usize>,
    change: &Change,
) -> Result<Option<&'a Change>, AllocError> {
    match positions.get(&code(alloc, change)?) {
        Some(k) => Ok(changes.get(*k)),
        None => Ok(None),
    }
}

/// Adds the conflict over an entry to which each side gave a key, if these are different.
fn add_conflict(
    alloc: Global,
    keys: &mut Vec<KeyConflict>,
    ours: &Change,
    theirs: &Change,
) -> Result<(), AllocError> {
    if ours.what == Named::Macro || same_folded(ours.new.as_slice(), theirs.new.as_slice()) {
        return Ok(());
    }
    keys.push(KeyConflict {
        key: copied(alloc, ours.old.as_slice())?,
        ours: copied(alloc, ours.new.as_slice())?,
        theirs: copied(alloc, theirs.new.as_slice())?,
    })?;
    Ok(())
}

/// Whether the side still has, once, what the other side renamed.
fn has_old<L: ItemList>(side: &Database<L>, change: &Change) -> bool {
    count(side, change.what, change.old.as_slice()) == 1
}

/// Whether the side has neither what the other side renamed nor anything else with its new name.
fn lacks_both<L: ItemList>(side: &Database<L>, change: &Change) -> bool {
    count(side, change.what, change.old.as_slice()) == 0
        && count(side, change.what, change.new.as_slice()) == 0
}

/// Adds a change that this other side did not make: the other side follows it, if it still has what was renamed; or if it took that
/// away, the common file alone follows it, and the new name is one of those given.
fn add_change<L: ItemList>(
    alloc: Global,
    renames: &mut Renames,
    given: &mut Vec<GivenName>,
    other: &Database<L>,
    change: &Change,
) -> Result<(), AllocError> {
    if has_old(other, change) {
        return renames.add(alloc, change, &change.old);
    }
    if lacks_both(other, change) {
        renames
            .in_base_alone
            .push(change_from(alloc, change, &change.old)?)?;
        given.push(GivenName {
            what: change.what,
            name: copied(alloc, change.new.as_slice())?,
        })?;
    }
    Ok(())
}

/// The names that each side gave, as changes of the other side and of the common file. What both renamed gets the name that we gave;
/// if it is an entry, and the keys differ, the sides are in conflict. If the other side took away what was renamed, the common
/// file alone follows; if that side has it twice, or has something else with the new name, no file does. It takes time in the number of items, and time and memory in the lengths of those that a file lacks.
pub(crate) fn find_renames<L: ItemList>(
    alloc: Global,
    base: &Database<L>,
    ours: &Database<L>,
    theirs: &Database<L>,
) -> Result<Found, AllocError> {
    let of_ours = given_names(alloc, base, ours)?;
    let of_theirs = given_names(alloc, base, theirs)?;
    let by_ours = by_old_names(alloc, of_ours.as_slice())?;
    let by_theirs = by_old_names(alloc, of_theirs.as_slice())?;
    let mut found = Found {
        ours: Renames::none(alloc),
        theirs: Renames::none(alloc),
        keys: Vec::new(alloc),
        given: Vec::new(alloc),
    };
    'ours: for change in &of_ours {
        match same_old(alloc, of_theirs.as_slice(), &by_theirs, change)? {
            Some(other) => {
                found.ours.add(alloc, change, &other.new)?;
                add_conflict(alloc, &mut found.keys, change, other)?;
            }
            None => add_change(alloc, &mut found.ours, &mut found.given, theirs, change)?,
        }
    }
    'theirs: for change in &of_theirs {
        let by_both = same_old(alloc, of_ours.as_slice(), &by_ours, change)?;
        if by_both.is_none() {
            add_change(alloc, &mut found.theirs, &mut found.given, ours, change)?;
        }
    }
    Ok(found)
}

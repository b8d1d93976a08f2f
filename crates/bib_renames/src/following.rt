//! Three files in which the names that each side gave are followed.

ghost use Rattle.std.specs.Prelude.{◌≡◌, IfOk};
ghost use Rattle.std.specs.Option.{IfSome};
ghost use Rattle.bib_renames.specs.Renamed.{AreKeyConflicts, AreGiven, IsFollowed};

use crate::agreeing::{Found, Renames, change_from, find_renames};
use crate::conflict::{KeyConflict, are_key_conflicts};
use crate::given::{GivenName, are_given};
use crate::making::{Giver, changed};
use crate::rename::Change;
use bib_store::{Database, ItemList};
use bib_text::Text;
use std::alloc::{AllocError, Global};

/// A common file, ours and theirs, after each got the names that the sides gave; the keys over which the sides are in conflict; and the
/// names that one side gave to what the other took away, which the common file may have now.
#[derive(Drop)]
pub struct Followed {
    pub base: Text,
    pub ours: Text,
    pub theirs: Text,
    pub keys: Vec<KeyConflict>,
    pub given: Vec<GivenName>,
}

/// The bytes of an open file.
fn bytes_of<L: ItemList>(db: &Database<L>) -> Result<Text, AllocError>
    ensures { IfOk result (λ text. text ≡ db.now) }
{
    match db.bytes() {
        Ok(bytes) => Ok(bytes),
        Err(_) => Err(AllocError),
    }
}

/// The changes of the common file: those that belong to the names that were followed on the other side, and those that it follows alone.
fn base_changes(
    alloc: Global,
    renames: &Renames,
    made: &[bool],
) -> Result<Vec<Change>, AllocError> {
    let changes = renames.in_base.as_slice();
    let mut copies = Vec::new(alloc);
    'changes: for k in 0..changes.len() {
        let is_made = match made.get(k) {
            Some(yes) => *yes,
            None => false,
        };
        if is_made {
            copies.push(change_from(alloc, &changes[k], &changes[k].old)?)?;
        }
    }
    'alone: for change in &renames.in_base_alone {
        copies.push(change_from(alloc, change, &change.old)?)?;
    }
    Ok(copies)
}

/// The three files after what was found. A name is given in the common file only if the other side accepts it.
fn follow_found<L: ItemList>(
    alloc: Global,
    base: &Database<L>,
    ours: &Database<L>,
    theirs: &Database<L>,
    found: Found,
) -> Result<Followed, AllocError>
    requires keys { AreKeyConflicts base.now ours.now theirs.now found.keys.items }
    requires given { AreGiven base.now ours.now theirs.now found.given.items }
    ensures { IfOk result (IsFollowed base.now ours.now theirs.now) }
{
    let (b, o, t) = (bytes_of(base)?, bytes_of(ours)?, bytes_of(theirs)?);
    let of_ours = Giver { side: ours, base };
    let of_theirs = Giver { side: theirs, base };
    let in_theirs = changed(
        alloc,
        &of_ours,
        t.as_slice(),
        found.ours.in_other.as_slice(),
    )?;
    let in_ours = changed(
        alloc,
        &of_theirs,
        o.as_slice(),
        found.theirs.in_other.as_slice(),
    )?;
    let by_us = base_changes(alloc, &found.ours, in_theirs.accepted.as_slice())?;
    let by_them = base_changes(alloc, &found.theirs, in_ours.accepted.as_slice())?;
    let between = changed(alloc, &of_ours, b.as_slice(), by_us.as_slice())?;
    let in_base = changed(
        alloc,
        &of_theirs,
        between.text.as_slice(),
        by_them.as_slice(),
    )?;
    Ok(Followed {
        base: in_base.text,
        ours: in_ours.text,
        theirs: in_theirs.text,
        keys: found.keys,
        given: found.given,
    })
}

/// A common file, ours and theirs, in which each name that one side gave to an entry or a macro is followed in the other two files:
/// the keys and the crossrefs that name them, and the macros with their uses. Nothing, if no side gave a name that another file
/// can follow. Such an entry has the same type and the same fields in the common file and on the side, except for its crossref;
/// such a macro has the same value. Each file that gets a name is opened again, and the names are given by edits, one after
/// another; one that the other side refuses is given in no file. If the other side took away what was renamed, the common file alone
/// gets the name. Without such names it takes time in the number of items, and in the lengths of the items that one file has and
/// another lacks. It is refused only out of memory. (dialect)
pub fn follow<L: ItemList>(
    alloc: Global,
    base: &Database<L>,
    ours: &Database<L>,
    theirs: &Database<L>,
) -> Result<Option<Followed>, AllocError>
    ensures { IfOk result (λ found. IfSome found (IsFollowed base.now ours.now theirs.now)) }
{
    let found = find_renames(alloc, base, ours, theirs)?;
    if found.is_none()
        || !are_key_conflicts(base, ours, theirs, found.keys.as_slice())
        || !are_given(base, ours, theirs, found.given.as_slice())
    {
        return Ok(None);
    }
    let followed = follow_found(alloc, base, ours, theirs, found)?;
    Ok(Some(followed))
}

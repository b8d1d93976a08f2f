//! Where items stand: their numbers, lines and columns.

ghost use Rattle.std.specs.Prelude.{◌≡◌, ◌<◌, None, Some, length, slice_get, IfOk, map, if◌then◌else◌};
ghost use Rattle.std.specs.List.{range_with_len};
ghost use Rattle.std.specs.Option.{option_copied};
ghost use Rattle.bib_store.specs.Readings.{OfReading};
ghost use Rattle.bib_answers.specs.Raw.{standing_of};

use crate::named_files::{NamedFiles, first_reached, reached_at};
use crate::positions::{first_known, known_at};
use bib_store::{Database, Paged};
use entry_json::Standing;
use std::alloc::{AllocError, Global};

/// Where each item stands, in its file if files were read as one. It makes a copy of a file that was read alone, and counts lines
/// once.
pub(crate) fn standings_of(
    alloc: Global,
    db: &Database<Paged>,
    files: Option<&NamedFiles<'_>>,
) -> Result<Vec<Standing>, AllocError>
    ensures { IfOk result (λ all. OfReading db.now (λ r. all.items ≡ map (standing_of (option_copied files.entry) r) (range_with_len 0 (length r.items)))) }
{
    match files {
        Some(files) => standings_in(alloc, db, files),
        None => standings_alone(alloc, db),
    }
}

/// Where each item stands in the file.
fn standings_alone(alloc: Global, db: &Database<Paged>) -> Result<Vec<Standing>, AllocError>
    ensures { IfOk result (λ all. OfReading db.now (λ r. all.items ≡ map (standing_of None r) (range_with_len 0 (length r.items)))) }
{
    let Ok(file) = db.bytes() else {
        return Err(AllocError);
    };
    let mut all = Vec::with_capacity(alloc, db.item_count())?;
    let mut known = first_known();
    'items: for m in 0..db.item_count() {
        let place = db.item_place(m);
        known = known_at(file.as_slice(), known, place);
        all.push(Standing {
            item: m,
            line: known.at.line,
            column: known.at.column,
        })?;
    }
    Ok(all)
}

/// Where each item stands in its file.
fn standings_in(
    alloc: Global,
    db: &Database<Paged>,
    files: &NamedFiles<'_>,
) -> Result<Vec<Standing>, AllocError>
    ensures { IfOk result (λ all. OfReading db.now (λ r. all.items ≡ map (standing_of (Some files.now) r) (range_with_len 0 (length r.items)))) }
{
    db.opens();
    let mut all = Vec::with_capacity(alloc, db.item_count())?;
    let mut reached = first_reached();
    // how many items were seen of the file that was reached
    let mut count = 0;
    'items: for m in 0..db.item_count() {
        let place = db.item_place(m);
        let next = reached_at(files, reached, place);
        let item = number_after(count, next.file == reached.file);
        all.push(Standing {
            item,
            line: next.known.at.line,
            column: next.known.at.column,
        })?;
        reached = next;
        count = item + 1;
    }
    Ok(all)
}

/// The number of an item in its file, after so many items of the file before it, if it begins in the same file.
fn number_after(count: usize, same: bool) -> usize
    ensures { result ≡ (if same then count else 0) }
{
    if same { count } else { 0 }
}

/// The standing with this number.
pub(crate) fn standing_at(all: &[Standing], m: usize) -> Standing
    requires { m < length all.now }
    ensures { slice_get all.now m ≡ Some result }
{
    match all.get(m) {
        Some(standing) => *standing,
        None => unreachable!(),
    }
}

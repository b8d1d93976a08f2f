//! The search for edits. Nothing of it is promised: what it finds is checked afterwards.

use crate::fault::Stop;
use crate::looking::entry;
use crate::ordering::order;
use crate::removing::remove_all;
use crate::renaming::rename_all;
use crate::setting::set_all;
use crate::trying::{Trial, lost};
use bib_data::Request;
use bib_journal::Session;
use bib_store::{Database, Paged};
use std::alloc::Global;

/// Refuses a file in which an entry has no key, or two have the same.
fn check_keys(alloc: Global, db: &Database<Paged>) -> Result<(), Stop> {
    for n in 0..db.entry_count() {
        if let Some(entry) = entry(db, n) {
            let key = entry.key();
            if db.holders(key) != 1 {
                return Err(lost(alloc, key));
            }
        }
    }
    Ok(())
}

/// Makes edits after which the trial's file may agree with the new file.
fn make_all(trial: &mut Trial, new: &Database<Paged>) -> Result<(), Stop> {
    check_keys(trial.alloc, trial.file())?;
    check_keys(trial.alloc, new)?;
    rename_all(trial, new)?;
    remove_all(trial, new)?;
    order(trial, new)?;
    set_all(trial, new)
}

/// Edits of the session's file, after which it may agree with the new file.
pub(crate) fn search(
    alloc: Global,
    session: Session<Paged>,
    new: &Database<Paged>,
) -> Result<Vec<Request>, Stop> {
    let mut trial = Trial::new(alloc, session);
    let made = make_all(&mut trial, new);
    let requests = trial.end();
    made?;
    Ok(requests)
}

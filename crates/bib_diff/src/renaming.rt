//! Entries that have another key in the new file.

use crate::fault::Stop;
use crate::looking::{entry, find, key_at};
use crate::signing::signature;
use crate::trying::Trial;
use bib_data::Edit;
use bib_store::{Database, Paged};
use bib_text::{Text, copied};
use std::alloc::{AllocError, Global};
use std::collections::HashMap;

/// An entry that the other file lacks: what it says without its key, and the key.
#[derive(Drop)]
struct Lone {
    signature: Vec<u8>,
    key: Text,
}

/// How many entries say the same without their keys, and the first of them.
#[derive(Clone, Copy, Drop)]
struct Seen {
    count: usize,
    first: usize,
}

/// The entries of a file whose keys the other file lacks, and that have a field.
fn lone_entries(
    alloc: Global,
    db: &Database<Paged>,
    other: &Database<Paged>,
) -> Result<Vec<Lone>, AllocError> {
    let mut lone = Vec::new(alloc);
    for n in 0..db.entry_count() {
        if let Some(key) = key_at(alloc, db, n)? {
            if find(other, key.as_slice()).is_none() {
                if let Some(signature) = signature(alloc, db, n)? {
                    lone.push(Lone { signature, key })?;
                }
            }
        }
    }
    Ok(lone)
}

/// Of each text how many of the entries say it, and the first that does.
fn counted(alloc: Global, lone: &[Lone]) -> Result<HashMap<&[u8], Seen>, AllocError> {
    let mut seen = HashMap::new(alloc);
    for n in 0..lone.len() {
        let signature = lone[n].signature.as_slice();
        let before = match seen.get(signature) {
            Some(before) => *before,
            None => Seen { count: 0, first: n },
        };
        let now = Seen {
            count: before.count.saturating_add(1),
            first: before.first,
        };
        seen.insert(signature, now)?;
    }
    Ok(seen)
}

/// Gives an entry another key, if that is accepted.
fn rename(trial: &mut Trial, from: Text, to: Text) -> Result<(), Stop> {
    trial.try_edit(Edit::RenameKey { from, to })?;
    Ok(())
}

/// Gives each entry whose key has another case in the new file that key.
fn rename_cases(trial: &mut Trial, new: &Database<Paged>) -> Result<(), Stop> {
    let alloc = trial.alloc;
    for n in 0..trial.file().entry_count() {
        if let Some(from) = key_at(alloc, trial.file(), n)? {
            if let Some(to) = other_case(alloc, new, from.as_slice())? {
                rename(trial, from, to)?;
            }
        }
    }
    Ok(())
}

/// The key as the new file writes it, if that is in another case.
fn other_case(
    alloc: Global,
    new: &Database<Paged>,
    key: &[u8],
) -> Result<Option<Text>, AllocError> {
    let Some(n) = find(new, key) else {
        return Ok(None);
    };
    match entry(new, n) {
        Some(entry) if entry.key() != key => Ok(Some(copied(alloc, entry.key())?)),
        _ => Ok(None),
    }
}

/// The only one of the entries that says this, if there is exactly one.
fn only<'a>(seen: &HashMap<&[u8], Seen>, lone: &'a [Lone], signature: &[u8]) -> Option<&'a Lone> {
    match seen.get(signature) {
        Some(of) if of.count == 1 => lone.get(of.first),
        _ => None,
    }
}

/// Gives each entry that the new file has under another key that key: one that the new file lacks, and one that the old file lacks,
/// which say the same without their keys and crossrefs, and are the only ones of these.
fn rename_lone(trial: &mut Trial, new: &Database<Paged>) -> Result<(), Stop> {
    let alloc = trial.alloc;
    let gone = lone_entries(alloc, trial.file(), new)?;
    let come = lone_entries(alloc, new, trial.file())?;
    let seen_gone = counted(alloc, gone.as_slice())?;
    let seen_come = counted(alloc, come.as_slice())?;
    for was in &gone {
        let signature = was.signature.as_slice();
        if only(&seen_gone, gone.as_slice(), signature).is_some() {
            if let Some(is) = only(&seen_come, come.as_slice(), signature) {
                let from = copied(alloc, was.key.as_slice())?;
                let to = copied(alloc, is.key.as_slice())?;
                rename(trial, from, to)?;
            }
        }
    }
    Ok(())
}

/// Gives entries the keys that they have in the new file.
pub(crate) fn rename_all(trial: &mut Trial, new: &Database<Paged>) -> Result<(), Stop> {
    rename_cases(trial, new)?;
    rename_lone(trial, new)
}

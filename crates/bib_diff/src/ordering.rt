//! Entries that come, and entries that move.

use crate::fault::Stop;
use crate::longest::longest;
use crate::looking::{entry, find, item_number, key_at, macros_at, texts};
use crate::trying::Trial;
use crate::values::written;
use bib_data::{Edit, NewEntry};
use bib_store::{Database, Paged};
use bib_text::{Seq, Text, copied};
use std::alloc::{AllocError, Global};

/// The numbers in the old file of the entries of the new file, in the order of the new file.
fn old_numbers(
    alloc: Global,
    old: &Database<Paged>,
    new: &Database<Paged>,
) -> Result<Vec<Option<usize>>, AllocError> {
    let mut numbers = Vec::new(alloc);
    for n in 0..new.entry_count() {
        let number = match entry(new, n) {
            Some(entry) => find(old, entry.key()),
            None => None,
        };
        numbers.push(number)?;
    }
    Ok(numbers)
}

/// The position among the items directly after the entry with the key before; without one, before the first entry, or at the end
/// of a file without entries.
fn place_after(db: &Database<Paged>, before: Option<&Text>) -> usize {
    let after = match before {
        Some(key) => find(db, key.as_slice()),
        None => None,
    };
    let place = match after {
        Some(n) => item_number(db, n).map(|item| item.saturating_add(1)),
        None => item_number(db, 0),
    };
    match place {
        Some(place) => place,
        None => db.item_count(),
    }
}

/// The fields of entry `n` of the new file as they are written at this position of the old one.
fn fields_at(
    alloc: Global,
    old: &Database<Paged>,
    place: usize,
    new: &Database<Paged>,
    n: usize,
) -> Result<Seq<(Text, Text)>, AllocError> {
    let mut fields = Vec::new(alloc);
    if let (Some(entry), Some(texts)) = (entry(new, n), texts(alloc, new, n)?) {
        let macros = macros_at(old, place);
        let mut texts = texts;
        let mut rest = entry.fields();
        'fields: while let Some(field) = rest.next() {
            if let Some(text) = texts.remove(field.name) {
                let name = copied(alloc, field.name)?;
                let value = written(alloc, &macros, field.value, text.as_slice())?;
                fields.push((name, value))?;
            }
        }
    }
    Ok(Seq::from_vec(fields))
}

/// Adds entry `n` of the new file after the entry with the key before.
fn add(
    trial: &mut Trial,
    new: &Database<Paged>,
    n: usize,
    before: Option<&Text>,
) -> Result<(), Stop> {
    let alloc = trial.alloc;
    let Some(is) = entry(new, n) else {
        return Ok(());
    };
    let place = place_after(trial.file(), before);
    let entry = NewEntry {
        kind_name: copied(alloc, is.type_name())?,
        key: copied(alloc, is.key())?,
        fields: fields_at(alloc, trial.file(), place, new, n)?,
    };
    trial.make(is.key(), Edit::AddEntry { place, entry })
}

/// Whether the entry with this key is directly after the one with the key before.
fn is_in_place(db: &Database<Paged>, key: &[u8], before: Option<&Text>) -> bool {
    let own = find(db, key);
    match before {
        Some(before) => match find(db, before.as_slice()) {
            Some(n) => own == Some(n.saturating_add(1)),
            None => false,
        },
        None => own == Some(0),
    }
}

/// Moves the entry with this key after the one with the key before, unless it is there.
fn bring(trial: &mut Trial, key: &[u8], before: Option<&Text>) -> Result<(), Stop> {
    if is_in_place(trial.file(), key, before) {
        return Ok(());
    }
    let target = place_after(trial.file(), before);
    let own = match find(trial.file(), key) {
        Some(n) => item_number(trial.file(), n),
        None => None,
    };
    // the position is among the other items
    let place = match own {
        Some(own) if own < target => target.saturating_sub(1),
        _ => target,
    };
    let edit = Edit::MoveEntry {
        key: copied(trial.alloc, key)?,
        place,
    };
    trial.make(key, edit)
}

/// Adds the entries that the old file lacks, and moves others, so that all are in the order of the new file. Those in a longest list
/// of them that are in one order stay.
pub(crate) fn order(trial: &mut Trial, new: &Database<Paged>) -> Result<(), Stop> {
    let alloc = trial.alloc;
    let numbers = old_numbers(alloc, trial.file(), new)?;
    let stays = longest(alloc, numbers.as_slice())?;
    let mut before = None;
    for n in 0..new.entry_count() {
        if let Some(own) = key_at(alloc, new, n)? {
            if find(trial.file(), own.as_slice()).is_none() {
                add(trial, new, n, before.as_ref())?;
            } else if stays.get(n) != Some(&true) {
                bring(trial, own.as_slice(), before.as_ref())?;
            }
            before = Some(own);
        }
    }
    Ok(())
}

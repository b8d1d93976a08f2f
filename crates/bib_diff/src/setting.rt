//! Fields that go, and fields that are set.

use crate::fault::Stop;
use crate::looking::{entry, find, item_number, key_at, macros_at, texts};
use crate::texts::Texts;
use crate::trying::Trial;
use crate::values::written;
use bib_data::Edit;
use bib_scan::Fields;
use bib_store::{Database, MacrosAt, Paged};
use bib_text::{Text, copied, same_folded};
use std::alloc::{AllocError, Global};

/// A change of a field: its name, and its value if it is set and does not go.
#[derive(Drop)]
struct Change {
    name: Text,
    value: Option<Text>,
}

/// The names of these fields that have no text in the other entry; of `crossref`, or of all others.
fn add_drops(
    alloc: Global,
    changes: &mut Vec<Change>,
    fields: Fields<'_>,
    other: &Texts,
    crossref: bool,
) -> Result<(), AllocError> {
    let mut rest = fields;
    'fields: while let Some(field) = rest.next() {
        if same_folded(field.name, b"crossref") == crossref && other.get(field.name).is_none() {
            let name = copied(alloc, field.name)?;
            changes.push(Change { name, value: None })?;
        }
    }
    Ok(())
}

/// Whether the text is there, and is this one.
fn is_text(text: Option<&Text>, other: &[u8]) -> bool {
    match text {
        Some(text) => text.as_slice() == other,
        None => false,
    }
}

/// The values of these fields, as they are written under these macros, that have another text in the other entry, or none; of
/// `crossref`, or of all others.
fn add_sets(
    alloc: Global,
    changes: &mut Vec<Change>,
    fields: Fields<'_>,
    own: Texts,
    other: &Texts,
    macros: &MacrosAt<'_>,
    crossref: bool,
) -> Result<(), AllocError> {
    let mut own = own;
    let mut rest = fields;
    'fields: while let Some(field) = rest.next() {
        if let Some(text) = own.remove(field.name) {
            if same_folded(field.name, b"crossref") == crossref
                && !is_text(other.get(field.name), text.as_slice())
            {
                let name = copied(alloc, field.name)?;
                let value = Some(written(alloc, macros, field.value, text.as_slice())?);
                changes.push(Change { name, value })?;
            }
        }
    }
    Ok(())
}

/// What has to change in entry `m` of the old file, so that it says what entry `n` of the new file says.
fn changes(
    alloc: Global,
    old: &Database<Paged>,
    m: usize,
    new: &Database<Paged>,
    n: usize,
    crossref: bool,
) -> Result<Vec<Change>, AllocError> {
    let mut changes = Vec::new(alloc);
    let (Some(was), Some(old_texts)) = (entry(old, m), texts(alloc, old, m)?) else {
        return Ok(changes);
    };
    let (Some(is), Some(new_texts)) = (entry(new, n), texts(alloc, new, n)?) else {
        return Ok(changes);
    };
    add_drops(alloc, &mut changes, was.fields(), &new_texts, crossref)?;
    if let Some(item) = item_number(old, m) {
        let macros = macros_at(old, item);
        add_sets(
            alloc,
            &mut changes,
            is.fields(),
            new_texts,
            &old_texts,
            &macros,
            crossref,
        )?;
    }
    Ok(changes)
}

/// Makes a change of a field of the entry with this key.
fn make_change(trial: &mut Trial, key: &[u8], change: Change) -> Result<(), Stop> {
    let Change { name, value } = change;
    match value {
        Some(value) => {
            let edit = Edit::SetField {
                key: copied(trial.alloc, key)?,
                field: name,
                value,
            };
            trial.make(key, edit)
        }
        None => trial.drop_field(key, name.as_slice()),
    }
}

/// Makes the entry of the old file with the key of entry `n` of the new file say what that says.
fn set_entry(
    trial: &mut Trial,
    new: &Database<Paged>,
    n: usize,
    crossref: bool,
) -> Result<(), Stop> {
    let alloc = trial.alloc;
    let Some(key) = key_at(alloc, new, n)? else {
        return Ok(());
    };
    let Some(m) = find(trial.file(), key.as_slice()) else {
        return Ok(());
    };
    let changes = changes(alloc, trial.file(), m, new, n, crossref)?;
    for change in changes {
        make_change(trial, key.as_slice(), change)?;
    }
    Ok(())
}

/// Drops the fields that the new file lacks, and sets those that have another text there; crossrefs last of all.
pub(crate) fn set_all(trial: &mut Trial, new: &Database<Paged>) -> Result<(), Stop> {
    for n in 0..new.entry_count() {
        set_entry(trial, new, n, false)?;
    }
    for n in 0..new.entry_count() {
        set_entry(trial, new, n, true)?;
    }
    Ok(())
}

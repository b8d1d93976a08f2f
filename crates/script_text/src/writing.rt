//! Lines of scripts.

use bib_data::{Edit, NewEntry, Request};
use bib_text::Text;
use std::alloc::{AllocError, Global};

/// Adds a line of these words, with a tab between each two.
fn add_line(script: &mut Vec<u8>, words: &[&[u8]]) -> Result<(), AllocError> {
    for n in 0..words.len() {
        if n > 0 {
            script.push(b'\t')?;
        }
        script.extend_from_slice(words[n])?;
    }
    script.push(b'\n')?;
    Ok(())
}

/// The number in decimal digits.
fn digits(alloc: Global, n: usize) -> Result<Vec<u8>, AllocError> {
    let digits = format!(in alloc; "{}", n)?;
    Ok(digits.into_bytes())
}

/// Adds the line that adds the entry at this place.
fn add_entry(
    alloc: Global,
    script: &mut Vec<u8>,
    place: usize,
    entry: &NewEntry,
) -> Result<(), AllocError> {
    let place = digits(alloc, place)?;
    let mut words: Vec<&[u8]> = Vec::new(alloc);
    words.push(b"add")?;
    words.push(place.as_slice())?;
    words.push(entry.kind_name.as_slice())?;
    words.push(entry.key.as_slice())?;
    for (name, value) in entry.fields.as_slice() {
        words.push(name.as_slice())?;
        words.push(value.as_slice())?;
    }
    add_line(script, words.as_slice())
}

/// Adds the line that moves the entry to this place.
fn move_entry(
    alloc: Global,
    script: &mut Vec<u8>,
    key: &Text,
    place: usize,
) -> Result<(), AllocError> {
    let place = digits(alloc, place)?;
    add_line(script, &[b"move", key.as_slice(), place.as_slice()])
}

/// Adds the line of an edit, or nothing for an edit that is not written.
fn add_edit(alloc: Global, script: &mut Vec<u8>, edit: &Edit) -> Result<(), AllocError> {
    match edit {
        Edit::SetField { key, field, value } => add_line(
            script,
            &[b"set", key.as_slice(), field.as_slice(), value.as_slice()],
        ),
        Edit::DropField { key, field } => {
            add_line(script, &[b"drop", key.as_slice(), field.as_slice()])
        }
        Edit::AddEntry { place, entry } => add_entry(alloc, script, *place, entry),
        Edit::RemoveEntry { key } => add_line(script, &[b"remove", key.as_slice()]),
        Edit::MoveEntry { key, place } => move_entry(alloc, script, key, *place),
        Edit::RenameKey { from, to } => {
            add_line(script, &[b"rename-key", from.as_slice(), to.as_slice()])
        }
        _ => Ok(()),
    }
}

/// A line for each of the edits. What it says is judged when it is read again.
pub(crate) fn written(alloc: Global, requests: &[Request]) -> Result<Vec<u8>, AllocError> {
    let mut script = Vec::new(alloc);
    for request in requests {
        if let Request::Edit(edit) = request {
            add_edit(alloc, &mut script, edit)?;
        }
    }
    Ok(script)
}

//! Edits that were to give fields another name.

use crate::edits::{Edit, NAMED, hint_key_twice, hint_no_field};
use crate::items::{Item, items_of, line_of};
use crate::lines::Lines;
use crate::numbers::{entries_meant, hint_unmet_entry};
use crate::parts::Part;
use bib_scan::{ItemView, Kind, is_name};
use bib_text::same_folded;
use std::alloc::AllocError;

/// The first of the two names that is refused.
pub fn hint_field_names(lines: &mut Lines, edit: &Edit<'_>) -> Result<(), AllocError> {
    if is_refused(edit.word(1)) {
        return hint_refused_name(lines, edit.word(1));
    }
    hint_refused_name(lines, edit.word(2))
}

/// Whether no field gets this name, or loses it.
fn is_refused(name: &[u8]) -> bool {
    same_folded(name, b"crossref") || !is_name(name)
}

fn hint_refused_name(lines: &mut Lines, name: &[u8]) -> Result<(), AllocError> {
    if same_folded(name, b"crossref") {
        return lines.say(
            b"a crossref names a parent: no field loses this name, and none gets it",
            &[],
        );
    }
    let parts = [Part::Name(name)];
    lines.say(b"% can be no name of a field", &parts)
}

/// Whether the edit is about the entries of one key, which is its fourth word.
fn has_key(edit: &Edit<'_>) -> bool {
    edit.words.len() > 3
}

/// That no entry has the field, or not the one entry that is meant.
pub fn hint_unnamed_field(lines: &mut Lines, edit: &Edit<'_>) -> Result<(), AllocError> {
    if !has_key(edit) {
        let parts = [Part::Name(edit.name), Part::Name(edit.word(1))];
        return lines.say(b"no entry of % has a field %", &parts);
    }
    let key = edit.word(3);
    let items = items_of(lines.alloc(), edit.file)?;
    if entries_meant(lines.alloc(), items.as_slice(), key)?.is_empty() {
        return hint_unmet_entry(lines, edit, items.as_slice(), key);
    }
    hint_no_field(lines, edit.name, key, edit.word(1))
}

/// Where the entries are that would have two fields of the new name, or that have the same key.
pub fn hint_clashes(lines: &mut Lines, edit: &Edit<'_>) -> Result<(), AllocError> {
    let alloc = lines.alloc();
    let items = items_of(alloc, edit.file)?;
    if !has_key(edit) {
        return hint_clashes_among(lines, edit, items.as_slice());
    }
    let found = entries_meant(alloc, items.as_slice(), edit.word(3))?;
    if found.len() > 1 {
        return hint_key_twice(lines, edit, edit.word(3), found.as_slice());
    }
    hint_clashes_among(lines, edit, found.as_slice())
}

fn hint_clashes_among<'a>(
    lines: &mut Lines,
    edit: &Edit<'a>,
    items: &[Item<'a>],
) -> Result<(), AllocError> {
    let mut count = 0usize;
    'items: for item in items {
        if is_clashing(item, edit.word(1), edit.word(2)) {
            count = count.saturating_add(1);
            if count <= NAMED {
                let parts = [
                    Part::Name(item.key),
                    Part::Count(line_of(edit.file, item.start)),
                    Part::Name(edit.word(2)),
                ];
                lines.say(
                    b"the entry % in line % would have the field % twice",
                    &parts,
                )?;
            }
        }
    }
    if count > NAMED {
        let parts = [Part::Count(count - NAMED)];
        lines.say(b"and % more", &parts)?;
    }
    Ok(())
}

/// Whether the item is an entry with a field of the old name, and with another that has one of the two names.
fn is_clashing(item: &Item<'_>, old: &[u8], new: &[u8]) -> bool {
    if item.kind != Kind::Entry {
        return false;
    }
    let mut has_old = false;
    let mut count = 0usize;
    'fields: for field in ItemView::of(item.body, b"").fields() {
        let is_old = same_folded(field.name, old);
        has_old |= is_old;
        if is_old || same_folded(field.name, new) {
            count = count.saturating_add(1);
        }
    }
    has_old && count > 1
}

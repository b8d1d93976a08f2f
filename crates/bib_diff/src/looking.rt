//! What the search looks up in an open file. A number that the file does not have finds nothing.

use crate::texts::{Texts, texts_at};
use bib_scan::ItemView;
use bib_store::{Database, MacrosAt, Paged};
use bib_text::{NAME_LIMIT, Text, copied};
use std::alloc::{AllocError, Global};

/// Entry `n`.
pub(crate) fn entry(db: &Database<Paged>, n: usize) -> Option<ItemView<'_>> {
    if n < db.entry_count() {
        Some(db.entry(n))
    } else {
        None
    }
}

/// A copy of the key of entry `n`.
pub(crate) fn key_at(
    alloc: Global,
    db: &Database<Paged>,
    n: usize,
) -> Result<Option<Text>, AllocError> {
    match entry(db, n) {
        Some(entry) => Ok(Some(copied(alloc, entry.key())?)),
        None => Ok(None),
    }
}

/// The number of the entry that has this key.
pub(crate) fn find(db: &Database<Paged>, key: &[u8]) -> Option<usize> {
    db.find(key).ok()
}

/// The number that entry `n` has among the items.
pub(crate) fn item_number(db: &Database<Paged>, n: usize) -> Option<usize> {
    if n < db.entry_count() {
        Some(db.entry_item(n))
    } else {
        None
    }
}

/// The parent of entry `n`.
pub(crate) fn parent(db: &Database<Paged>, n: usize) -> Option<usize> {
    if n < db.entry_count() {
        db.parent(n)
    } else {
        None
    }
}

/// The texts of entry `n`.
pub(crate) fn texts(
    alloc: Global,
    db: &Database<Paged>,
    n: usize,
) -> Result<Option<Texts>, AllocError> {
    if n < db.entry_count() {
        Ok(Some(texts_at(alloc, db, n)?))
    } else {
        Ok(None)
    }
}

/// What macros stand for before item `n`, or at the end of the file.
pub(crate) fn macros_at(db: &Database<Paged>, n: usize) -> MacrosAt<'_> {
    db.macros_at(n.min(db.item_count()))
}

/// The entry at position `k` of those whose crossrefs name this key.
pub(crate) fn referrer(db: &Database<Paged>, key: &[u8], k: usize) -> Option<usize> {
    if key.len() <= NAME_LIMIT {
        db.referrer(key, k)
    } else {
        None
    }
}

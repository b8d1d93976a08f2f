//! What a list is made of, and the list.

use bib_text::{Seq, Text};

/// The key of an entry, and its crossref text, if it has one.
#[derive(Clone, Copy, Debug)]
pub struct EntryKey<'a> {
    pub key: &'a [u8],
    pub crossref: Option<&'a [u8]>,
}

/// A listed entry: its number, its key as the list spells it, the key that its crossref names if that key is listed too, and the
/// numbers of the entries that give it fields, in turn.
#[derive(Debug, Drop)]
pub struct BibtexEntry {
    pub entry: usize,
    pub key: Text,
    pub named: Option<Text>,
    pub up: Seq<usize>,
}

/// The list for some keys: its entries, and the places, from 0, of those keys that no entry has.
#[derive(Debug, Drop)]
pub struct BibtexList {
    pub listed: Seq<BibtexEntry>,
    pub unknown: Seq<usize>,
}

//! A merged entry, as parts of the entries of two sides.

use bib_text::Text;

/// One of the two sides of a merge.
#[derive(Clone, Copy, Debug, PartialEq, Eq)]
pub enum Side {
    Ours,
    Theirs,
}

/// A row of the entry of a side, by its number, from 0.
#[derive(Clone, Copy, Debug, PartialEq, Eq)]
pub struct RowOf {
    pub side: Side,
    pub n: usize,
}

/// A row of a merged entry: the bytes before its value are those of one row, its value is that of one row, and this white space
/// comes after it.
#[derive(Drop)]
pub struct MixedRow {
    pub start: RowOf,
    pub value: RowOf,
    pub space: Text,
}

/// Our entry with the type and the key of a side, this white space after the key, and these rows.
#[derive(Clone, Copy)]
pub struct Mix<'a> {
    pub kind: Side,
    pub key: Side,
    pub space: &'a [u8],
    pub rows: &'a [MixedRow],
}

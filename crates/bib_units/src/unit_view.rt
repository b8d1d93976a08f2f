//! A unit as slices of the file.

use crate::labels::Label;

/// A unit of a file, with the white space after it, as slices of the file: it takes no memory.
#[derive(Clone, Copy, Debug)]
pub struct UnitView<'a> {
    /// The number of the item that the unit is; a text between items has none.
    pub item: Option<usize>,
    pub label: Label<'a>,
    pub bytes: &'a [u8],
    pub space: &'a [u8],
}

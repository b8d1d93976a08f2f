//! An item together with what was counted on the way to it.

use bib_scan::ItemView;

/// An item of a file: its number, what is seen of it, and how many entries come before it.
#[derive(Clone, Copy)]
pub struct NumberedItem<'v, 'a> {
    pub n: usize,
    pub view: &'v ItemView<'a>,
    pub entries: usize,
}

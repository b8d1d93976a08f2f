//! Positions among the items of a file.

use bib_text::Text;

/// A position among the items of a file, at which something is put. A key names the first entry that has it, folded. (dialect)
#[derive(Debug, Drop)]
pub enum Position {
    /// Before the item with this number, from 0; after the last item, if the number is how many items there are.
    Number(usize),
    /// After the last item.
    End,
    /// Directly before this entry.
    Before(Text),
    /// Directly after this entry.
    After(Text),
}

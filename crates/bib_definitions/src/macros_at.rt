//! Macros as an item sees them.

use crate::by_name::ByName;
use bib_value::MacroTable;

/// What macros stand for before an item. It takes no memory.
#[derive(Drop)]
pub struct MacrosAt<'a> {
    pub(crate) names: &'a ByName,
    // the label of the first definition that the item doesn't see
    pub(crate) label: usize,
}

impl<'a> MacroTable for MacrosAt<'a> {
    ghost use Rattle.bib_definitions.specs.MacrosSeen.{macros_seen};

    ghost macros = { macros_seen };

    fn text_of(&self, name: &[u8]) -> Option<&[u8]> {
        self.names.text_before(self.label, name)
    }
}

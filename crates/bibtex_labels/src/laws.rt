//! Laws of the definitions.

ghost use Rattle.bibtex_labels.specs.Order.{one_order};
ghost use Rattle.bibtex_labels.specs.Pieces.{pieces_are_the_text};

/// The pieces of a text, joined, are the text.
pub fn pieces_are_the_text()
    ensures { pieces_are_the_text }
{}

/// A list of entries has one order in which their sort keys rise and entries with one sort key stay as they are.
pub fn one_order()
    ensures { one_order }
{}

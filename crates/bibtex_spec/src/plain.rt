//! Small files, and the first at-sign for which BibTeX 0.99d may not read their items alone.

ghost use Rattle.bibtex_spec.specs.PlainRows.{LastLineIsReadOnce, TextIsReadInLastLine, ReturnEndsALine, NamesAreThoseOfTheDialect, RepeatedEntryIsLeftAtItsKey};

/// After an item that ends in the last line, no item is read.
pub fn the_last_line_is_read_once()
    ensures { LastLineIsReadOnce }
{}

/// An at-sign of text that is in the last line counts as an item does.
pub fn text_is_read_in_the_last_line()
    ensures { TextIsReadInLastLine }
{}

/// CR LF ends two lines, so that the last line is empty.
pub fn a_return_ends_a_line()
    ensures { ReturnEndsALine }
{}

/// The name after an at-sign has no at-sign, no DEL, and at most 255 bytes.
pub fn names_are_those_of_the_dialect()
    ensures { NamesAreThoseOfTheDialect }
{}

/// An at-sign inside a repeated entry is found, if it is after the key.
pub fn a_repeated_entry_is_left_at_its_key()
    ensures { RepeatedEntryIsLeftAtItsKey }
{}

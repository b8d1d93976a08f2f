//! What the definitions say of small files and texts.

ghost use Rattle.insert_spec.specs.Examples.{TextFollowsTheFile, TextStandsBetween, TextIsRefused};

/// A text at the end of a file begins a line, and the white space at the end of the file stays before it.
pub fn a_text_follows_the_file()
    ensures { TextFollowsTheFile }
{}

/// A text between two items, or before the first, is put there byte for byte.
pub fn a_text_stands_between_items()
    ensures { TextStandsBetween }
{}

/// A text is refused for its position, its keys, its macros, or what it would join.
pub fn a_text_is_refused()
    ensures { TextIsRefused }
{}

//! Laws of plain texts, in the contracts of functions that do nothing.

ghost use Rattle.plain_text.specs.Plain.{BareTextsArePlain};

/// A text without a backslash, a tie and a brace is plain, except for white space at its ends.
pub fn bare_texts_are_plain()
    ensures { BareTextsArePlain }
{}

//! Small texts and lists, and what BibTeX 0.99d and the style `alpha` make of them.

ghost use Rattle.bibtex_labels.specs.Rows.{PrefixesKeepBraces, SignsAreTakenAway, LettersFollowTheOrder, LettersAreForSortLabels};

/// Braces stay in the first text characters, and are closed; a special character is one of them.
pub fn prefixes_keep_braces()
    ensures { PrefixesKeepBraces }
{}

/// Of a special character the foreign letters stay, and what is no command.
pub fn signs_are_taken_away()
    ensures { SignsAreTakenAway }
{}

/// Letters follow the order of the bibliography, and not that of the list.
pub fn letters_follow_the_order()
    ensures { LettersFollowTheOrder }
{}

/// Letters are for equal sort labels, and not for equal labels; entries with one sort key stay in their order.
pub fn letters_are_for_sort_labels()
    ensures { LettersAreForSortLabels }
{}

//! Laws of files that agree.

ghost use Rattle.diff_spec.specs.Laws.{agreement_is_of_records};

/// Entries that agree one by one have the same records at every depth, by name, and the same crossref texts, targets and
/// parents.
pub fn files_that_agree_have_the_same_records()
    ensures { agreement_is_of_records }
{}

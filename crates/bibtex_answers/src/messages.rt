//! What an answer says if BibTeX may read the file otherwise, or if it cannot be said what BibTeX lists.

ghost use Rattle.std.specs.Prelude.{◌≡◌, [], IfOk};
ghost use Rattle.bib_answers.specs.Outcome.{answer_of};
ghost use Rattle.bibtex_answers.specs.Messages.{not_plain_line, too_deep_line};

use bib_answers::{Answer, placed_line, refused};
use bib_text::copied;
use std::alloc::{AllocError, Global};

/// The answer whose message says that the file is not plain, because of the at-sign at this place.
pub fn not_plain(alloc: Global, place: usize) -> Result<Answer, AllocError>
    ensures { IfOk result (λ answer. answer ≡ answer_of [] (not_plain_line place) 1) }
{
    Ok(refused(alloc, placed_line(alloc, 14, "NotPlain", place)?))
}

/// The answer whose message says that an entry inherits from too many entries.
pub fn too_deep(alloc: Global) -> Result<Answer, AllocError>
    ensures { IfOk result (λ answer. answer ≡ answer_of [] too_deep_line 1) }
{
    Ok(refused(alloc, copied(alloc, b"bibkeep: 15 TooDeep\n")?))
}

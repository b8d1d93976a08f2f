//! What is said of one of several files.

ghost use Rattle.std.specs.Prelude.{◌≡◌, ◌≢◌, [], slice_index_or, IfOk};
ghost use Rattle.bib_answers.specs.Outcome.{answer_of};
ghost use Rattle.bib_answers.specs.Messages.{refusal_in};

use bib_answers::{Answer, refusal_in, refused};
use bib_shelf::ShelfFault;
use bib_text::Text;
use std::alloc::{AllocError, Global};

/// The name with this number, from 0; nothing if there are not so many names.
pub fn name_of(names: &[Text], i: usize) -> &[u8]
    ensures { result.now ≡ slice_index_or names.now i [] }
{
    match names.get(i) {
        Some(name) => name.as_slice(),
        None => b"",
    }
}

/// The answer whose message says why files with these names are not read as one. If memory ran out, there is no answer.
pub fn unread_in(alloc: Global, names: &[Text], fault: ShelfFault) -> Result<Answer, AllocError>
    ensures { IfOk result (λ answer. (fault.kind ≢ 10) × (answer ≡ answer_of [] (refusal_in fault.kind fault.place (slice_index_or names.now fault.file [])) 1)) }
{
    if fault.is_memory() {
        return Err(AllocError);
    }
    let name = name_of(names, fault.file);
    let message = refusal_in(alloc, fault.kind, fault.place, name)?;
    Ok(refused(alloc, message))
}

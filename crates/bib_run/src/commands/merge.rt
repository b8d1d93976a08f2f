//! `merge` over one file: it is run over three, by `run_merge` of `merge_run`.

ghost use Rattle.std.specs.Prelude.{◌≡◌, IfOk};
ghost use Rattle.bib_run.specs.Apart.{apart_answer};

use bib_answers::{Answer, outcome_of};
use bib_text::{Text, copied};
use bib_words::status;
use std::alloc::{AllocError, Global};

/// The answer that `merge` is run over three files.
pub fn answer_apart(alloc: Global) -> Result<Answer, AllocError>
    ensures { IfOk result (λ answer. answer ≡ apart_answer) }
{
    let message = copied(alloc, b"bibkeep: merge is run over three files\n")?;
    Ok(Answer {
        output: Text::empty(alloc),
        outcome: outcome_of(message, status::COMMAND_LINE),
    })
}

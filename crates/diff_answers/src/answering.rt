//! What `diff` answers to two files.

ghost use Rattle.std.specs.Prelude.{◌≡◌, ◌≢◌, [], IfOk};
ghost use Rattle.bib_spec.specs.Text.{Text as FileText};
ghost use Rattle.diff_spec.specs.Agreement.{FilesAgree};
ghost use Rattle.bib_diff.specs.Leading.{Leads};
ghost use Rattle.bib_diff.specs.declared.fault.DiffFault.TheVariants.{Memory};
ghost use Rattle.bib_answers.specs.Outcome.{answer_of};
ghost use Rattle.diff_answers.specs.Answers.{IsDiffAnswer, diff_line};

use crate::messages::diff_line;
use bib_answers::{Answer, done, outcome_of, refused};
use bib_data::Request;
use bib_diff::{DiffFault, difference};
use bib_text::Text;
use script_text::script_text;
use std::alloc::{AllocError, Global};

/// The exit status if there is a difference.
const DIFFERENT: u8 = 1;

/// What `diff` answers to an old file and a new one with these names: a line for each edit of a script that leads from the old one to
/// the new one; nothing, if the two agree; or why there is no script. It reads and writes nothing, and is refused only if memory
/// runs out. It takes time and memory as `difference` does, and the script beside it.
pub fn answer_diff(
    alloc: Global,
    old_name: &[u8],
    new_name: &[u8],
    old: &[u8],
    new: &[u8],
) -> Result<Answer, AllocError>
    ensures { IfOk result (IsDiffAnswer old_name.now new_name.now old.now new.now) }
{
    match difference(alloc, old, new) {
        Ok(requests) => led(alloc, old_name, new_name, requests.as_slice()),
        Err(fault) => unled(alloc, old_name, new_name, &fault),
    }
}

/// The answer if these requests lead from the old file to the new one.
#[tactic(auto, using(crate::proofs::LedSo::agree_so))]
fn led(
    alloc: Global,
    old_name: &[u8],
    new_name: &[u8],
    requests: &[Request],
) -> Result<Answer, AllocError>
    ensures { IfOk result (λ answer. (old new : FileText) → Leads requests.now old new → (FilesAgree old new → requests.now ≡ []) → IsDiffAnswer old_name.now new_name.now old new answer) }
{
    if requests.is_empty() {
        return Ok(done(alloc, Text::empty(alloc)));
    }
    match script_text(alloc, requests)? {
        Some(script) => Ok(found(alloc, script)),
        None => unled(alloc, old_name, new_name, &DiffFault::NoScript(None)),
    }
}

/// The answer with this script.
fn found(alloc: Global, script: Text) -> Answer
    ensures { result ≡ answer_of script [] 1 }
{
    Answer {
        output: script,
        outcome: outcome_of(Text::empty(alloc), DIFFERENT),
    }
}

/// The answer whose message says why there is no script. If memory ran out, there is no answer.
fn unled(
    alloc: Global,
    old_name: &[u8],
    new_name: &[u8],
    fault: &DiffFault,
) -> Result<Answer, AllocError>
    ensures { IfOk result (λ answer. (fault.now ≢ Memory) × (answer ≡ answer_of [] (diff_line old_name.now new_name.now fault.now) 1)) }
{
    match diff_line(alloc, old_name, new_name, fault)? {
        Some(line) => Ok(refused(alloc, line)),
        None => Err(AllocError),
    }
}

//! `undo` and `redo`: changes taken back, and made again.

ghost use Rattle.std.specs.Prelude.{◌≡◌, IfOk, option_map, codes};
ghost use Rattle.bib_data.specs.declared.request.Request.TheVariants.{Undo, Redo};
ghost use Rattle.bib_run.specs.Turns.{turned_line, turned_answer, IsTurnAnswer};

use crate::sessions::{message_of, outcome_after, unopened};
use bib_answers::Answer;
use bib_journal::{Turned, redo_changes, undo_changes};
use bib_store::Paged;
use bib_text::Text;
use std::alloc::{AllocError, Global};

/// Takes the last `n` changes back, or all if there are fewer.
pub fn answer_undo(
    alloc: Global,
    file: Vec<u8>,
    journal: Option<&[u8]>,
    n: usize,
) -> Result<Answer, AllocError>
    ensures { IfOk result (IsTurnAnswer (codes "undone") Undo n file.items (option_map (λ text. text.now) journal.entry)) }
{
    match undo_changes(alloc, file, journal, n, Paged::new(alloc)) {
        Ok(turned) => turned_answer(alloc, "undone", turned),
        Err(fault) => unopened(alloc, fault),
    }
}

/// Makes the next `n` changes again, or all that were taken back if they are fewer.
pub fn answer_redo(
    alloc: Global,
    file: Vec<u8>,
    journal: Option<&[u8]>,
    n: usize,
) -> Result<Answer, AllocError>
    ensures { IfOk result (IsTurnAnswer (codes "redone") Redo n file.items (option_map (λ text. text.now) journal.entry)) }
{
    match redo_changes(alloc, file, journal, n, Paged::new(alloc)) {
        Ok(turned) => turned_answer(alloc, "redone", turned),
        Err(fault) => unopened(alloc, fault),
    }
}

/// The answer after changes were taken back or made again: how many, and what is stored.
fn turned_answer(alloc: Global, word: &str, turned: Turned) -> Result<Answer, AllocError>
    ensures { IfOk result (λ answer. answer ≡ turned_answer word.now turned) }
{
    let done = turned.performed.done;
    let output = turned_line(alloc, word, done)?;
    let message = message_of(alloc, turned.performed.fault)?;
    let outcome = outcome_after(alloc, done, message, turned.saved);
    Ok(Answer { output, outcome })
}

/// A line with the word and the number of changes.
fn turned_line(alloc: Global, word: &str, done: usize) -> Result<Text, AllocError>
    ensures { IfOk result (λ line. line ≡ turned_line word.now done) }
{
    let line = format!(in alloc; "{} {}\n", word, done)?;
    Ok(Text::from_vec(line.into_bytes()))
}

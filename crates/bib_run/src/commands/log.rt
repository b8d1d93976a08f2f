//! `log`: the changes that can be undone and redone. `forget`: a new journal.

ghost use Rattle.std.specs.Prelude.{◌≡◌, ◌++◌, ◌-◌, ◌^◌, min, IfOk, OnOk, option_map};
ghost use Rattle.std.specs.List.{AllByRecursion, flat_map};
ghost use Rattle.bib_spec.specs.Text.{Text as FileText};
ghost use Rattle.history_spec.specs.Steps.{AreWritable, IsStep, AreSteps};
ghost use Rattle.bib_journal.specs.Kept.{kept};
ghost use Rattle.bib_journal.specs.OpenSteps.{idle};
ghost use Rattle.bib_journal.specs.Session.{started};
ghost use Rattle.bib_run.specs.Log.{old_len, new_len, label_part, counts_part, step_line, log_text, IsLogAnswer, IsForgetAnswer};

use crate::sessions::unopened;
use bib_answers::{Answer, Outcome, done};
use bib_journal::{Changes, Session, Step, read_changes};
use bib_store::{Paged, Piece};
use bib_text::Text;
use bib_words::status;
use std::alloc::{AllocError, Global};

/// The steps of the file's journal, a line for each.
pub fn answer_log(
    alloc: Global,
    file: Vec<u8>,
    journal: Option<&[u8]>,
) -> Result<Answer, AllocError>
    ensures { IfOk result (IsLogAnswer file.items (option_map (λ text. text.now) journal.entry)) }
{
    match read_changes(alloc, file, journal, Paged::new(alloc)) {
        Ok(changes) => Ok(done(alloc, log_text(alloc, &changes)?)),
        Err(fault) => unopened(alloc, fault),
    }
}

/// A line for each past step from the oldest, and then for each future step from the next.
fn log_text(alloc: Global, changes: &Changes) -> Result<Text, AllocError>
    requires { AreSteps changes.now.past changes.now.future }
    ensures { IfOk result (λ text. (file : FileText) → text ≡ log_text (kept changes.now.past file changes.now.future)) }
{
    let mut out = Vec::new(alloc);
    add_steps(alloc, &mut out, changes.past.as_slice(), "done")?;
    add_steps(alloc, &mut out, changes.future.as_slice(), "undone")?;
    Ok(Text::from_vec(out))
}

/// Adds a line for each of these steps.
fn add_steps(alloc: Global, out: &mut Vec<u8>, steps: &[Step], word: &str) -> Result<(), AllocError>
    requires { AllByRecursion IsStep steps.now }
    ensures { OnOk result (out.new.items ≡ out.old.items ++ flat_map (step_line word.now) steps.now) }
{
    'step: for step in steps {
        let line = step_line(alloc, word, step)?;
        out.extend_from_slice(line.as_slice())?;
    }
    Ok(())
}

/// The word, and how many pieces there are, how many bytes they take away, and how many they put in.
fn counts_part(alloc: Global, word: &str, pieces: &[Piece]) -> Result<Vec<u8>, AllocError>
    requires { AreWritable pieces.now }
    ensures { IfOk result (λ part. part.items ≡ counts_part word.now pieces.now) }
{
    let count = pieces.len();
    let old_len = old_len(pieces);
    let new_len = new_len(pieces);
    let part = format!(in alloc; "{} {} {} {}", word, count, old_len, new_len)?;
    Ok(part.into_bytes())
}

/// Adds a space and the label, unless it is empty.
fn add_label(out: &mut Vec<u8>, label: &[u8]) -> Result<(), AllocError>
    ensures { OnOk result (out.new.items ≡ out.old.items ++ label_part label.now) }
{
    if !label.is_empty() {
        out.push(b' ')?;
        out.extend_from_slice(label)?;
    }
    Ok(())
}

/// The line of a step: the word, how many pieces it has, how many bytes it takes away and puts in, and its label.
fn step_line(alloc: Global, word: &str, step: &Step) -> Result<Text, AllocError>
    requires { IsStep step.now }
    ensures { IfOk result (λ line. line ≡ step_line word.now step.now) }
{
    let mut line = counts_part(alloc, word, step.pieces.as_slice())?;
    add_label(&mut line, step.label.as_slice())?;
    line.push(b'\n')?;
    Ok(Text::from_vec(line))
}

/// How many bytes the pieces take away, or the greatest `u64` if there are more.
fn old_len(pieces: &[Piece]) -> u64
    ensures { result ≡ min (old_len pieces.now) (2 ^ 64 - 1) }
{
    let mut len: u64 = 0;
    'piece: for piece in pieces {
        len = len.saturating_add(piece.old.as_slice().len() as u64);
    }
    len
}

/// How many bytes the pieces put in, or the greatest `u64` if there are more.
fn new_len(pieces: &[Piece]) -> u64
    ensures { result ≡ min (new_len pieces.now) (2 ^ 64 - 1) }
{
    let mut len: u64 = 0;
    'piece: for piece in pieces {
        len = len.saturating_add(piece.new.as_slice().len() as u64);
    }
    len
}

/// Begins a new journal for the file.
pub fn answer_forget(alloc: Global, file: Vec<u8>) -> Result<Answer, AllocError>
    ensures { IfOk result (IsForgetAnswer file.items) }
{
    match Session::start(alloc, file.as_slice(), Paged::new(alloc)) {
        Ok(session) => {
            let answer = new_journal(alloc, &session);
            session.close();
            answer
        }
        Err(fault) => unopened(alloc, fault),
    }
}

/// The new journal of a session without steps.
fn new_journal(alloc: Global, session: &Session<Paged>) -> Result<Answer, AllocError>
    requires { session.now ≡ idle (started session.now.steps.present) }
    ensures { IfOk result (IsForgetAnswer session.now.steps.present) }
{
    session.is_sound();
    let Ok(saved) = session.saved() else {
        return Err(AllocError);
    };
    Ok(Answer {
        output: Text::empty(alloc),
        outcome: Outcome {
            file: None,
            journal: Some(saved.journal),
            message: Text::empty(alloc),
            status: status::DONE,
        },
    })
}

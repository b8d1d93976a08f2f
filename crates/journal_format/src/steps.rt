//! Steps as text in a journal.

ghost use Rattle.std.specs.Prelude.{ℕ, ◌≡◌, ◌+◌, ◌++◌, length, decimal, IfOk, IfErr};
ghost use Rattle.std.specs.List.{AllByRecursion, flat_map};
ghost use Rattle.history_spec.specs.Steps.{IsLabel};
ghost use Rattle.journal_format.specs.JournalText.{IsSmall, step_text_in, IsStepIn};
ghost use Rattle.journal_format.specs.Wrong.{BeginsWith, HasWrongLine, BeginsWithPieces, HasWrongPieces, BeginsWithStep, IsWrongStep, AreWrongSteps};
ghost use Rattle.journal_format.specs.declared.version.Version.TheVariants.{First, Second};
ghost use Rattle.journal_format.specs.Faults.{StopsWhere};

use crate::cutting::cut;
use crate::fault::Stop;
use crate::numbers::read_number;
use crate::pieces::split_piece;
use crate::step::Step;
use crate::version::Version;
use bib_data::{Piece, is_label};
use bib_text::{Seq, copied};
use std::alloc::Global;

/// The greatest length of the texts of all steps together, in bytes. (dialect)
pub const STEP_TEXTS_LIMIT: u64 = 67_174_399;

/// The number in the first line, and the text after that line; or the number of bytes left where the text goes wrong.
fn split_number(text: &[u8]) -> Result<(u64, &[u8]), usize>
    ensures read { IfOk result (λ x. BeginsWith decimal IsSmall text.now x.0 x.1.now) }
    ensures wrong { IfErr result (HasWrongLine decimal IsSmall text.now) }
{
    let Some((line, rest)) = cut(b'\n', text) else {
        return Err(0);
    };
    match read_number(line) {
        Some(n) => Ok((n, rest)),
        None => Err(text.len()),
    }
}

/// Room for at most this number of pieces is made at once: most steps have one or two.
const ROOM: u64 = 4;

/// The pieces after the first line, which has their number, and the text after them; or why reading stops.
fn split_pieces(alloc: Global, text: &[u8]) -> Result<(Seq<Piece>, &[u8]), Stop>
    ensures read { IfOk result (λ x. BeginsWithPieces text.now x.0 x.1.now) }
    ensures wrong { IfErr result (StopsWhere (HasWrongPieces text.now)) }
{
    let (count, after) = split_number(text)?;
    let mut pieces = Vec::with_capacity(alloc, count.min(ROOM) as usize)?;
    let mut from: u64 = 0;
    let mut rest = after;
    'piece: for _n in 0..count {
        let (piece, after) = split_piece(alloc, from, rest)?;
        from = piece.place + piece.old.as_slice().len() as u64;
        pieces.push(piece)?;
        rest = after;
    }
    Ok((Seq::from_vec(pieces), rest))
}

/// The label in the first line, and the text after that line; or the number of bytes left where the text goes wrong.
fn split_label(text: &[u8]) -> Result<(&[u8], &[u8]), usize>
    ensures read { IfOk result (λ x. BeginsWith (λ label. label) IsLabel text.now x.0.now x.1.now) }
    ensures wrong { IfErr result (HasWrongLine (λ label. label) IsLabel text.now) }
{
    match cut(b'\n', text) {
        Some((line, rest)) if is_label(line) => Ok((line, rest)),
        Some(_) => Err(text.len()),
        None => Err(0),
    }
}

/// The first step of a journal of version 1, which has no label, and the text after it; or why reading stops.
fn split_plain_step(alloc: Global, text: &[u8]) -> Result<(Step, &[u8]), Stop>
    ensures read { IfOk result (λ x. BeginsWithStep First text.now x.0 x.1.now) }
    ensures wrong { IfErr result (StopsWhere (IsWrongStep First text.now)) }
{
    let (pieces, rest) = split_pieces(alloc, text)?;
    let label = Seq::empty(alloc);
    Ok((Step { label, pieces }, rest))
}

/// The first step of a journal of version 2, and the text after it; or why reading stops.
fn split_labelled_step(alloc: Global, text: &[u8]) -> Result<(Step, &[u8]), Stop>
    ensures read { IfOk result (λ x. BeginsWithStep Second text.now x.0 x.1.now) }
    ensures wrong { IfErr result (StopsWhere (IsWrongStep Second text.now)) }
{
    let (label, after) = split_label(text)?;
    let (pieces, rest) = split_pieces(alloc, after)?;
    let label = copied(alloc, label)?;
    Ok((Step { label, pieces }, rest))
}

/// The first step of a journal of this version, and the text after it; or why reading stops.
pub(crate) fn split_step(
    alloc: Global,
    version: Version,
    text: &[u8],
) -> Result<(Step, &[u8]), Stop>
    ensures read { IfOk result (λ x. BeginsWithStep version text.now x.0 x.1.now) }
    ensures wrong { IfErr result (StopsWhere (IsWrongStep version text.now)) }
{
    match version {
        Version::First => split_plain_step(alloc, text),
        Version::Second => split_labelled_step(alloc, text),
    }
}

/// The first `count` steps, and the text after them; or why reading stops, however many steps should follow them.
pub(crate) fn split_steps(
    alloc: Global,
    version: Version,
    count: u64,
    text: &[u8],
) -> Result<(Vec<Step>, &[u8]), Stop>
    ensures read { IfOk result (λ x. text.now ≡ flat_map (step_text_in version) x.0.items ++ x.1.now) }
    ensures count { IfOk result (λ x. length x.0.items ≡ count) }
    ensures steps { IfOk result (λ x. AllByRecursion (IsStepIn version) x.0.items) }
    ensures wrong { IfErr result (StopsWhere (λ left. (more : ℕ) → AreWrongSteps version (count + more) text.now left)) }
{
    let mut steps = Vec::new(alloc);
    let mut rest = text;
    'step: for _n in 0..count {
        let (step, after) = split_step(alloc, version, rest)?;
        steps.push(step)?;
        rest = after;
    }
    Ok((steps, rest))
}

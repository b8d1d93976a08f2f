//! Writing a journal.

ghost use Rattle.std.specs.Prelude.{◌≡◌, ◌≤◌, ◌++◌, ◌∷◌, [], reverse, take, drop, length, decimal, OnOk, IfOk};
ghost use Rattle.history_spec.specs.Steps.{piece_text, pieces_text, step_text};
ghost use Rattle.std.specs.List.{flat_map};
ghost use Rattle.journal_format.specs.JournalText.{counts, head_text, journal_text};

use crate::packed_steps::PackedSteps;
use crate::step::Step;
use crate::step_text::step_texts_len;
use bib_data::Piece;
use bib_text::{Seq, Text};
use itoa::Buffer;
use std::alloc::{AllocError, Global};

/// Writes a number, and the byte `end` after it.
fn put_number(out: &mut Vec<u8>, n: u64, end: u8) -> Result<(), AllocError>
    ensures { OnOk result (out.new.items ≡ out.old.items ++ (decimal n ++ end ∷ [])) }
{
    out.extend_from_slice(Buffer::new().format(n).as_bytes())?;
    out.push(end)?;
    Ok(())
}

/// Writes a piece.
fn put_piece(out: &mut Vec<u8>, piece: &Piece) -> Result<(), AllocError>
    ensures { OnOk result (out.new.items ≡ out.old.items ++ piece_text piece.now) }
{
    let old = piece.old.as_slice();
    let new = piece.new.as_slice();
    put_number(out, piece.place, b' ')?;
    put_number(out, old.len() as u64, b' ')?;
    put_number(out, new.len() as u64, b'\n')?;
    out.extend_from_slice(old)?;
    out.extend_from_slice(new)?;
    out.push(b'\n')?;
    Ok(())
}

/// Writes the number of pieces in a line, and then the pieces.
fn put_pieces(out: &mut Vec<u8>, pieces: &[Piece]) -> Result<(), AllocError>
    ensures { OnOk result (out.new.items ≡ out.old.items ++ pieces_text pieces.now) }
{
    put_number(out, pieces.len() as u64, b'\n')?;
    'piece: for piece in pieces {
        put_piece(out, piece)?;
    }
    Ok(())
}

/// Writes a step: its label in a line, and then its pieces.
pub(crate) fn put_step(out: &mut Vec<u8>, step: &Step) -> Result<(), AllocError>
    ensures { OnOk result (out.new.items ≡ out.old.items ++ step_text step.now) }
{
    out.extend_from_slice(step.label.as_slice())?;
    out.push(b'\n')?;
    put_pieces(out, step.pieces.as_slice())
}

/// The greatest length of the lines before the steps, without the digest.
const HEAD_LEN: u64 = 64;

/// Writes the three lines before the steps.
fn put_head(out: &mut Vec<u8>, digest: &[u8], undos: u64, redos: u64) -> Result<(), AllocError>
    ensures { OnOk result (out.new.items ≡ out.old.items ++ head_text digest.now (counts undos redos)) }
{
    out.extend_from_slice(b"bibkeep 2\n")?;
    out.extend_from_slice(digest)?;
    out.push(b'\n')?;
    put_number(out, undos, b' ')?;
    put_number(out, redos, b'\n')
}

/// Writes steps.
fn put_steps(out: &mut Vec<u8>, steps: &[Step]) -> Result<(), AllocError>
    ensures { OnOk result (out.new.items ≡ out.old.items ++ flat_map step_text steps.now) }
{
    'step: for step in steps {
        put_step(out, step)?;
    }
    Ok(())
}

/// Writes steps, the last one first.
fn put_steps_back(out: &mut Vec<u8>, steps: &[Step]) -> Result<(), AllocError>
    ensures { OnOk result (out.new.items ≡ out.old.items ++ flat_map step_text (reverse steps.now)) }
{
    let mut left = steps;
    'step: while let Some((step, others)) = left.split_last() {
        put_step(out, step)?;
        left = others;
    }
    Ok(())
}

/// The journal, in version 2, of a file with this digest, with these past steps from the oldest, and these undone steps,
/// the next to be redone last. It takes time linear in the length of the text, and one allocation, for the text.
pub fn write_journal(
    alloc: Global,
    digest: &[u8],
    past: &[Step],
    undone: &[Step],
) -> Result<Text, AllocError>
    ensures { IfOk result (λ text. text ≡ journal_text (record { digest = digest.now; past = past.now; future = reverse undone.now })) }
{
    let len = step_texts_len(past)
        .saturating_add(step_texts_len(undone))
        .saturating_add(digest.len() as u64)
        .saturating_add(HEAD_LEN);
    let mut out = Vec::with_capacity(alloc, len as usize)?;
    put_head(&mut out, digest, past.len() as u64, undone.len() as u64)?;
    put_steps(&mut out, past)?;
    put_steps_back(&mut out, undone)?;
    Ok(Seq::from_vec(out))
}

/// The journal, in version 2, of a file with this digest, once only the first `undos` of these past steps are past, and the others
/// are the next to be redone, before these future steps. The steps keep their order in the text. It takes time linear in the length
/// of the text, and memory for the text; if they stay in a text of version 1, also for one step at a time.
pub fn write_packed(
    alloc: Global,
    digest: &[u8],
    undos: usize,
    past: &PackedSteps<'_>,
    future: &PackedSteps<'_>,
) -> Result<Text, AllocError>
    requires { undos ≤ length past.now }
    ensures { IfOk result (λ text. text ≡ journal_text (record {
      digest = digest.now;
      past = take undos past.now;
      future = drop undos past.now ++ future.now;
    })) }
{
    let redos = past.len() - undos + future.len();
    let room = past
        .room()
        .saturating_add(future.room())
        .saturating_add(digest.len());
    let mut out = Vec::with_capacity(alloc, room.saturating_add(HEAD_LEN as usize))?;
    put_head(&mut out, digest, undos as u64, redos as u64)?;
    past.put(alloc, &mut out)?;
    future.put(alloc, &mut out)?;
    Ok(Seq::from_vec(out))
}

//! Pieces as text in a journal.

ghost use Rattle.std.specs.Prelude.{◌≡◌, ◌+◌, ◌++◌, ◌∷◌, length, IfSome, IfNone, IfOk, IfErr};
ghost use Rattle.bib_spec.specs.Bytes.{line_feed};
ghost use Rattle.journal_format.specs.JournalText.{numbers, numbers_line, AreNumbers};
ghost use Rattle.journal_format.specs.Wrong.{IsLineOf, BeginsWith, HasWrongLine, HasWrongBytes, BeginsWithPiece, IsWrongPiece};
ghost use Rattle.journal_format.specs.Faults.{StopsWhere};

use crate::cutting::cut;
use crate::fault::Stop;
use crate::numbers::read_number;
use bib_data::Piece;
use bib_text::copied;
use std::alloc::Global;

/// The three numbers of the line, separated by spaces, if the first is not below the place `from`.
fn read_numbers(from: u64, line: &[u8]) -> Option<(u64, u64, u64)>
    ensures some { IfSome result (λ x. AreNumbers from (numbers x.0 x.1 x.2) × (line.now ≡ numbers_line (numbers x.0 x.1 x.2))) }
    ensures none { IfNone result (IsLineOf numbers_line (AreNumbers from) line.now → ⊥) }
{
    let (place, lens) = cut(b' ', line)?;
    let (old_len, new_len) = cut(b' ', lens)?;
    let place = read_number(place)?;
    let old_len = read_number(old_len)?;
    let new_len = read_number(new_len)?;
    if from <= place {
        Some((place, old_len, new_len))
    } else {
        None
    }
}

/// The numbers of a piece whose place is `from` or after it, and the text after their line; or the number of bytes left
/// where the text goes wrong.
fn split_numbers(from: u64, text: &[u8]) -> Result<(u64, u64, u64, &[u8]), usize>
    ensures read { IfOk result (λ x. BeginsWith numbers_line (AreNumbers from) text.now (numbers x.0 x.1 x.2) x.3.now) }
    ensures wrong { IfErr result (HasWrongLine numbers_line (AreNumbers from) text.now) }
{
    let Some((line, rest)) = cut(b'\n', text) else {
        return Err(0);
    };
    match read_numbers(from, line) {
        Some((place, old_len, new_len)) => Ok((place, old_len, new_len, rest)),
        None => Err(text.len()),
    }
}

/// The first `len` bytes, and the text after them and their line feed; or the number of bytes left where the text goes
/// wrong.
fn split_bytes(len: usize, text: &[u8]) -> Result<(&[u8], &[u8]), usize>
    ensures read { IfOk result (λ x. (text.now ≡ x.0.now ++ line_feed ∷ x.1.now) × (length x.0.now ≡ len)) }
    ensures wrong { IfErr result (HasWrongBytes len text.now) }
{
    if text.len() <= len {
        return Err(0);
    }
    let (bytes, rest) = text.split_at(len);
    match rest {
        [b'\n', after @ ..] => Ok((bytes, after)),
        _ => Err(rest.len()),
    }
}

/// The first piece, whose place is `from` or after it, and the text after the piece; or why reading stops.
pub(crate) fn split_piece(alloc: Global, from: u64, text: &[u8]) -> Result<(Piece, &[u8]), Stop>
    ensures read { IfOk result (λ x. BeginsWithPiece from text.now x.0 x.1.now) }
    ensures wrong { IfErr result (StopsWhere (IsWrongPiece from text.now)) }
{
    let (place, old_len, new_len, rest) = split_numbers(from, text)?;
    let (bytes, after) = split_bytes((old_len + new_len) as usize, rest)?;
    let (old, new) = bytes.split_at(old_len as usize);
    let old = copied(alloc, old)?;
    let new = copied(alloc, new)?;
    Ok((Piece { place, old, new }, after))
}

//! The replacement of many tokens by the same bytes.

ghost use Rattle.std.specs.Prelude.{◌≡◌, ◌↔◌, ◌+◌, ◌<◌, ◌≤◌, ◌^◌, ◌++◌, ◌∷◌, length, IsTrue, IfOk, OnOk, IfErr};
ghost use Rattle.bib_spec.specs.Bytes.{file_limit};
ghost use Rattle.bib_tokens.specs.PlacedParts.{tokens_seen};
ghost use Rattle.bib_edit.specs.Limits.{olds_len, news_len};
ghost use Rattle.bib_edit.specs.Replacing.{replaced, covered};
ghost use Rattle.bib_edit.specs.declared.fault.EditFault.TheVariants.{Memory};

use crate::fault::EditFault;
use crate::limits::is_file_too_long;
use bib_store::{Database, ItemList, Piece};
use bib_text::{Seq, copied};
use bib_tokens::Token;
use std::alloc::Global;

/// Adds a piece for each token, which replaces it by the new bytes. It takes memory for a copy of the new bytes for
/// each token.
pub(crate) fn push_replaced(
    alloc: Global,
    pieces: &mut Vec<Piece>,
    tokens: &[Token<'_>],
    new: &[u8],
) -> Result<(), EditFault>
    ensures pieces { OnOk result (pieces.new.items ≡ pieces.old.items ++ replaced new.now (tokens_seen tokens.now)) }
    ensures only { IfErr result (λ fault. fault ≡ Memory) }
{
    pieces.reserve(tokens.len())?;
    for token in tokens {
        pieces.push(Piece {
            place: token.place as u64,
            old: copied(alloc, token.bytes)?,
            new: copied(alloc, new)?,
        })?;
    }
    Ok(())
}

/// This piece, and after it a piece for each token, which replaces it by the new bytes.
pub(crate) fn replaced_after(
    alloc: Global,
    first: Piece,
    tokens: &[Token<'_>],
    new: &[u8],
) -> Result<Seq<Piece>, EditFault>
    ensures pieces { IfOk result (λ pieces. pieces ≡ first ∷ replaced new.now (tokens_seen tokens.now)) }
    ensures only { IfErr result (λ fault. fault ≡ Memory) }
{
    let mut pieces = Vec::new(alloc);
    pieces.push(first)?;
    push_replaced(alloc, &mut pieces, tokens, new)?;
    Ok(Seq::from_vec(pieces))
}

/// How many bytes the tokens have together.
fn covered(tokens: &[Token<'_>]) -> usize
    requires { covered (tokens_seen tokens.now) < 2 ^ 64 }
    ensures { result ≡ covered (tokens_seen tokens.now) }
{
    let mut len = 0;
    for token in tokens {
        len += token.bytes.len();
    }
    len
}

/// Whether the file would be too long if the new bytes replaced each token, `gone` other bytes went and `come` other
/// bytes came. Nothing is built.
pub(crate) fn is_result_too_long<L: ItemList>(
    db: &Database<L>,
    tokens: &[Token<'_>],
    new: &[u8],
    gone: usize,
    come: usize,
) -> bool
    requires inside { gone + olds_len (replaced new.now (tokens_seen tokens.now)) ≤ length db.now }
    ensures { IsTrue result ↔ file_limit + (gone + olds_len (replaced new.now (tokens_seen tokens.now))) < length db.now + (come + news_len (replaced new.now (tokens_seen tokens.now))) }
{
    db.opens();
    let new_len = tokens.len().saturating_mul(new.len()).saturating_add(come);
    is_file_too_long(db, gone + covered(tokens), new_len)
}

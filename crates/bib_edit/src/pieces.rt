//! Pieces that are made of bytes.

ghost use Rattle.std.specs.Prelude.{◌≡◌, [], ◌∷◌, IfOk, IfErr};
ghost use Rattle.bib_store.specs.Readings.{OfReading, IsItemGap};
ghost use Rattle.bib_edit.specs.NewEntries.{insertion_of};
ghost use Rattle.bib_edit.specs.declared.fault.EditFault.TheVariants.{Memory};

use crate::fault::EditFault;
use bib_store::{Database, ItemList, Piece};
use bib_text::{Seq, Text};
use std::alloc::Global;

/// The list of this one piece.
pub(crate) fn one_piece(alloc: Global, piece: Piece) -> Result<Seq<Piece>, EditFault>
    ensures pieces { IfOk result (λ pieces. pieces ≡ piece ∷ []) }
    ensures only { IfErr result (λ fault. fault ≡ Memory) }
{
    let mut pieces = Vec::with_capacity(alloc, 1)?;
    pieces.push(piece)?;
    Ok(Seq::from_vec(pieces))
}

/// The piece that puts this text in before item `n`, or at the end of the file.
pub(crate) fn insertion_of<L: ItemList>(
    alloc: Global,
    db: &Database<L>,
    n: usize,
    text: Text,
) -> Piece
    requires { IsItemGap db.now n }
    ensures { OfReading db.now (λ r. result ≡ insertion_of r n text) }
{
    Piece {
        place: db.item_place(n) as u64,
        old: Seq::empty(alloc),
        new: text,
    }
}

//! An edit inside a piece of its step.

ghost use Rattle.std.specs.Prelude.{◌≡◌, ◌+◌, ◌-◌, ◌≤◌, ◌++◌, length, take, drop, vec_len, vec_capacity, OnOk, OnErr};
ghost use Rattle.bib_spec.specs.Bytes.{file_limit};
ghost use Rattle.bib_spec.specs.Pieces.{EndBy, applied, reversed};
ghost use Rattle.history_spec.specs.Composing.{ends_of};
ghost use Rattle.history_spec.specs.Steps.{IsAllowed};
ghost use Rattle.bib_steps.specs.Amending.{HasSpot, edited, edited_at};

use crate::stepping::go_on;
use bib_steps::{Spot, renew_ends_after, replace as replace_items};
use bib_store::{Database, ItemList, Piece};
use bib_text::Seq;
use std::alloc::{AllocError, Global};
use std::mem::replace;

/// The bytes after the first `count`, if there are more.
fn after(text: &[u8], count: usize) -> &[u8]
    ensures { result.now ≡ drop count text.now }
{
    text.split_at(count.min(text.len())).1
}

/// Adds bytes at the end of a text, where there is room.
fn extend_within_capacity(text: &mut Vec<u8>, more: &[u8])
    requires { vec_len text.old + length more.now ≤ vec_capacity text.old }
    ensures { text.new.items ≡ text.old.items ++ more.now }
{
    match text.extend_from_slice(more) {
        Ok(()) => {}
        Err(_) => unreachable!(),
    }
}

/// Puts bytes in place of `count` others from this one on, or of as many as there are. There is room for them.
fn replace_bytes(text: &mut Vec<u8>, byte: usize, count: usize, new: Vec<u8>)
    requires inside { byte ≤ vec_len text.old }
    requires room { vec_len text.old + vec_len new ≤ vec_capacity text.old }
    ensures { text.new.items ≡ take byte text.old.items ++ (new.items ++ drop (byte + count) text.old.items) }
{
    let to = byte + count.min(text.len() - byte);
    replace_items(text, byte, to, new);
}

/// Makes pieces that lead to a file. One of them begins at this byte of the second of two texts, and changes both.
fn make_in_texts<L: ItemList>(
    alloc: Global,
    db: &mut Database<L>,
    old: &mut Vec<u8>,
    new: &mut Vec<u8>,
    byte: usize,
    pieces: &[Piece],
    more: &Piece,
) -> Result<(), AllocError>
    requires allowed { IsAllowed pieces.now db.old }
    requires inside { byte ≤ length new.old.items }
    ensures made { OnOk result (db.new ≡ applied pieces.now db.old) }
    ensures old { OnOk result (old.new.items ≡ old.old.items ++ drop (length new.old.items - byte) more.now.old) }
    ensures new { OnOk result (new.new.items ≡ take byte new.old.items ++ (more.now.new ++ drop (byte + length more.now.old) new.old.items)) }
    ensures same_old { OnErr result (old.new.items ≡ old.old.items) }
    ensures same_new { OnErr result (new.new.items ≡ new.old.items) }
    ensures err { OnErr result (db.new ≡ db.old) }
{
    let past = after(more.old.as_slice(), new.len() - byte);
    let come = more.new.as_slice().to_vec(alloc)?;
    old.reserve(past.len())?;
    new.reserve(come.len())?;
    go_on(db, pieces)?;
    extend_within_capacity(old, past);
    replace_bytes(new, byte, more.old.as_slice().len(), come);
    Ok(())
}

/// Makes pieces that lead to a file. One of them begins at this byte of the new text of another piece, which changes
/// accordingly.
fn make_in_piece<L: ItemList>(
    alloc: Global,
    db: &mut Database<L>,
    piece: &mut Piece,
    byte: usize,
    pieces: &[Piece],
    more: &Piece,
) -> Result<(), AllocError>
    requires allowed { IsAllowed pieces.now db.old }
    requires inside { byte ≤ length piece.now.new }
    ensures made { OnOk result (db.new ≡ applied pieces.now db.old) }
    ensures edited { OnOk result (piece.exit.now ≡ edited byte more.now piece.entry.now) }
    ensures same { OnErr result (piece.exit.now ≡ piece.entry.now) }
    ensures err { OnErr result (db.new ≡ db.old) }
{
    let mut old = replace(&mut piece.old, Seq::empty(alloc)).into_vec();
    let mut new = replace(&mut piece.new, Seq::empty(alloc)).into_vec();
    let made = make_in_texts(alloc, db, &mut old, &mut new, byte, pieces, more);
    piece.old = Seq::from_vec(old);
    piece.new = Seq::from_vec(new);
    made
}

/// Makes pieces that lead to a file. One of them begins at this spot of a list of pieces, and the piece there and the ends
/// change accordingly.
pub(crate) fn make_inside<L: ItemList>(
    alloc: Global,
    db: &mut Database<L>,
    list: &mut Vec<Piece>,
    ends: &mut Vec<u64>,
    spot: Spot,
    pieces: &[Piece],
    more: &Piece,
) -> Result<(), AllocError>
    requires allowed { IsAllowed pieces.now db.old }
    requires spot { HasSpot spot.position spot.byte list.old.items }
    requires ends { ends.old.items ≡ ends_of list.old.items }
    requires short { EndBy file_limit (edited_at spot.position spot.byte more.now list.old.items) }
    requires short_ends { EndBy file_limit (reversed (edited_at spot.position spot.byte more.now list.old.items)) }
    ensures made { OnOk result (db.new ≡ applied pieces.now db.old) }
    ensures list { OnOk result (list.new.items ≡ edited_at spot.position spot.byte more.now list.old.items) }
    ensures ends { OnOk result (ends.new.items ≡ ends_of list.new.items) }
    ensures same { OnErr result (list.new.items ≡ list.old.items) }
    ensures same_ends { OnErr result (ends.new.items ≡ ends.old.items) }
    ensures err { OnErr result (db.new ≡ db.old) }
{
    let piece = &mut list[spot.position];
    make_in_piece(alloc, db, piece, spot.byte, pieces, more)?;
    renew_ends_after(ends, list.as_slice(), spot.position);
    Ok(())
}

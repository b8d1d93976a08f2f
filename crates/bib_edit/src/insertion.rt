//! Plans the insertion of a text.

ghost use Rattle.std.specs.Prelude.{◌≡◌, ◌≢◌, ◌++◌, OnOk, IfOk, IfErr};
ghost use Rattle.bib_spec.specs.Reading.{bytes_of};
ghost use Rattle.bib_store.specs.Readings.{OfReading};
ghost use Rattle.insert_spec.specs.Insertion.{ends_line, line_end_before};
ghost use Rattle.bib_edit.specs.Insertions.{AreInsertionPieces, IsPlanned, IsInsertionRefusal, IsInsertable};
ghost use Rattle.bib_edit.specs.declared.fault.EditFault.TheVariants.{Memory, TextTooLong};

use crate::clashes::{is_key_taken, is_name_taken};
use crate::fault::EditFault;
use crate::limits::is_file_too_long;
use crate::new_entries::put_in;
use crate::taking_out::continues_cleanly;
use bib_store::{Database, ItemList, Piece};
use bib_text::{Seq, Text};
use std::alloc::Global;

/// Whether the text ends a line: it is empty, or its last byte is a line feed.
fn is_line(text: &[u8]) -> bool
    ensures { result ≡ ends_line text.now }
{
    match text.last() {
        Some(byte) => *byte == b'\n',
        None => true,
    }
}

/// Whether the file ends a line. It looks at the last item alone.
fn ends_line<L: ItemList>(db: &Database<L>) -> bool
    ensures { OfReading db.now (λ r. result ≡ ends_line (bytes_of r)) }
{
    db.opens();
    let count = db.item_count();
    if count == 0 {
        return is_line(db.front());
    }
    let last = db.item(count - 1);
    if last.trail().is_empty() {
        return is_line(last.body());
    }
    is_line(last.trail())
}

/// The line's end that is put before the text, or nothing: a text after a line that isn't ended begins a line.
fn line_end_before<L: ItemList, M: ItemList>(
    db: &Database<L>,
    position: usize,
    text: &Database<M>,
) -> &'static [u8]
    ensures { OfReading db.now (λ r. OfReading text.now (λ new. result.now ≡ line_end_before position new r)) }
{
    if position == db.item_count() && text.byte_count() > 0 && !ends_line(db) {
        return b"\n";
    }
    b""
}

/// These bytes, and others after them.
fn joined(alloc: Global, first: &[u8], more: &[u8]) -> Result<Text, EditFault>
    ensures joined { IfOk result (λ text. text ≡ first.now ++ more.now) }
    ensures only { IfErr result (λ fault. fault ≡ Memory) }
{
    let mut text = Vec::with_capacity(alloc, first.len().saturating_add(more.len()))?;
    text.extend_from_slice(first)?;
    text.extend_from_slice(more)?;
    Ok(Seq::from_vec(text))
}

/// The bytes of the text, after these.
fn bytes_after<M: ItemList>(
    alloc: Global,
    line: &[u8],
    text: &Database<M>,
) -> Result<Text, EditFault>
    ensures bytes { IfOk result (λ bytes. bytes ≡ line.now ++ text.now) }
    ensures only { IfErr result (λ fault. fault ≡ Memory) }
{
    match text.bytes() {
        Ok(bytes) => joined(alloc, line, bytes.as_slice()),
        Err(_) => Err(EditFault::Memory),
    }
}

/// Refuses a text that can't be put in before item `position`, after this line's end or nothing. No length is looked at.
fn judge<L: ItemList, M: ItemList>(
    alloc: Global,
    db: &Database<L>,
    position: usize,
    text: &Database<M>,
    line: &[u8],
) -> Result<(), EditFault>
    requires { OfReading db.now (λ r. OfReading text.now (λ new. line.now ≡ line_end_before position new r)) }
    ensures insertable { OnOk result (OfReading db.now (λ r. OfReading text.now (λ new. IsInsertable position new r))) }
    ensures refused { IfErr result (IsInsertionRefusal db.now text.now position) }
    ensures short { IfErr result (λ fault. fault ≢ TextTooLong) }
{
    if position > db.item_count() {
        return Err(EditFault::BadPosition);
    }
    if is_key_taken(db, text) {
        return Err(EditFault::KeyInUse);
    }
    if is_name_taken(db, text) {
        return Err(EditFault::NameInUse);
    }
    let front = joined(alloc, line, text.front())?;
    if !continues_cleanly(alloc, db, position, front.as_slice())? {
        return Err(EditFault::WouldMerge);
    }
    Ok(())
}

/// The pieces that put a text, byte for byte, into the file before item `position`, or the first reason against it. At the
/// end of a file that doesn't end a line, a line's end is put before the text. Whether a raw text would be too long isn't
/// looked at: the caller finds that out when it applies the pieces. It takes time and memory in the length of the text and
/// of the texts beside the position, and look-ups for each key and each macro of the text. (dialect)
pub fn plan_insertion<L: ItemList, M: ItemList>(
    alloc: Global,
    db: &Database<L>,
    position: usize,
    text: &Database<M>,
) -> Result<Seq<Piece>, EditFault>
    ensures pieces { IfOk result (AreInsertionPieces db.now text.now position) }
    ensures planned { OnOk result (IsPlanned db.now text.now position) }
    ensures refused { IfErr result (IsInsertionRefusal db.now text.now position) }
    ensures short { IfErr result (λ fault. fault ≢ TextTooLong) }
{
    text.opens();
    let line = line_end_before(db, position, text);
    judge(alloc, db, position, text, line)?;
    let bytes = bytes_after(alloc, line, text)?;
    if is_file_too_long(db, 0, bytes.as_slice().len()) {
        return Err(EditFault::FileTooLong);
    }
    put_in(alloc, db, position, bytes)
}

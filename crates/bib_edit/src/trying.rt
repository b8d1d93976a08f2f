//! Tries pieces on a copy of the file: whether what they make is too long.

ghost use Rattle.std.specs.Prelude.{◌≡◌, ◌↔◌, ◌≤◌, IsTrue, IfOk, IfErr, OnOk};
ghost use Rattle.bib_spec.specs.Bytes.{file_limit};
ghost use Rattle.bib_spec.specs.Texts.{IsOpenable};
ghost use Rattle.bib_spec.specs.Pieces.{Fit, applied};
ghost use Rattle.bib_edit.specs.Limits.{olds_len};
ghost use Rattle.bib_edit.specs.MacroValues.{MakeShortFile, MakeOpenFile, IsLengthFault};
ghost use Rattle.bib_edit.specs.declared.fault.EditFault.TheVariants.{Memory};

use crate::fault::EditFault;
use crate::limits::are_too_long;
use bib_store::{Database, ItemList, Paged, Piece, StoreFault};
use bib_text::Seq;
use std::alloc::Global;

/// Closes a copy.
fn close(_copy: Database<Paged>) {}

/// The same file, opened again.
fn copy_of<L: ItemList>(alloc: Global, db: &Database<L>) -> Result<Database<Paged>, EditFault>
    ensures copy { IfOk result (λ copy. copy ≡ db.now) }
    ensures only { IfErr result (λ fault. fault ≡ Memory) }
{
    let file = match db.bytes() {
        Ok(file) => file,
        Err(_) => return Err(EditFault::Memory),
    };
    match Database::open_file(alloc, file.into_vec(), Paged::new(alloc)) {
        Ok(copy) => Ok(copy),
        Err(_) => Err(EditFault::Memory),
    }
}

/// Whether these pieces, which fit the file, lead to one that can be opened. If they do, the file is that one.
fn lead_on(copy: &mut Database<Paged>, pieces: &[Piece]) -> Result<bool, EditFault>
    requires { Fit pieces.now copy.old }
    ensures opens { IfOk result (λ opens. IsTrue opens ↔ IsOpenable (applied pieces.now copy.old)) }
    ensures only { IfErr result (λ fault. fault ≡ Memory) }
{
    match copy.splice(pieces) {
        Ok(()) => Ok(true),
        Err(StoreFault::BadSplice) => Ok(false),
        Err(_) => Err(EditFault::Memory),
    }
}

/// Whether these pieces, which fit the file, make one that can be opened. It takes time and memory as opening the file does.
fn make_open_file<L: ItemList>(
    alloc: Global,
    db: &Database<L>,
    pieces: &[Piece],
) -> Result<bool, EditFault>
    requires { Fit pieces.now db.now }
    ensures opens { IfOk result (λ opens. IsTrue opens ↔ IsOpenable (applied pieces.now db.now)) }
    ensures only { IfErr result (λ fault. fault ≡ Memory) }
{
    match copy_of(alloc, db) {
        Ok(mut copy) => {
            let opens = lead_on(&mut copy, pieces);
            close(copy);
            opens
        }
        Err(fault) => Err(fault),
    }
}

/// These pieces, which fit the file, unless the file that they make would be too long, or a raw text in it. A text may be too long
/// in any item after the pieces, so they are tried on a copy of the file if it is not known that all texts are short: then it takes
/// time and memory as opening the file does.
pub(crate) fn unless_too_long<L: ItemList>(
    alloc: Global,
    db: &Database<L>,
    pieces: Seq<Piece>,
    are_texts_short: bool,
) -> Result<Seq<Piece>, EditFault>
    requires fit { Fit pieces db.now }
    requires goes { olds_len pieces ≤ file_limit }
    requires short { IsTrue are_texts_short → MakeShortFile pieces db.now → IsOpenable (applied pieces db.now) }
    ensures same { IfOk result (λ same. same ≡ pieces) }
    ensures opens { OnOk result (MakeOpenFile pieces db.now) }
    ensures refused { IfErr result (IsLengthFault pieces db.now) }
{
    if are_too_long(db, pieces.as_slice()) {
        return Err(EditFault::FileTooLong);
    }
    if are_texts_short {
        return Ok(pieces);
    }
    if !make_open_file(alloc, db, pieces.as_slice())? {
        return Err(EditFault::TextTooLong);
    }
    Ok(pieces)
}

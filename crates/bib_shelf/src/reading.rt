//! Reading each file of a shelf by itself.

ghost use Rattle.std.specs.Prelude.{◌≡◌, ◌<◌, ◌≤◌, ◌+◌, List, length, Some, slice_get, IfErr, OnOk};
ghost use Rattle.bib_spec.specs.Bytes.{file_limit};
ghost use Rattle.bib_spec.specs.Fault.{IsReadFault};
ghost use Rattle.bib_spec.specs.Text.{Text as FileText};
ghost use Rattle.bib_spec.specs.Texts.{IsOpenable};
ghost use Rattle.shelf_spec.specs.Numbers.{first_place};
ghost use Rattle.bib_shelf.specs.Joined.{AreJoined, AreOfShelf};
ghost use Rattle.bib_shelf.specs.Faults.{HaveTheirPlaces, RefusesShelf};

use crate::counting::are_parted;
use crate::fault::ShelfFault;
use crate::locating::bytes_between;
use bib_scan::{FILE_LIMIT, ReadFault, read};
use bib_store::{Database, ItemList};
use std::alloc::Global;

/// The fault of file `i`, which was read by itself.
fn fault_of(i: usize, fault: ReadFault) -> ShelfFault
    ensures { (files : List FileText) (text : FileText) → slice_get files i ≡ Some text → HaveTheirPlaces files i → first_place i files + length text ≤ file_limit
        → IsReadFault text fault.kind fault.place → RefusesShelf files result.kind result.place result.file }
{
    if fault.is_memory() {
        return ShelfFault::MEMORY;
    }
    ShelfFault::in_file(i, fault)
}

/// Reads file `i` by itself, if it ends in the shelf within the limit.
fn read_file(
    alloc: Global,
    text: &[u8],
    spans: &[(usize, usize)],
    i: usize,
) -> Result<(), ShelfFault>
    requires joined { AreOfShelf text.now spans.now }
    requires file { i < length spans.now }
    ensures read { OnOk result ((files : List FileText) → AreJoined files (record { text = text.now; spans = spans.now }) → HaveTheirPlaces files i → HaveTheirPlaces files (i + 1)) }
    ensures fault { IfErr result (λ fault. (files : List FileText) → AreJoined files (record { text = text.now; spans = spans.now }) → HaveTheirPlaces files i → RefusesShelf files fault.kind fault.place fault.file) }
{
    let (start, end) = spans[i];
    if end > FILE_LIMIT {
        return Err(ShelfFault {
            kind: ReadFault::TOO_LONG.kind,
            place: FILE_LIMIT.saturating_sub(start),
            file: i,
        });
    }
    let file = bytes_between(text, start, end);
    match read(alloc, file) {
        Ok(_) => Ok(()),
        Err(fault) => Err(fault_of(i, fault)),
    }
}

/// Reads each file by itself, in order, up to the first that is at fault.
pub(crate) fn read_each(
    alloc: Global,
    text: &[u8],
    spans: &[(usize, usize)],
) -> Result<(), ShelfFault>
    requires { AreOfShelf text.now spans.now }
    ensures read { OnOk result ((files : List FileText) → AreJoined files (record { text = text.now; spans = spans.now }) → HaveTheirPlaces files (length files)) }
    ensures fault { IfErr result (λ fault. (files : List FileText) → AreJoined files (record { text = text.now; spans = spans.now }) → RefusesShelf files fault.kind fault.place fault.file) }
{
    'files: for i in 0..spans.len() {
        read_file(alloc, text, spans, i)?;
    }
    Ok(())
}

/// Whether each file is valid by itself, if all together are. If an item begins at each seam, they are, and nothing is read.
/// Otherwise an item goes on from one file into the next, and each file is read by itself, to find which.
pub(crate) fn check_each<L: ItemList>(
    alloc: Global,
    db: &Database<L>,
    spans: &[(usize, usize)],
) -> Result<(), ShelfFault>
    requires { AreOfShelf db.now spans.now }
    ensures read { OnOk result ((files : List FileText) → AreJoined files (record { text = db.now; spans = spans.now }) → IsOpenable db.now → HaveTheirPlaces files (length files)) }
    ensures fault { IfErr result (λ fault. (files : List FileText) → AreJoined files (record { text = db.now; spans = spans.now }) → RefusesShelf files fault.kind fault.place fault.file) }
{
    if are_parted(db, spans) {
        return Ok(());
    }
    match db.bytes() {
        Ok(text) => read_each(alloc, text.as_slice(), spans),
        Err(_) => Err(ShelfFault::MEMORY),
    }
}

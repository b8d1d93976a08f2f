//! Taking a file's bytes and items in.

ghost use Rattle.std.specs.Prelude.{◌≡◌, ◌≤◌, [], length, IfOk, IfErr};
ghost use Rattle.bib_spec.specs.Bytes.{file_limit};
ghost use Rattle.bib_scan.specs.Layout.{IsLayoutOf};
ghost use Rattle.bib_store.specs.Readings.{OfReading, IsOpenFault};
ghost use Rattle.bib_store.specs.Stored.{IsTaken};
ghost use Rattle.bib_items.specs.Items.{all_stored};
ghost use Rattle.bib_items.specs.declared.fault.StoreFault.TheVariants.{Memory};

use bib_items::{ItemList, StoreFault};
use bib_scan::{FILE_LIMIT, Layout, Note, ReadFault};
use bib_text::{Seq, Text};
use std::alloc::Global;

/// A copy of a file's bytes. More bytes than a file may have are refused with 9, and with 10 if memory runs out.
pub(crate) fn copied(alloc: Global, bytes: &[u8]) -> Result<Vec<u8>, ReadFault>
    ensures copy { IfOk result (λ file. file.items ≡ bytes.now) }
    ensures fault { IfErr result (λ fault. IsOpenFault bytes.now fault.kind fault.place) }
{
    if bytes.len() > FILE_LIMIT {
        return Err(ReadFault::TOO_LONG);
    }
    match Vec::from_slice(alloc, bytes) {
        Ok(file) => Ok(file),
        Err(_) => Err(ReadFault::MEMORY),
    }
}

/// The front and the items of a file, as they are kept. The list may keep the file's memory instead of copies.
fn keep_file<L: ItemList>(
    alloc: Global,
    layout: &Layout,
    file: Vec<u8>,
    empty: L,
) -> Result<(Text, L), StoreFault>
    requires layout { IsLayoutOf file.items layout.now }
    requires empty { L.items empty ≡ [] }
    ensures front { IfOk result (λ kept. OfReading file.items (λ db. kept.0 ≡ db.front)) }
    ensures items { IfOk result (λ kept. OfReading file.items (λ db. L.items kept.1 ≡ all_stored db.items)) }
    ensures only { IfErr result (λ fault. fault ≡ Memory) }
{
    let front = Vec::from_slice(alloc, layout.front(file.as_slice()))?;
    let mut items = empty;
    items.take_in(0, file, layout)?;
    Ok((Seq::from_vec(front), items))
}

/// The front and the items of this file, as they are kept, and what was noted of the items. The list may keep the file's
/// memory instead of copies.
pub(crate) fn take_file<L: ItemList>(
    alloc: Global,
    layout: Layout,
    file: Vec<u8>,
    empty: L,
) -> Result<(Text, L, Seq<Note>), ReadFault>
    requires layout { (length file.items ≤ file_limit) × IsLayoutOf file.items layout }
    requires empty { L.items empty ≡ [] }
    ensures taken { IfOk result (λ kept. IsTaken file.items kept.0 (L.items kept.1) kept.2) }
    ensures fault { IfErr result (λ fault. IsOpenFault file.items fault.kind fault.place) }
    ensures only { IfErr result (λ fault. fault.kind ≡ 10) }
{
    match keep_file(alloc, &layout, file, empty) {
        Ok((front, items)) => Ok((front, items, layout.into_notes())),
        Err(_) => Err(ReadFault::MEMORY),
    }
}

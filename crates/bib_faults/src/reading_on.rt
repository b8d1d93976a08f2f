//! All faults of a file.

ghost use Rattle.std.specs.Prelude.{◌≡◌, ◌≤◌, ◌++◌, ◌∷◌, [], None, List, length, map, IfOk, IfErr, IfSome, OnOk};
ghost use Rattle.bib_spec.specs.Bytes.{file_limit};
ghost use Rattle.bib_spec.specs.Reading.{HasReading};
ghost use Rattle.bib_faults.specs.GoingOn.{Fault, IsFirstFault, Faults};
ghost use Rattle.bib_faults.specs.Told.{told, IsUnlisted};

use bib_scan::{FILE_LIMIT, ReadFault, read};
use bib_text::Seq;
use std::alloc::Global;

/// The first fault of a text, if it has one.
fn first_fault(alloc: Global, text: &[u8]) -> Result<Option<ReadFault>, ReadFault>
    requires { length text.now ≤ file_limit }
    ensures none { IfOk result (λ found. found ≡ None → HasReading text.now) }
    ensures first { IfOk result (λ found. IfSome found (λ fault. (first : Fault) × IsFirstFault 0 text.now first × (fault ≡ told first))) }
    ensures memory { IfErr result (λ fault. (fault.kind ≡ 10) × (fault.place ≡ 0)) }
{
    match read(alloc, text) {
        Ok(_) => Ok(None),
        Err(fault) if fault.is_memory() => Err(ReadFault::MEMORY),
        Err(fault) => Ok(Some(fault)),
    }
}

/// Adds a fault. The one refusal is want of memory.
fn keep(faults: &mut Vec<ReadFault>, fault: ReadFault) -> Result<(), ReadFault>
    ensures kept { OnOk result (faults.new.items ≡ faults.old.items ++ fault ∷ []) }
    ensures memory { IfErr result (λ fault. (fault.kind ≡ 10) × (fault.place ≡ 0)) }
{
    match faults.push(fault) {
        Ok(()) => Ok(()),
        Err(_) => Err(ReadFault::MEMORY),
    }
}

/// All faults of a file, in the order of their places; none if the file is valid. The first is the one that `read` reports.
/// After a fault reading goes on, as BibTeX does, with the first at-sign at or after its place that begins an item: the bytes
/// from that place on are read as a file of their own. It takes one pass over the bytes: what it reads of an item that breaks
/// off, it does not read again, except the white space and the name after an at-sign. It takes memory for the faults, and for
/// the places of the items between two of them. Refused with 9 at `FILE_LIMIT` if the file is longer, which is tested first,
/// and with 10 if memory ran out.
pub fn read_all(alloc: Global, bytes: &[u8]) -> Result<Seq<ReadFault>, ReadFault>
    ensures faults { IfOk result (λ list. (faults : List Fault) × Faults bytes.now faults × (list ≡ map told faults)) }
    ensures short { OnOk result (length bytes.now ≤ file_limit) }
    ensures unlisted { IfErr result (λ fault. IsUnlisted bytes.now fault.kind fault.place) }
{
    if bytes.len() > FILE_LIMIT {
        return Err(ReadFault::TOO_LONG);
    }
    let mut faults = Vec::new(alloc);
    let mut rest = bytes;
    'read: while let Some(fault) = first_fault(alloc, rest)? {
        let place = (bytes.len() - rest.len()) + fault.place;
        let kind = fault.kind;
        keep(&mut faults, ReadFault { kind, place })?;
        rest = rest.split_at(fault.place).1;
    }
    Ok(Seq::from_vec(faults))
}

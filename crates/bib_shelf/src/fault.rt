//! Why files are not on one shelf.

ghost use Rattle.std.specs.Prelude.{◌≡◌, None, Some, if◌then◌else◌, ◌==◌};

use bib_scan::ReadFault;
use std::alloc::AllocError;
use thiserror::Error;

/// Why files are not opened together: the number of the fault, the file that has it, and the place in that file. For 10, out of
/// memory, file and place are 0.
#[derive(Clone, Copy, Debug, PartialEq, Eq, Error)]
#[error("fault {kind} at {place} of file {file}")]
pub struct ShelfFault {
    pub kind: u8,
    pub place: usize,
    pub file: usize,
}

impl ShelfFault {
    /// Out of memory: 10, without a file and without a place.
    pub const MEMORY: ShelfFault = ShelfFault {
        kind: 10,
        place: 0,
        file: 0,
    };

    /// A fault in this file, whose place is counted from the beginning of the file.
    pub fn in_file(file: usize, fault: ReadFault) -> Self
        ensures { result ≡ (record { kind = fault.kind; place = fault.place; file = file }) }
    {
        ShelfFault {
            kind: fault.kind,
            place: fault.place,
            file,
        }
    }

    /// Whether memory ran out.
    pub fn is_memory(&self) -> bool
        ensures { result ≡ (self.now.kind == 10) }
    {
        self.kind == ShelfFault::MEMORY.kind
    }

    /// The fault's number, as docs/FAULTS.md lists them.
    pub fn number(&self) -> u16
        ensures { result ≡ self.now.kind }
    {
        u16::from(self.kind)
    }

    /// The place in the file that is at fault, in bytes from 0; out of memory (10) has no place.
    pub fn place(&self) -> Option<usize>
        ensures { result ≡ (if self.now.kind == 10 then None else Some self.now.place) }
    {
        if self.is_memory() {
            None
        } else {
            Some(self.place)
        }
    }

    /// The number of the file that is at fault, from 0; out of memory (10) has no file.
    pub fn file(&self) -> Option<usize>
        ensures { result ≡ (if self.now.kind == 10 then None else Some self.now.file) }
    {
        if self.is_memory() {
            None
        } else {
            Some(self.file)
        }
    }
}

impl From<AllocError> for ShelfFault {
    ghost use Rattle.std.specs.Prelude.{◌≡◌};
    ghost use Rattle.bib_shelf.specs.declared.fault.TheConstants.ShelfFault.{MEMORY};

    ghost from_gives = { λ _ fault. fault ≡ MEMORY };

    fn from(_error: AllocError) -> Self {
        ShelfFault::MEMORY
    }
}

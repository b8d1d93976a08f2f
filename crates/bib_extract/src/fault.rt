//! Why there is no extract.

ghost use Rattle.std.specs.Prelude.{◌≡◌};
ghost use Rattle.bib_extract.specs.Faults.{fault_number, fault_position};

use std::alloc::{AllocError, AllocFailed};
use thiserror::Error;

/// Why there is no extract of a file.
#[derive(Clone, Copy, Debug, PartialEq, Eq, Error)]
pub enum ExtractFault {
    /// The extract is longer than 16,777,216 bytes: longer than a file may be.
    #[error("9 FileTooLong")]
    FileTooLong,
    /// A request for memory was refused.
    #[error("10 Memory")]
    Memory,
    /// The key at this position, counted from 0, finds no entry; each key before it finds one.
    #[error("11 NoSuchEntry")]
    NoSuchEntry(usize),
}

impl ExtractFault {
    /// The fault's number in docs/FAULTS.md.
    pub fn number(&self) -> u16
        ensures { result ≡ fault_number self.now }
    {
        match self {
            ExtractFault::FileTooLong => 9,
            ExtractFault::Memory => 10,
            ExtractFault::NoSuchEntry(_) => 11,
        }
    }

    /// The position of the key that finds no entry, if that is the fault.
    pub fn position(&self) -> Option<usize>
        ensures { result ≡ fault_position self.now }
    {
        match self {
            ExtractFault::NoSuchEntry(position) => Some(*position),
            ExtractFault::FileTooLong | ExtractFault::Memory => None,
        }
    }
}

impl From<AllocError> for ExtractFault {
    ghost use Rattle.std.specs.Prelude.{◌≡◌};
    ghost use Rattle.bib_extract.specs.declared.fault.ExtractFault.TheVariants.{Memory};

    ghost from_gives = { λ _ fault. fault ≡ Memory };

    fn from(_error: AllocError) -> ExtractFault {
        ExtractFault::Memory
    }
}

impl<T: Drop> From<AllocFailed<T>> for ExtractFault {
    ghost use Rattle.std.specs.Prelude.{◌≡◌};
    ghost use Rattle.bib_extract.specs.declared.fault.ExtractFault.TheVariants.{Memory};

    ghost from_gives = { λ _ fault. fault ≡ Memory };

    fn from(_failed: AllocFailed<T>) -> ExtractFault {
        ExtractFault::Memory
    }
}

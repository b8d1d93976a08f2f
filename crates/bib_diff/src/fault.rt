//! Why no edits are given.

ghost use Rattle.std.specs.Prelude.{◌≡◌};
ghost use Rattle.bib_spec.specs.Text.{Text as Bytes};
ghost use Rattle.bib_spec.specs.Texts.{IsOpenable};
ghost use Rattle.diff_spec.specs.Agreement.{FilesAgree};
ghost use Rattle.bib_diff.specs.Faults.{fault_number};
ghost use Rattle.bib_diff.specs.Leading.{RefusesDiff};

use bib_scan::ReadFault;
use bib_text::Text;
use std::alloc::{AllocError, AllocFailed};

/// Why no edits are given that lead from an old file to a new one.
#[derive(Debug, Drop)]
pub enum DiffFault {
    /// The old file can't be opened.
    Old(ReadFault),
    /// The new file can't be opened.
    New(ReadFault),
    /// No edits were found that lead from one to the other. The key is that of the entry at fault, if one is and has a key.
    NoScript(Option<Text>),
    /// A request for memory was refused.
    Memory,
}

impl DiffFault {
    /// The fault's number: 46 if no edits were found, and otherwise as docs/FAULTS.md lists it.
    pub fn number(&self) -> u16
        ensures { result ≡ fault_number self.now }
    {
        match self {
            DiffFault::Old(fault) | DiffFault::New(fault) => fault.number(),
            DiffFault::NoScript(_) => 46,
            DiffFault::Memory => 10,
        }
    }
}

impl From<AllocError> for DiffFault {
    ghost use Rattle.std.specs.Prelude.{◌≡◌};
    ghost use Rattle.bib_diff.specs.declared.fault.DiffFault.TheVariants.{Memory};

    ghost from_gives = { λ _ fault. fault ≡ Memory };

    fn from(_error: AllocError) -> DiffFault {
        DiffFault::Memory
    }
}

/// Why a search for edits ends without any.
#[derive(Debug, Drop)]
pub(crate) enum Stop {
    /// No edits are found that make an entry what it should be: the key of the entry, if it has one.
    Lost(Option<Text>),
    /// A request for memory was refused.
    Memory,
}

impl From<AllocError> for Stop {
    fn from(_error: AllocError) -> Stop {
        Stop::Memory
    }
}

impl<T: Drop> From<AllocFailed<T>> for Stop {
    fn from(_failed: AllocFailed<T>) -> Stop {
        Stop::Memory
    }
}

/// Why no edits are given, if the search for them ends so.
pub(crate) fn fault_of(stop: Stop) -> DiffFault
    ensures { (old new : Bytes) → (FilesAgree old new → ⊥) → IsOpenable old → IsOpenable new → RefusesDiff result old new }
{
    match stop {
        Stop::Lost(key) => DiffFault::NoScript(key),
        Stop::Memory => DiffFault::Memory,
    }
}

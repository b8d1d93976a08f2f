//! Why a RIS text gives no entries.

ghost use Rattle.std.specs.Prelude.{◌≡◌};
ghost use Rattle.bib_ris.specs.Faults.{fault_number, fault_place};

use ris_format::MappingFault;
use ris_text::RisFault;
use std::alloc::{AllocError, AllocFailed};
use thiserror::Error;

/// Why a RIS text gives no entries.
#[derive(Clone, Copy, Debug, PartialEq, Eq, Error)]
pub enum ImportFault {
    /// The text is not read.
    #[error("{0}")]
    Unread(RisFault),
    /// The braces of a record's text do not balance, so no braced value says it.
    #[error("64 UnbalancedText")]
    UnbalancedText,
    /// A line of the text is skipped, the first at this place.
    #[error("65 SkippedLine at {0}")]
    SkippedLine(usize),
    /// A request for memory was refused.
    #[error("10 Memory")]
    Memory,
}

impl ImportFault {
    /// The fault's number, as docs/FAULTS.md lists them.
    pub fn number(&self) -> u16
        ensures { result ≡ fault_number self.now }
    {
        match self {
            ImportFault::Unread(fault) => fault.number(),
            ImportFault::UnbalancedText => 64,
            ImportFault::SkippedLine(_) => 65,
            ImportFault::Memory => 10,
        }
    }

    /// If the text is not read: the first byte of the line that is wrong, or the text's length if the text ends too
    /// early. If a line is skipped: its first byte.
    pub fn place(&self) -> Option<usize>
        ensures { result ≡ fault_place self.now }
    {
        match self {
            ImportFault::Unread(fault) => fault.place(),
            ImportFault::SkippedLine(place) => Some(*place),
            ImportFault::UnbalancedText | ImportFault::Memory => None,
        }
    }
}

impl From<RisFault> for ImportFault {
    ghost use Rattle.std.specs.Prelude.{◌≡◌};
    ghost use Rattle.bib_ris.specs.Faults.{unread};

    ghost from_gives = { λ error fault. fault ≡ unread error };

    fn from(error: RisFault) -> Self {
        match error {
            RisFault::Memory => ImportFault::Memory,
            RisFault::NoStart(_) | RisFault::NoEnd(_) | RisFault::EmptyType(_) => {
                ImportFault::Unread(error)
            }
        }
    }
}

impl From<MappingFault> for ImportFault {
    ghost use Rattle.std.specs.Prelude.{◌≡◌};
    ghost use Rattle.bib_ris.specs.Faults.{unmapped};

    ghost from_gives = { λ error fault. fault ≡ unmapped error };

    fn from(error: MappingFault) -> Self {
        match error {
            MappingFault::UnbalancedText => ImportFault::UnbalancedText,
            MappingFault::Memory => ImportFault::Memory,
        }
    }
}

impl From<AllocError> for ImportFault {
    ghost use Rattle.std.specs.Prelude.{◌≡◌};
    ghost use Rattle.bib_ris.specs.declared.fault.ImportFault.TheVariants.{Memory};

    ghost from_gives = { λ _ fault. fault ≡ Memory };

    fn from(_error: AllocError) -> Self {
        ImportFault::Memory
    }
}

impl<T: Drop> From<AllocFailed<T>> for ImportFault {
    ghost use Rattle.std.specs.Prelude.{◌≡◌};
    ghost use Rattle.bib_ris.specs.declared.fault.ImportFault.TheVariants.{Memory};

    ghost from_gives = { λ _ fault. fault ≡ Memory };

    fn from(_failed: AllocFailed<T>) -> Self {
        ImportFault::Memory
    }
}

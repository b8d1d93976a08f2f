//! Why a name or a template is refused.

ghost use Rattle.std.specs.Prelude.{◌≡◌, None};
ghost use Rattle.bib_names.specs.Faults.{number_of};

use std::alloc::{AllocError, AllocFailed};
use thiserror::Error;

/// Why a name or a template is refused, or that memory ran out.
#[derive(Clone, Copy, Debug, PartialEq, Eq, Error)]
pub enum NameFault {
    #[error("10 Memory")]
    Memory,
    #[error("21 TooManyCommas")]
    TooManyCommas,
    #[error("22 UnbalancedName")]
    UnbalancedName,
    #[error("23 BadTemplate")]
    BadTemplate,
}

impl NameFault {
    /// The fault's number, as docs/FAULTS.md lists them.
    pub fn number(&self) -> u16
        ensures { result ≡ number_of self.now }
    {
        match self {
            NameFault::Memory => 10,
            NameFault::TooManyCommas => 21,
            NameFault::UnbalancedName => 22,
            NameFault::BadTemplate => 23,
        }
    }

    /// None: these faults are about the whole text.
    pub fn place(&self) -> Option<usize>
        ensures { result ≡ None }
    {
        None
    }
}

impl From<AllocError> for NameFault {
    ghost use Rattle.std.specs.Prelude.{◌≡◌};
    ghost use Rattle.bib_names.specs.declared.fault.NameFault.TheVariants.{Memory as MemoryFault};

    ghost from_gives = { λ _ e. e ≡ MemoryFault };

    fn from(_error: AllocError) -> Self {
        NameFault::Memory
    }
}

impl<T: Drop> From<AllocFailed<T>> for NameFault {
    ghost use Rattle.std.specs.Prelude.{◌≡◌};
    ghost use Rattle.bib_names.specs.declared.fault.NameFault.TheVariants.{Memory as MemoryFault};

    ghost from_gives = { λ _ e. e ≡ MemoryFault };

    fn from(_failed: AllocFailed<T>) -> Self {
        NameFault::Memory
    }
}

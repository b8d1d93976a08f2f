//! Faults of texts.

ghost use Rattle.std.specs.Prelude.{◌≡◌, None};
ghost use Rattle.bib_value.specs.Faults.{fault_number};

use std::alloc::{AllocError, AllocFailed};
use thiserror::Error;

/// Why the raw text or the field text of a value is refused.
#[derive(Clone, Copy, Debug, PartialEq, Eq, Error)]
pub enum ValueFault {
    /// The raw text is longer than 1,048,576 bytes.
    #[error("8 TextTooLong")]
    TextTooLong,
    /// A request for memory was refused.
    #[error("10 Memory")]
    Memory,
}

impl ValueFault {
    /// The fault's number, as docs/FAULTS.md lists them.
    pub fn number(&self) -> u16
        ensures { result ≡ fault_number self.now }
    {
        match self {
            ValueFault::TextTooLong => 8,
            ValueFault::Memory => 10,
        }
    }

    /// No fault of a text has a place.
    pub fn place(&self) -> Option<usize>
        ensures { result ≡ None }
    {
        None
    }
}

impl From<AllocError> for ValueFault {
    ghost use Rattle.std.specs.Prelude.{◌≡◌};
    ghost use Rattle.bib_value.specs.declared.fault.ValueFault.TheVariants.{Memory};

    ghost from_gives = { λ _ fault. fault ≡ Memory };

    fn from(_error: AllocError) -> ValueFault {
        ValueFault::Memory
    }
}

impl<T: Drop> From<AllocFailed<T>> for ValueFault {
    ghost use Rattle.std.specs.Prelude.{◌≡◌};
    ghost use Rattle.bib_value.specs.declared.fault.ValueFault.TheVariants.{Memory};

    ghost from_gives = { λ _ fault. fault ≡ Memory };

    fn from(_failed: AllocFailed<T>) -> ValueFault {
        ValueFault::Memory
    }
}

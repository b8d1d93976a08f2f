//! Why there is no list.

use std::alloc::{AllocError, AllocFailed};
use thiserror::Error;

/// Why no list is made as BibTeX makes it.
#[derive(Clone, Copy, Debug, PartialEq, Eq, Error)]
pub enum BibtexFault {
    /// A request for memory was refused.
    #[error("10 Memory")]
    Memory,
    /// A listed entry inherits from more than 64 places.
    #[error("15 TooDeep")]
    TooDeep,
}

impl From<AllocError> for BibtexFault {
    ghost use Rattle.std.specs.Prelude.{◌≡◌};
    ghost use Rattle.bibtex_places.specs.declared.fault.BibtexFault.TheVariants.{Memory};

    ghost from_gives = { λ _ fault. fault ≡ Memory };

    fn from(_error: AllocError) -> BibtexFault {
        BibtexFault::Memory
    }
}

impl<T: Drop> From<AllocFailed<T>> for BibtexFault {
    ghost use Rattle.std.specs.Prelude.{◌≡◌};
    ghost use Rattle.bibtex_places.specs.declared.fault.BibtexFault.TheVariants.{Memory};

    ghost from_gives = { λ _ fault. fault ≡ Memory };

    fn from(_failed: AllocFailed<T>) -> BibtexFault {
        BibtexFault::Memory
    }
}

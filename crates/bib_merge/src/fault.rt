//! Why files are not merged.

ghost use Rattle.std.specs.Prelude.{◌≡◌};

use bib_scan::ReadFault;
use std::alloc::{AllocError, AllocFailed};
use thiserror::Error;

/// Why there is no merge of three files.
#[derive(Clone, Copy, Debug, PartialEq, Eq, Error)]
pub enum MergeFault {
    /// The common file cannot be opened.
    #[error("{0} in the common file")]
    Base(ReadFault),
    /// Our file cannot be opened.
    #[error("{0} in our file")]
    Ours(ReadFault),
    /// Their file cannot be opened.
    #[error("{0} in their file")]
    Theirs(ReadFault),
    /// A request for memory was refused.
    #[error("10 Memory")]
    Memory,
    /// A raw text of the merged text is longer than 1,048,576 bytes.
    #[error("8 TextTooLong")]
    TextTooLong,
    /// The merged text is longer than 16,777,216 bytes.
    #[error("9 FileTooLong")]
    FileTooLong,
    /// The merged text is no file, or has other items than its units, since texts of both sides would be joined.
    #[error("40 WouldMerge")]
    WouldMerge,
}

impl From<AllocError> for MergeFault {
    ghost use Rattle.std.specs.Prelude.{◌≡◌};
    ghost use Rattle.bib_merge.specs.declared.fault.MergeFault.TheVariants.{Memory};

    ghost from_gives = { λ _ fault. fault ≡ Memory };

    fn from(_error: AllocError) -> MergeFault {
        MergeFault::Memory
    }
}

impl<T: Drop> From<AllocFailed<T>> for MergeFault {
    ghost use Rattle.std.specs.Prelude.{◌≡◌};
    ghost use Rattle.bib_merge.specs.declared.fault.MergeFault.TheVariants.{Memory};

    ghost from_gives = { λ _ fault. fault ≡ Memory };

    fn from(_failed: AllocFailed<T>) -> MergeFault {
        MergeFault::Memory
    }
}

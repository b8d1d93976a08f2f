//! Why an entry has no text of JSON.

use std::alloc::AllocError;
use thiserror::Error;

/// Why an entry is not written.
#[derive(Clone, Copy, Debug, PartialEq, Eq, Error)]
pub enum JsonFault {
    #[error("10 Memory")]
    Memory,
    /// A text of the entry is not UTF-8, so it cannot be a string of JSON.
    #[error("24 NotUtf8")]
    NotUtf8,
}

impl From<AllocError> for JsonFault {
    ghost use Rattle.std.specs.Prelude.{◌≡◌};
    ghost use Rattle.entry_json.specs.declared.fault.JsonFault.TheVariants.{Memory as MemoryFault};

    ghost from_gives = { λ _ e. e ≡ MemoryFault };

    fn from(_error: AllocError) -> Self {
        JsonFault::Memory
    }
}

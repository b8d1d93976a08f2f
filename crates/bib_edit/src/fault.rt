//! Why an edit is refused.

ghost use Rattle.std.specs.Prelude.{◌≡◌, None};
ghost use Rattle.bib_edit.specs.Faults.{fault_number};

use std::alloc::{AllocError, AllocFailed};
use thiserror::Error;

/// Why an edit is refused, in the order in which the reasons are tried. A refusal changes nothing.
#[derive(Clone, Copy, Debug, PartialEq, Eq, Error)]
pub enum EditFault {
    /// A new key is not valid: it has 1 to 255 bytes above 0x20, and none of 0x7F, `,`, `{` and `}`.
    #[error("31 BadKey")]
    BadKey,
    /// The name of a field or a macro is not valid, or a type is not.
    #[error("32 BadName")]
    BadName,
    /// A value is not valid, or the braces of an introduced text don't match.
    #[error("33 BadValue")]
    BadValue,
    /// There is no item at this position, and it is not the end.
    #[error("34 BadPosition")]
    BadPosition,
    /// The key, the field or the definition isn't there.
    #[error("35 NotFound")]
    NotFound,
    /// The key, the field or the definition is there twice, or a new entry has a field twice.
    #[error("36 Ambiguous")]
    Ambiguous,
    /// A new key is another entry's, or another new entry's.
    #[error("37 KeyInUse")]
    KeyInUse,
    /// A new name of a macro is in use.
    #[error("38 NameInUse")]
    NameInUse,
    /// The crossref of another entry names the entry.
    #[error("39 Referred")]
    Referred,
    /// The text that a removal joins would begin an item, or a closing parenthesis would become part of a key.
    #[error("40 WouldMerge")]
    WouldMerge,
    /// The file would be longer than 16,777,216 bytes.
    #[error("9 FileTooLong")]
    FileTooLong,
    /// A raw text would be longer than 1,048,576 bytes.
    #[error("8 TextTooLong")]
    TextTooLong,
    /// A request for memory was refused.
    #[error("10 Memory")]
    Memory,
}

impl EditFault {
    /// The fault's number, as docs/FAULTS.md lists them.
    pub fn number(&self) -> u16
        ensures { result ≡ fault_number self.now }
    {
        match self {
            EditFault::BadKey => 31,
            EditFault::BadName => 32,
            EditFault::BadValue => 33,
            EditFault::BadPosition => 34,
            EditFault::NotFound => 35,
            EditFault::Ambiguous => 36,
            EditFault::KeyInUse => 37,
            EditFault::NameInUse => 38,
            EditFault::Referred => 39,
            EditFault::WouldMerge => 40,
            EditFault::FileTooLong => 9,
            EditFault::TextTooLong => 8,
            EditFault::Memory => 10,
        }
    }

    /// No fault of an edit has a place.
    pub fn place(&self) -> Option<usize>
        ensures { result ≡ None }
    {
        None
    }
}

impl From<AllocError> for EditFault {
    ghost use Rattle.std.specs.Prelude.{◌≡◌};
    ghost use Rattle.bib_edit.specs.declared.fault.EditFault.TheVariants.{Memory};

    ghost from_gives = { λ _ fault. fault ≡ Memory };

    fn from(_error: AllocError) -> EditFault {
        EditFault::Memory
    }
}

impl<T: Drop> From<AllocFailed<T>> for EditFault {
    ghost use Rattle.std.specs.Prelude.{◌≡◌};
    ghost use Rattle.bib_edit.specs.declared.fault.EditFault.TheVariants.{Memory};

    ghost from_gives = { λ _ fault. fault ≡ Memory };

    fn from(_failed: AllocFailed<T>) -> EditFault {
        EditFault::Memory
    }
}

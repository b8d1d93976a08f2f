//! Why a session refuses a call.

ghost use Rattle.std.specs.Prelude.{◌≡◌};
ghost use Rattle.bib_spec.specs.Text.{Text as FileText};
ghost use Rattle.bib_store.specs.Readings.{IsOpenFault};
ghost use Rattle.bib_journal.specs.Faults.{fault_number, fault_place, unopened, unread, refused};
ghost use Rattle.bib_journal.specs.Session.{RefusesStart, RefusesLoad};

use bib_edit::EditFault;
use bib_scan::ReadFault;
use journal_format::JournalFault;
use std::alloc::{AllocError, AllocFailed};
use thiserror::Error;

/// Why a session refuses a call. After a refusal it is as it was before.
#[derive(Clone, Copy, Debug, PartialEq, Eq, Error)]
pub enum SessionFault {
    /// The bytes can't be opened.
    #[error("{0}")]
    Unopened(ReadFault),
    /// The edit is refused.
    #[error("{0}")]
    Refused(EditFault),
    /// 65,535 steps can be undone already, or their texts would be longer than 67,174,399 bytes.
    #[error("41 JournalFull")]
    JournalFull,
    /// There is no change to take back.
    #[error("51 NothingToUndo")]
    NothingToUndo,
    /// There is no change to make again.
    #[error("52 NothingToRedo")]
    NothingToRedo,
    /// The text is no journal, and goes wrong at this place.
    #[error("53 BadJournal at {0}")]
    BadJournal(usize),
    /// The journal does not belong to the file.
    #[error("54 JournalMismatch")]
    JournalMismatch,
    /// A step is open already; or it is open, and changes can be taken back or made again once it is ended.
    #[error("55 StepOpen")]
    StepOpen,
    /// No step is open that could be ended.
    #[error("56 NoOpenStep")]
    NoOpenStep,
    /// A request for memory was refused.
    #[error("10 Memory")]
    Memory,
}

impl SessionFault {
    /// The fault's number, as docs/FAULTS.md lists them.
    pub fn number(&self) -> u16
        ensures { result ≡ fault_number self.now }
    {
        match self {
            SessionFault::Unopened(fault) => fault.number(),
            SessionFault::Refused(fault) => fault.number(),
            SessionFault::JournalFull => 41,
            SessionFault::NothingToUndo => 51,
            SessionFault::NothingToRedo => 52,
            SessionFault::BadJournal(_) => 53,
            SessionFault::JournalMismatch => 54,
            SessionFault::StepOpen => 55,
            SessionFault::NoOpenStep => 56,
            SessionFault::Memory => 10,
        }
    }

    /// Where the bytes can't be opened, the first byte at which no file continues, or of the first value that is too long;
    /// where the text is no journal, the place at which it goes wrong.
    pub fn place(&self) -> Option<usize>
        ensures { result ≡ fault_place self.now }
    {
        match self {
            SessionFault::Unopened(fault) => fault.place(),
            SessionFault::BadJournal(place) => Some(*place),
            _ => None,
        }
    }
}

impl From<AllocError> for SessionFault {
    ghost use Rattle.std.specs.Prelude.{◌≡◌};
    ghost use Rattle.bib_journal.specs.declared.fault.SessionFault.TheVariants.{Memory};

    ghost from_gives = { λ _ fault. fault ≡ Memory };

    fn from(_error: AllocError) -> SessionFault {
        SessionFault::Memory
    }
}

impl<T: Drop> From<AllocFailed<T>> for SessionFault {
    ghost use Rattle.std.specs.Prelude.{◌≡◌};
    ghost use Rattle.bib_journal.specs.declared.fault.SessionFault.TheVariants.{Memory};

    ghost from_gives = { λ _ fault. fault ≡ Memory };

    fn from(_failed: AllocFailed<T>) -> SessionFault {
        SessionFault::Memory
    }
}

/// What a refused opening is to a session.
pub(crate) fn unopened(fault: ReadFault) -> SessionFault
    ensures value { result ≡ unopened fault }
    ensures start { (file : FileText) → IsOpenFault file fault.kind fault.place → RefusesStart result file }
    ensures load { (file text : FileText) → IsOpenFault file fault.kind fault.place → RefusesLoad result file text }
{
    if fault.is_memory() {
        SessionFault::Memory
    } else {
        SessionFault::Unopened(fault)
    }
}

/// What a refused journal is to a session.
pub(crate) fn unread(fault: JournalFault) -> SessionFault
    ensures { result ≡ unread fault }
{
    match fault {
        JournalFault::BadJournal(place) => SessionFault::BadJournal(place),
        JournalFault::Memory => SessionFault::Memory,
    }
}

/// What a refused edit is to a session.
pub(crate) fn refused(fault: EditFault) -> SessionFault
    ensures { result ≡ refused fault }
{
    match fault {
        EditFault::Memory => SessionFault::Memory,
        fault => SessionFault::Refused(fault),
    }
}

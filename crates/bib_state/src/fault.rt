//! Why a call is refused.

ghost use Rattle.std.specs.Prelude.{◌≡◌};
ghost use Rattle.bib_state.specs.Faults.{call_number, call_place};

use bib_journal::SessionFault;
use std::alloc::AllocError;

/// Why a call is refused. It changed nothing then, except that a script, an undo or a redo keeps what it did before.
#[derive(Clone, Copy, Debug, PartialEq, Eq)]
pub enum CallFault {
    /// No session is open, or an argument is out of its range.
    Misuse,
    /// No entry has the key.
    NoSuchEntry,
    /// A text of the entry is not UTF-8.
    NotUtf8,
    /// The words, or the line of the script, say no edit.
    BadScript,
    /// The session refuses the call, or memory ran out.
    Session(SessionFault),
}

impl CallFault {
    /// The fault's number, as docs/FAULTS.md lists them; 1000 for a call that is not allowed.
    pub fn number(&self) -> u16
        ensures { result ≡ call_number self.now }
    {
        match self {
            CallFault::Misuse => 1_000,
            CallFault::NoSuchEntry => 11,
            CallFault::NotUtf8 => 24,
            CallFault::BadScript => 71,
            CallFault::Session(fault) => fault.number(),
        }
    }

    /// The byte at which the file or the journal cannot be read, if it was refused there.
    pub fn place(&self) -> Option<usize>
        ensures { result ≡ call_place self.now }
    {
        match self {
            CallFault::Session(fault) => fault.place(),
            _ => None,
        }
    }
}

impl From<AllocError> for CallFault {
    ghost use Rattle.std.specs.Prelude.{◌≡◌};
    ghost use Rattle.bib_state.specs.Faults.{out_of_memory};

    ghost from_gives = { λ _ fault. fault ≡ out_of_memory };

    fn from(_error: AllocError) -> CallFault {
        CallFault::Session(SessionFault::Memory)
    }
}

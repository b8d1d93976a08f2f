//! Why a text cannot be read, and where reading stopped.

ghost use Rattle.std.specs.Prelude.{◌≡◌, None, Some, if◌then◌else◌, ◌==◌};
ghost use Rattle.bib_spec.specs.Fault.{fault_number};
ghost use Rattle.bib_scan.specs.LeftToRight.{expected};
ghost use Rattle.bib_scan.specs.Code.{fault_of, halt_of};

use crate::reader::FILE_LIMIT;
use std::alloc::AllocFailed;
use thiserror::Error;

/// What is wrong at the first byte at which no valid file continues.
#[derive(Clone, Copy, Debug, PartialEq, Eq)]
pub(crate) enum Fault {
    Unended,
    ExpectedName,
    ExpectedEquals,
    ExpectedCommaOrClose,
    ExpectedValue,
    UnbalancedBrace,
    KeyTooLong,
}

impl Fault {
    /// The number of the fault.
    pub fn number(self) -> u8
        ensures { result ≡ fault_number (fault_of self) }
    {
        match self {
            Fault::Unended => 1,
            Fault::ExpectedName => 2,
            Fault::ExpectedEquals => 3,
            Fault::ExpectedCommaOrClose => 4,
            Fault::ExpectedValue => 5,
            Fault::UnbalancedBrace => 6,
            Fault::KeyTooLong => 7,
        }
    }
}

/// A fault, and the text from its place on.
#[derive(Clone, Copy)]
pub(crate) struct Stop<'a> {
    pub fault: Fault,
    pub rest: &'a [u8],
}

impl<'a> Stop<'a> {
    /// Reading stops here: the text ends, or this fault is what is wrong.
    pub fn expected(fault: Fault, rest: &'a [u8]) -> Self
        ensures { halt_of result ≡ expected (fault_of fault) rest.now }
    {
        let fault = if rest.is_empty() {
            Fault::Unended
        } else {
            fault
        };
        Stop { fault, rest }
    }
}

/// Why nothing was read: memory ran out, or the text has a fault.
#[derive(Clone, Copy)]
pub(crate) enum Refusal<'a> {
    Memory,
    Fault(Stop<'a>),
}

impl<'a> From<Stop<'a>> for Refusal<'a> {
    ghost use Rattle.std.specs.Prelude.{◌≡◌};
    ghost use Rattle.bib_scan.specs.declared.fault.Refusal.TheVariants.{Fault as RefusalFault};

    ghost from_gives = { λ s e. e ≡ RefusalFault s };

    fn from(stop: Stop<'a>) -> Self {
        Refusal::Fault(stop)
    }
}

impl<T: Drop> From<AllocFailed<T>> for Refusal<'_> {
    ghost use Rattle.std.specs.Prelude.{◌≡◌};
    ghost use Rattle.bib_scan.specs.declared.fault.Refusal.TheVariants.{Memory as RefusalMemory};

    ghost from_gives = { λ _ e. e ≡ RefusalMemory };

    fn from(_failed: AllocFailed<T>) -> Self {
        Refusal::Memory
    }
}

/// Why a text cannot be read: the number of the fault and its place. For 10, out of memory, the place is 0.
#[derive(Clone, Copy, Debug, PartialEq, Eq, Error)]
#[error("fault {kind} at {place}")]
pub struct ReadFault {
    pub kind: u8,
    pub place: usize,
}

impl ReadFault {
    /// More than `FILE_LIMIT` bytes: 9, at the first byte too many.
    pub const TOO_LONG: ReadFault = ReadFault {
        kind: 9,
        place: FILE_LIMIT,
    };
    /// Out of memory: 10, without a place.
    pub const MEMORY: ReadFault = ReadFault { kind: 10, place: 0 };

    /// Whether memory ran out.
    pub fn is_memory(&self) -> bool
        ensures { result ≡ (self.now.kind == 10) }
    {
        self.kind == ReadFault::MEMORY.kind
    }

    /// The fault's number, as docs/FAULTS.md lists them.
    pub fn number(&self) -> u16
        ensures { result ≡ self.now.kind }
    {
        u16::from(self.kind)
    }

    /// The place of the first byte at which no valid text continues, from 0; out of memory (10) has no place.
    pub fn place(&self) -> Option<usize>
        ensures { result ≡ (if self.now.kind == 10 then None else Some self.now.place) }
    {
        if self.is_memory() {
            None
        } else {
            Some(self.place)
        }
    }
}

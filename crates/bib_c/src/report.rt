//! What a call says of itself.

ghost use Rattle.std.specs.Prelude.{◌≡◌, Some, None, IfErr, OnOk};
ghost use Rattle.bib_state.specs.declared.fault.CallFault.TheVariants.{Session as session_fault};
ghost use Rattle.bib_c.specs.Reports.{reported, of_turned, of_scripted};

use bib_journal::SessionFault;
use bib_state::{CallFault, Scripted, Turned};

/// What a call says of itself. `number` is 0, or the number of the fault. `place` is the byte at which reading failed, if
/// `has_place`. `done` counts the steps, or the requests of a script, that were done, and `line` is the line of a script, from 1,
/// that was refused, or 0.
#[repr(C)]
#[derive(Clone, Copy)]
pub struct Report {
    pub number: u16,
    pub has_place: bool,
    pub place: usize,
    pub done: usize,
    pub line: usize,
}

impl Report {
    /// The call was refused, and nothing was done.
    pub fn refused(fault: CallFault) -> Report
        ensures { result ≡ reported (Some fault) 0 0 }
    {
        Report::of(Some(fault), 0, 0)
    }

    /// The report of a call that is done, or refused.
    pub fn of_made(made: Result<(), CallFault>) -> Report
        ensures done { OnOk made (result ≡ reported None 0 0) }
        ensures refused { IfErr made (λ fault. result ≡ reported (Some fault) 0 0) }
    {
        match made {
            Ok(()) => Report::of(None, 0, 0),
            Err(fault) => Report::refused(fault),
        }
    }

    /// The report of a session that is opened, or refused.
    pub fn of_opened(opened: Result<(), SessionFault>) -> Report
        ensures done { OnOk opened (result ≡ reported None 0 0) }
        ensures refused { IfErr opened (λ fault. result ≡ reported (Some (session_fault fault)) 0 0) }
    {
        match opened {
            Ok(()) => Report::of(None, 0, 0),
            Err(fault) => Report::refused(CallFault::Session(fault)),
        }
    }

    /// The report of steps that were undone or redone.
    pub fn of_turned(turned: Turned) -> Report
        ensures { result ≡ of_turned turned }
    {
        Report::of(turned.fault, turned.done, 0)
    }

    /// The report of a script.
    pub fn of_scripted(scripted: Scripted) -> Report
        ensures { result ≡ of_scripted scripted }
    {
        Report::of(scripted.fault, scripted.done, scripted.line)
    }

    /// The report of this fault, if there is one, with these counts.
    fn of(fault: Option<CallFault>, done: usize, line: usize) -> Report
        ensures { result ≡ reported fault done line }
    {
        match fault {
            Some(fault) => Report {
                number: fault.number(),
                has_place: fault.place().is_some(),
                place: fault.place().unwrap_or(0),
                done,
                line,
            },
            None => Report {
                number: 0,
                has_place: false,
                place: 0,
                done,
                line,
            },
        }
    }
}

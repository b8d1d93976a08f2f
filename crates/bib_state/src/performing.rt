//! Several requests to a session.

ghost use Rattle.std.specs.Prelude.{◌≡◌, Some, option_map, slice_index_or};
ghost use Rattle.bib_data.specs.Depths.{AsksWithDepth};
ghost use Rattle.bib_state.specs.Calls.{stopped, stopped_line, HasTurned, HasScripted};
ghost use Rattle.bib_state.specs.declared.fault.CallFault.TheVariants.{Session as session_fault};

use crate::fault::CallFault;
use bib_data::Request;
use bib_journal::{Performed, Session, SessionFault, perform, repeat};
use bib_script::{Script, read_script};
use bib_store::Paged;
use std::alloc::Global;

/// How many steps were undone or redone, and why not more, if it was not all.
#[derive(Clone, Copy, Debug, PartialEq, Eq)]
pub struct Turned {
    pub done: usize,
    pub fault: Option<CallFault>,
}

/// How many requests of a script were done; and at which line it stopped, counted from 1, and why, if it did. The line is 0
/// where no line is at fault.
#[derive(Clone, Copy, Debug, PartialEq, Eq)]
pub struct Scripted {
    pub done: usize,
    pub line: usize,
    pub fault: Option<CallFault>,
}

impl Turned {
    /// None was undone or redone.
    pub(crate) fn refused(fault: CallFault) -> Turned
        ensures done { result.done ≡ 0 }
        ensures fault { result.fault ≡ Some fault }
    {
        Turned {
            done: 0,
            fault: Some(fault),
        }
    }
}

impl Scripted {
    /// No request was done, and no line is at fault.
    pub(crate) fn refused(fault: CallFault) -> Scripted
        ensures done { result.done ≡ 0 }
        ensures line { result.line ≡ 0 }
        ensures fault { result.fault ≡ Some fault }
    {
        Scripted {
            done: 0,
            line: 0,
            fault: Some(fault),
        }
    }
}

/// Does a request `times` times, up to the first refusal.
pub(crate) fn turn(session: &mut Session<Paged>, request: &Request, times: usize) -> Turned
    requires { AsksWithDepth request.now }
    ensures { HasTurned request.now times result session.old session.new }
{
    counted(repeat(session, request, times))
}

/// Does the requests of a script, up to the first that is refused.
pub(crate) fn perform_script(alloc: Global, session: &mut Session<Paged>, script: &[u8]) -> Scripted
    ensures { HasScripted script.now result session.old session.new }
{
    let Ok(script) = read_script(alloc, script) else {
        return Scripted::refused(CallFault::Session(SessionFault::Memory));
    };
    let performed = perform(session, script.requests.as_slice());
    counted_in(&script, performed)
}

/// The steps that were undone or redone.
fn counted(performed: Performed) -> Turned
    ensures done { result.done ≡ performed.done }
    ensures fault { result.fault ≡ option_map session_fault performed.fault }
{
    let fault = match performed.fault {
        Some(fault) => Some(CallFault::Session(fault)),
        None => None,
    };
    Turned {
        done: performed.done,
        fault,
    }
}

/// The requests of a script that were done.
fn counted_in(script: &Script, performed: Performed) -> Scripted
    ensures done { result.done ≡ performed.done }
    ensures fault { result.fault ≡ stopped script.now performed.fault }
    ensures line { result.line ≡ stopped_line script.now performed.done performed.fault }
{
    let done = performed.done;
    match (performed.fault, script.bad_line) {
        (Some(fault), _) => Scripted {
            done,
            line: line_of(script, done),
            fault: Some(CallFault::Session(fault)),
        },
        (None, Some(line)) => Scripted {
            done,
            line,
            fault: Some(CallFault::BadScript),
        },
        (None, None) => Scripted {
            done,
            line: 0,
            fault: None,
        },
    }
}

/// The line of request `n` of a script, or 0.
fn line_of(script: &Script, n: usize) -> usize
    ensures { result ≡ slice_index_or script.now.lines n 0 }
{
    script.lines.as_slice().get(n).copied().unwrap_or(0)
}

//! Doing the requests to a session, one after another.

ghost use Rattle.std.specs.Prelude.{◌≡◌, replicate, All, IfErr, OnOk, OnErr};
ghost use Rattle.bib_data.specs.Depths.{AsksWithDepth};
ghost use Rattle.bib_journal.specs.Session.{Does, Refuses, Performs};

use crate::fault::SessionFault;
use crate::session::Session;
use bib_data::Request;
use bib_store::ItemList;

/// How many requests were done, and why the next one was refused, if one was.
#[derive(Clone, Copy, Debug, PartialEq, Eq)]
pub struct Performed {
    pub done: usize,
    pub fault: Option<SessionFault>,
}

/// Does one request. One that makes keys has a depth of 1 to `DEPTH_LIMIT`.
pub fn perform_one<L: ItemList>(
    session: &mut Session<L>,
    request: &Request,
) -> Result<(), SessionFault>
    requires { AsksWithDepth request.now }
    ensures done { OnOk result (Does request.now session.old session.new) }
    ensures refused { IfErr result (λ fault. Refuses fault request.now session.old) }
    ensures err { OnErr result (session.new ≡ session.old) }
{
    match request {
        Request::Edit(edit) => session.edit(edit),
        Request::Place(position, edit) => session.edit_at(position, edit),
        Request::Insert(position, text) => session.insert(position, text.as_slice()),
        Request::Begin(label) => session.begin(label.as_slice()),
        Request::End => session.end(),
        Request::Undo => session.undo(),
        Request::Redo => session.redo(),
    }
}

/// Does one request `times` times, up to the first refusal, which changes nothing.
pub fn repeat<L: ItemList>(session: &mut Session<L>, request: &Request, times: usize) -> Performed
    requires { AsksWithDepth request.now }
    ensures { Performs (replicate times request.now) result.done result.fault session.old session.new }
{
    'each: for round in 0..times {
        if let Err(fault) = perform_one(session, request) {
            return Performed {
                done: round,
                fault: Some(fault),
            };
        }
    }
    Performed {
        done: times,
        fault: None,
    }
}

/// Does the requests in order, up to the first that is refused. What those before it did is kept, and it changes nothing. Those that make
/// keys have a depth of 1 to `DEPTH_LIMIT`.
pub fn perform<L: ItemList>(session: &mut Session<L>, requests: &[Request]) -> Performed
    requires { All AsksWithDepth requests.now }
    ensures { Performs requests.now result.done result.fault session.old session.new }
{
    'each: for n in 0..requests.len() {
        if let Err(fault) = perform_one(session, &requests[n]) {
            return Performed {
                done: n,
                fault: Some(fault),
            };
        }
    }
    Performed {
        done: requests.len(),
        fault: None,
    }
}

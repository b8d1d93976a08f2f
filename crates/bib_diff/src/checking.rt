//! Whether requests lead from one file to another.

ghost use Rattle.std.specs.Prelude.{◌≡◌, true, All, IfOk, OnOk, None};
ghost use Rattle.bib_data.specs.Depths.{HasDepth, AsksWithDepth};
ghost use Rattle.bib_journal.specs.Session.{DoesAll};
ghost use Rattle.diff_spec.specs.Agreement.{FilesAgree};
ghost use Rattle.bib_diff.specs.Leading.{LeadTo};

use crate::agreeing::first_difference;
use crate::fault::Stop;
use crate::looking::entry;
use crate::trying::lost;
use bib_data::{Edit, Request};
use bib_journal::{Session, SessionFault, perform};
use bib_store::{Database, Paged};
use bib_text::Seq;
use std::alloc::Global;

/// Whether the edit does not make keys at a depth that there is not.
fn edit_has_depth(edit: &Edit) -> bool
    ensures { result ≡ true → HasDepth edit.now }
{
    match edit {
        Edit::RegenerateKeys { depth } => (1..=8).contains(depth),
        _ => true,
    }
}

/// Whether the request does not make keys at a depth that there is not.
fn has_depth(request: &Request) -> bool
    ensures { result ≡ true → AsksWithDepth request.now }
{
    match request {
        Request::Edit(edit) => edit_has_depth(edit),
        Request::Place(_, edit) => edit_has_depth(edit),
        _ => true,
    }
}

/// Whether none of the requests makes keys at a depth that there is not.
fn have_depths(requests: &[Request]) -> bool
    ensures { result ≡ true → All AsksWithDepth requests.now }
{
    'requests: for n in 0..requests.len() {
        if !has_depth(&requests[n]) {
            return false;
        }
    }
    true
}

/// The key of the entry that a request changes, if it changes one.
fn key_of(request: &Request) -> &[u8] {
    match request {
        Request::Edit(Edit::SetField { key, .. })
        | Request::Edit(Edit::DropField { key, .. })
        | Request::Edit(Edit::RemoveEntry { key })
        | Request::Edit(Edit::MoveEntry { key, .. }) => key.as_slice(),
        Request::Edit(Edit::AddEntry { entry, .. }) => entry.key.as_slice(),
        Request::Edit(Edit::RenameKey { from, .. }) => from.as_slice(),
        _ => b"",
    }
}

/// Why requests do not lead on, if a session stopped at one of them.
fn stopped(alloc: Global, requests: &[Request], done: usize, fault: SessionFault) -> Stop {
    if fault == SessionFault::Memory {
        return Stop::Memory;
    }
    match requests.get(done) {
        Some(request) => lost(alloc, key_of(request)),
        None => Stop::Lost(None),
    }
}

/// Does the requests, and refuses them if one of them is refused, or if the file that they make does not agree with the new one.
fn lead(
    alloc: Global,
    session: &mut Session<Paged>,
    new: &Database<Paged>,
    requests: &[Request],
) -> Result<(), Stop>
    requires { All AsksWithDepth requests.now }
    ensures did { OnOk result (DoesAll requests.now session.old session.new) }
    ensures agree { OnOk result (FilesAgree session.new.steps.present new.now) }
{
    let performed = perform(session, requests);
    if let Some(fault) = performed.fault {
        return Err(stopped(alloc, requests, performed.done, fault));
    }
    match first_difference(alloc, session.database(), new)? {
        None => Ok(()),
        Some(n) => Err(differ(alloc, new, n)),
    }
}

/// The search ends at entry `n` of the new file, or at none if there is no such entry.
fn differ(alloc: Global, new: &Database<Paged>, n: usize) -> Stop {
    match entry(new, n) {
        Some(entry) => lost(alloc, entry.key()),
        None => Stop::Lost(None),
    }
}

/// The requests, if they lead from the old file to the new one.
pub(crate) fn checked(
    alloc: Global,
    old: &[u8],
    new: &Database<Paged>,
    requests: Vec<Request>,
) -> Result<Seq<Request>, Stop>
    ensures { IfOk result (λ requests. LeadTo requests old.now new.now) }
{
    if !have_depths(requests.as_slice()) {
        return Err(Stop::Lost(None));
    }
    let Ok(mut session) = Session::start(alloc, old, Paged::new(alloc)) else {
        return Err(Stop::Memory);
    };
    let outcome = lead(alloc, &mut session, new, requests.as_slice());
    session.close();
    outcome?;
    Ok(Seq::from_vec(requests))
}

//! One change as a step.

ghost use Rattle.std.specs.Prelude.{◌≡◌, All, OnOk, OnErr, IfErr};
ghost use Rattle.bib_data.specs.Depths.{AsksWithDepth};
ghost use Rattle.bib_journal.specs.OpenSteps.{idle};
ghost use Rattle.bib_journal.specs.Session.{Refuses};
ghost use Rattle.bib_state.specs.Steps.{IsMade, MakesStep, RefusesStep, AsksStep, MakesAsked, RefusesAsked};
ghost use Rattle.bib_state.specs.Calls.{MakesWords, RefusesWords};

use crate::fault::CallFault;
use bib_data::{Label, Request};
use bib_journal::{Session, SessionFault, perform_one};
use bib_script::read_words;
use bib_store::Paged;
use bib_text::Text;
use std::alloc::Global;

/// Does what the request asks in the step that is open, or as a step of its own with this label. What is refused leaves no step
/// open that was not. It takes time and memory as the session does for the request.
pub fn make_step(
    session: &mut Session<Paged>,
    label: &Label,
    change: &Request,
) -> Result<(), SessionFault>
    requires { AsksWithDepth change.now }
    ensures made { OnOk result (MakesStep label.now change.now session.old session.new) }
    ensures refused { IfErr result (λ fault. RefusesStep fault label.now change.now session.old) }
    ensures err { OnErr result (session.new ≡ session.old) }
{
    match session.begin(label.as_slice()) {
        Ok(()) => make_alone(session, change),
        Err(fault) => {
            if fault == SessionFault::StepOpen {
                return perform_one(session, change);
            }
            Err(fault)
        }
    }
}

/// Does what the request asks, and ends the step that was begun for it.
fn make_alone(session: &mut Session<Paged>, change: &Request) -> Result<(), SessionFault>
    requires { AsksWithDepth change.now }
    ensures made { OnOk result (IsMade change.now session.old session.new) }
    ensures refused { IfErr result (λ fault. Refuses fault change.now session.old) }
    ensures err { OnErr result (session.new ≡ idle session.old.steps) }
{
    let made = perform_one(session, change);
    end_any(session);
    made
}

/// Ends the step that is open, if one is.
fn end_any(session: &mut Session<Paged>)
    ensures { session.new ≡ idle session.old.steps }
{
    let _ended = session.end();
}

/// Makes the edit that the words say, as a step with the words as its label.
pub(crate) fn make_words(
    alloc: Global,
    session: &mut Session<Paged>,
    words: &[Text],
) -> Result<(), CallFault>
    ensures made { OnOk result (MakesWords words.now session.old session.new) }
    ensures refused { IfErr result (λ fault. RefusesWords words.now fault session.old) }
    ensures err { OnErr result (session.new ≡ session.old) }
{
    match read_words(alloc, words)? {
        Some(requests) => match make_asked(session, requests.as_slice()) {
            Ok(()) => Ok(()),
            Err(fault) => Err(CallFault::Session(fault)),
        },
        None => Err(CallFault::BadScript),
    }
}

/// Makes the step of one change for which these requests ask.
fn make_asked(session: &mut Session<Paged>, requests: &[Request]) -> Result<(), SessionFault>
    requires depths { All AsksWithDepth requests.now }
    requires asked { AsksStep requests.now }
    ensures made { OnOk result (MakesAsked requests.now session.old session.new) }
    ensures refused { IfErr result (λ fault. RefusesAsked requests.now fault session.old) }
    ensures err { OnErr result (session.new ≡ session.old) }
{
    match (&requests[0], &requests[1]) {
        (Request::Begin(label), change) => make_step(session, label, change),
        _ => unreachable!(),
    }
}

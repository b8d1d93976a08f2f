//! The edits that lead from one file to another.

ghost use Rattle.std.specs.Prelude.{◌≡◌, [], IfOk, IfErr, OnOk};
ghost use Rattle.diff_spec.specs.Agreement.{FilesAgree};
ghost use Rattle.bib_spec.specs.Text.{Text as Bytes};
ghost use Rattle.bib_spec.specs.Texts.{IsOpenable};
ghost use Rattle.bib_store.specs.Readings.{IsOpenFault};
ghost use Rattle.bib_journal.specs.OpenSteps.{idle};
ghost use Rattle.bib_journal.specs.Session.{started};
ghost use Rattle.bib_diff.specs.Leading.{LeadTo, Leads, RefusesDiff};

use crate::agreeing::first_difference;
use crate::checking::checked;
use crate::fault::{DiffFault, Stop, fault_of};
use crate::searching::search;
use bib_data::Request;
use bib_journal::{Session, SessionFault};
use bib_scan::ReadFault;
use bib_store::{Database, Paged};
use bib_text::Seq;
use std::alloc::Global;

/// A session of the old file.
fn open_old(alloc: Global, old: &[u8]) -> Result<Session<Paged>, DiffFault>
    ensures started { IfOk result (λ session. session ≡ idle (started old.now)) }
    ensures opens { OnOk result (IsOpenable old.now) }
    ensures refused { IfErr result (λ fault. (new : Bytes) → RefusesDiff fault old.now new) }
{
    match Session::start(alloc, old, Paged::new(alloc)) {
        Ok(session) => Ok(session),
        Err(SessionFault::Unopened(fault)) => Err(DiffFault::Old(fault)),
        Err(_) => Err(DiffFault::Memory),
    }
}

/// The new file.
fn open_new(alloc: Global, new: &[u8]) -> Result<Database<Paged>, DiffFault>
    ensures opened { IfOk result (λ db. db ≡ new.now) }
    ensures opens { OnOk result (IsOpenable new.now) }
    ensures refused { IfErr result (λ fault. (old : Bytes) → IsOpenable old → RefusesDiff fault old new.now) }
{
    match Database::open_bytes(alloc, new, Paged::new(alloc)) {
        Ok(db) => Ok(db),
        Err(fault) => Err(unopened(fault)),
    }
}

/// Why the new file can't be opened.
fn unopened(fault: ReadFault) -> DiffFault
    ensures { (old new : Bytes) → IsOpenable old → IsOpenFault new fault.kind fault.place → RefusesDiff result old new }
{
    if fault.is_memory() {
        DiffFault::Memory
    } else {
        DiffFault::New(fault)
    }
}

/// Requests that lead from the old file to the new one, searched for in the session.
fn searched(
    alloc: Global,
    old: &[u8],
    session: Session<Paged>,
    new: &Database<Paged>,
) -> Result<Seq<Request>, Stop>
    ensures { IfOk result (λ requests. LeadTo requests old.now new.now) }
{
    let requests = search(alloc, session, new)?;
    checked(alloc, old, new, requests)
}

/// Requests that lead from the old file to the new one, which do not agree.
fn sought(
    alloc: Global,
    old: &[u8],
    session: Session<Paged>,
    new: &Database<Paged>,
) -> Result<Seq<Request>, DiffFault>
    requires { FilesAgree old.now new.now → ⊥ }
    ensures leads { IfOk result (λ requests. LeadTo requests old.now new.now) }
    ensures needed { IfOk result (λ requests. FilesAgree old.now new.now → requests ≡ []) }
    ensures refused { IfErr result (λ fault. IsOpenable old.now → IsOpenable new.now → RefusesDiff fault old.now new.now) }
{
    match searched(alloc, old, session, new) {
        Ok(requests) => Ok(requests),
        Err(stop) => Err(fault_of(stop)),
    }
}

/// Requests that lead from the old file, which the session has, to the new one; none, if the two agree already.
fn lead(
    alloc: Global,
    old: &[u8],
    session: Session<Paged>,
    new: &Database<Paged>,
) -> Result<Seq<Request>, DiffFault>
    requires { session ≡ idle (started old.now) }
    ensures leads { IfOk result (λ requests. LeadTo requests old.now new.now) }
    ensures needed { IfOk result (λ requests. FilesAgree old.now new.now → requests ≡ []) }
    ensures refused { IfErr result (λ fault. IsOpenable old.now → IsOpenable new.now → RefusesDiff fault old.now new.now) }
{
    match first_difference(alloc, session.database(), new) {
        Ok(None) => {
            session.close();
            Ok(Seq::empty(alloc))
        }
        Ok(Some(_)) => sought(alloc, old, session, new),
        Err(_) => {
            session.close();
            Err(DiffFault::Memory)
        }
    }
}

/// The requests that lead from the old file to the new one, each an edit; none, if the two files agree already. They are found by the
/// keys of entries: first entries get other keys, then entries go, come and move, then fields go and are set. Then they are made
/// in a session of the old file, and its file is compared with the new one. It takes time as opening each file, making the edits
/// twice, and reading all entries of both files a few times.
pub fn difference(alloc: Global, old: &[u8], new: &[u8]) -> Result<Seq<Request>, DiffFault>
    ensures leads { IfOk result (λ requests. Leads requests old.now new.now) }
    ensures needed { IfOk result (λ requests. FilesAgree old.now new.now → requests ≡ []) }
    ensures refused { IfErr result (λ fault. RefusesDiff fault old.now new.now) }
{
    let session = open_old(alloc, old)?;
    match open_new(alloc, new) {
        Ok(db) => match lead(alloc, old, session, &db) {
            Ok(requests) => Ok(requests),
            Err(fault) => Err(fault),
        },
        Err(fault) => {
            session.close();
            Err(fault)
        }
    }
}

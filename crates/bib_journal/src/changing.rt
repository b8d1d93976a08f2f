//! The changes of a file and its journal, listed, taken back or made again, where no session stays open.

ghost use Rattle.std.specs.Prelude.{◌≡◌, ◌<◌, ◌≤◌, [], Some, None, option_map, IfOk, IfErr};
ghost use Rattle.bib_data.specs.Depths.{AsksWithDepth};
ghost use Rattle.bib_data.specs.declared.request.Request.TheVariants.{Undo, Redo};
ghost use Rattle.bib_journal.specs.Kept.{kept};
ghost use Rattle.bib_journal.specs.Loading.{Loads};
ghost use Rattle.bib_journal.specs.Session.{Opens, RefusesStart, RefusesLoad, RefusesOpen};
ghost use Rattle.bib_journal.specs.Turns.{Turns, HasTurned};
ghost use Rattle.bib_journal.specs.declared.fault.SessionFault.TheVariants.{NothingToUndo, Memory};

use crate::closing::close;
use crate::fault::{SessionFault, unopened};
use crate::loading::{opened_packed, opened_with};
use crate::packed_replay::file_before;
use crate::performing::{Performed, repeat};
use crate::replay::belong_once;
use crate::saving::{Saved, saved_back};
use crate::session::Session;
use bib_data::Request;
use bib_store::{Database, ItemList};
use bib_text::Seq;
use journal_format::Step;
use std::alloc::Global;

/// The changes that a journal keeps: those that can be undone, from the oldest, and those that can be redone, from the next.
#[derive(Debug, Drop)]
pub struct Changes {
    pub past: Seq<Step>,
    pub future: Seq<Step>,
}

/// How many changes were taken back or made again, why the next one was not, and what is left of the file and its journal.
#[derive(Debug, Drop)]
pub struct Turned {
    pub performed: Performed,
    pub saved: Saved,
}

// ---- listing

/// The changes of a file with its journal. The list that is handed in holds no item. It refuses as `Session::open` does.
/// It takes time as opening the file and reading both texts, and a splice for each past step and two for each future one,
/// since it leaves no session that is at the file.
pub fn read_changes<L: ItemList>(
    alloc: Global,
    file: Vec<u8>,
    journal: Option<&[u8]>,
    empty: L,
) -> Result<Changes, SessionFault>
    requires { L.items empty ≡ [] }
    ensures opened { IfOk result (λ changes. Opens file.items (option_map (λ text. text.now) journal.entry) (kept changes.past file.items changes.future)) }
    ensures refused { IfErr result (λ fault. RefusesOpen fault file.items (option_map (λ text. text.now) journal.entry)) }
{
    match journal {
        Some(journal) => changes_in(alloc, file, journal, empty),
        None => no_changes(alloc, file, empty),
    }
}

/// The changes of a file without a journal.
fn no_changes<L: ItemList>(alloc: Global, file: Vec<u8>, empty: L) -> Result<Changes, SessionFault>
    requires { L.items empty ≡ [] }
    ensures opened { IfOk result (λ changes. Opens file.items None (kept changes.past file.items changes.future)) }
    ensures refused { IfErr result (λ fault. RefusesStart fault file.items) }
{
    match Database::open_file(alloc, file, empty) {
        Ok(db) => {
            close(db);
            Ok(Changes {
                past: Seq::empty(alloc),
                future: Seq::empty(alloc),
            })
        }
        Err(fault) => Err(unopened(fault)),
    }
}

/// The changes that the journal says.
fn changes_in<L: ItemList>(
    alloc: Global,
    file: Vec<u8>,
    journal: &[u8],
    empty: L,
) -> Result<Changes, SessionFault>
    requires { L.items empty ≡ [] }
    ensures loaded { IfOk result (λ changes. Loads file.items journal.now (kept changes.past file.items changes.future)) }
    ensures refused { IfErr result (λ fault. RefusesLoad fault file.items journal.now) }
{
    let (mut db, said) = opened_with(alloc, file, journal, empty)?;
    let fit = belong_once(alloc, &mut db, said.past.as_slice(), said.future.as_slice());
    close(db);
    if !fit? {
        return Err(SessionFault::JournalMismatch);
    }
    Ok(Changes {
        past: said.past,
        future: said.future,
    })
}

// ---- turning

/// Undoes the last `n` changes of a file with its journal, or all if there are fewer. It does what `Session::open`, `repeat`
/// and `Session::saved` do, and refuses as the first of them. It takes time as `read_changes` does, and in the length of the
/// file and the journal that are left.
pub fn undo_changes<L: ItemList>(
    alloc: Global,
    file: Vec<u8>,
    journal: Option<&[u8]>,
    n: usize,
    empty: L,
) -> Result<Turned, SessionFault>
    requires { L.items empty ≡ [] }
    ensures turned { IfOk result (Turns Undo n file.items (option_map (λ text. text.now) journal.entry)) }
    ensures refused { IfErr result (λ fault. RefusesOpen fault file.items (option_map (λ text. text.now) journal.entry)) }
{
    match journal {
        Some(journal) => undo_in(alloc, file, journal, n, empty),
        None => turn_opened(alloc, file, None, &Request::Undo, n, empty),
    }
}

/// Redoes the next `n` changes of a file with its journal, or all that were undone if there are fewer. It does what
/// `Session::open`, `repeat` and `Session::saved` do, and refuses as the first of them.
pub fn redo_changes<L: ItemList>(
    alloc: Global,
    file: Vec<u8>,
    journal: Option<&[u8]>,
    n: usize,
    empty: L,
) -> Result<Turned, SessionFault>
    requires { L.items empty ≡ [] }
    ensures turned { IfOk result (Turns Redo n file.items (option_map (λ text. text.now) journal.entry)) }
    ensures refused { IfErr result (λ fault. RefusesOpen fault file.items (option_map (λ text. text.now) journal.entry)) }
{
    turn_opened(alloc, file, journal, &Request::Redo, n, empty)
}

/// Opens a session, does the request `n` times, up to the first refusal, and saves the session.
fn turn_opened<L: ItemList>(
    alloc: Global,
    file: Vec<u8>,
    journal: Option<&[u8]>,
    request: &Request,
    n: usize,
    empty: L,
) -> Result<Turned, SessionFault>
    requires empty { L.items empty ≡ [] }
    requires depth { AsksWithDepth request.now }
    ensures turned { IfOk result (Turns request.now n file.items (option_map (λ text. text.now) journal.entry)) }
    ensures refused { IfErr result (λ fault. RefusesOpen fault file.items (option_map (λ text. text.now) journal.entry)) }
{
    match Session::open_file(alloc, file, journal, empty) {
        Ok(mut session) => {
            let turned = turn(&mut session, request, n);
            session.close();
            turned
        }
        Err(fault) => Err(fault),
    }
}

/// Does the request `n` times, up to the first refusal, and saves the session.
fn turn<L: ItemList>(
    session: &mut Session<L>,
    request: &Request,
    n: usize,
) -> Result<Turned, SessionFault>
    requires { AsksWithDepth request.now }
    ensures turned { IfOk result (HasTurned request.now n session.old) }
    ensures only { IfErr result (λ fault. fault ≡ Memory) }
{
    let performed = repeat(session, request, n);
    if performed.fault == Some(SessionFault::Memory) {
        return Err(SessionFault::Memory);
    }
    let saved = session.saved()?;
    Ok(Turned { performed, saved })
}

/// Undoes the last `n` changes that the journal says, or all if there are fewer.
fn undo_in<L: ItemList>(
    alloc: Global,
    file: Vec<u8>,
    journal: &[u8],
    n: usize,
    empty: L,
) -> Result<Turned, SessionFault>
    requires { L.items empty ≡ [] }
    ensures turned { IfOk result (Turns Undo n file.items (Some journal.now)) }
    ensures refused { IfErr result (λ fault. RefusesLoad fault file.items journal.now) }
{
    let (mut db, said) = opened_packed(alloc, file, journal, empty)?;
    let done = n.min(said.past.len());
    let file = file_before(alloc, &mut db, &said.past, &said.future, done);
    close(db);
    match file? {
        Some(file) => Ok(Turned {
            performed: undone(done, n),
            saved: saved_back(alloc, &said.past, &said.future, done, file)?,
        }),
        None => Err(SessionFault::JournalMismatch),
    }
}

/// What is said of an undo of `n` changes, if `done` of them could be undone.
fn undone(done: usize, n: usize) -> Performed
    ensures done { result.done ≡ done }
    ensures all { n ≤ done → result.fault ≡ None }
    ensures stopped { done < n → result.fault ≡ Some NothingToUndo }
{
    Performed {
        done,
        fault: if done < n {
            Some(SessionFault::NothingToUndo)
        } else {
            None
        },
    }
}

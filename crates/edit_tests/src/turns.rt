//! Requests in turn, and what each turn leaves of a file.

ghost use Rattle.std.specs.Prelude.{◌≡◌, [], All, IsTrue};
ghost use Rattle.bib_data.specs.Depths.{HasDepth, AsksWithDepth};

use bib_edit::Edit;
use bib_journal::{Performed, Request, Session, SessionFault, perform, repeat};
use bib_script::read_script;
use bib_store::ItemList;
use bib_text::{Seq, Text};
use std::alloc::{AllocError, Global};

/// Bytes, with one byte repeated `count` times among them.
#[derive(Clone, Copy)]
pub struct Long {
    pub before: &'static [u8],
    pub byte: u8,
    pub count: usize,
    pub after: &'static [u8],
}

/// The edits of a script, once or a number of times; the entries that a script adds, at once; or undo or redo, a number
/// of times.
#[derive(Clone, Copy)]
pub enum Turn {
    Script(&'static [u8]),
    Times(usize, &'static [u8]),
    Long(usize, Long),
    AddMany(&'static [u8]),
    AddLong(Long),
    Undo(usize),
    Redo(usize),
}

/// Requests, and how many times they are made, one after another.
#[derive(Drop)]
pub struct Asked {
    pub times: usize,
    pub requests: Seq<Request>,
}

/// What a turn leaves: how many requests it made, the number of the refusal at which it ended, or 0, and the file with
/// its history.
#[derive(Drop)]
pub struct Left {
    pub done: usize,
    pub refusal: u16,
    pub file: Text,
    pub counts: (usize, usize),
}

/// All the bytes.
pub fn in_full(alloc: Global, long: &Long) -> Result<Vec<u8>, AllocError> {
    let mut bytes = Vec::from_slice(alloc, long.before)?;
    bytes.resize(bytes.len().saturating_add(long.count), long.byte)?;
    bytes.extend_from_slice(long.after)?;
    Ok(bytes)
}

fn once(alloc: Global, request: Request) -> Result<Seq<Request>, AllocError> {
    let mut requests = Vec::new(alloc);
    requests.push(request)?;
    Ok(Seq::from_vec(requests))
}

fn script(alloc: Global, lines: &[u8]) -> Result<Seq<Request>, AllocError> {
    Ok(read_script(alloc, lines)?.requests)
}

/// The edit that adds at once the entries that a script adds.
fn add_many(alloc: Global, lines: &[u8]) -> Result<Seq<Request>, AllocError> {
    let mut entries = Vec::new(alloc);
    for request in script(alloc, lines)?.into_vec() {
        match request {
            Request::Edit(Edit::AddEntry { place: _, entry }) => entries.push(entry)?,
            _other => {}
        }
    }
    let entries = Seq::from_vec(entries);
    once(alloc, Request::Edit(Edit::AddMany { entries }))
}

/// How often a turn makes its requests.
fn times_of(turn: &Turn) -> usize {
    match turn {
        Turn::Times(times, _) | Turn::Long(times, _) | Turn::Undo(times) | Turn::Redo(times) => {
            *times
        }
        Turn::Script(_) | Turn::AddMany(_) | Turn::AddLong(_) => 1,
    }
}

/// The requests of a turn.
pub fn requests_of(alloc: Global, turn: &Turn) -> Result<Seq<Request>, AllocError> {
    match turn {
        Turn::Script(lines) | Turn::Times(_, lines) => script(alloc, lines),
        Turn::Long(_, lines) => script(alloc, in_full(alloc, lines)?.as_slice()),
        Turn::AddMany(lines) => add_many(alloc, lines),
        Turn::AddLong(lines) => add_many(alloc, in_full(alloc, lines)?.as_slice()),
        Turn::Undo(_) => once(alloc, Request::Undo),
        Turn::Redo(_) => once(alloc, Request::Redo),
    }
}

/// The requests of a turn, and how many times they are made.
pub fn asked_of(alloc: Global, turn: &Turn) -> Result<Asked, AllocError> {
    Ok(Asked {
        times: times_of(turn),
        requests: requests_of(alloc, turn)?,
    })
}

/// How many requests were made, and the number of the refusal, or 0.
fn told_of(performed: &Performed) -> (usize, u16) {
    match &performed.fault {
        Some(fault) => (performed.done, fault.number()),
        None => (performed.done, 0),
    }
}

/// Whether the edit makes no keys, or makes them at a depth of 1 to 8.
pub fn has_depth(edit: &Edit) -> bool
    ensures { IsTrue result → HasDepth edit.now }
{
    match edit {
        Edit::RegenerateKeys { depth } => 1 <= *depth && *depth <= 8,
        _ => true,
    }
}

/// Whether the request makes no keys, or makes them at a depth of 1 to 8.
fn asks_with_depth(request: &Request) -> bool
    ensures { IsTrue result → AsksWithDepth request.now }
{
    match request {
        Request::Edit(edit) | Request::Place(_, edit) => has_depth(edit),
        _ => true,
    }
}

/// Whether each of the requests makes no keys, or makes them at a depth of 1 to 8.
fn all_ask_with_depth(requests: &[Request]) -> bool
    ensures { IsTrue result → All AsksWithDepth requests.now }
{
    for request in requests {
        if !asks_with_depth(request) {
            return false;
        }
    }
    true
}

/// Makes the requests up to the first refusal: how many are made, and the number of the refusal, or 0. If a request has
/// a depth that is not allowed, none is made.
fn performed<L: ItemList>(session: &mut Session<L>, asked: &Asked) -> (usize, u16) {
    let requests = asked.requests.as_slice();
    if !all_ask_with_depth(requests) {
        return (0, 0);
    }
    if let [request] = requests {
        return told_of(&repeat(session, request, asked.times));
    }
    let mut done: usize = 0;
    for _ in 0..asked.times {
        let performed = perform(session, requests);
        done = done.saturating_add(performed.done);
        if let Some(fault) = performed.fault {
            return (done, fault.number());
        }
    }
    (done, 0)
}

/// What a session leaves after these requests.
pub fn left_after<L: ItemList>(
    session: &mut Session<L>,
    asked: &Asked,
) -> Result<Left, SessionFault> {
    let (done, refusal) = performed(session, asked);
    Ok(Left {
        done,
        refusal,
        file: session.bytes()?,
        counts: (session.undo_count(), session.redo_count()),
    })
}

fn lefts<L: ItemList>(
    alloc: Global,
    session: &mut Session<L>,
    turns: &[Asked],
) -> Result<Vec<Left>, SessionFault> {
    let mut lefts = Vec::new(alloc);
    for asked in turns {
        lefts.push(left_after(session, asked)?)?;
    }
    Ok(lefts)
}

/// What each turn leaves of the file, which is kept in this list.
pub fn after<L: ItemList>(
    alloc: Global,
    file: &[u8],
    items: L,
    turns: &[Asked],
) -> Result<Vec<Left>, SessionFault>
    requires { L.items items ≡ [] }
{
    let mut session = Session::start(alloc, file, items)?;
    let lefts = lefts(alloc, &mut session, turns);
    session.close();
    lefts
}

/// Whether both leave the same.
pub fn is_same(one: &Left, other: &Left) -> bool {
    one.done == other.done
        && one.refusal == other.refusal
        && one.file.as_slice() == other.file.as_slice()
        && one.counts == other.counts
}

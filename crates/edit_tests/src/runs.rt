//! Runs one after another, each from the file and the journal that the one before left.

ghost use Rattle.std.specs.Prelude.{◌≡◌, []};

use crate::rows::{Step, Stop, is_left, told};
use crate::turns::{Asked, Left, Turn, asked_of, is_same, left_after};
use bib_data::Request;
use bib_journal::{Saved, Session, SessionFault, Turned, read_changes, redo_changes, undo_changes};
use bib_store::{Flat, ItemList, Paged};
use std::alloc::{AllocError, Global};
use std::test::Fail;

/// How the journal of the file `abc` begins.
const HEAD: &[u8] =
    b"bibkeep 2\nba7816bf8f01cfea414140de5dae2223b00361a396177a9cb410ff61f20015ad\n";

/// The rest of the journal if an entry was removed from the end.
const REMOVED: &[u8] = b"1 0\n\n1\n3 8 0\n@misc{k}\n";

/// A run, and the rest of the journal that it saves after `HEAD`, if the example says it.
struct Run {
    step: Step<'static>,
    journal: Option<&'static [u8]>,
}

/// A file, the rest of its journal after `HEAD`, if it has one, and several runs.
struct Runs {
    name: &'static str,
    file: &'static [u8],
    journal: Option<&'static [u8]>,
    runs: &'static [Run],
}

/// A file, the rest of its journal after `HEAD`, and the number and the place of the fault with which both are refused.
struct Loaded {
    name: &'static str,
    file: &'static [u8],
    journal: &'static [u8],
    fault: (u16, Option<usize>),
}

/// The rest of the journal of the file `abc`: `abc` was put in, an entry after it was removed, and another entry was
/// added and taken back.
const TURNED: &[u8] = b"2 1\n\n1\n0 0 3\nabc\n\n1\n3 8 0\n@misc{k}\n\n1\n3 0 5\n@a{b}\n";

/// How many changes are to be undone or redone, how many are, why not more, and the file then.
struct Turns {
    n: usize,
    done: usize,
    fault: Option<SessionFault>,
    file: &'static [u8],
}

const UNDONE: &[Turns] = &[
    Turns {
        n: 0,
        done: 0,
        fault: None,
        file: b"abc",
    },
    Turns {
        n: 1,
        done: 1,
        fault: None,
        file: b"abc@misc{k}",
    },
    Turns {
        n: 2,
        done: 2,
        fault: None,
        file: b"@misc{k}",
    },
    Turns {
        n: 3,
        done: 2,
        fault: Some(SessionFault::NothingToUndo),
        file: b"@misc{k}",
    },
];

const REDONE: &[Turns] = &[
    Turns {
        n: 1,
        done: 1,
        fault: None,
        file: b"abc@a{b}",
    },
    Turns {
        n: 2,
        done: 1,
        fault: Some(SessionFault::NothingToRedo),
        file: b"abc@a{b}",
    },
];

const FOLLOWING_RUNS: &[Runs] = &[
    Runs {
        name: "a later run takes back what an earlier one did",
        file: b"abc@misc{k}",
        journal: None,
        runs: &[
            Run {
                step: Step {
                    turn: Turn::Script(b"remove\tk\n"),
                    refusal: 0,
                    file: Some(b"abc"),
                    counts: None,
                },
                journal: Some(REMOVED),
            },
            Run {
                step: Step {
                    turn: Turn::Undo(2),
                    refusal: 51,
                    file: Some(b"abc@misc{k}"),
                    counts: Some((0, 1)),
                },
                journal: None,
            },
            Run {
                step: Step {
                    turn: Turn::Redo(1),
                    refusal: 0,
                    file: Some(b"abc"),
                    counts: None,
                },
                journal: Some(REMOVED),
            },
        ],
    },
    Runs {
        name: "two removals are one step with a label",
        file: b"abc@misc{k}@misc{l}",
        journal: None,
        runs: &[
            Run {
                step: Step {
                    turn: Turn::Script(b"group\tclear\nremove\tk\nremove\tl\nend\n"),
                    refusal: 0,
                    file: Some(b"abc"),
                    counts: Some((1, 0)),
                },
                journal: Some(b"1 0\nclear\n1\n3 16 0\n@misc{k}@misc{l}\n"),
            },
            Run {
                step: Step {
                    turn: Turn::Undo(1),
                    refusal: 0,
                    file: Some(b"abc@misc{k}@misc{l}"),
                    counts: Some((0, 1)),
                },
                journal: None,
            },
        ],
    },
    Runs {
        name: "undoing all reaches the first file over several runs",
        file: b"@misc{a, t = 1,}",
        journal: None,
        runs: &[
            Run {
                step: Step {
                    turn: Turn::Script(b"set\ta\ty\t{2}\ndrop\ta\tt"),
                    refusal: 0,
                    file: None,
                    counts: None,
                },
                journal: None,
            },
            Run {
                step: Step {
                    turn: Turn::Script(b"move\ta\t0\nadd\t0\tmisc\tb"),
                    refusal: 0,
                    file: None,
                    counts: Some((4, 0)),
                },
                journal: None,
            },
            Run {
                step: Step {
                    turn: Turn::Undo(1),
                    refusal: 0,
                    file: None,
                    counts: None,
                },
                journal: None,
            },
            Run {
                step: Step {
                    turn: Turn::Undo(3),
                    refusal: 0,
                    file: Some(b"@misc{a, t = 1,}"),
                    counts: Some((0, 4)),
                },
                journal: None,
            },
        ],
    },
    Runs {
        name: "a forged journal that fits leads where it says",
        file: b"abc",
        journal: Some(b"1 0\n\n1\n0 8 0\n@misc{k}\n"),
        runs: &[Run {
            step: Step {
                turn: Turn::Undo(1),
                refusal: 0,
                file: Some(b"@misc{k}abc"),
                counts: None,
            },
            journal: None,
        }],
    },
];

const JOURNALS: &[Loaded] = &[
    Loaded {
        name: "a journal that fits",
        file: b"abc",
        journal: REMOVED,
        fault: (0, None),
    },
    Loaded {
        name: "the journal of another file",
        file: b"abd",
        journal: REMOVED,
        fault: (54, None),
    },
    Loaded {
        name: "a journal that names another place",
        file: b"abc",
        journal: b"1 0\n\n1\n4 8 0\n@misc{k}\n",
        fault: (54, None),
    },
    Loaded {
        name: "a journal whose old bytes lead to no file",
        file: b"abc",
        journal: b"1 0\n\n1\n3 8 0\n@misc{k]\n",
        fault: (54, None),
    },
    Loaded {
        name: "a journal that is cut",
        file: b"abc",
        journal: b"1 0\n\n1\n3 8 0\n@mi",
        fault: (53, Some(91)),
    },
    Loaded {
        name: "a file that does not open",
        file: b"@misc{",
        journal: REMOVED,
        fault: (1, Some(6)),
    },
];

/// The journal with this rest after `HEAD`.
fn journal_of(alloc: Global, rest: &[u8]) -> Result<Vec<u8>, AllocError> {
    let mut journal = HEAD.to_vec(alloc)?;
    journal.extend_from_slice(rest)?;
    Ok(journal)
}

fn left_and_saved<L: ItemList>(
    session: &mut Session<L>,
    asked: &Asked,
) -> Result<(Left, Saved), SessionFault> {
    let left = left_after(session, asked)?;
    Ok((left, session.saved()?))
}

fn ran_in<L: ItemList>(
    alloc: Global,
    file: &[u8],
    journal: Option<&[u8]>,
    items: L,
    asked: &Asked,
) -> Result<(Left, Saved), SessionFault>
    requires { L.items items ≡ [] }
{
    let mut session = Session::open(alloc, file, journal, items)?;
    let left = left_and_saved(&mut session, asked);
    session.close();
    left
}

fn is_saved_alike(one: &Saved, other: &Saved) -> bool {
    one.file.as_slice() == other.file.as_slice()
        && one.journal.as_slice() == other.journal.as_slice()
}

/// Whether this is the journal that the example says, if it says one.
fn is_journal(journal: &[u8], said: Option<&[u8]>) -> bool {
    match said {
        Some(rest) => journal.strip_prefix(HEAD) == Some(rest),
        None => true,
    }
}

/// What a run saves, if it leaves what the example says, and leaves the same with the file in a plain list and in
/// pages.
fn ran(
    alloc: Global,
    file: &[u8],
    journal: Option<&[u8]>,
    run: &Run,
) -> Result<Option<Saved>, Stop> {
    let asked = asked_of(alloc, &run.step.turn)?;
    let (left, saved) = ran_in(alloc, file, journal, Flat::new(alloc), &asked)?;
    let (left_too, saved_too) = ran_in(alloc, file, journal, Paged::new(alloc), &asked)?;
    let is_so = is_left(&left, &run.step) && is_journal(saved.journal.as_slice(), run.journal);
    if is_so && is_same(&left, &left_too) && is_saved_alike(&saved, &saved_too) {
        return Ok(Some(saved));
    }
    Ok(None)
}

/// The first run, from the file and the journal of the example.
fn first_ran(alloc: Global, runs: &Runs, run: &Run) -> Result<Option<Saved>, Stop> {
    match runs.journal {
        Some(rest) => {
            let journal = journal_of(alloc, rest)?;
            ran(alloc, runs.file, Some(journal.as_slice()), run)
        }
        None => ran(alloc, runs.file, None, run),
    }
}

fn runs_hold(alloc: Global, runs: &Runs) -> Result<bool, Stop> {
    let mut last: Option<Saved> = None;
    for run in runs.runs {
        last = match &last {
            Some(saved) => {
                let journal = saved.journal.as_slice();
                ran(alloc, saved.file.as_slice(), Some(journal), run)?
            }
            None => first_ran(alloc, runs, run)?,
        };
        if last.is_none() {
            return Ok(false);
        }
    }
    Ok(true)
}

/// The number and the place of the fault at which the file is not opened with this journal, or 0.
fn fault_of(alloc: Global, file: &[u8], journal: &[u8]) -> (u16, Option<usize>) {
    match Session::load(alloc, file, journal, Flat::new(alloc)) {
        Ok(session) => {
            session.close();
            (0, None)
        }
        Err(fault) => (fault.number(), fault.place()),
    }
}

fn loaded_holds(alloc: Global, loaded: &Loaded) -> Result<bool, Stop> {
    let journal = journal_of(alloc, loaded.journal)?;
    Ok(loaded.fault == fault_of(alloc, loaded.file, journal.as_slice()))
}

/// A turn that does this request `n` times.
fn turn_of(request: &Request, n: usize) -> Turn {
    match request {
        Request::Redo => Turn::Redo(n),
        _ => Turn::Undo(n),
    }
}

/// What a session over the file `abc` saves after it did the request `n` times.
fn left_of(alloc: Global, journal: &[u8], request: &Request, n: usize) -> Result<Saved, Stop> {
    let asked = asked_of(alloc, &turn_of(request, n))?;
    let (_, saved) = ran_in(alloc, b"abc", Some(journal), Flat::new(alloc), &asked)?;
    Ok(saved)
}

/// What `undo_changes` or `redo_changes` gives for `n` changes of the file `abc`.
fn turned_of(
    alloc: Global,
    journal: &[u8],
    request: &Request,
    n: usize,
) -> Result<Turned, SessionFault> {
    let file = Vec::from_slice(alloc, b"abc")?;
    match request {
        Request::Redo => redo_changes(alloc, file, Some(journal), n, Paged::new(alloc)),
        _ => undo_changes(alloc, file, Some(journal), n, Paged::new(alloc)),
    }
}

/// Whether as many changes are undone or redone as the examples say, and the file and the journal are what a session
/// would save.
fn turns_hold(alloc: Global, request: &Request, turns: &[Turns]) -> Result<bool, Stop> {
    let journal = journal_of(alloc, TURNED)?;
    for it in turns {
        let turned = turned_of(alloc, journal.as_slice(), request, it.n)?;
        let saved = left_of(alloc, journal.as_slice(), request, it.n)?;
        let is_so = turned.performed.done == it.done
            && turned.performed.fault == it.fault
            && turned.saved.file.as_slice() == it.file;
        if !is_so || !is_saved_alike(&turned.saved, &saved) {
            return Ok(false);
        }
    }
    Ok(true)
}

/// How many changes of the file `abc` can be undone and redone.
fn counted(alloc: Global, journal: Option<&[u8]>) -> Result<(usize, usize), SessionFault> {
    let file = Vec::from_slice(alloc, b"abc")?;
    let changes = read_changes(alloc, file, journal, Paged::new(alloc))?;
    Ok((
        changes.past.as_slice().len(),
        changes.future.as_slice().len(),
    ))
}

fn lists_hold(alloc: Global) -> Result<bool, Stop> {
    let journal = journal_of(alloc, TURNED)?;
    let listed = counted(alloc, Some(journal.as_slice()))?;
    Ok(listed == (2, 1) && counted(alloc, None)? == (0, 0))
}

#[test]
fn changes_are_turned_without_an_open_session(rt: HostRuntime) -> Result<(), Fail> {
    told("undo", turns_hold(rt.alloc(), &Request::Undo, UNDONE))?;
    told("redo", turns_hold(rt.alloc(), &Request::Redo, REDONE))?;
    Ok(())
}

#[test]
fn changes_are_listed_without_an_open_session(rt: HostRuntime) -> Result<(), Fail> {
    told("listed", lists_hold(rt.alloc()))?;
    Ok(())
}

#[test]
fn runs_follow_one_another(rt: HostRuntime) -> Result<(), Fail> {
    for runs in FOLLOWING_RUNS {
        told(runs.name, runs_hold(rt.alloc(), runs))?;
    }
    Ok(())
}

#[test]
fn a_journal_that_does_not_fit_is_refused(rt: HostRuntime) -> Result<(), Fail> {
    for loaded in JOURNALS {
        told(loaded.name, loaded_holds(rt.alloc(), loaded))?;
    }
    Ok(())
}

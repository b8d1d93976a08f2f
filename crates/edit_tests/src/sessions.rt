//! Sessions over several edits.

use crate::rows::{Course, Row, Step, Stop, all_come_out, all_hold, told};
use crate::turns::{Asked, Left, Turn, after, requests_of};
use bib_journal::Request;
use bib_script::read_script;
use bib_store::{Flat, Paged};
use bib_text::Seq;
use std::alloc::{AllocError, Global};
use std::test::Fail;

const FILE: &[u8] = b"@misc{a, t = 1,}";

const SESSIONS: &[Course<'_>] = &[
    Course {
        name: "an edit after undo drops what could be redone",
        file: FILE,
        steps: &[
            Step {
                turn: Turn::Script(b"set\ta\ty\t{2}\nset\ta\tz\t{3}"),
                refusal: 0,
                file: None,
                counts: None,
            },
            Step {
                turn: Turn::Script(b"drop\ta\tq"),
                refusal: 35,
                file: None,
                counts: None,
            },
            Step {
                turn: Turn::Undo(2),
                refusal: 0,
                file: Some(FILE),
                counts: Some((0, 2)),
            },
            Step {
                turn: Turn::Script(b"set\ta\tw\t{4}"),
                refusal: 0,
                file: Some(b"@misc{a, t = 1,\n  w = {4},}"),
                counts: None,
            },
            Step {
                turn: Turn::Redo(1),
                refusal: 52,
                file: None,
                counts: Some((1, 0)),
            },
        ],
    },
    Course {
        name: "all is undone and redone",
        file: FILE,
        steps: &[
            Step {
                turn: Turn::Script(b"set\ta\ty\t{2}\nset\ta\tz\t{3}"),
                refusal: 0,
                file: None,
                counts: None,
            },
            Step {
                turn: Turn::Undo(2),
                refusal: 0,
                file: None,
                counts: None,
            },
            Step {
                turn: Turn::Undo(1),
                refusal: 51,
                file: None,
                counts: None,
            },
            Step {
                turn: Turn::Redo(2),
                refusal: 0,
                file: Some(b"@misc{a, t = 1,\n  y = {2},\n  z = {3},}"),
                counts: None,
            },
            Step {
                turn: Turn::Redo(1),
                refusal: 52,
                file: None,
                counts: None,
            },
        ],
    },
    Course {
        name: "a step of two edits is one change",
        file: FILE,
        steps: &[
            Step {
                turn: Turn::Script(b"group\ttwo\nset\ta\ty\t{2}\nset\ta\tz\t{3}"),
                refusal: 0,
                file: Some(b"@misc{a, t = 1,\n  y = {2},\n  z = {3},}"),
                counts: Some((1, 0)),
            },
            Step {
                turn: Turn::Undo(1),
                refusal: 55,
                file: None,
                counts: Some((1, 0)),
            },
            Step {
                turn: Turn::Script(b"group\tthree"),
                refusal: 55,
                file: None,
                counts: None,
            },
            Step {
                turn: Turn::Script(b"end\nend"),
                refusal: 56,
                file: None,
                counts: Some((1, 0)),
            },
            Step {
                turn: Turn::Undo(1),
                refusal: 0,
                file: Some(FILE),
                counts: Some((0, 1)),
            },
            Step {
                turn: Turn::Script(b"group\tnothing\nend"),
                refusal: 0,
                file: Some(FILE),
                counts: Some((0, 1)),
            },
            Step {
                turn: Turn::Redo(1),
                refusal: 0,
                file: Some(b"@misc{a, t = 1,\n  y = {2},\n  z = {3},}"),
                counts: Some((1, 0)),
            },
        ],
    },
    Course {
        name: "a step keeps what was done before a refusal",
        file: FILE,
        steps: &[
            Step {
                turn: Turn::Script(b"group\tg\nset\ta\ty\t{2}\ndrop\ta\tq\nset\ta\tz\t{3}"),
                refusal: 35,
                file: Some(b"@misc{a, t = 1,\n  y = {2},}"),
                counts: Some((1, 0)),
            },
            Step {
                turn: Turn::Script(b"end\nset\ta\tz\t{3}"),
                refusal: 0,
                file: None,
                counts: Some((2, 0)),
            },
            Step {
                turn: Turn::Undo(2),
                refusal: 0,
                file: Some(FILE),
                counts: Some((0, 2)),
            },
        ],
    },
    Course {
        name: "the number of changes is limited",
        file: FILE,
        steps: &[
            Step {
                turn: Turn::Times(65_535, b"set\ta\tt\t1"),
                refusal: 0,
                file: Some(FILE),
                counts: None,
            },
            Step {
                turn: Turn::Times(1, b"set\ta\tt\t1"),
                refusal: 41,
                file: None,
                counts: None,
            },
            Step {
                turn: Turn::Times(1, b"set\ta\tt\t{x"),
                refusal: 33,
                file: None,
                counts: None,
            },
            Step {
                turn: Turn::Undo(1),
                refusal: 0,
                file: None,
                counts: None,
            },
            Step {
                turn: Turn::Times(1, b"set\ta\tt\t1"),
                refusal: 0,
                file: None,
                counts: None,
            },
        ],
    },
];

const EMPTY: &[Row<'_>] = &[Row {
    name: "an empty file has nothing to undo",
    file: b"",
    turn: Turn::Undo(1),
    refusal: 51,
    left: b"",
}];

#[test]
fn changes_are_undone_and_redone(rt: HostRuntime) -> Result<(), Fail> {
    all_come_out(rt.alloc(), SESSIONS)
}

#[test]
fn an_empty_file_has_nothing_to_undo(rt: HostRuntime) -> Result<(), Fail> {
    all_hold(rt.alloc(), EMPTY)
}

/// An edit, undo, redo twice, and undo.
fn forth_and_back(alloc: Global) -> Result<Asked, AllocError> {
    let set = requests_of(alloc, &Turn::Script(b"set\ta\tt\t2"))?;
    let mut requests = set.into_vec();
    requests.push(Request::Undo)?;
    requests.push(Request::Redo)?;
    requests.push(Request::Redo)?;
    requests.push(Request::Undo)?;
    Ok(Asked {
        times: 1,
        requests: Seq::from_vec(requests),
    })
}

/// Whether three of the requests are made, and the file is left as these three leave it.
fn is_third(left: &Left) -> bool {
    left.done == 3 && left.refusal == 52 && left.file.as_slice() == b"@misc{a, t = 2,}".as_slice()
}

fn goes_forth_and_back(alloc: Global) -> Result<bool, Stop> {
    let turns = [forth_and_back(alloc)?];
    let plain = after(alloc, FILE, Flat::new(alloc), &turns)?;
    let paged = after(alloc, FILE, Paged::new(alloc), &turns)?;
    Ok(plain.iter().all(is_third) && paged.iter().all(is_third))
}

#[test]
fn requests_are_done_up_to_the_first_refusal(rt: HostRuntime) -> Result<(), Fail> {
    told("requests of all kinds", goes_forth_and_back(rt.alloc()))
}

#[test]
fn lines_are_counted_from_one(rt: HostRuntime) -> Result<(), Fail> {
    let script = read_script(
        rt.alloc(),
        b"set\ta\ty\t{2}\r\n\r\n\nremove\tk\nmove\tk\t007\nadd\t0\tmisc\tk\tt\nremove\tk",
    )?;
    assert_eq!(rt; script.lines.as_slice(), [1, 4, 5].as_slice());
    assert_eq!(rt; script.bad_line, Some(6));
    assert_eq!(rt; script.requests.as_slice().len(), 3);
    Ok(())
}

//! Edits at a position.

use crate::examples::{Example, all_hold};
use crate::rows::Stop;
use crate::turns::{Turn, has_depth, requests_of};
use bib_edit::{EditFault, Position, plan_at};
use bib_journal::Request;
use bib_store::{Database, ItemList, Piece};
use bib_text::{Seq, Text};
use std::alloc::{AllocError, Global};
use std::test::Fail;

/// A position, with the bytes of its key.
enum At {
    Number(usize),
    End,
    Before(&'static [u8]),
    After(&'static [u8]),
}

/// A file, a position, a script of one edit, the number of the refusal, or 0, and the file that is left.
struct Placed {
    name: &'static str,
    file: &'static [u8],
    at: At,
    script: &'static [u8],
    refusal: u16,
    left: &'static [u8],
}

const THREE: &[u8] = b"@misc{a}\n@misc{b}\n@misc{c}\n";

const TWICE: &[u8] = b"@misc{a}\n@book{A}\n";

const ADDED: &[Placed] = &[
    Placed {
        name: "an entry is added at a number",
        file: THREE,
        at: At::Number(1),
        script: b"add\t0\tmisc\td",
        refusal: 0,
        left: b"@misc{a}\n@misc{d}\n@misc{b}\n@misc{c}\n",
    },
    Placed {
        name: "an entry is added at the end",
        file: THREE,
        at: At::End,
        script: b"add\t0\tmisc\td",
        refusal: 0,
        left: b"@misc{a}\n@misc{b}\n@misc{c}\n@misc{d}\n",
    },
    Placed {
        name: "an entry is added before another",
        file: THREE,
        at: At::Before(b"b"),
        script: b"add\t0\tmisc\td",
        refusal: 0,
        left: b"@misc{a}\n@misc{d}\n@misc{b}\n@misc{c}\n",
    },
    Placed {
        name: "an entry is added after another, whose key is in capitals",
        file: THREE,
        at: At::After(b"B"),
        script: b"add\t0\tmisc\td",
        refusal: 0,
        left: b"@misc{a}\n@misc{b}\n@misc{d}\n@misc{c}\n",
    },
    Placed {
        name: "all items before the entry count",
        file: b"@string{p={A}}\n@comment\n@misc{a}\n",
        at: At::Before(b"a"),
        script: b"add\t0\tmisc\td",
        refusal: 0,
        left: b"@string{p={A}}\n@comment\n@misc{d}\n@misc{a}\n",
    },
    Placed {
        name: "an edit without a place is made as it is",
        file: THREE,
        at: At::After(b"c"),
        script: b"set\ta\ty\t{2}",
        refusal: 0,
        left: b"@misc{a,\n  y = {2}}\n@misc{b}\n@misc{c}\n",
    },
];

const MOVED: &[Placed] = &[
    Placed {
        name: "an entry moves directly after a later one",
        file: THREE,
        at: At::After(b"b"),
        script: b"move\ta\t0",
        refusal: 0,
        left: b"\n@misc{b}\n@misc{a}\n@misc{c}\n",
    },
    Placed {
        name: "an entry moves directly before a later one",
        file: THREE,
        at: At::Before(b"c"),
        script: b"move\ta\t0",
        refusal: 0,
        left: b"\n@misc{b}\n@misc{a}\n@misc{c}\n",
    },
    Placed {
        name: "an entry moves directly after an earlier one",
        file: THREE,
        at: At::After(b"a"),
        script: b"move\tc\t0",
        refusal: 0,
        left: b"@misc{a}\n@misc{c}\n@misc{b}\n\n",
    },
    Placed {
        name: "an entry moves to the end",
        file: THREE,
        at: At::End,
        script: b"move\ta\t0",
        refusal: 0,
        left: b"\n@misc{b}\n@misc{c}\n@misc{a}\n",
    },
    Placed {
        name: "an entry before itself stays between its neighbours",
        file: THREE,
        at: At::Before(b"b"),
        script: b"move\tb\t0",
        refusal: 0,
        left: b"@misc{a}\n\n@misc{b}\n@misc{c}\n",
    },
    Placed {
        name: "an entry after itself stays between its neighbours",
        file: THREE,
        at: At::After(b"b"),
        script: b"move\tb\t0",
        refusal: 0,
        left: b"@misc{a}\n\n@misc{b}\n@misc{c}\n",
    },
    Placed {
        name: "a number counts the other items",
        file: THREE,
        at: At::Number(2),
        script: b"move\ta\t0",
        refusal: 0,
        left: b"\n@misc{b}\n@misc{c}\n@misc{a}\n",
    },
];

const REFUSED: &[Placed] = &[
    Placed {
        name: "a position that names no entry is refused before a bad key",
        file: THREE,
        at: At::Before(b"x"),
        script: b"add\t0\tmisc\t{",
        refusal: 35,
        left: THREE,
    },
    Placed {
        name: "a position that names two entries is refused before a bad key",
        file: TWICE,
        at: At::After(b"a"),
        script: b"add\t0\tmisc\t{",
        refusal: 36,
        left: TWICE,
    },
    Placed {
        name: "a position is refused even for an edit without a place",
        file: THREE,
        at: At::After(b"x"),
        script: b"drop\ta\ty",
        refusal: 35,
        left: THREE,
    },
    Placed {
        name: "no entry has the empty key",
        file: b"@misc{}\n",
        at: At::Before(b""),
        script: b"add\t0\tmisc\td",
        refusal: 35,
        left: b"@misc{}\n",
    },
    Placed {
        name: "a number after the end of the other items is refused",
        file: THREE,
        at: At::Number(3),
        script: b"move\ta\t0",
        refusal: 34,
        left: THREE,
    },
    Placed {
        name: "an entry that isn't there doesn't move",
        file: THREE,
        at: At::End,
        script: b"move\tx\t0",
        refusal: 35,
        left: THREE,
    },
    Placed {
        name: "two entries with one key don't move",
        file: TWICE,
        at: At::End,
        script: b"move\ta\t0",
        refusal: 36,
        left: TWICE,
    },
];

fn text(alloc: Global, bytes: &[u8]) -> Result<Text, AllocError> {
    Ok(Seq::from_vec(Vec::from_slice(alloc, bytes)?))
}

fn position_of(alloc: Global, at: &At) -> Result<Position, AllocError> {
    match at {
        At::Number(n) => Ok(Position::Number(*n)),
        At::End => Ok(Position::End),
        At::Before(key) => Ok(Position::Before(text(alloc, key)?)),
        At::After(key) => Ok(Position::After(text(alloc, key)?)),
    }
}

/// The pieces of the one edit among the requests at this position; 10, if there is no such edit.
fn planned<L: ItemList>(
    alloc: Global,
    db: &Database<L>,
    position: &Position,
    requests: &[Request],
) -> Result<Seq<Piece>, EditFault> {
    match requests {
        [Request::Edit(edit)] if has_depth(edit) => plan_at(alloc, db, position, edit),
        _ => Err(EditFault::Memory),
    }
}

impl Example for Placed {
    fn name(&self) -> &str {
        self.name
    }

    fn file(&self) -> &[u8] {
        self.file
    }

    /// Whether the edit at the position is refused as the example says, and leaves this file.
    fn comes_out<L: ItemList>(&self, alloc: Global, db: &mut Database<L>) -> Result<bool, Stop> {
        let position = position_of(alloc, &self.at)?;
        let requests = requests_of(alloc, &Turn::Script(self.script))?;
        let refusal = match planned(alloc, db, &position, requests.as_slice()) {
            Ok(pieces) => {
                db.splice(pieces.as_slice())?;
                0
            }
            Err(fault) => fault.number(),
        };
        Ok(refusal == self.refusal && db.bytes()?.as_slice() == self.left)
    }
}

#[test]
fn an_entry_is_added_at_a_position(rt: HostRuntime) -> Result<(), Fail> {
    all_hold(rt.alloc(), ADDED)
}

#[test]
fn an_entry_moves_to_a_position(rt: HostRuntime) -> Result<(), Fail> {
    all_hold(rt.alloc(), MOVED)
}

#[test]
fn the_reasons_against_a_position_come_first(rt: HostRuntime) -> Result<(), Fail> {
    all_hold(rt.alloc(), REFUSED)
}

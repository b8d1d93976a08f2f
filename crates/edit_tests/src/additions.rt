//! Many entries that are added at once.

use crate::rows::{Course, Row, Step, all_come_out, all_hold};
use crate::turns::{Long, Turn};
use std::test::Fail;

const TWO: &[u8] = b"@misc{a}\n@misc{b}\n";

const BOOK_AND_MISC: &[u8] = b"add\t0\tbook\tc\ttitle\t{T}\nadd\t0\tmisc\td";

const IMPORTED: &[u8] = b"@article{anon,\n  title = {A long one}\n}\n";

const WAITING: &[u8] = b"@misc{a}@misc{b, crossref = {Z}}";

const ADDED: &[Row<'_>] = &[
    Row {
        name: "many entries stand after the last item",
        file: TWO,
        turn: Turn::AddMany(BOOK_AND_MISC),
        refusal: 0,
        left: b"@misc{a}\n@misc{b}\n@book{c,\n  title = {T}\n}\n@misc{d}\n",
    },
    Row {
        name: "an entry stands after the trail of the last item",
        file: b"@misc{a}x",
        turn: Turn::AddMany(b"add\t0\tmisc\td"),
        refusal: 0,
        left: b"@misc{a}x@misc{d}\n",
    },
    Row {
        name: "many entries stand after the front of a file without items",
        file: b"x",
        turn: Turn::AddMany(b"add\t0\tmisc\td\nadd\t0\tmisc\te"),
        refusal: 0,
        left: b"x@misc{d}\n@misc{e}\n",
    },
    Row {
        name: "an imported entry comes into an empty file",
        file: b"",
        turn: Turn::AddMany(b"add\t0\tarticle\tanon\ttitle\t{A long one}"),
        refusal: 0,
        left: IMPORTED,
    },
    Row {
        name: "an imported entry follows an earlier one",
        file: IMPORTED,
        turn: Turn::AddMany(b"add\t0\tarticle\tanona\ttitle\t{A long one}"),
        refusal: 0,
        left: b"@article{anon,\n  title = {A long one}\n}\n@article{anona,\n  title = {A long one}\n}\n",
    },
    Row {
        name: "many entries may have keys that crossrefs wait for",
        file: WAITING,
        turn: Turn::AddMany(b"add\t0\tmisc\ty\nadd\t0\tmisc\tz"),
        refusal: 0,
        left: b"@misc{a}@misc{b, crossref = {Z}}@misc{y}\n@misc{z}\n",
    },
];

const REFUSED: &[Row<'_>] = &[
    Row {
        name: "a key is given once",
        file: b"",
        turn: Turn::AddMany(b"add\t0\tmisc\tx\nadd\t0\tmisc\tx"),
        refusal: 37,
        left: b"",
    },
    Row {
        name: "a key is given once, be it in capitals",
        file: TWO,
        turn: Turn::AddMany(b"add\t0\tmisc\tx\nadd\t0\tbook\ty\nadd\t0\tmisc\tX"),
        refusal: 37,
        left: TWO,
    },
    Row {
        name: "a key of the file is not given again",
        file: TWO,
        turn: Turn::AddMany(b"add\t0\tmisc\tx\nadd\t0\tmisc\tB"),
        refusal: 37,
        left: TWO,
    },
    Row {
        name: "all keys are judged before any name",
        file: TWO,
        turn: Turn::AddMany(b"add\t0\tmisc\tc\t1\t1\nadd\t0\tmisc\tx{"),
        refusal: 31,
        left: TWO,
    },
    Row {
        name: "all types are judged before any value",
        file: TWO,
        turn: Turn::AddMany(b"add\t0\tmisc\tc\tt\t{x\nadd\t0\tString\td"),
        refusal: 32,
        left: TWO,
    },
    Row {
        name: "all names of fields are judged before any value",
        file: TWO,
        turn: Turn::AddMany(b"add\t0\tmisc\tc\tt\t{x\nadd\t0\tmisc\td\t1\t1"),
        refusal: 32,
        left: TWO,
    },
    Row {
        name: "all values are judged before fields that are given twice",
        file: TWO,
        turn: Turn::AddMany(b"add\t0\tmisc\tc\tt\t1\tT\t2\nadd\t0\tmisc\td\tt\t{x"),
        refusal: 33,
        left: TWO,
    },
    Row {
        name: "fields that are given twice are judged before keys in use",
        file: TWO,
        turn: Turn::AddMany(b"add\t0\tmisc\tA\nadd\t0\tmisc\td\tt\t1\tT\t2"),
        refusal: 36,
        left: TWO,
    },
    Row {
        name: "each text of many entries is limited",
        file: TWO,
        turn: Turn::AddLong(Long {
            before: b"add\t0\tmisc\tc\tt\t1\nadd\t0\tmisc\td\tt\t{",
            byte: b'x',
            count: 1_048_577,
            after: b"}",
        }),
        refusal: 8,
        left: TWO,
    },
];

const UNDONE: &[Course<'_>] = &[
    Course {
        name: "no entries are a change",
        file: TWO,
        steps: &[
            Step {
                turn: Turn::AddMany(b""),
                refusal: 0,
                file: Some(TWO),
                counts: Some((1, 0)),
            },
            Step {
                turn: Turn::Undo(1),
                refusal: 0,
                file: None,
                counts: Some((0, 1)),
            },
            Step {
                turn: Turn::Redo(1),
                refusal: 0,
                file: Some(TWO),
                counts: Some((1, 0)),
            },
        ],
    },
    Course {
        name: "many entries are undone and redone at once",
        file: b"@misc{a}",
        steps: &[
            Step {
                turn: Turn::AddMany(BOOK_AND_MISC),
                refusal: 0,
                file: Some(b"@misc{a}@book{c,\n  title = {T}\n}\n@misc{d}\n"),
                counts: None,
            },
            Step {
                turn: Turn::Undo(1),
                refusal: 0,
                file: Some(b"@misc{a}"),
                counts: None,
            },
            Step {
                turn: Turn::Redo(1),
                refusal: 0,
                file: Some(b"@misc{a}@book{c,\n  title = {T}\n}\n@misc{d}\n"),
                counts: Some((1, 0)),
            },
        ],
    },
];

#[test]
fn many_entries_are_added(rt: HostRuntime) -> Result<(), Fail> {
    all_hold(rt.alloc(), ADDED)
}

#[test]
fn many_entries_are_refused_together(rt: HostRuntime) -> Result<(), Fail> {
    all_hold(rt.alloc(), REFUSED)
}

#[test]
fn many_entries_are_one_change(rt: HostRuntime) -> Result<(), Fail> {
    all_come_out(rt.alloc(), UNDONE)
}

#[test]
fn many_entries_may_fill_the_file(rt: HostRuntime) -> Result<(), Fail> {
    let alloc = rt.alloc();
    let mut file = Vec::new(alloc);
    file.resize(16_777_216 - 18, b'x')?;
    let mut full = file.to_vec(alloc)?;
    full.extend_from_slice(b"@misc{c}\n@misc{d}\n")?;
    let rows = [
        Row {
            name: "two entries fill the file",
            file: file.as_slice(),
            turn: Turn::AddMany(b"add\t0\tmisc\tc\nadd\t0\tmisc\td"),
            refusal: 0,
            left: full.as_slice(),
        },
        Row {
            name: "three entries are too many",
            file: file.as_slice(),
            turn: Turn::AddMany(b"add\t0\tmisc\tc\nadd\t0\tmisc\td\nadd\t0\tmisc\te"),
            refusal: 9,
            left: file.as_slice(),
        },
    ];
    all_hold(alloc, &rows)
}

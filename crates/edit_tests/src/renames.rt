//! Keys that are renamed and regenerated.

use crate::rows::{Course, Row, Step, all_come_out, all_hold};
use crate::turns::Turn;
use std::test::Fail;

const TWO: &[u8] = b"@misc{a}\n@misc{b}\n";

const WAITING: &[u8] = b"@misc{a}@misc{b, crossref = {Z}}";

/// Two entries, each with the key that would be made for the other.
pub const CROSSED: &[u8] =
    b"@misc{Lam86, author = {Donald E. Knuth}, year = 1984}\n@misc{Knu84, author = {Leslie Lamport}, year = 1986, crossref = {lam86}}\n";

/// The same two entries, each with the key that is made for it.
pub const MADE: &[u8] =
    b"@misc{Knu84, author = {Donald E. Knuth}, year = 1984}\n@misc{Lam86, author = {Leslie Lamport}, year = 1986, crossref = {Knu84}}\n";

const RENAMED: &[Row<'_>] = &[
    Row {
        name: "a key is spelled otherwise",
        file: TWO,
        turn: Turn::Script(b"rename-key\ta\tA"),
        refusal: 0,
        left: b"@misc{A}\n@misc{b}\n",
    },
    Row {
        name: "a key is not given unless it is free",
        file: TWO,
        turn: Turn::Script(b"rename-key\ta\tB"),
        refusal: 37,
        left: TWO,
    },
    Row {
        name: "a new key is a key",
        file: TWO,
        turn: Turn::Script(b"rename-key\ta\tb c"),
        refusal: 31,
        left: TWO,
    },
    Row {
        name: "a key to rename is there",
        file: TWO,
        turn: Turn::Script(b"rename-key\tq\tr"),
        refusal: 35,
        left: TWO,
    },
    Row {
        name: "a key to rename is there once",
        file: b"@misc{a}@misc{A}",
        turn: Turn::Script(b"rename-key\ta\tb"),
        refusal: 36,
        left: b"@misc{a}@misc{A}",
    },
    Row {
        name: "a key that a crossref waits for is taken",
        file: WAITING,
        turn: Turn::Script(b"rename-key\ta\tz"),
        refusal: 37,
        left: WAITING,
    },
    Row {
        name: "a key that no crossref waits for is free",
        file: WAITING,
        turn: Turn::Script(b"rename-key\ta\ty"),
        refusal: 0,
        left: b"@misc{y}@misc{b, crossref = {Z}}",
    },
    Row {
        name: "a crossref of parts names the new key",
        file: b"@string{conf={conf}}@misc{conf95}@misc{b, crossref = conf # {95}}",
        turn: Turn::Script(b"rename-key\tconf95\ticc"),
        refusal: 0,
        left: b"@string{conf={conf}}@misc{icc}@misc{b, crossref = {icc}}",
    },
];

/// The second entry is the first one's parent, and the third the second one's.
const CHAIN: &[u8] = b"@misc{p,crossref={q}}@misc{q,crossref={r}}@misc{r,year=1999}";

const REGENERATED: &[Row<'_>] = &[
    Row {
        name: "two entries exchange their keys",
        file: CROSSED,
        turn: Turn::Script(b"regenerate"),
        refusal: 0,
        left: MADE,
    },
    Row {
        name: "made keys stay",
        file: CROSSED,
        turn: Turn::Script(b"regenerate\nregenerate"),
        refusal: 0,
        left: MADE,
    },
    Row {
        name: "made keys are those of parents alone",
        file: CHAIN,
        turn: Turn::Script(b"regenerate"),
        refusal: 0,
        left: b"@misc{anon,crossref={anon99}}@misc{anon99,crossref={anon99a}}@misc{anon99a,year=1999}",
    },
    Row {
        name: "made keys are those of parents and their parents",
        file: CHAIN,
        turn: Turn::Script(b"regenerate\t2"),
        refusal: 0,
        left: b"@misc{anon99,crossref={anon99a}}@misc{anon99a,crossref={anon99b}}@misc{anon99b,year=1999}",
    },
    Row {
        name: "a made key is none that a crossref waits for",
        file: b"@misc{,year=1999}@misc{x,year=1999}@misc{c,year=2000,crossref={anon99A}}",
        turn: Turn::Script(b"regenerate"),
        refusal: 0,
        left: b"@misc{anon99,year=1999}@misc{anon99b,year=1999}@misc{anon00,year=2000,crossref={anon99A}}",
    },
];

const NOTHING_MADE: &[Course<'_>] = &[Course {
    name: "making no keys is a change",
    file: b"",
    steps: &[
        Step {
            turn: Turn::Times(65_535, b"regenerate"),
            refusal: 0,
            file: None,
            counts: None,
        },
        Step {
            turn: Turn::Times(1, b"regenerate"),
            refusal: 41,
            file: None,
            counts: None,
        },
        Step {
            turn: Turn::Undo(1),
            refusal: 0,
            file: None,
            counts: None,
        },
        Step {
            turn: Turn::Times(1, b"regenerate"),
            refusal: 0,
            file: Some(b""),
            counts: Some((65_535, 0)),
        },
    ],
}];

#[test]
fn a_key_is_renamed(rt: HostRuntime) -> Result<(), Fail> {
    all_hold(rt.alloc(), RENAMED)
}

#[test]
fn keys_are_made_anew(rt: HostRuntime) -> Result<(), Fail> {
    all_hold(rt.alloc(), REGENERATED)
}

#[test]
fn making_no_keys_is_a_change(rt: HostRuntime) -> Result<(), Fail> {
    all_come_out(rt.alloc(), NOTHING_MADE)
}

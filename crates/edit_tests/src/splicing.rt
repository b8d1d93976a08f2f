//! Pieces put into a file.

use crate::examples::{Example, all_hold};
use crate::rows::Stop;
use bib_store::{Database, ItemList, Piece};
use bib_text::{Seq, Text, copied};
use std::alloc::{AllocError, Global};
use std::test::Fail;

/// A piece: a place, its old bytes and its new bytes.
pub type Change = (u64, &'static [u8], &'static [u8]);

/// A file; pieces that are put into it at once; the number of their refusal, or 0; and the file afterwards.
struct Splice {
    name: &'static str,
    file: &'static [u8],
    changes: &'static [Change],
    refusal: u16,
    left: &'static [u8],
}

const FOUR: &[u8] = b"@misc{a}\n@misc{b}\n@misc{c}\n@misc{d}\n";

const BETWEEN: &[u8] = b"@string{m = {1}}\n@misc{b, t = m}\n";

const ONE_PIECE: &[Splice] = &[
    Splice {
        name: "a piece whose old bytes are not there",
        file: b"@misc{a, t = 1,}",
        changes: &[(0, b"x", b"")],
        refusal: 12,
        left: b"@misc{a, t = 1,}",
    },
    Splice {
        name: "a piece after the end",
        file: b"",
        changes: &[(5, b"", b"x")],
        refusal: 12,
        left: b"",
    },
    Splice {
        name: "a piece that leads to no file",
        file: b"@misc{a}",
        changes: &[(7, b"}", b"")],
        refusal: 12,
        left: b"@misc{a}",
    },
    Splice {
        name: "a front comes into an empty file",
        file: b"",
        changes: &[(0, b"", b"x")],
        refusal: 0,
        left: b"x",
    },
    Splice {
        name: "a key is another",
        file: b"@misc{a}\n@misc{b}\n",
        changes: &[(15, b"b", b"C")],
        refusal: 0,
        left: b"@misc{a}\n@misc{C}\n",
    },
    Splice {
        name: "an entry takes in the one after it",
        file: b"@misc{a}x@misc{b}}}",
        changes: &[(7, b"}", b",x={")],
        refusal: 0,
        left: b"@misc{a,x={x@misc{b}}}",
    },
];

const BETWEEN_ITEMS: &[Splice] = &[
    Splice {
        name: "an entry comes between items",
        file: BETWEEN,
        changes: &[(17, b"", b"@misc{a, t = m}\n")],
        refusal: 0,
        left: b"@string{m = {1}}\n@misc{a, t = m}\n@misc{b, t = m}\n",
    },
    Splice {
        name: "a text comes between items",
        file: BETWEEN,
        changes: &[(17, b"", b"#\n")],
        refusal: 0,
        left: b"@string{m = {1}}\n#\n@misc{b, t = m}\n",
    },
    Splice {
        name: "an entry goes with its trail",
        file: BETWEEN,
        changes: &[(17, b"@misc{b, t = m}\n", b"")],
        refusal: 0,
        left: b"@string{m = {1}}\n",
    },
    Splice {
        name: "an entry goes and leaves its trail",
        file: BETWEEN,
        changes: &[(17, b"@misc{b, t = m}", b"")],
        refusal: 0,
        left: b"@string{m = {1}}\n\n",
    },
    Splice {
        name: "a trail and what comes after it make one item",
        file: b"@misc{a}@x\n@misc{b}",
        changes: &[(11, b"@misc{b}", b"{c}")],
        refusal: 0,
        left: b"@misc{a}@x\n{c}",
    },
    Splice {
        name: "a front and what comes after it make one item",
        file: b"@x\n@misc{b}",
        changes: &[(3, b"", b"{c}")],
        refusal: 0,
        left: b"@x\n{c}@misc{b}",
    },
    Splice {
        name: "a front stays beside an entry that comes",
        file: b"@x\n@misc{b}",
        changes: &[(3, b"", b"@misc{a}")],
        refusal: 0,
        left: b"@x\n@misc{a}@misc{b}",
    },
];

const FAR_APART: &[Splice] = &[
    Splice {
        name: "two keys are others",
        file: FOUR,
        changes: &[(15, b"b", b"B"), (33, b"d", b"D")],
        refusal: 0,
        left: b"@misc{a}\n@misc{B}\n@misc{c}\n@misc{D}\n",
    },
    Splice {
        name: "an entry goes from one place to another",
        file: FOUR,
        changes: &[(9, b"@misc{b}", b""), (36, b"", b"@misc{b}\n")],
        refusal: 0,
        left: b"@misc{a}\n\n@misc{c}\n@misc{d}\n@misc{b}\n",
    },
    Splice {
        name: "pieces far apart make one item",
        file: b"@misc{a}\n@misc{b}\n@misc{c}\n@misc{d}\n}}",
        changes: &[(16, b"}", b",x={"), (33, b"d", b"D")],
        refusal: 0,
        left: b"@misc{a}\n@misc{b,x={\n@misc{c}\n@misc{D}\n}}",
    },
    Splice {
        name: "pieces are refused together where one does not fit",
        file: FOUR,
        changes: &[(15, b"x", b"B"), (33, b"d", b"D")],
        refusal: 12,
        left: FOUR,
    },
    Splice {
        name: "pieces are refused together where one leads to no file",
        file: FOUR,
        changes: &[(16, b"}", b""), (33, b"d", b"D")],
        refusal: 12,
        left: FOUR,
    },
];

const FRONT_AND_LATER: &[Splice] = &[
    Splice {
        name: "the first entry goes and leaves a front, and one far after it changes",
        file: FOUR,
        changes: &[(0, b"@misc{a}", b""), (24, b"c", b"C")],
        refusal: 0,
        left: b"\n@misc{b}\n@misc{C}\n@misc{d}\n",
    },
    Splice {
        name: "a front comes, and an entry far after it changes",
        file: FOUR,
        changes: &[(0, b"", b"x"), (24, b"c", b"C")],
        refusal: 0,
        left: b"x@misc{a}\n@misc{b}\n@misc{C}\n@misc{d}\n",
    },
    Splice {
        name: "a front goes, and an entry far after it changes",
        file: b"x\n@misc{a}\n@misc{b}\n@misc{c}\n",
        changes: &[(0, b"x\n", b""), (26, b"c", b"C")],
        refusal: 0,
        left: b"@misc{a}\n@misc{b}\n@misc{C}\n",
    },
    Splice {
        name: "a front and what comes after it make one item, and an entry far after it changes",
        file: b"@x\n@misc{b}\n@misc{c}\n@misc{d}\n",
        changes: &[(3, b"", b"{q}"), (27, b"d", b"D")],
        refusal: 0,
        left: b"@x\n{q}@misc{b}\n@misc{c}\n@misc{D}\n",
    },
    Splice {
        name: "a definition before all entries goes, and its use far after it gives way",
        file: b"@string{m = {1}}\n@misc{a}\n@misc{b, t = m}\n",
        changes: &[(0, b"@string{m = {1}}", b""), (39, b"m", b"{1}")],
        refusal: 0,
        left: b"\n@misc{a}\n@misc{b, t = {1}}\n",
    },
    Splice {
        name: "the first entry stays where an entry far after it leads to no file",
        file: FOUR,
        changes: &[(0, b"@misc{a}", b""), (25, b"}", b"")],
        refusal: 12,
        left: FOUR,
    },
];

/// A file, pieces that are put into it at once, and how many bytes were read last.
struct Scan {
    name: &'static str,
    file: &'static [u8],
    changes: &'static [Change],
    scanned: usize,
}

const SCANS: &[Scan] = &[
    Scan {
        name: "a file is opened",
        file: b"@misc{a}\n@misc{b}\n",
        changes: &[],
        scanned: 18,
    },
    Scan {
        name: "an entry has another key",
        file: b"@misc{a}\n@misc{b}\n",
        changes: &[(15, b"b", b"C")],
        scanned: 9,
    },
    Scan {
        name: "the first entry goes to the end",
        file: b"@misc{a}\n@misc{b}\n",
        changes: &[(0, b"@misc{a}", b""), (18, b"", b"@misc{a}\n")],
        scanned: 19,
    },
    Scan {
        name: "two entries that lie apart have other keys",
        file: FOUR,
        changes: &[(15, b"b", b"B"), (33, b"d", b"D")],
        scanned: 18,
    },
    Scan {
        name: "an entry comes before the third",
        file: FOUR,
        changes: &[(18, b"", b"@misc{x}\n")],
        scanned: 18,
    },
    Scan {
        name: "an entry comes at the end",
        file: FOUR,
        changes: &[(36, b"", b"@misc{x}\n")],
        scanned: 18,
    },
    Scan {
        name: "an entry comes at the start",
        file: FOUR,
        changes: &[(0, b"", b"@misc{x}\n")],
        scanned: 9,
    },
    Scan {
        name: "the second goes",
        file: FOUR,
        changes: &[(9, b"@misc{b}", b"")],
        scanned: 10,
    },
    Scan {
        name: "the first goes",
        file: FOUR,
        changes: &[(0, b"@misc{a}", b"")],
        scanned: 1,
    },
    Scan {
        name: "the first of four goes to the end",
        file: FOUR,
        changes: &[(0, b"@misc{a}", b""), (36, b"", b"@misc{a}\n")],
        scanned: 19,
    },
    Scan {
        name: "the last goes to the start",
        file: FOUR,
        changes: &[(0, b"", b"@misc{d}\n"), (27, b"@misc{d}", b"")],
        scanned: 19,
    },
    Scan {
        name: "the third gets a field",
        file: FOUR,
        changes: &[(25, b"", b",\n  t={x}")],
        scanned: 18,
    },
    Scan {
        name: "the third gets another key",
        file: FOUR,
        changes: &[(24, b"c", b"C")],
        scanned: 9,
    },
    Scan {
        name: "a whole body gives way",
        file: b"@misc{a}\n@misc{b}\n@misc{c}\n",
        changes: &[(9, b"@misc{b}", b"@misc{B}")],
        scanned: 18,
    },
    Scan {
        name: "two definitions that lie apart get other texts",
        file: b"@string{a={1}}\n@string{b={2}}\n@string{c={3}}\n",
        changes: &[(11, b"1", b"4"), (41, b"3", b"5")],
        scanned: 30,
    },
    Scan {
        name: "neighbours count once",
        file: FOUR,
        changes: &[(6, b"a", b"A"), (15, b"b", b"B")],
        scanned: 18,
    },
    Scan {
        name: "one of two windows does not read by itself",
        file: FOUR,
        changes: &[(7, b"}", b",x={"), (26, b"", b"}}")],
        scanned: 41,
    },
    Scan {
        name: "a window that does not read by itself",
        file: b"@misc{a}x@misc{b}}}",
        changes: &[(7, b"}", b",x={")],
        scanned: 22,
    },
    Scan {
        name: "the first item becomes a front",
        file: b"@misc{a}@misc{b}",
        changes: &[(1, b"m", b"1")],
        scanned: 8,
    },
    Scan {
        name: "what is refused leaves it",
        file: b"@misc{a}\n@misc{b}\n",
        changes: &[(16, b"}", b"")],
        scanned: 18,
    },
];

fn text(alloc: Global, bytes: &[u8]) -> Result<Text, AllocError> {
    copied(alloc, bytes)
}

pub fn pieces_of(alloc: Global, changes: &[Change]) -> Result<Seq<Piece>, AllocError> {
    let mut pieces = Vec::new(alloc);
    for (place, old, new) in changes {
        pieces.push(Piece {
            place: *place,
            old: text(alloc, old)?,
            new: text(alloc, new)?,
        })?;
    }
    Ok(Seq::from_vec(pieces))
}

impl Example for Splice {
    fn name(&self) -> &str {
        self.name
    }

    fn file(&self) -> &[u8] {
        self.file
    }

    /// Whether the pieces leave what the example says.
    fn comes_out<L: ItemList>(&self, alloc: Global, db: &mut Database<L>) -> Result<bool, Stop> {
        let refusal = match db.splice(pieces_of(alloc, self.changes)?.as_slice()) {
            Ok(()) => 0,
            Err(fault) => fault.number(),
        };
        let file = db.bytes()?;
        Ok(refusal == self.refusal && file.as_slice() == self.left)
    }
}

impl Example for Scan {
    fn name(&self) -> &str {
        self.name
    }

    fn file(&self) -> &[u8] {
        self.file
    }

    /// Whether the last scan read the number of bytes that the example says: the scan for the pieces, or without pieces
    /// the scan at opening.
    fn comes_out<L: ItemList>(&self, alloc: Global, db: &mut Database<L>) -> Result<bool, Stop> {
        if !self.changes.is_empty() {
            let _ = db.splice(pieces_of(alloc, self.changes)?.as_slice());
        }
        Ok(db.last_scan() == self.scanned)
    }
}

#[test]
fn few_bytes_are_read_again(rt: HostRuntime) -> Result<(), Fail> {
    all_hold(rt.alloc(), SCANS)
}

#[test]
fn a_piece_is_put_into_a_file(rt: HostRuntime) -> Result<(), Fail> {
    all_hold(rt.alloc(), ONE_PIECE)
}

#[test]
fn pieces_are_put_between_items(rt: HostRuntime) -> Result<(), Fail> {
    all_hold(rt.alloc(), BETWEEN_ITEMS)
}

#[test]
fn pieces_far_apart_are_put_into_a_file(rt: HostRuntime) -> Result<(), Fail> {
    all_hold(rt.alloc(), FAR_APART)
}

#[test]
fn pieces_change_the_front_and_a_later_entry(rt: HostRuntime) -> Result<(), Fail> {
    all_hold(rt.alloc(), FRONT_AND_LATER)
}

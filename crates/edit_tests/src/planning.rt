//! The pieces of edits.

use crate::examples::{Example, all_hold};
use crate::renames::CROSSED;
use crate::rows::Stop;
use crate::splicing::Change;
use crate::turns::{Turn, has_depth, requests_of};
use bib_edit::plan;
use bib_journal::Request;
use bib_store::{Database, ItemList, Piece};
use std::alloc::Global;
use std::test::Fail;

/// A file, a turn of one edit, and the pieces of the edit.
struct Planned {
    name: &'static str,
    file: &'static [u8],
    turn: Turn,
    pieces: &'static [Change],
}

const EDITS: &[Planned] = &[
    Planned {
        name: "a new field is one piece",
        file: b"@misc{a, t = 1,}",
        turn: Turn::Script(b"set\ta\ty\t{2}"),
        pieces: &[(14, b"", b",\n  y = {2}")],
    },
    Planned {
        name: "a type gives way alone, and keeps the white space before it",
        file: b"x@ Misc {a}",
        turn: Turn::Script(b"set-type\ta\tBook"),
        pieces: &[(3, b"Misc", b"Book")],
    },
    Planned {
        name: "a type in letters of another case gives way, too",
        file: b"@Misc{a}",
        turn: Turn::Script(b"set-type\ta\tmisC"),
        pieces: &[(1, b"Misc", b"misC")],
    },
    Planned {
        name: "the names of fields give way alone, whatever their case",
        file: b"x@misc{a, T = 1}@misc{b,t=2}",
        turn: Turn::Script(b"rename-field\tt\ttitle"),
        pieces: &[(10, b"T", b"title"), (24, b"t", b"title")],
    },
    Planned {
        name: "a definition is put after the last one before the first entry",
        file: b"x@string{m=1} y@misc{a}@string{n=2}",
        turn: Turn::Script(b"define\tk\t{b}"),
        pieces: &[(13, b"", b"\n@string{k = {b}}")],
    },
    Planned {
        name: "the value of a macro gives way alone",
        file: b"x@string( m = 1 # n )@misc{a}",
        turn: Turn::Script(b"set-macro\tM\t{b}"),
        pieces: &[(14, b"1 # n", b"{b}")],
    },
    Planned {
        name: "a move is two pieces",
        file: b"@misc{a}\n@misc{b}\n",
        turn: Turn::Script(b"move\ta\t1"),
        pieces: &[(0, b"@misc{a}", b""), (18, b"", b"@misc{a}\n")],
    },
    Planned {
        name: "a macro goes and its use says what it said",
        file: b"@string{x={1}}@string{m=x}@string{x={2}}@misc{k,t=m}",
        turn: Turn::Script(b"inline\tm"),
        pieces: &[(14, b"@string{m=x}", b""), (50, b"m", b"{1}")],
    },
    Planned {
        name: "two entries exchange their keys, and a crossref follows",
        file: CROSSED,
        turn: Turn::Script(b"regenerate"),
        pieces: &[
            (6, b"Lam86", b"Knu84"),
            (60, b"Knu84", b"Lam86"),
            (118, b"{lam86}", b"{Knu84}"),
        ],
    },
    Planned {
        name: "many entries are one piece",
        file: b"@misc{a}\n@misc{b}\n",
        turn: Turn::AddMany(b"add\t0\tbook\tc\ttitle\t{T}\nadd\t0\tmisc\td"),
        pieces: &[(18, b"", b"@book{c,\n  title = {T}\n}\n@misc{d}\n")],
    },
    Planned {
        name: "no entries are no piece",
        file: b"@misc{a}\n@misc{b}\n",
        turn: Turn::AddMany(b""),
        pieces: &[],
    },
];

/// Whether the pieces are these changes.
pub fn are_pieces(pieces: &[Piece], changes: &[Change]) -> bool {
    pieces.len() == changes.len()
        && pieces.iter().zip(changes).all(|(piece, (place, old, new))| {
            piece.place == *place && piece.old.as_slice() == *old && piece.new.as_slice() == *new
        })
}

/// Whether these are the pieces of the one edit among the requests.
fn is_planned<L: ItemList>(
    alloc: Global,
    db: &Database<L>,
    requests: &[Request],
    pieces: &[Change],
) -> Result<bool, Stop> {
    match requests {
        [Request::Edit(edit)] if has_depth(edit) => {
            Ok(are_pieces(plan(alloc, db, edit)?.as_slice(), pieces))
        }
        _ => Ok(false),
    }
}

impl Example for Planned {
    fn name(&self) -> &str {
        self.name
    }

    fn file(&self) -> &[u8] {
        self.file
    }

    /// Whether the edit of the turn has these pieces.
    fn comes_out<L: ItemList>(&self, alloc: Global, db: &mut Database<L>) -> Result<bool, Stop> {
        let requests = requests_of(alloc, &self.turn)?;
        is_planned(alloc, db, requests.as_slice(), self.pieces)
    }
}

#[test]
fn an_edit_is_these_pieces(rt: HostRuntime) -> Result<(), Fail> {
    all_hold(rt.alloc(), EDITS)
}

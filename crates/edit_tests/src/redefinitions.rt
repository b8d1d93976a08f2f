//! Macros that are renamed by pieces at several places at once, and back.

use crate::examples::{Example, all_hold};
use crate::rows::Stop;
use crate::splicing::{Change, pieces_of};
use bib_store::{Database, ItemList};
use std::alloc::Global;
use std::test::Fail;

/// A file where the macro `p` stands for `A`; the pieces that rename it to `q`, which may be refused; and the pieces
/// that lead back.
struct Renaming {
    name: &'static str,
    file: &'static [u8],
    changes: &'static [Change],
    back: &'static [Change],
    is_refused: bool,
}

const USED: &[u8] = b"@misc{z}@misc{y}@string{p={A}}@misc{x}@misc{a,t=p}@misc{b}@misc{c,t=p}";

const RENAMINGS: &[Renaming] = &[
    Renaming {
        name: "a macro that two entries use",
        file: USED,
        changes: &[(24, b"p", b"q"), (48, b"p", b"q"), (68, b"p", b"q")],
        back: &[(24, b"q", b"p"), (48, b"q", b"p"), (68, b"q", b"p")],
        is_refused: false,
    },
    Renaming {
        name: "a macro that is not used",
        file: b"@misc{z}@misc{y}@string{p=\"A\" # {}}@misc{x}",
        changes: &[(24, b"p", b"q")],
        back: &[(24, b"q", b"p")],
        is_refused: false,
    },
    Renaming {
        name: "a macro that another definition uses",
        file: b"@misc{z}@misc{y}@string{p={A}}@misc{x}@misc{b}@string{r=p}",
        changes: &[(24, b"p", b"q"), (56, b"p", b"q")],
        back: &[(24, b"q", b"p"), (56, b"q", b"p")],
        is_refused: false,
    },
    Renaming {
        name: "a macro together with another",
        file: b"@string{p={A}}@misc{x}@misc{y}@misc{z}@string{r={B}}",
        changes: &[(8, b"p", b"q"), (46, b"r", b"s")],
        back: &[(8, b"q", b"p"), (46, b"s", b"r")],
        is_refused: false,
    },
    Renaming {
        name: "a macro together with the one after it",
        file: b"@string{p={A}}@string{r={B}}@misc{x}",
        changes: &[(8, b"p", b"q"), (22, b"r", b"s")],
        back: &[(8, b"q", b"p"), (22, b"s", b"r")],
        is_refused: false,
    },
    Renaming {
        name: "a macro whose pieces lead to no file",
        file: USED,
        changes: &[(7, b"}", b","), (24, b"p", b"q"), (48, b"p", b"q")],
        back: &[],
        is_refused: true,
    },
];

/// Whether after the last item this name stands for `A`, and the other name for nothing.
fn is_only<L: ItemList>(db: &Database<L>, name: &[u8], other: &[u8]) -> Result<bool, Stop> {
    let n = db.item_count();
    let text = db.macro_text(n, name)?;
    let is_a = text.is_some_and(|text| text.as_slice() == b"A".as_slice());
    Ok(is_a && db.macro_text(n, other)?.is_none())
}

impl Example for Renaming {
    fn name(&self) -> &str {
        self.name
    }

    fn file(&self) -> &[u8] {
        self.file
    }

    /// Whether the macro is renamed, unless that is refused, and then renamed back.
    fn comes_out<L: ItemList>(&self, alloc: Global, db: &mut Database<L>) -> Result<bool, Stop> {
        let is_refused = db
            .splice(pieces_of(alloc, self.changes)?.as_slice())
            .is_err();
        let is_renamed = is_refused || is_only(db, b"q", b"p")?;
        db.splice(pieces_of(alloc, self.back)?.as_slice())?;
        let is_back = is_only(db, b"p", b"q")?;
        let file = db.bytes()?;
        Ok(is_refused == self.is_refused && is_renamed && is_back && file.as_slice() == self.file)
    }
}

#[test]
fn a_macro_is_renamed_and_back(rt: HostRuntime) -> Result<(), Fail> {
    all_hold(rt.alloc(), RENAMINGS)
}

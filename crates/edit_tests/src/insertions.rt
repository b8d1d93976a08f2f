//! Texts that are put into files.

use crate::examples::{Example, all_hold};
use crate::planning::are_pieces;
use crate::rows::Stop;
use crate::splicing::Change;
use bib_edit::plan_insertion;
use bib_store::{Database, Flat, ItemList};
use std::alloc::Global;
use std::test::Fail;

/// A file; a text and the position at which it is put in; the number of the refusal, or 0; the pieces; and the file that is
/// left.
struct Inserted {
    name: &'static str,
    file: &'static [u8],
    text: &'static [u8],
    position: usize,
    refusal: u16,
    pieces: &'static [Change],
    left: &'static [u8],
}

const INSERTED: &[Inserted] = &[
    Inserted {
        name: "a text after an open line begins a line",
        file: b"@misc{a}",
        text: b"% new\n@misc{c}\n",
        position: 1,
        refusal: 0,
        pieces: &[(8, b"", b"\n% new\n@misc{c}\n")],
        left: b"@misc{a}\n% new\n@misc{c}\n",
    },
    Inserted {
        name: "the white space at the end of a file stays before the text",
        file: b"@misc{a}\n \n",
        text: b"@misc{c}",
        position: 1,
        refusal: 0,
        pieces: &[(11, b"", b"@misc{c}")],
        left: b"@misc{a}\n \n@misc{c}",
    },
    Inserted {
        name: "a text stands between two items",
        file: b"@misc{a}\n@misc{b}\n",
        text: b"@misc{c}\n",
        position: 1,
        refusal: 0,
        pieces: &[(9, b"", b"@misc{c}\n")],
        left: b"@misc{a}\n@misc{c}\n@misc{b}\n",
    },
    Inserted {
        name: "a text before the first item stands after the front",
        file: b"x\n@misc{a}\n",
        text: b"@misc{c}\n",
        position: 0,
        refusal: 0,
        pieces: &[(2, b"", b"@misc{c}\n")],
        left: b"x\n@misc{c}\n@misc{a}\n",
    },
    Inserted {
        name: "a text before an item gets no end of a line",
        file: b"@misc{a}\n",
        text: b"@misc{c}",
        position: 0,
        refusal: 0,
        pieces: &[(0, b"", b"@misc{c}")],
        left: b"@misc{c}@misc{a}\n",
    },
    Inserted {
        name: "a text after an open front begins a line",
        file: b"x",
        text: b"@misc{c}",
        position: 0,
        refusal: 0,
        pieces: &[(1, b"", b"\n@misc{c}")],
        left: b"x\n@misc{c}",
    },
    Inserted {
        name: "a text comes into an empty file as it is",
        file: b"",
        text: b"@misc{c}",
        position: 0,
        refusal: 0,
        pieces: &[(0, b"", b"@misc{c}")],
        left: b"@misc{c}",
    },
    Inserted {
        name: "a text without items is put in",
        file: b"@misc{a}\n",
        text: b"note\n",
        position: 1,
        refusal: 0,
        pieces: &[(9, b"", b"note\n")],
        left: b"@misc{a}\nnote\n",
    },
    Inserted {
        name: "an empty text is no piece",
        file: b"@misc{a}",
        text: b"",
        position: 1,
        refusal: 0,
        pieces: &[],
        left: b"@misc{a}",
    },
    Inserted {
        name: "a text may have the key that a crossref waits for",
        file: b"@misc{b, crossref = {C}}",
        text: b"@misc{c}\n",
        position: 0,
        refusal: 0,
        pieces: &[(0, b"", b"@misc{c}\n")],
        left: b"@misc{c}\n@misc{b, crossref = {C}}",
    },
    Inserted {
        name: "a text may define a month, and a macro twice",
        file: b"@misc{a, month = jan}\n",
        text: b"@string{jan={A}}@string{jan={B}}\n",
        position: 0,
        refusal: 0,
        pieces: &[(0, b"", b"@string{jan={A}}@string{jan={B}}\n")],
        left: b"@string{jan={A}}@string{jan={B}}\n@misc{a, month = jan}\n",
    },
];

const REFUSED: &[Inserted] = &[
    Inserted {
        name: "a position after the end is told before a key in use",
        file: b"@misc{a}",
        text: b"@misc{a}",
        position: 2,
        refusal: 34,
        pieces: &[],
        left: b"@misc{a}",
    },
    Inserted {
        name: "a key of the file is not given again, be it in capitals",
        file: b"@misc{a}",
        text: b"@misc{c}@book{A}",
        position: 1,
        refusal: 37,
        pieces: &[],
        left: b"@misc{a}",
    },
    Inserted {
        name: "a text has each key once",
        file: b"@misc{a}",
        text: b"@misc{c}@book{C}",
        position: 1,
        refusal: 37,
        pieces: &[],
        left: b"@misc{a}",
    },
    Inserted {
        name: "a key in use is told before a macro that is defined",
        file: b"@string{p={A}}@misc{a}",
        text: b"@string{P={B}}@misc{a}",
        position: 0,
        refusal: 37,
        pieces: &[],
        left: b"@string{p={A}}@misc{a}",
    },
    Inserted {
        name: "a macro of the file is not defined again",
        file: b"@string{p={A}}@comment",
        text: b"s@string{P={B}}",
        position: 2,
        refusal: 38,
        pieces: &[],
        left: b"@string{p={A}}@comment",
    },
    Inserted {
        name: "a front that lengthens the type of a comment is refused",
        file: b"@comment@misc{a}",
        text: b"s@misc{c}",
        position: 1,
        refusal: 40,
        pieces: &[],
        left: b"@comment@misc{a}",
    },
    Inserted {
        name: "a front that makes a command of the text before it is refused",
        file: b"a@foo \n",
        text: b"{b}",
        position: 0,
        refusal: 40,
        pieces: &[],
        left: b"a@foo \n",
    },
];

impl Example for Inserted {
    fn name(&self) -> &str {
        self.name
    }

    fn file(&self) -> &[u8] {
        self.file
    }

    /// Whether the insertion is refused as the example says, or has these pieces, and leaves this file.
    fn comes_out<L: ItemList>(&self, alloc: Global, db: &mut Database<L>) -> Result<bool, Stop> {
        let text = Database::open_bytes(alloc, self.text, Flat::new(alloc))?;
        let is_told = match plan_insertion(alloc, db, self.position, &text) {
            Ok(pieces) => {
                db.splice(pieces.as_slice())?;
                self.refusal == 0 && are_pieces(pieces.as_slice(), self.pieces)
            }
            Err(fault) => fault.number() == self.refusal,
        };
        Ok(is_told && db.bytes()?.as_slice() == self.left)
    }
}

#[test]
fn a_text_is_put_in_byte_for_byte(rt: HostRuntime) -> Result<(), Fail> {
    all_hold(rt.alloc(), INSERTED)
}

#[test]
fn a_text_is_refused_for_the_first_reason(rt: HostRuntime) -> Result<(), Fail> {
    all_hold(rt.alloc(), REFUSED)
}

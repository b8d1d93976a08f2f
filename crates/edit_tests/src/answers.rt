//! What an open file answers.

use crate::examples::{Example, all_hold};
use crate::renames::{CROSSED, MADE};
use crate::rows::Stop;
use crate::splicing::{Change, pieces_of};
use bib_edit::free_key;
use bib_store::{Database, Holders, ItemList};
use bib_text::{Text, copied};
use std::alloc::{AllocError, Global};
use std::test::Fail;

/// A question: about macros as an item sees them, a preamble, an entry, or the whole file.
enum Question {
    MacroText(usize, &'static [u8]),
    PreambleText(usize),
    CrossrefText(usize),
    Target(usize),
    Parent(usize),
    /// The parent that the record of an entry names.
    RecordParent(usize),
    IsRepeated(usize),
    Holders(&'static [u8]),
    HoldersOf(&'static [u8]),
    /// The entry that has this number, from 0, among those with the key.
    NthHolder(&'static [u8], usize),
    PreambleCount,
    ByteCount,
    /// The first free key of the base `x`, if this key is taken too.
    FreeKey(&'static [u8]),
}

/// The answer to a question. It is nothing if there is no such entry, item or preamble.
enum Answer {
    Nothing,
    Text(&'static [u8]),
    Number(usize),
    Truth(bool),
    /// The first of the entries, and their number.
    Holders(usize, usize),
}

/// A file, changes that are made one after another, a question, and its answer after them.
struct Asked {
    name: &'static str,
    file: &'static [u8],
    changes: &'static [Change],
    question: Question,
    answer: Answer,
}

const TWICE: &[u8] = b"@string{p={A}}@misc{a,t=p}@string{p={B}}@misc{b,t=p}";

const CROSSREF: &[u8] = b"@string{p={a}}@misc{a}@misc{b}@misc{c,crossref=p}";

const THREE: &[u8] = b"@misc{a}@misc{b, crossref = \"A\" # {}}@misc{A, crossref = {none}}";

const FOUR: &[u8] = b"@misc{a, crossref={a}}@misc{b}@misc{c, crossref={b}}@misc{d,crossref={q}}";

const PREAMBLE: &[u8] = b"@preamble{\"a\" # { b}}";

const YEARS: &[u8] = b"@misc{,year=1999}@misc{x,year=1999}@misc{c,year=2000,crossref={anon99A}}";

const OF_MACROS: &[Asked] = &[
    Asked {
        name: "a macro says nothing at its definition",
        file: TWICE,
        changes: &[],
        question: Question::MacroText(0, b"p"),
        answer: Answer::Nothing,
    },
    Asked {
        name: "a macro is seen after its definition",
        file: TWICE,
        changes: &[],
        question: Question::MacroText(1, b"p"),
        answer: Answer::Text(b"A"),
    },
    Asked {
        name: "the last definition is seen at the end",
        file: TWICE,
        changes: &[],
        question: Question::MacroText(4, b"P"),
        answer: Answer::Text(b"B"),
    },
    Asked {
        name: "a month is seen everywhere",
        file: TWICE,
        changes: &[],
        question: Question::MacroText(0, b"MAY"),
        answer: Answer::Text(b"May"),
    },
];

const OF_PREAMBLES: &[Asked] = &[
    Asked {
        name: "a preamble has a text",
        file: PREAMBLE,
        changes: &[],
        question: Question::PreambleText(0),
        answer: Answer::Text(b"a b"),
    },
    Asked {
        name: "preambles are counted",
        file: PREAMBLE,
        changes: &[],
        question: Question::PreambleCount,
        answer: Answer::Number(1),
    },
    Asked {
        name: "bytes are counted",
        file: PREAMBLE,
        changes: &[],
        question: Question::ByteCount,
        answer: Answer::Number(21),
    },
];

const OF_CROSSREFS: &[Asked] = &[
    Asked {
        name: "a crossref of a macro finds what the macro says",
        file: CROSSREF,
        changes: &[],
        question: Question::Target(2),
        answer: Answer::Number(0),
    },
    Asked {
        name: "a crossref of a macro finds another once the macro says another",
        file: CROSSREF,
        changes: &[(11, b"a", b"b")],
        question: Question::Target(2),
        answer: Answer::Number(1),
    },
    Asked {
        name: "a crossref of a macro finds none once the macro says no key",
        file: CROSSREF,
        changes: &[(11, b"a", b"b"), (11, b"b", b"z")],
        question: Question::Target(2),
        answer: Answer::Nothing,
    },
    Asked {
        name: "a crossref of a macro has the parent that the macro says",
        file: CROSSREF,
        changes: &[],
        question: Question::Parent(2),
        answer: Answer::Number(0),
    },
    Asked {
        name: "a crossref of a macro has another parent once the macro says another",
        file: CROSSREF,
        changes: &[(11, b"a", b"b")],
        question: Question::Parent(2),
        answer: Answer::Number(1),
    },
    Asked {
        name: "a crossref of a macro has no parent once the macro says no key",
        file: CROSSREF,
        changes: &[(11, b"a", b"b"), (11, b"b", b"z")],
        question: Question::Parent(2),
        answer: Answer::Nothing,
    },
    Asked {
        name: "a crossref of parts has a parent",
        file: b"@string{conf={conf}}@misc{conf95}@misc{b, crossref = conf # {95}}",
        changes: &[],
        question: Question::RecordParent(1),
        answer: Answer::Number(0),
    },
    Asked {
        name: "a crossref that follows a key keeps its parent",
        file: b"@string{conf={conf}}@misc{icc}@misc{b, crossref = {icc}}",
        changes: &[],
        question: Question::RecordParent(1),
        answer: Answer::Number(0),
    },
    Asked {
        name: "an entry has a parent before keys are exchanged",
        file: CROSSED,
        changes: &[],
        question: Question::RecordParent(1),
        answer: Answer::Number(0),
    },
    Asked {
        name: "an entry has the same parent once keys are exchanged",
        file: MADE,
        changes: &[],
        question: Question::RecordParent(1),
        answer: Answer::Number(0),
    },
    Asked {
        name: "a crossref that waits for an entry has no parent",
        file: b"@misc{a}@misc{b, crossref = {Z}}",
        changes: &[],
        question: Question::RecordParent(1),
        answer: Answer::Nothing,
    },
    Asked {
        name: "an entry for which a crossref waited is its parent",
        file: b"@misc{a}@misc{b, crossref = {Z}}@misc{y}\n@misc{z}\n",
        changes: &[],
        question: Question::RecordParent(1),
        answer: Answer::Number(3),
    },
];

const OF_TARGETS: &[Asked] = &[
    Asked {
        name: "an entry may name itself",
        file: FOUR,
        changes: &[],
        question: Question::Target(0),
        answer: Answer::Number(0),
    },
    Asked {
        name: "an entry without a crossref finds none",
        file: FOUR,
        changes: &[],
        question: Question::Target(1),
        answer: Answer::Nothing,
    },
    Asked {
        name: "a crossref finds an entry before it",
        file: FOUR,
        changes: &[],
        question: Question::Target(2),
        answer: Answer::Number(1),
    },
    Asked {
        name: "a crossref finds no entry",
        file: FOUR,
        changes: &[],
        question: Question::Target(3),
        answer: Answer::Nothing,
    },
    Asked {
        name: "a crossref says the key of its own entry",
        file: FOUR,
        changes: &[],
        question: Question::CrossrefText(0),
        answer: Answer::Text(b"a"),
    },
    Asked {
        name: "an entry without a crossref has no text of one",
        file: FOUR,
        changes: &[],
        question: Question::CrossrefText(1),
        answer: Answer::Nothing,
    },
    Asked {
        name: "a crossref says the key of an entry before it",
        file: FOUR,
        changes: &[],
        question: Question::CrossrefText(2),
        answer: Answer::Text(b"b"),
    },
    Asked {
        name: "a crossref says the key of no entry",
        file: FOUR,
        changes: &[],
        question: Question::CrossrefText(3),
        answer: Answer::Text(b"q"),
    },
];

const OF_ENTRIES: &[Asked] = &[
    Asked {
        name: "a key has two holders",
        file: THREE,
        changes: &[],
        question: Question::Holders(b"a"),
        answer: Answer::Number(2),
    },
    Asked {
        name: "a key has a first holder of two",
        file: THREE,
        changes: &[],
        question: Question::HoldersOf(b"A"),
        answer: Answer::Holders(0, 2),
    },
    Asked {
        name: "a key has one holder",
        file: THREE,
        changes: &[],
        question: Question::HoldersOf(b"B"),
        answer: Answer::Holders(1, 1),
    },
    Asked {
        name: "a key has no holder",
        file: THREE,
        changes: &[],
        question: Question::HoldersOf(b"none"),
        answer: Answer::Nothing,
    },
    Asked {
        name: "a key has its second holder once the first has another key",
        file: THREE,
        changes: &[(6, b"a", b"c")],
        question: Question::HoldersOf(b"a"),
        answer: Answer::Holders(2, 1),
    },
    Asked {
        name: "a key has a second holder",
        file: THREE,
        changes: &[],
        question: Question::NthHolder(b"a", 1),
        answer: Answer::Number(2),
    },
    Asked {
        name: "a key with two holders has no third",
        file: THREE,
        changes: &[],
        question: Question::NthHolder(b"a", 2),
        answer: Answer::Nothing,
    },
    Asked {
        name: "an entry that comes between two holders moves the second",
        file: THREE,
        changes: &[(8, b"", b"@misc{d}")],
        question: Question::NthHolder(b"A", 1),
        answer: Answer::Number(3),
    },
    Asked {
        name: "no entry holds the empty key",
        file: YEARS,
        changes: &[],
        question: Question::NthHolder(b"", 0),
        answer: Answer::Nothing,
    },
    Asked {
        name: "the first holder repeats none",
        file: THREE,
        changes: &[],
        question: Question::IsRepeated(0),
        answer: Answer::Truth(false),
    },
    Asked {
        name: "an entry without a crossref says none",
        file: THREE,
        changes: &[],
        question: Question::CrossrefText(0),
        answer: Answer::Nothing,
    },
    Asked {
        name: "an entry without a crossref has no target",
        file: THREE,
        changes: &[],
        question: Question::Target(0),
        answer: Answer::Nothing,
    },
    Asked {
        name: "an entry of another key repeats none",
        file: THREE,
        changes: &[],
        question: Question::IsRepeated(1),
        answer: Answer::Truth(false),
    },
    Asked {
        name: "a crossref says its parts",
        file: THREE,
        changes: &[],
        question: Question::CrossrefText(1),
        answer: Answer::Text(b"A"),
    },
    Asked {
        name: "a crossref finds the first holder",
        file: THREE,
        changes: &[],
        question: Question::Target(1),
        answer: Answer::Number(0),
    },
    Asked {
        name: "the second holder repeats the first",
        file: THREE,
        changes: &[],
        question: Question::IsRepeated(2),
        answer: Answer::Truth(true),
    },
    Asked {
        name: "a crossref without a target says its text",
        file: THREE,
        changes: &[],
        question: Question::CrossrefText(2),
        answer: Answer::Text(b"none"),
    },
    Asked {
        name: "a crossref may have no target",
        file: THREE,
        changes: &[],
        question: Question::Target(2),
        answer: Answer::Nothing,
    },
    Asked {
        name: "there are three entries",
        file: THREE,
        changes: &[],
        question: Question::IsRepeated(3),
        answer: Answer::Nothing,
    },
];

const OF_FREE_KEYS: &[Asked] = &[
    Asked {
        name: "a free key is no key of the file",
        file: YEARS,
        changes: &[],
        question: Question::FreeKey(b"y"),
        answer: Answer::Text(b"xa"),
    },
    Asked {
        name: "a free key is not taken",
        file: YEARS,
        changes: &[],
        question: Question::FreeKey(b"XA"),
        answer: Answer::Text(b"xb"),
    },
];

/// What an open file says.
#[derive(Drop)]
enum Said {
    Nothing,
    Text(Text),
    Number(usize),
    Truth(bool),
    Holders(Holders),
}

impl From<Option<Text>> for Said {
    fn from(text: Option<Text>) -> Said {
        match text {
            Some(text) => Said::Text(text),
            None => Said::Nothing,
        }
    }
}

impl From<Option<usize>> for Said {
    fn from(number: Option<usize>) -> Said {
        match number {
            Some(number) => Said::Number(number),
            None => Said::Nothing,
        }
    }
}

impl From<Option<Holders>> for Said {
    fn from(held: Option<Holders>) -> Said {
        match held {
            Some(held) => Said::Holders(held),
            None => Said::Nothing,
        }
    }
}

fn is_said(said: &Said, answer: &Answer) -> bool {
    match (said, answer) {
        (Said::Nothing, Answer::Nothing) => true,
        (Said::Text(text), Answer::Text(other)) => text.as_slice() == *other,
        (Said::Number(number), Answer::Number(other)) => number == other,
        (Said::Truth(truth), Answer::Truth(other)) => truth == other,
        (Said::Holders(held), Answer::Holders(first, count)) => {
            held.first == *first && held.count == *count
        }
        _ => false,
    }
}

fn text(alloc: Global, bytes: &[u8]) -> Result<Text, AllocError> {
    copied(alloc, bytes)
}

fn macro_text<L: ItemList>(db: &Database<L>, n: usize, name: &[u8]) -> Result<Said, Stop> {
    if n > db.item_count() {
        return Ok(Said::Nothing);
    }
    Ok(Said::from(db.macro_text(n, name)?))
}

fn preamble_text<L: ItemList>(db: &Database<L>, n: usize) -> Result<Said, Stop> {
    if n >= db.preamble_count() {
        return Ok(Said::Nothing);
    }
    Ok(Said::Text(db.preamble_text(n)?))
}

fn crossref_text<L: ItemList>(alloc: Global, db: &Database<L>, n: usize) -> Result<Said, Stop> {
    if n >= db.entry_count() {
        return Ok(Said::Nothing);
    }
    match db.crossref_text(n) {
        Some(bytes) => Ok(Said::Text(text(alloc, bytes)?)),
        None => Ok(Said::Nothing),
    }
}

fn target<L: ItemList>(db: &Database<L>, n: usize) -> Said {
    if n >= db.entry_count() {
        return Said::Nothing;
    }
    Said::from(db.target(n))
}

fn parent<L: ItemList>(db: &Database<L>, n: usize) -> Said {
    if n >= db.entry_count() {
        return Said::Nothing;
    }
    Said::from(db.parent(n))
}

fn record_parent<L: ItemList>(db: &Database<L>, n: usize) -> Result<Said, Stop> {
    if n >= db.entry_count() {
        return Ok(Said::Nothing);
    }
    Ok(Said::from(db.expanded(n, 1)?.parent))
}

fn is_repeated<L: ItemList>(db: &Database<L>, n: usize) -> Said {
    if n >= db.entry_count() {
        return Said::Nothing;
    }
    Said::Truth(db.is_repeated(n))
}

fn free<L: ItemList>(alloc: Global, db: &Database<L>, taken: &[u8]) -> Result<Said, Stop> {
    let others = [text(alloc, taken)?];
    Ok(Said::Text(free_key(alloc, db, b"x", &others)?))
}

fn answer_of<L: ItemList>(
    alloc: Global,
    db: &Database<L>,
    question: &Question,
) -> Result<Said, Stop> {
    match question {
        Question::MacroText(n, name) => macro_text(db, *n, name),
        Question::PreambleText(n) => preamble_text(db, *n),
        Question::CrossrefText(n) => crossref_text(alloc, db, *n),
        Question::Target(n) => Ok(target(db, *n)),
        Question::Parent(n) => Ok(parent(db, *n)),
        Question::RecordParent(n) => record_parent(db, *n),
        Question::IsRepeated(n) => Ok(is_repeated(db, *n)),
        Question::Holders(key) => Ok(Said::Number(db.holders(key))),
        Question::HoldersOf(key) => Ok(Said::from(db.holders_of(key))),
        Question::NthHolder(key, k) => Ok(Said::from(db.nth_holder(key, *k))),
        Question::PreambleCount => Ok(Said::Number(db.preamble_count())),
        Question::ByteCount => Ok(Said::Number(db.byte_count())),
        Question::FreeKey(taken) => free(alloc, db, taken),
    }
}

fn change<L: ItemList>(
    alloc: Global,
    db: &mut Database<L>,
    changes: &[Change],
) -> Result<(), Stop> {
    for (place, old, new) in changes {
        let pieces = pieces_of(alloc, &[(*place, *old, *new)])?;
        db.splice(pieces.as_slice())?;
    }
    Ok(())
}

impl Example for Asked {
    fn name(&self) -> &str {
        self.name
    }

    fn file(&self) -> &[u8] {
        self.file
    }

    /// Whether the open file answers as the example says, after the changes.
    fn comes_out<L: ItemList>(&self, alloc: Global, db: &mut Database<L>) -> Result<bool, Stop> {
        change(alloc, db, self.changes)?;
        let said = answer_of(alloc, db, &self.question)?;
        Ok(is_said(&said, &self.answer))
    }
}

#[test]
fn a_macro_is_seen_after_its_definition(rt: HostRuntime) -> Result<(), Fail> {
    all_hold(rt.alloc(), OF_MACROS)
}

#[test]
fn a_preamble_has_a_text(rt: HostRuntime) -> Result<(), Fail> {
    all_hold(rt.alloc(), OF_PREAMBLES)
}

#[test]
fn crossrefs_are_followed(rt: HostRuntime) -> Result<(), Fail> {
    all_hold(rt.alloc(), OF_CROSSREFS)
}

#[test]
fn crossrefs_have_texts_and_targets(rt: HostRuntime) -> Result<(), Fail> {
    all_hold(rt.alloc(), OF_TARGETS)
}

#[test]
fn an_open_file_knows_keys_and_crossrefs(rt: HostRuntime) -> Result<(), Fail> {
    all_hold(rt.alloc(), OF_ENTRIES)
}

#[test]
fn a_free_key_is_no_key_and_not_taken(rt: HostRuntime) -> Result<(), Fail> {
    all_hold(rt.alloc(), OF_FREE_KEYS)
}

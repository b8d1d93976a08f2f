//! `cite`: the entries that a list of keys cites.

ghost use Rattle.std.specs.Prelude.{◌≡◌, ◌≤◌, ◌++◌, ℕ, List, [], length, false, slice_index_or, codes, IfSome, IfOk, OnOk};
ghost use Rattle.std.specs.List.{flat_map};
ghost use Rattle.std.specs.Option.{option_map_or};
ghost use Rattle.bib_spec.specs.Records.{entries_of, parent};
ghost use Rattle.bib_store.specs.Readings.{OfReading, IsEntryNumber};
ghost use Rattle.bib_answers.specs.Opened.{AnswersFile};
ghost use Rattle.bib_answers.specs.Cite.{IsKeyed, parent_bytes, line_bytes, with_listed, listed_line, listed_lines, unknown_line, cite_answer, cite_status};
ghost use Rattle.bib_answers.specs.Outcome.{answer_of};
ghost use Rattle.bib_answers.specs.Marks.{AreMarks, AreEntryNumbers, ArePlaces};

use crate::answers::{Answer, outcome_of};
use crate::lines::add_all;
use crate::listing::{Keyed, Line, Listing};
use crate::opening::answer_file;
use bib_store::{Database, Paged};
use bib_text::Text;
use bib_words::status;
use std::alloc::{AllocError, Global};

/// The entries that the keys cite, and the keys that find none. A parent that at least `min` listed entries refer to is listed
/// too. If `strict`, the status is 1 if a key finds none.
pub fn answer_cite(
    alloc: Global,
    file: Vec<u8>,
    keys: &[Text],
    min: u32,
    strict: bool,
) -> Result<Answer, AllocError>
    requires { 1 ≤ min }
    ensures { IfOk result (AnswersFile (cite_answer strict keys.now min) file.items) }
{
    answer_file(alloc, file, |db| cite_in(alloc, db, keys, min, strict))
}

/// What `answer_cite` answers, for a file that is open. It takes time in the number of entries and keys, and memory for the list.
pub fn cite_in(
    alloc: Global,
    db: &Database<Paged>,
    keys: &[Text],
    min: u32,
    strict: bool,
) -> Result<Answer, AllocError>
    requires { 1 ≤ min }
    ensures { IfOk result (λ answer. OfReading db.now (λ r. answer ≡ cite_answer strict keys.now min r)) }
{
    let Ok(cited) = db.cited(keys, min) else {
        return Err(AllocError);
    };
    db.opens();
    let mut out = listed_text(alloc, db, cited.listed.as_slice())?;
    add_unknown(&mut out, keys, cited.unknown.as_slice())?;
    Ok(listed(
        alloc,
        Text::from_vec(out),
        status_of(strict, cited.unknown.as_slice()),
    ))
}

/// The answer with this list and this status, and no message.
fn listed(alloc: Global, list: Text, status: u8) -> Answer
    ensures { result ≡ answer_of list [] status }
{
    Answer {
        output: list,
        outcome: outcome_of(Text::empty(alloc), status),
    }
}

/// The status, if the keys at these positions find no entry.
fn status_of(strict: bool, unknown: &[usize]) -> u8
    ensures { result ≡ cite_status strict unknown.now }
{
    match unknown {
        [_, ..] if strict => status::REFUSED,
        _ => status::DONE,
    }
}

/// The key of entry `n`. It is taken from `last`, if that is entry `n`: the children of a parent are mostly together.
fn with_key<'a>(db: &'a Database<Paged>, n: usize, last: Option<Keyed<'a>>) -> Keyed<'a>
    requires number { IsEntryNumber db.now n }
    requires last { IfSome last (IsKeyed db.now) }
    ensures key { IsKeyed db.now result }
    ensures number { result.n ≡ n }
{
    match last {
        Some(known) if known.n == n => known,
        _ => Keyed {
            n,
            key: db.entry(n).key(),
        },
    }
}

/// A line for each entry of the list.
fn listed_text(alloc: Global, db: &Database<Paged>, list: &[usize]) -> Result<Vec<u8>, AllocError>
    requires { AreEntryNumbers db.now list.now }
    ensures { IfOk result (λ text. OfReading db.now (λ r. text.items ≡ listed_lines (entries_of r) list.now)) }
{
    let marks = marks(alloc, db.entry_count(), list)?;
    let mut listing = Listing::new(alloc, list.len())?;
    let mut last = None;
    'list: for n in list {
        let line = line_of(db, marks.as_slice(), *n, last);
        last = line.parent.or(last);
        listing.push(line)?;
    }
    listing.into_text()
}

/// Which entries are in the list, by their numbers.
fn marks(alloc: Global, count: usize, list: &[usize]) -> Result<Vec<bool>, AllocError>
    ensures { IfOk result (λ marks. AreMarks count list.now marks.items) }
{
    let mut marks = vec![in alloc; false; count]?;
    'mark: for n in list {
        if *n < count {
            marks[*n] = true;
        }
    }
    Ok(marks)
}

/// Whether the entry is marked.
fn is_marked(marks: &[bool], n: usize) -> bool
    ensures { result ≡ slice_index_or marks.now n false }
{
    n < marks.len() && marks[n]
}

/// The line of an entry in the list, whose parent's key may be the last one.
fn line_of<'a>(
    db: &'a Database<Paged>,
    marks: &[bool],
    n: usize,
    last: Option<Keyed<'a>>,
) -> Line<'a>
    requires number { IsEntryNumber db.now n }
    requires last { IfSome last (IsKeyed db.now) }
    ensures keyed { IfSome result.parent (IsKeyed db.now) }
    ensures line { OfReading db.now (λ r. (list : List ℕ) → AreMarks (length (entries_of r)) list marks.now
        → line_bytes result ≡ listed_line (entries_of r) list n) }
{
    Line {
        key: db.entry(n).key(),
        parent: listed_parent(db, marks, n, last),
    }
}

/// The parent of an entry, where it is marked.
fn listed_parent<'a>(
    db: &'a Database<Paged>,
    marks: &[bool],
    n: usize,
    last: Option<Keyed<'a>>,
) -> Option<Keyed<'a>>
    requires number { IsEntryNumber db.now n }
    requires last { IfSome last (IsKeyed db.now) }
    ensures keyed { IfSome result (IsKeyed db.now) }
    ensures parent { OfReading db.now (λ r. (list : List ℕ) → AreMarks (length (entries_of r)) list marks.now
        → parent_bytes result ≡ option_map_or (with_listed (entries_of r) list) (parent (entries_of r) n) []) }
{
    let parent = db.parent(n)?;
    if !is_marked(marks, parent) {
        return None;
    }
    Some(with_key(db, parent, last))
}

/// The lines of the keys at these positions.
fn add_unknown(out: &mut Vec<u8>, keys: &[Text], places: &[usize]) -> Result<(), AllocError>
    requires { ArePlaces keys.now places.now }
    ensures { OnOk result (out.new.items ≡ out.old.items ++ flat_map (unknown_line keys.now) places.now) }
{
    for place in places {
        add_unknown_key(out, keys[*place].as_slice())?;
    }
    Ok(())
}

fn add_unknown_key(out: &mut Vec<u8>, key: &[u8]) -> Result<(), AllocError>
    ensures { OnOk result (out.new.items ≡ out.old.items ++ codes "? " ++ (key.now ++ codes "\n")) }
{
    add_all(out, &[b"? ", key, b"\n"])
}

//! `entry`: entries as they stand in the file.

ghost use Rattle.std.specs.Prelude.{◌≡◌, ◌<◌, ◌++◌, [], true, false, Some, length, slice_get, IfOk, IfSome, OnOk, filter_map, map};
ghost use Rattle.std.specs.List.{cons_option, flat_map};
ghost use Rattle.bib_spec.specs.Records.{entries_of, entry_named, cites_all};
ghost use Rattle.bib_store.specs.Readings.{OfReading, IsEntryNumber, entry_numbers};
ghost use Rattle.bib_answers.specs.Entry.{all_named, place_of, place_line, ended, entry_text, entry_answer};
ghost use Rattle.bib_answers.specs.Marks.{AreEntryNumbers};
ghost use Rattle.bib_answers.specs.Opened.{AnswersFile};

use crate::answers::{Answer, done, no_such_entry};
use crate::lines::add_all;
use crate::opening::answer_file;
use crate::positions::{Position, first_known, known_at};
use bib_store::{Database, Paged};
use bib_text::{Seq, Text};
use itoa::Buffer;
use std::alloc::{AllocError, Global};

/// The entries that the keys name, as they stand in the file, each after its place with `at`; or that a key names none. With `at`
/// it makes a copy of the file, and counts its lines once.
pub fn answer_entry(
    alloc: Global,
    file: Vec<u8>,
    keys: &[Text],
    at: bool,
) -> Result<Answer, AllocError>
    ensures { IfOk result (AnswersFile (entry_answer at keys.now) file.items) }
{
    answer_file(alloc, file, |db| entries_in(alloc, db, keys, at))
}

/// What `answer_entry` answers, for a file that is open.
pub fn entries_in(
    alloc: Global,
    db: &Database<Paged>,
    keys: &[Text],
    at: bool,
) -> Result<Answer, AllocError>
    ensures { IfOk result (λ answer. OfReading db.now (λ r. answer ≡ entry_answer at keys.now r)) }
{
    match all_named(alloc, db, keys)? {
        Some(list) => Ok(done(alloc, texts_of(alloc, db, list.as_slice(), at)?)),
        None => no_such_entry(alloc),
    }
}

/// The numbers of the entries that the keys name, or `None` if a key names none.
fn all_named(
    alloc: Global,
    db: &Database<Paged>,
    keys: &[Text],
) -> Result<Option<Seq<usize>>, AllocError>
    ensures list { IfOk result (λ list. OfReading db.now (λ r. list ≡ all_named (entries_of r) keys.now)) }
    ensures numbers { IfOk result (λ list. IfSome list (AreEntryNumbers db.now)) }
{
    let Ok(cited) = db.cited(keys, 1) else {
        return Err(AllocError);
    };
    if !cited.unknown.as_slice().is_empty() {
        return Ok(None);
    }
    if cites_all(keys) {
        return Ok(Some(cited.listed));
    }
    Ok(Some(found(alloc, db, keys)?))
}

/// Whether the list is `*` alone.
fn cites_all(keys: &[Text]) -> bool
    ensures { result ≡ cites_all keys.now }
{
    match keys {
        [key] => key.as_slice() == b"*".as_slice(),
        _ => false,
    }
}

/// The numbers of the entries that the keys name, key by key.
fn found(alloc: Global, db: &Database<Paged>, keys: &[Text]) -> Result<Seq<usize>, AllocError>
    ensures { IfOk result (λ list. OfReading db.now (λ r. list ≡ filter_map (entry_named (entries_of r)) keys.now)) }
{
    let mut list = Vec::with_capacity(alloc, keys.len())?;
    'keys: for key in keys {
        push_named(&mut list, db, key.as_slice())?;
    }
    Ok(Seq::from_vec(list))
}

/// Adds the number of the entry that the key names, if there is one.
fn push_named(list: &mut Vec<usize>, db: &Database<Paged>, key: &[u8]) -> Result<(), AllocError>
    ensures { OnOk result (OfReading db.now (λ r. list.new.items ≡ list.old.items ++ cons_option (entry_named (entries_of r) key.now) [])) }
{
    match db.find(key) {
        Ok(n) => {
            list.push(n)?;
            Ok(())
        }
        Err(_) => Ok(()),
    }
}

/// These entries as they stand in the file, each after its place with `at`.
fn texts_of(
    alloc: Global,
    db: &Database<Paged>,
    list: &[usize],
    at: bool,
) -> Result<Text, AllocError>
    requires { AreEntryNumbers db.now list.now }
    ensures { IfOk result (λ text. OfReading db.now (λ r. text ≡ flat_map (entry_text at r) list.now)) }
{
    if at {
        let places = places_of(alloc, db)?;
        return placed_texts(alloc, db, list, places.as_slice());
    }
    plain_texts(alloc, db, list)
}

/// These entries as they stand in the file.
fn plain_texts(alloc: Global, db: &Database<Paged>, list: &[usize]) -> Result<Text, AllocError>
    requires { AreEntryNumbers db.now list.now }
    ensures { IfOk result (λ text. OfReading db.now (λ r. text ≡ flat_map (entry_text false r) list.now)) }
{
    let mut out = Vec::new(alloc);
    'entries: for n in list {
        add_entry(&mut out, db, *n)?;
    }
    Ok(Text::from_vec(out))
}

/// These entries as they stand in the file, each after its place.
fn placed_texts(
    alloc: Global,
    db: &Database<Paged>,
    list: &[usize],
    places: &[Position],
) -> Result<Text, AllocError>
    requires numbers { AreEntryNumbers db.now list.now }
    requires places { OfReading db.now (λ r. places.now ≡ map (place_of r) (entry_numbers r.items)) }
    ensures { IfOk result (λ text. OfReading db.now (λ r. text ≡ flat_map (entry_text true r) list.now)) }
{
    let mut out = Vec::new(alloc);
    'entries: for n in list {
        add_placed(&mut out, db, *n, places)?;
    }
    Ok(Text::from_vec(out))
}

/// Where each entry begins in the file.
fn places_of(alloc: Global, db: &Database<Paged>) -> Result<Vec<Position>, AllocError>
    ensures { IfOk result (λ places. OfReading db.now (λ r. places.items ≡ map (place_of r) (entry_numbers r.items))) }
{
    let Ok(file) = db.bytes() else {
        return Err(AllocError);
    };
    let mut places = Vec::with_capacity(alloc, db.entry_count())?;
    let mut known = first_known();
    'entries: for n in 0..db.entry_count() {
        let place = db.item_place(db.entry_item(n));
        known = known_at(file.as_slice(), known, place);
        places.push(known.at)?;
    }
    Ok(places)
}

/// Adds entry `n` as it stands in the file.
fn add_entry(out: &mut Vec<u8>, db: &Database<Paged>, n: usize) -> Result<(), AllocError>
    requires { IsEntryNumber db.now n }
    ensures { OnOk result (OfReading db.now (λ r. out.new.items ≡ out.old.items ++ entry_text false r n)) }
{
    add_ended(out, db.entry(n).body())
}

/// Adds entry `n` as it stands in the file, after its place.
fn add_placed(
    out: &mut Vec<u8>,
    db: &Database<Paged>,
    n: usize,
    places: &[Position],
) -> Result<(), AllocError>
    requires number { IsEntryNumber db.now n }
    requires places { OfReading db.now (λ r. places.now ≡ map (place_of r) (entry_numbers r.items)) }
    ensures { OnOk result (OfReading db.now (λ r. out.new.items ≡ out.old.items ++ entry_text true r n)) }
{
    db.opens();
    add_place(out, db.entry_item(n), place_at(places, n))?;
    add_ended(out, db.entry(n).body())
}

/// The place with this number.
fn place_at(places: &[Position], n: usize) -> Position
    requires { n < length places.now }
    ensures { slice_get places.now n ≡ Some result }
{
    match places.get(n) {
        Some(at) => *at,
        None => unreachable!(),
    }
}

/// Adds the text and a line's end.
fn add_ended(out: &mut Vec<u8>, text: &[u8]) -> Result<(), AllocError>
    ensures { OnOk result (out.new.items ≡ out.old.items ++ ended text.now) }
{
    add_all(out, &[text, b"\n"])
}

/// Adds a line with the number of an item, and its line and column.
fn add_place(out: &mut Vec<u8>, item: usize, at: Position) -> Result<(), AllocError>
    ensures { OnOk result (out.new.items ≡ out.old.items ++ place_line item at) }
{
    let (mut number, mut line, mut column) = (Buffer::new(), Buffer::new(), Buffer::new());
    let number = number.format(item).as_bytes();
    let line = line.format(at.line).as_bytes();
    let column = column.format(at.column).as_bytes();
    add_all(out, &[number, b"\t", line, b"\t", column, b"\n"])
}

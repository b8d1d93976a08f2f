//! Positions among the items of a file.

use crate::items::{Item, line_of};
use crate::lines::Lines;
use crate::parts::Part;
use std::alloc::AllocError;

/// The key of a position, if it is `before:KEY` or `after:KEY`.
pub fn key_in(position: &[u8]) -> Option<&[u8]> {
    match position.strip_prefix(b"before:") {
        Some(key) => Some(key),
        None => position.strip_prefix(b"after:"),
    }
}

/// Whether the word is a number.
fn is_number(word: &[u8]) -> bool {
    'bytes: for byte in word {
        if !byte.is_ascii_digit() {
            return false;
        }
    }
    !word.is_empty()
}

/// What a position may be.
pub fn hint_positions(lines: &mut Lines) -> Result<(), AllocError> {
    lines.say(
        b"a position is a number of items from 0, end, before:KEY or after:KEY",
        &[],
    )
}

/// A position at which a text can't be put into a file of so many items.
pub fn hint_insert_position(
    lines: &mut Lines,
    name: &[u8],
    position: &[u8],
    count: usize,
) -> Result<(), AllocError> {
    if is_number(position) {
        return hint_number(lines, name, count);
    }
    let parts = [Part::Name(position)];
    lines.say(b"% is no position", &parts)?;
    hint_positions(lines)?;
    let typed = [Part::Typed(name, b"F")];
    lines.say(
        b"the text comes from standard input: bibkeep insert % < FILE",
        &typed,
    )
}

/// A number that is more than a file has items.
pub fn hint_number(lines: &mut Lines, name: &[u8], count: usize) -> Result<(), AllocError> {
    let parts = [Part::Name(name), Part::Count(count)];
    lines.say(
        b"% has % items, counted from 0; that number is the end of the file",
        &parts,
    )
}

/// A key that no entry of the file has.
pub fn hint_no_entry(lines: &mut Lines, name: &[u8], key: &[u8]) -> Result<(), AllocError> {
    let parts = [Part::Name(name), Part::Name(key)];
    lines.say(b"no entry of % has the key %", &parts)?;
    let typed = [Part::Typed(name, b"F")];
    lines.say(b"bibkeep cite % '*' lists the keys", &typed)
}

/// Where the first two of several items are that have the same name.
pub fn hint_twice(
    lines: &mut Lines,
    words: &[u8],
    name: &[u8],
    file: &[u8],
    items: &[Item<'_>],
) -> Result<(), AllocError> {
    let [first, second, ..] = items else {
        return Ok(());
    };
    let parts = [
        Part::Name(name),
        Part::Count(items.len()),
        Part::Count(line_of(file, first.start)),
        Part::Count(line_of(file, second.start)),
    ];
    lines.say(words, &parts)
}

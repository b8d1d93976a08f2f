//! Names with a number, which tells which of several is meant.

use crate::edits::Edit;
use crate::items::{Item, holders};
use crate::lines::Lines;
use crate::parts::Part;
use crate::positions::hint_no_entry;
use crate::said::number_in;
use std::alloc::{AllocError, Global};

/// A name, and the number of the one that is meant of those that have it, counted from 1.
#[derive(Clone, Copy)]
pub struct Which<'a> {
    pub name: &'a [u8],
    pub number: Option<usize>,
}

/// What a word of an edit means: `b,2` is the second that has the name `b`.
pub fn which_of(word: &[u8]) -> Which<'_> {
    let mut parts = word.split(|byte| *byte == b',');
    let name = parts.next().unwrap_or(word);
    let digits = parts.next().unwrap_or(b"");
    match number_said(digits) {
        Some(number) if parts.next().is_none() => Which {
            name,
            number: Some(number),
        },
        _ => Which {
            name: word,
            number: None,
        },
    }
}

/// The number that 1 to 9 digits say, of which the first is not 0.
fn number_said(digits: &[u8]) -> Option<usize> {
    let first = digits.first()?;
    if digits.len() > 9 || !b"123456789".contains(first) {
        return None;
    }
    number_in(digits)
}

/// The entries that a word means: all that have the key, or the one that a number tells.
pub fn entries_meant<'a>(
    alloc: Global,
    items: &[Item<'a>],
    word: &[u8],
) -> Result<Vec<Item<'a>>, AllocError> {
    let which = which_of(word);
    let found = holders(alloc, items, which.name)?;
    let Some(number) = which.number else {
        return Ok(found);
    };
    let mut one = Vec::new(alloc);
    if let Some(item) = found.as_slice().get(number.saturating_sub(1)) {
        one.push(*item)?;
    }
    Ok(one)
}

/// That a word means no entry: none has the key, or there are not so many.
pub fn hint_unmet_entry<'a>(
    lines: &mut Lines,
    edit: &Edit<'a>,
    items: &[Item<'_>],
    word: &'a [u8],
) -> Result<(), AllocError> {
    let which = which_of(word);
    let count = holders(lines.alloc(), items, which.name)?.len();
    if count == 0 {
        return hint_no_entry(lines, edit.name, which.name);
    }
    let parts = [
        Part::Name(edit.name),
        Part::Name(which.name),
        Part::Count(count),
    ];
    lines.say(b"entries of % with the key %: %", &parts)
}

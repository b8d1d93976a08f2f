//! Keys that no entry has.

use crate::asking::Asked;
use crate::items::first_holders;
use crate::lines::Lines;
use crate::parts::Part;
use std::alloc::AllocError;

/// So many unknown keys are named.
const NAMED: usize = 3;

/// The keys of a command that no entry of its file has.
pub fn hint_unknown_keys(lines: &mut Lines, asked: &Asked<'_>) -> Result<(), AllocError> {
    let alloc = lines.alloc();
    let starts = first_holders(alloc, asked.file)?;
    let name = asked.name();
    let mut unknown = 0usize;
    let mut n = 0usize;
    'words: for word in asked.command.words.as_slice() {
        let is_key = n == 1 || n > 1 && !asked.command.is_named(b"names");
        let is_star = is_star_among(asked, word.as_slice());
        n = n.saturating_add(1);
        if is_key && !is_star && starts.get(word.as_slice()).is_none() {
            unknown = unknown.saturating_add(1);
            if unknown <= NAMED {
                let parts = [Part::Name(name), Part::Name(word.as_slice())];
                lines.say(b"no entry of % has the key %", &parts)?;
            }
        }
    }
    if unknown > NAMED {
        let parts = [Part::Count(unknown - NAMED)];
        lines.say(b"and % more", &parts)?;
    }
    let parts = [Part::Typed(name, b"F")];
    lines.say(b"bibkeep cite % '*' lists the keys", &parts)
}

/// Whether the word is `*` of a list of keys, which cites every entry as BibTeX reads it, whatever else the list has.
fn is_star_among(asked: &Asked<'_>, word: &[u8]) -> bool {
    let is_list = !asked.command.is_named(b"show") && !asked.command.is_named(b"names");
    asked.command.bibtex && is_list && word == b"*".as_slice()
}

//! Words of the command line that are no command.

use crate::lines::Lines;
use crate::parts::Part;
use crate::positions::hint_positions;
use crate::verbs::is_verb;
use std::alloc::AllocError;

/// The hints about words that are no command. The first is the program's name.
pub fn hint_usage(lines: &mut Lines, words: &[String]) -> Result<(), AllocError> {
    let command = word(words, 1);
    if command == b"help".as_slice() && is_verb(word(words, 2)) {
        let parts = [Part::Name(word(words, 2))];
        return lines.say(b"% is an edit; type: bibkeep help edit", &parts);
    }
    if is_verb(command) {
        let parts = [Part::Name(command)];
        return lines.say(
            b"% is an edit; type: bibkeep edit F % ..",
            &[parts[0], parts[0]],
        );
    }
    if has(words, b"--dry-run") {
        return lines.say(b"--print shows the new file, and stores nothing", &[]);
    }
    if has(words, b"--bibtex") && has_rival(words) {
        return lines.say(
            b"BibTeX reads one file, and decides itself how far an entry inherits",
            &[],
        );
    }
    if command == b"undo".as_slice() || command == b"redo".as_slice() {
        let parts = [Part::Name(command)];
        return lines.say(
            b"type the number of changes so: bibkeep % F --steps 2",
            &parts,
        );
    }
    if command == b"edit".as_slice() {
        return hint_edit_usage(lines, words);
    }
    if command == b"insert".as_slice() {
        return hint_positions(lines);
    }
    if takes_keys(command) && argument_count(words) == 1 {
        return lines.say(b"a KEY is one of the file, or '*' for every entry", &[]);
    }
    Ok(())
}

fn hint_edit_usage(lines: &mut Lines, words: &[String]) -> Result<(), AllocError> {
    if has(words, b"add") || has(words, b"move") {
        return lines.say(
            b"positions count from 0, and the number of items is the end of the file",
            &[],
        );
    }
    lines.say(
        b"put -- before words of an edit that begin with a hyphen",
        &[],
    )
}

fn takes_keys(command: &[u8]) -> bool {
    command == b"entry".as_slice()
        || command == b"cite".as_slice()
        || command == b"labels".as_slice()
        || command == b"json".as_slice()
        || command == b"ris".as_slice()
        || command == b"extract".as_slice()
}

/// Whether one of the words is an option that does not go with `--bibtex`.
fn has_rival(words: &[String]) -> bool {
    has(words, b"--depth")
        || has(words, b"--raw")
        || has(words, b"--before")
        || has(words, b"--after")
}

/// How many words follow the command, without options.
fn argument_count(words: &[String]) -> usize {
    let mut count = 0usize;
    'words: for word in words {
        if !word.as_bytes().starts_with(b"-") {
            count = count.saturating_add(1);
        }
    }
    count.saturating_sub(2)
}

fn has(words: &[String], option: &[u8]) -> bool {
    'words: for word in words {
        if word.as_bytes() == option {
            return true;
        }
    }
    false
}

/// The word with this number, counted from 0; empty if there is none.
fn word(words: &[String], n: usize) -> &[u8] {
    match words.get(n) {
        Some(word) => word.as_bytes(),
        None => b"",
    }
}

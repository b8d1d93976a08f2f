//! Faults of files, of journals and of questions, and calls that failed.

use crate::asking::{Asked, Trouble};
use crate::items::{column_of, line_of};
use crate::lines::Lines;
use crate::parts::Part;
use crate::said::Said;
use crate::script::line_in;
use crate::verbs::is_verb;
use bib_words::Command;
use std::alloc::AllocError;
use std::io::ErrorKind;

/// The hints about a fault that is none of an edit and none of an input.
pub fn hint_fault(lines: &mut Lines, asked: &Asked<'_>, said: Said) -> Result<(), AllocError> {
    match (said.fault, said.place) {
        (1..=8, Some(place)) => hint_place(lines, asked.name(), asked.file, place),
        (14, Some(place)) => {
            hint_place(lines, asked.name(), asked.file, place)?;
            hint_plain(lines, asked)
        }
        (9, _) => lines.say(
            b"a file, a script or a RIS text has at most 16777216 bytes",
            &[],
        ),
        (51 | 52, _) => {
            let parts = [Part::Typed(asked.name(), b"F")];
            lines.say(b"bibkeep log % lists the changes", &parts)
        }
        (53, _) => {
            let parts = [Part::Name(asked.name())];
            lines.say(b"%.bibkeep is not a journal of bibkeep", &parts)?;
            hint_forget(lines, asked)
        }
        (54, _) => {
            let parts = [Part::Name(asked.name())];
            lines.say(
                b"% was changed by an editor or another program since bibkeep stored it",
                &parts,
            )?;
            hint_forget(lines, asked)
        }
        _ => hint_question(lines, asked, said.fault),
    }
}

fn hint_forget(lines: &mut Lines, asked: &Asked<'_>) -> Result<(), AllocError> {
    let parts = [Part::Typed(asked.name(), b"F")];
    lines.say(
        b"bibkeep forget % goes on; what was done before can then no longer be undone",
        &parts,
    )
}

/// Where a text with this name goes wrong.
pub fn hint_place(
    lines: &mut Lines,
    name: &[u8],
    text: &[u8],
    place: usize,
) -> Result<(), AllocError> {
    let line = line_of(text, place);
    let at = [
        Part::Name(name),
        Part::Count(line),
        Part::Count(column_of(text, place)),
    ];
    lines.say(b"%, line %, column %", &at)?;
    let words = line_in(text, line).trim_ascii();
    if words.is_empty() {
        return Ok(());
    }
    let parts = [Part::Name(words)];
    lines.say(b"the line: %", &parts)
}

/// How a file becomes one that BibTeX reads as bibkeep does.
fn hint_plain(lines: &mut Lines, asked: &Asked<'_>) -> Result<(), AllocError> {
    let parts = [Part::Typed(asked.name(), b"F")];
    lines.say(
        b"in the last line of the file: echo >> % ends the file with an empty line",
        &parts,
    )?;
    lines.say(
        b"in an entry whose key an earlier entry has: take this entry out",
        &[],
    )
}

fn hint_question(lines: &mut Lines, asked: &Asked<'_>, fault: usize) -> Result<(), AllocError> {
    match fault {
        13 => {
            let parts = [Part::Name(asked.word(0))];
            lines.say(b"% is neither the number nor the name of a fault", &parts)
        }
        15 => {
            let parts = [Part::Typed(asked.name(), b"F")];
            lines.say(
                b"bibkeep lint % finds the parents that have a parent",
                &parts,
            )
        }
        21 => {
            let parts = [Part::Name(asked.word(1))];
            lines.say(b"a name of the entry % has more than two commas", &parts)?;
            lines.say(
                b"write `and` between two names, or braces around a comma: {Barnes, Inc.}",
                &[],
            )
        }
        23 => {
            let parts = [Part::Name(asked.word(2))];
            lines.say(b"% is no template", &parts)?;
            lines.say(b"a template, in single quotes: '{ff }{vv~}{ll}{, jj}'", &[])
        }
        24 => {
            let parts = [Part::Typed(asked.name(), b"F")];
            lines.say(
                b"iconv -f LATIN1 -t UTF-8 % > new.bib converts a file in Latin-1",
                &parts,
            )
        }
        _ => Ok(()),
    }
}

/// The hints about a call that failed.
pub fn hint_trouble(
    lines: &mut Lines,
    command: &Command,
    trouble: Trouble<'_>,
) -> Result<(), AllocError> {
    let reason = Part::Name(reason_of(trouble.kind));
    if trouble.kind != ErrorKind::NotFound {
        return lines.say(b"%: %", &[Part::Name(trouble.on), reason]);
    }
    lines.say(b"%: %", &[Part::Name(trouble.on), reason])?;
    if trouble.on == b"-".as_slice() {
        return lines.say(
            b"here - is the name of a file; /dev/stdin names standard input",
            &[],
        );
    }
    if is_verb(trouble.on) && command.is_named(b"edit") {
        let parts = [Part::Name(trouble.on)];
        return lines.say(
            b"the file comes before the edit: bibkeep edit F % ..",
            &parts,
        );
    }
    Ok(())
}

/// The hints about a file that could not be stored.
pub fn hint_storing(lines: &mut Lines, trouble: Trouble<'_>) -> Result<(), AllocError> {
    let parts = [Part::Name(trouble.on), Part::Name(reason_of(trouble.kind))];
    lines.say(b"% was not stored: %", &parts)?;
    lines.say(
        b"a file is stored beside the old one, and then takes its name: its folder must be writable",
        &[],
    )
}

/// The system's reason in words.
fn reason_of(kind: ErrorKind) -> &'static [u8] {
    match kind {
        ErrorKind::NotFound => b"there is no such file",
        ErrorKind::PermissionDenied => b"permission denied",
        ErrorKind::IsADirectory => b"it is a folder",
        ErrorKind::NotADirectory => b"a part of its path is no folder",
        ErrorKind::ReadOnlyFilesystem => b"the file system is read-only",
        ErrorKind::StorageFull => b"no space is left",
        ErrorKind::QuotaExceeded => b"the quota is exceeded",
        ErrorKind::BrokenPipe => b"nobody reads it",
        kind => other_reason_of(kind),
    }
}

fn other_reason_of(kind: ErrorKind) -> &'static [u8] {
    match kind {
        ErrorKind::FilesystemLoop => b"its links lead in a circle",
        ErrorKind::FileTooLarge => b"it would be too large",
        ErrorKind::InvalidFilename => b"its name is too long",
        ErrorKind::InvalidInput => b"it is no regular file",
        ErrorKind::ResourceBusy => b"it is in use",
        ErrorKind::WouldBlock => b"it would have to wait",
        _ => b"a call on it failed",
    }
}

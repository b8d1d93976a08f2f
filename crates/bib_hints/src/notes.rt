//! Notes on a run that was not refused.

use crate::asking::Asked;
use crate::items::{Item, definitions, items_of};
use crate::lines::Lines;
use crate::numbers::entries_meant;
use crate::parts::Part;
use crate::script::words_in;
use crate::verbs::is_month;
use bib_scan::{Kind, is_name};
use bib_text::trimmed;
use std::alloc::{AllocError, Global};

/// So many notes are made on one run.
const NOTES: usize = 3;

/// The notes on an edit, an import or an insertion that did something else than it seems to do. `present` is the file after it.
pub fn note(lines: &mut Lines, asked: &Asked<'_>, present: &[u8]) -> Result<(), AllocError> {
    if asked.command.is_named(b"import") {
        return note_import(lines, asked);
    }
    if asked.command.is_named(b"insert") {
        return note_insert(lines, asked, present);
    }
    if !asked.command.is_named(b"edit") {
        return Ok(());
    }
    match asked.command.words.as_slice() {
        [_, verb, key, field, value] if verb.as_slice() == b"set".as_slice() => note_set(
            lines,
            asked,
            present,
            &[key.as_slice(), field.as_slice(), value.as_slice()],
        ),
        [_] => note_script(lines, asked, present),
        _ => Ok(()),
    }
}

fn note_import(lines: &mut Lines, asked: &Asked<'_>) -> Result<(), AllocError> {
    let input = trimmed(asked.input);
    if input.is_empty() {
        return lines.say(b"the input is empty", &[]);
    }
    'lines: for line in input.split(|byte| *byte == b'\n') {
        if without_mark(line).starts_with(b"TY  -") {
            return Ok(());
        }
    }
    lines.say(b"no record in the input", &[])?;
    if input.first() == Some(&b'@') {
        return lines.say(b"this looks like BibTeX; import reads RIS", &[]);
    }
    lines.say(b"a record begins with a line such as: TY  - JOUR", &[])
}

fn note_insert(lines: &mut Lines, asked: &Asked<'_>, present: &[u8]) -> Result<(), AllocError> {
    let input = trimmed(asked.input);
    if input.is_empty() {
        return lines.say(b"the input is empty", &[]);
    }
    if has_entry(lines.alloc(), asked.input)? {
        return note_open_line(lines, asked, present);
    }
    lines.say(b"no entry in the input", &[])?;
    if without_mark(input).starts_with(b"TY  -") {
        let parts = [Part::Typed(asked.name(), b"F")];
        return lines.say(
            b"this looks like RIS; type: bibkeep import % < FILE",
            &parts,
        );
    }
    Ok(())
}

/// A note on an input whose last line is not ended, if the new file does not end with it.
fn note_open_line(lines: &mut Lines, asked: &Asked<'_>, present: &[u8]) -> Result<(), AllocError> {
    if asked.input.ends_with(b"\n") || asked.command.print || present.ends_with(asked.input) {
        return Ok(());
    }
    lines.say(
        b"the last line of the input is not ended: what comes next in the file begins in it",
        &[],
    )?;
    let parts = [Part::Typed(asked.name(), b"F")];
    lines.say(b"bibkeep undo % takes the text out again", &parts)
}

/// Whether the text has an entry.
fn has_entry(alloc: Global, text: &[u8]) -> Result<bool, AllocError> {
    let items = items_of(alloc, text)?;
    'items: for item in items.as_slice() {
        if item.kind == Kind::Entry {
            return Ok(true);
        }
    }
    Ok(false)
}

/// The line without a byte order mark.
fn without_mark(line: &[u8]) -> &[u8] {
    line.strip_prefix(b"\xEF\xBB\xBF").unwrap_or(line)
}

fn note_script(lines: &mut Lines, asked: &Asked<'_>, present: &[u8]) -> Result<(), AllocError> {
    let alloc = lines.alloc();
    let mut notes = 0usize;
    'lines: for line in asked.input.split(|byte| *byte == b'\n') {
        if notes < NOTES && line.starts_with(b"set\t") && may_be_macro(line) {
            let words = words_in(alloc, line.strip_suffix(b"\r").unwrap_or(line))?;
            if let [_, edit @ ..] = words.as_slice() {
                note_set(lines, asked, present, edit)?;
            }
            notes = notes.saturating_add(1);
        }
    }
    Ok(())
}

/// Whether the last word of a line can be the name of a macro.
fn may_be_macro(line: &[u8]) -> bool {
    match line.split(|byte| *byte == b'\t').last() {
        Some(value) => is_name(value.strip_suffix(b"\r").unwrap_or(value)),
        None => false,
    }
}

/// A note on a field that was set to a macro that is not defined before its entry.
fn note_set(
    lines: &mut Lines,
    asked: &Asked<'_>,
    present: &[u8],
    edit: &[&[u8]],
) -> Result<(), AllocError> {
    let [key, field, value] = edit else {
        return Ok(());
    };
    if !is_name(value) || is_month(value) {
        return Ok(());
    }
    let alloc = lines.alloc();
    let items = items_of(alloc, present)?;
    let found = entries_meant(alloc, items.as_slice(), key)?;
    let Some(entry) = found.as_slice().first() else {
        return Ok(());
    };
    let definitions = definitions(alloc, items.as_slice(), value)?;
    if is_one_before(definitions.as_slice(), entry) {
        return Ok(());
    }
    let parts = [Part::Name(value), Part::Name(field)];
    lines.say(
        b"% is a macro that is not defined: the field % is empty now",
        &parts,
    )?;
    let typed = [
        Part::Typed(asked.name(), b"F"),
        Part::Typed(key, b"KEY"),
        Part::Typed(field, b"FIELD"),
        Part::Name(value),
    ];
    lines.say(
        b"a text is written in braces: bibkeep edit % set % % '{%}'",
        &typed,
    )
}

/// Whether one of the items comes before this one.
fn is_one_before(items: &[Item<'_>], entry: &Item<'_>) -> bool {
    'items: for item in items {
        if item.start < entry.start {
            return true;
        }
    }
    false
}

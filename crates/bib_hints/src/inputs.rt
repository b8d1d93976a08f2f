//! Scripts and RIS texts that are refused.

use crate::asking::Asked;
use crate::edits::hint_form;
use crate::faults::hint_fault;
use crate::items::{before, first_holders, line_of, note_first};
use crate::lines::Lines;
use crate::parts::Part;
use crate::said::Said;
use crate::script::line_in;
use crate::verbs::is_verb;
use bib_scan::is_balanced;
use bib_text::trimmed;
use folded_map::FoldedMap;
use std::alloc::AllocError;

/// The hints about a line of a script that is none.
pub fn hint_script(lines: &mut Lines, asked: &Asked<'_>, line: &[u8]) -> Result<(), AllocError> {
    let parts = [Part::Name(line)];
    lines.say(b"the line: %", &parts)?;
    if trimmed(asked.input).first() == Some(&b'@') {
        lines.say(b"this looks like BibTeX", &[])?;
        return lines.say(
            b"a script has one edit on each line, its words separated by tabs",
            &[],
        );
    }
    if is_ris(asked.input) {
        let typed = [Part::Typed(asked.name(), b"F")];
        lines.say(b"this looks like RIS", &[])?;
        return lines.say(b"type: bibkeep import % < FILE", &typed);
    }
    let verb = first_word(line, b'\t');
    if !is_verb(verb) && is_verb(first_word(line, b' ')) {
        return lines.say(
            b"its words are separated by spaces; a script wants a tab between two words",
            &[],
        );
    }
    hint_form(lines, verb)
}

/// The text up to the first such byte.
fn first_word(line: &[u8], end: u8) -> &[u8] {
    line.split(|byte| *byte == end).next().unwrap_or(line)
}

/// Whether the text begins as RIS does.
fn is_ris(text: &[u8]) -> bool {
    trimmed(text).starts_with(b"TY  -")
}

/// The hints about an import that was refused.
pub fn hint_import(lines: &mut Lines, asked: &Asked<'_>, said: Said) -> Result<(), AllocError> {
    match (said.fault, said.place) {
        (61, Some(place)) => hint_outside(lines, asked.input, place),
        (62, Some(place)) => hint_unended(lines, asked.input, place),
        (63, Some(place)) => {
            let parts = [Part::Count(line_of(asked.input, place))];
            lines.say(
                b"line % of the input has no type; write one: TY  - JOUR",
                &parts,
            )
        }
        (64, _) => hint_unbalanced(lines, asked.input, asked.command.latex),
        (65, Some(place)) => hint_skipped(lines, asked, place),
        (37, _) => hint_id(lines, asked),
        _ => hint_fault(lines, asked, said),
    }
}

fn hint_outside(lines: &mut Lines, input: &[u8], place: usize) -> Result<(), AllocError> {
    let line = line_of(input, place);
    let parts = [Part::Count(line), Part::Name(line_in(input, line))];
    lines.say(b"line % of the input: %", &parts)?;
    if trimmed(input).first() == Some(&b'@') {
        return lines.say(b"this looks like BibTeX; import reads RIS", &[]);
    }
    lines.say(b"a record begins with a line such as: TY  - JOUR", &[])
}

fn hint_unended(lines: &mut Lines, input: &[u8], place: usize) -> Result<(), AllocError> {
    let mut number = 0usize;
    let mut start = 0usize;
    let mut title = b"".as_slice();
    'lines: for line in before(input, place).split(|byte| *byte == b'\n') {
        number = number.saturating_add(1);
        if line.starts_with(b"TY  -") || number == 1 {
            start = number;
            title = b"";
        }
        if line.starts_with(b"TI  -") || line.starts_with(b"T1  -") {
            title = trimmed(line);
        }
    }
    let parts = [
        Part::Count(start),
        Part::Count(line_of(input, place)),
        Part::Name(title),
    ];
    lines.say(
        b"the record that begins in line % of the input has no line ER before line %  %",
        &parts,
    )?;
    lines.say(b"write before that line: ER  - ", &[])
}

/// The first line that would be skipped, and how all are listed.
fn hint_skipped(lines: &mut Lines, asked: &Asked<'_>, place: usize) -> Result<(), AllocError> {
    let line = line_of(asked.input, place);
    let parts = [Part::Count(line), Part::Name(line_in(asked.input, line))];
    lines.say(b"line % of the input: %", &parts)?;
    let typed = [Part::Typed(asked.name(), b"F")];
    lines.say(
        b"all such lines are listed by: bibkeep import % --skipped < FILE",
        &typed,
    )
}

/// The first line of a record whose text has braces that do not match; with `--latex` the first such URL or DOI.
fn hint_unbalanced(lines: &mut Lines, input: &[u8], latex: bool) -> Result<(), AllocError> {
    let mut number = 0usize;
    let mut record = 0usize;
    'lines: for line in input.split(|byte| *byte == b'\n') {
        number = number.saturating_add(1);
        if line.starts_with(b"TY  -") || number == 1 {
            record = record.saturating_add(1);
        }
        if !is_balanced(line) && is_meant(line, latex) {
            let parts = [
                Part::Count(record),
                Part::Count(number),
                Part::Name(trimmed(line)),
            ];
            return lines.say(b"record % of the input, line %: %", &parts);
        }
    }
    Ok(())
}

/// Whether the braces of this line have to match: with `--latex` those of other lines than URLs and DOIs need not.
fn is_meant(line: &[u8], latex: bool) -> bool {
    !latex || line.starts_with(b"UR  -") || line.starts_with(b"DO  -")
}

/// An ID of the input that an entry has, or that two records have.
fn hint_id(lines: &mut Lines, asked: &Asked<'_>) -> Result<(), AllocError> {
    let alloc = lines.alloc();
    let starts = first_holders(alloc, asked.file)?;
    let mut ids = FoldedMap::new(alloc);
    let mut number = 0usize;
    'lines: for line in asked.input.split(|byte| *byte == b'\n') {
        number = number.saturating_add(1);
        if let Some(id) = line.strip_prefix(b"ID  -") {
            let id = trimmed(id);
            if let Some(start) = starts.get(id) {
                let parts = [
                    Part::Count(number),
                    Part::Name(id),
                    Part::Count(line_of(asked.file, *start)),
                    Part::Name(asked.name()),
                ];
                lines.say(
                    b"line % of the input has the ID %, which is the key in line % of %",
                    &parts,
                )?;
                return hint_other_id(lines);
            }
            if let Some(first) = ids.get(id) {
                let parts = [Part::Count(*first), Part::Count(number), Part::Name(id)];
                lines.say(b"lines % and % of the input have the same ID: %", &parts)?;
                return hint_other_id(lines);
            }
            note_first(&mut ids, id, number)?;
        }
    }
    Ok(())
}

fn hint_other_id(lines: &mut Lines) -> Result<(), AllocError> {
    lines.say(b"give the record another ID, or remove that line", &[])
}

//! Texts that are not put in.

use crate::asking::Asked;
use crate::edits::{Edit, hint_edit};
use crate::faults::{hint_fault, hint_place};
use crate::items::{
    Item, defined_by, first_definitions, first_holders, items_of, line_of, note_first,
};
use crate::lines::Lines;
use crate::parts::Part;
use crate::said::Said;
use bib_scan::Kind;
use folded_map::FoldedMap;
use std::alloc::AllocError;

/// The hints about a text that was not put into the file.
pub fn hint_insert(lines: &mut Lines, asked: &Asked<'_>, said: Said) -> Result<(), AllocError> {
    match (said.fault, said.place) {
        (1..=8, Some(place)) if said.is_of_input => {
            hint_place(lines, b"standard input", asked.input, place)
        }
        (37, _) => hint_taken_key(lines, asked),
        (38, _) => hint_taken_macro(lines, asked),
        (40, _) => lines.say(
            b"the text before that position and the beginning of the input would be read as an item",
            &[],
        ),
        (31..=50, _) => {
            let words = [b"insert".as_slice(), asked.word(1)];
            let edit = Edit {
                name: asked.name(),
                words: &words,
                file: asked.file,
            };
            hint_edit(lines, &edit, said.fault)
        }
        _ => hint_fault(lines, asked, said),
    }
}

/// The first key of the input that an entry of the file has, or an earlier one of the input.
fn hint_taken_key(lines: &mut Lines, asked: &Asked<'_>) -> Result<(), AllocError> {
    let alloc = lines.alloc();
    let starts = first_holders(alloc, asked.file)?;
    let items = items_of(alloc, asked.input)?;
    let mut keys = FoldedMap::new(alloc);
    'items: for item in items.as_slice() {
        if item.kind == Kind::Entry && !item.key.is_empty() {
            if let Some(start) = starts.get(item.key) {
                let parts = [
                    Part::Count(line_of(asked.input, item.start)),
                    Part::Name(item.key),
                    Part::Count(line_of(asked.file, *start)),
                    Part::Name(asked.name()),
                ];
                lines.say(
                    b"line % of the input has the key %, which is that of the entry in line % of %",
                    &parts,
                )?;
                return hint_other_key(lines);
            }
            if let Some(first) = keys.get(item.key) {
                let parts = [
                    Part::Count(line_of(asked.input, *first)),
                    Part::Count(line_of(asked.input, item.start)),
                    Part::Name(item.key),
                ];
                lines.say(b"lines % and % of the input have the same key: %", &parts)?;
                return hint_other_key(lines);
            }
            note_first(&mut keys, item.key, item.start)?;
        }
    }
    Ok(())
}

fn hint_other_key(lines: &mut Lines) -> Result<(), AllocError> {
    lines.say(
        b"give the entry of the input another key, or leave it out",
        &[],
    )
}

/// A definition of the input, with its macro and the place of the file's definition.
#[derive(Drop)]
struct Taken<'a> {
    item: Item<'a>,
    name: &'a [u8],
    start: usize,
}

/// The first macro that the input defines and the file too: one that both define in other bytes, if there is one.
fn hint_taken_macro(lines: &mut Lines, asked: &Asked<'_>) -> Result<(), AllocError> {
    let alloc = lines.alloc();
    let starts = first_definitions(alloc, asked.file)?;
    let items = items_of(alloc, asked.input)?;
    let other = first_taken(asked, &starts, items.as_slice(), false);
    let Some(taken) = other.or(first_taken(asked, &starts, items.as_slice(), true)) else {
        return Ok(());
    };
    let parts = [
        Part::Count(line_of(asked.input, taken.item.start)),
        Part::Name(taken.name),
        Part::Count(line_of(asked.file, taken.start)),
        Part::Name(asked.name()),
    ];
    lines.say(
        b"line % of the input defines the macro %, as line % of % does",
        &parts,
    )?;
    lines.say(
        b"leave the definition out of the input, if both give the same text",
        &[],
    )
}

/// The first definition of the input whose macro the file defines; `same` says whether one with the same bytes counts.
fn first_taken<'a>(
    asked: &Asked<'_>,
    starts: &FoldedMap<usize>,
    items: &[Item<'a>],
    same: bool,
) -> Option<Taken<'a>> {
    'items: for item in items {
        if let Some(name) = defined_by(item) {
            if let Some(start) = starts.get(name) {
                if same || !stands_at(asked.file, *start, item.body) {
                    return Some(Taken {
                        item: *item,
                        name,
                        start: *start,
                    });
                }
            }
        }
    }
    None
}

/// Whether these bytes are those of the file from this place on.
fn stands_at(file: &[u8], start: usize, bytes: &[u8]) -> bool {
    match file.get(start..) {
        Some(rest) => rest.starts_with(bytes),
        None => false,
    }
}

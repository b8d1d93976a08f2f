//! Edits that are refused.

use crate::items::{
    Item, definitions, field_of, holders, is_definition_of, items_of, line_of, place_of_use,
};
use crate::lines::Lines;
use crate::numbers::{entries_meant, hint_unmet_entry, which_of};
use crate::parts::Part;
use crate::positions::{hint_insert_position, hint_number, hint_positions, hint_twice, key_in};
use crate::renamed_fields::{hint_clashes, hint_field_names, hint_unnamed_field};
use crate::verbs::{VERBS, form_of, is_month};
use bib_scan::{ItemView, Kind, is_balanced, is_name, is_type, read_value};
use bib_text::{same_folded, trimmed};
use std::alloc::AllocError;

/// So many entries that refer to an entry are named.
pub const NAMED: usize = 3;

/// The words of an edit, with the name of its file and the bytes of the file that it was refused on.
#[derive(Clone, Copy)]
pub struct Edit<'a> {
    pub name: &'a [u8],
    pub words: &'a [&'a [u8]],
    pub file: &'a [u8],
}

impl<'a> Edit<'a> {
    /// The word with this number, counted from 0; empty if there is none.
    pub fn word(&self, n: usize) -> &'a [u8] {
        match self.words.get(n) {
            Some(word) => word,
            None => b"",
        }
    }

    fn is_named(&self, verb: &[u8]) -> bool {
        self.word(0) == verb
    }
}

/// The hints about an edit that was refused with this fault.
pub fn hint_edit(lines: &mut Lines, edit: &Edit<'_>, fault: usize) -> Result<(), AllocError> {
    match fault {
        31 => hint_key(lines, edit),
        32 => hint_name(lines, edit),
        33 => hint_value(lines, edit),
        34 => hint_position(lines, edit),
        35 => hint_missing(lines, edit),
        36 => hint_ambiguous(lines, edit),
        37 => hint_key_in_use(lines, edit),
        38 => hint_name_in_use(lines, edit),
        39 => hint_referred(lines, edit),
        40 => hint_merge(lines, edit),
        _ => hint_other(lines, edit, fault),
    }
}

fn hint_other(lines: &mut Lines, edit: &Edit<'_>, fault: usize) -> Result<(), AllocError> {
    match fault {
        41 => {
            let parts = [Part::Typed(edit.name, b"F")];
            lines.say(
                b"bibkeep forget % starts a new journal; what was done before can then no longer be undone",
                &parts,
            )
        }
        55 => lines.say(
            b"a step is open: write a line `end` before this `group`",
            &[],
        ),
        56 => lines.say(
            b"no step is open: write a line `group LABEL` before its edits",
            &[],
        ),
        71 => hint_form(lines, edit.word(0)),
        _ => Ok(()),
    }
}

/// What the words of an edit are, if they are none.
pub fn hint_form(lines: &mut Lines, verb: &[u8]) -> Result<(), AllocError> {
    let form = form_of(verb);
    if form.is_empty() {
        let parts = [Part::Name(verb)];
        lines.say(b"% is no edit", &parts)?;
        return lines.say(VERBS, &[]);
    }
    let parts = [Part::Name(form)];
    lines.say(b"its words are: %", &parts)?;
    if verb == b"add".as_slice() || verb == b"move".as_slice() {
        hint_positions(lines)?;
    }
    lines.say(b"bibkeep help edit says more", &[])
}

/// The key of the entry beside which the edit puts something, if its position names one.
fn key_beside<'a>(edit: &Edit<'a>) -> Option<&'a [u8]> {
    if edit.is_named(b"move") {
        return key_in(edit.word(2));
    }
    if edit.is_named(b"add") || edit.is_named(b"insert") {
        return key_in(edit.word(1));
    }
    None
}

/// The key that the edit gives to an entry.
fn new_key<'a>(edit: &Edit<'a>) -> &'a [u8] {
    if edit.is_named(b"add") {
        edit.word(3)
    } else {
        edit.word(2)
    }
}

fn hint_key(lines: &mut Lines, edit: &Edit<'_>) -> Result<(), AllocError> {
    let parts = [Part::Name(new_key(edit))];
    lines.say(
        b"% can be no key: a key has 1 to 255 bytes, and no space, control byte, comma or brace",
        &parts,
    )
}

/// Whether the edit gives a macro a value, which is its third word.
fn gives_macro_value(edit: &Edit<'_>) -> bool {
    edit.is_named(b"define") || edit.is_named(b"set-macro")
}

/// Whether the second word alone is to be the name of a macro.
fn names_macro_first(edit: &Edit<'_>) -> bool {
    let is_used_or_not = edit.is_named(b"inline") || edit.is_named(b"undefine");
    is_used_or_not || edit.is_named(b"introduce") || gives_macro_value(edit)
}

fn hint_name(lines: &mut Lines, edit: &Edit<'_>) -> Result<(), AllocError> {
    if edit.is_named(b"rename-field") {
        return hint_field_names(lines, edit);
    }
    let is_typed = edit.is_named(b"set-type") || edit.is_named(b"add") && !is_type(edit.word(2));
    if is_typed {
        let parts = [Part::Name(edit.word(2))];
        return lines.say(b"% is no type of an entry, such as book or article", &parts);
    }
    if edit.is_named(b"add") {
        return hint_added_name(lines, edit);
    }
    let is_first = names_macro_first(edit)
        || edit.is_named(b"rename-macro") && !is_name(edit.word(1));
    if is_first {
        let parts = [Part::Name(edit.word(1))];
        return lines.say(b"% can be no name of a macro", &parts);
    }
    let parts = [Part::Name(edit.word(2))];
    if edit.is_named(b"set") || edit.is_named(b"drop") {
        return lines.say(b"% can be no name of a field", &parts);
    }
    lines.say(b"% can be no name of a macro", &parts)
}

/// The first of the names and values from the fourth word on that is at fault.
fn hint_added_name(lines: &mut Lines, edit: &Edit<'_>) -> Result<(), AllocError> {
    let mut n = 0usize;
    'words: for word in edit.words {
        if n >= 4 && n % 2 == 0 && !is_name(word) {
            let parts = [Part::Name(word)];
            return lines.say(b"% can be no name of a field", &parts);
        }
        n = n.saturating_add(1);
    }
    Ok(())
}

fn hint_value(lines: &mut Lines, edit: &Edit<'_>) -> Result<(), AllocError> {
    if edit.is_named(b"introduce") {
        let parts = [Part::Name(edit.word(2))];
        return lines.say(b"the braces of the text % do not match", &parts);
    }
    if gives_macro_value(edit) {
        return hint_bad_value(lines, edit.word(2));
    }
    let alloc = lines.alloc();
    let mut n = 0usize;
    'words: for word in edit.words {
        let is_value = if edit.is_named(b"add") {
            n > 4 && n % 2 == 1
        } else {
            n == 3
        };
        n = n.saturating_add(1);
        if is_value && read_value(alloc, word).is_err() {
            return hint_bad_value(lines, word);
        }
    }
    Ok(())
}

/// A text is written in braces.
fn hint_bad_value(lines: &mut Lines, value: &[u8]) -> Result<(), AllocError> {
    let parts = [Part::Name(value)];
    if value.is_empty() {
        return lines.say(b"the value is empty: an empty text is written {}", &[]);
    }
    if trimmed(value).len() < value.len() {
        return lines.say(b"the value begins or ends with white space: %", &parts);
    }
    lines.say(b"% is not written as a value in a file", &parts)?;
    if is_balanced(value) {
        return lines.say(b"a text is written in braces: '{%}'", &parts);
    }
    lines.say(b"its braces do not match", &[])
}

fn hint_position(lines: &mut Lines, edit: &Edit<'_>) -> Result<(), AllocError> {
    let count = items_of(lines.alloc(), edit.file)?.len();
    if edit.is_named(b"insert") {
        return hint_insert_position(lines, edit.name, edit.word(1), count);
    }
    if edit.is_named(b"move") {
        let parts = [Part::Name(edit.name), Part::Count(count.saturating_sub(1))];
        return lines.say(
            b"% has % other items, counted from 0; that number moves the entry to the end",
            &parts,
        );
    }
    hint_number(lines, edit.name, count)
}

/// Whether the second word is the name of a macro that has a definition.
fn is_about_macro(edit: &Edit<'_>) -> bool {
    let is_removed = edit.is_named(b"inline") || edit.is_named(b"undefine");
    is_removed || edit.is_named(b"rename-macro") || edit.is_named(b"set-macro")
}

fn hint_missing(lines: &mut Lines, edit: &Edit<'_>) -> Result<(), AllocError> {
    if edit.is_named(b"rename-field") {
        return hint_unnamed_field(lines, edit);
    }
    if edit.is_named(b"introduce") {
        let parts = [Part::Name(edit.word(2))];
        return lines.say(
            b"no value has the whole part {%}, nor the same in quotes",
            &parts,
        );
    }
    if is_about_macro(edit) {
        return hint_missing_macro(lines, edit);
    }
    let items = items_of(lines.alloc(), edit.file)?;
    if let Some(key) = key_beside(edit) {
        if entries_meant(lines.alloc(), items.as_slice(), key)?.is_empty() {
            return hint_unmet_entry(lines, edit, items.as_slice(), key);
        }
    }
    let found = entries_meant(lines.alloc(), items.as_slice(), edit.word(1))?;
    if found.is_empty() {
        return hint_unmet_entry(lines, edit, items.as_slice(), edit.word(1));
    }
    hint_missing_field(lines, edit)
}

fn hint_missing_field(lines: &mut Lines, edit: &Edit<'_>) -> Result<(), AllocError> {
    hint_no_field(lines, edit.name, edit.word(1), edit.word(2))
}

/// That the entry has no such field; how its fields are printed, if no number tells which of several it is.
pub fn hint_no_field<'a>(
    lines: &mut Lines,
    name: &'a [u8],
    key: &'a [u8],
    field: &'a [u8],
) -> Result<(), AllocError> {
    let parts = [Part::Name(key), Part::Name(field)];
    lines.say(b"the entry % has no field % of its own", &parts)?;
    if which_of(key).number.is_some() {
        return Ok(());
    }
    let typed = [Part::Typed(name, b"F"), Part::Typed(key, b"KEY")];
    lines.say(
        b"bibkeep show % % prints its fields; change an inherited one in the parent",
        &typed,
    )
}

fn hint_missing_macro(lines: &mut Lines, edit: &Edit<'_>) -> Result<(), AllocError> {
    let name = which_of(edit.word(1)).name;
    let parts = [Part::Name(edit.name), Part::Name(name)];
    let items = items_of(lines.alloc(), edit.file)?;
    let found = definitions(lines.alloc(), items.as_slice(), name)?;
    if !found.is_empty() {
        let counted = [parts[0], parts[1], Part::Count(found.len())];
        return lines.say(b"definitions in % of the macro %: %", &counted);
    }
    if is_month(name) {
        return lines.say(b"% does not define the month %, and need not", &parts);
    }
    lines.say(b"% does not define the macro %", &parts)?;
    let typed = [Part::Typed(edit.name, b"F")];
    lines.say(b"grep -in @string % lists the definitions", &typed)
}

fn hint_ambiguous(lines: &mut Lines, edit: &Edit<'_>) -> Result<(), AllocError> {
    if edit.is_named(b"rename-field") {
        return hint_clashes(lines, edit);
    }
    let alloc = lines.alloc();
    let items = items_of(alloc, edit.file)?;
    if is_about_macro(edit) {
        return hint_macro_twice(lines, edit, items.as_slice());
    }
    if let Some(key) = key_beside(edit) {
        let found = entries_meant(alloc, items.as_slice(), key)?;
        if found.len() > 1 {
            return hint_key_twice(lines, edit, key, found.as_slice());
        }
    }
    if edit.is_named(b"add") {
        return lines.say(b"the new entry has a field twice", &[]);
    }
    let found = entries_meant(alloc, items.as_slice(), edit.word(1))?;
    match found.as_slice() {
        [only] => hint_field_twice(lines, edit, only),
        many => hint_key_twice(lines, edit, edit.word(1), many),
    }
}

/// Where a macro is defined more than once.
fn hint_macro_twice(
    lines: &mut Lines,
    edit: &Edit<'_>,
    items: &[Item<'_>],
) -> Result<(), AllocError> {
    let name = edit.word(1);
    let found = definitions(lines.alloc(), items, name)?;
    let words = b"the macro % is defined % times: lines % and %";
    hint_twice(lines, words, name, edit.file, found.as_slice())?;
    let parts = [
        Part::Name(name),
        Part::Typed(edit.name, b"F"),
        Part::Typed(name, b"NAME"),
    ];
    lines.say(
        b"%,2 is the second; to remove it, type: bibkeep edit % undefine %,2",
        &parts,
    )
}

/// Where the entries are that have the same key.
pub fn hint_key_twice<'a>(
    lines: &mut Lines,
    edit: &Edit<'a>,
    key: &'a [u8],
    items: &[Item<'_>],
) -> Result<(), AllocError> {
    let words = b"the key % is that of % entries: lines % and %";
    hint_twice(lines, words, key, edit.file, items)?;
    let parts = [
        Part::Name(key),
        Part::Typed(edit.name, b"F"),
        Part::Typed(key, b"KEY"),
    ];
    lines.say(
        b"%,2 is the second; to remove it, type: bibkeep edit % remove %,2",
        &parts,
    )
}

fn hint_field_twice(lines: &mut Lines, edit: &Edit<'_>, item: &Item<'_>) -> Result<(), AllocError> {
    let mut first = None;
    'fields: for field in ItemView::of(item.body, b"").fields() {
        if same_folded(field.name, edit.word(2)) {
            let line = line_of(edit.file, item.start.saturating_add(field.name_at));
            match first {
                None => first = Some(line),
                Some(first) => {
                    let parts = [
                        Part::Name(edit.word(1)),
                        Part::Name(edit.word(2)),
                        Part::Count(first),
                        Part::Count(line),
                    ];
                    lines.say(b"the entry % has the field % twice: lines % and %", &parts)?;
                    return hint_second_field(lines, edit);
                }
            }
        }
    }
    Ok(())
}

fn hint_second_field(lines: &mut Lines, edit: &Edit<'_>) -> Result<(), AllocError> {
    let parts = [
        Part::Name(edit.word(2)),
        Part::Typed(edit.name, b"F"),
        Part::Typed(edit.word(1), b"KEY"),
        Part::Typed(edit.word(2), b"FIELD"),
    ];
    lines.say(
        b"%,2 is the second; to remove it, type: bibkeep edit % drop % %,2",
        &parts,
    )
}

fn hint_key_in_use(lines: &mut Lines, edit: &Edit<'_>) -> Result<(), AllocError> {
    let key = new_key(edit);
    let alloc = lines.alloc();
    let items = items_of(alloc, edit.file)?;
    let found = holders(alloc, items.as_slice(), key)?;
    if let Some(item) = found.as_slice().first() {
        let parts = [
            Part::Count(line_of(edit.file, item.start)),
            Part::Name(item.key),
        ];
        return lines.say(b"the entry in line % has the key % already", &parts);
    }
    'items: for item in items.as_slice() {
        if is_child_of(item, key) {
            let parts = [
                Part::Name(item.key),
                Part::Count(line_of(edit.file, item.start)),
                Part::Name(key),
            ];
            lines.say(
                b"the crossref of % in line % names %, which no entry has",
                &parts,
            )?;
            return lines.say(b"the renamed entry would become its parent", &[]);
        }
    }
    Ok(())
}

/// Whether the item is an entry whose crossref is this key, as one text in braces or quotes.
fn is_child_of(item: &Item<'_>, key: &[u8]) -> bool {
    if item.kind != Kind::Entry {
        return false;
    }
    let Some(field) = field_of(item, b"crossref") else {
        return false;
    };
    let text = match field.value {
        [b'{' | b'"', text @ .., _] => text,
        text => text,
    };
    same_folded(trimmed(text), key)
}

fn hint_name_in_use(lines: &mut Lines, edit: &Edit<'_>) -> Result<(), AllocError> {
    let name = if names_macro_first(edit) {
        edit.word(1)
    } else {
        edit.word(2)
    };
    let alloc = lines.alloc();
    let items = items_of(alloc, edit.file)?;
    let found = definitions(alloc, items.as_slice(), name)?;
    if let Some(item) = found.as_slice().first() {
        let parts = [
            Part::Name(name),
            Part::Count(line_of(edit.file, item.start)),
        ];
        lines.say(b"the macro % is defined in line % already", &parts)?;
        return hint_set_macro(lines, edit);
    }
    let parts = [Part::Name(name)];
    if is_month(name) {
        return lines.say(b"% is the name of a month", &parts);
    }
    lines.say(
        b"a value uses the name % already, and nothing defines it",
        &parts,
    )
}

/// How a macro that is defined gets another value, if the edit was to define it.
fn hint_set_macro(lines: &mut Lines, edit: &Edit<'_>) -> Result<(), AllocError> {
    if !edit.is_named(b"define") {
        return Ok(());
    }
    let parts = [
        Part::Typed(edit.name, b"F"),
        Part::Typed(edit.word(1), b"NAME"),
        Part::Typed(edit.word(2), b"VALUE"),
    ];
    lines.say(
        b"bibkeep edit % set-macro % % gives it another value",
        &parts,
    )
}

fn hint_referred(lines: &mut Lines, edit: &Edit<'_>) -> Result<(), AllocError> {
    if edit.is_named(b"undefine") {
        return hint_used(lines, edit);
    }
    let alloc = lines.alloc();
    let items = items_of(alloc, edit.file)?;
    let key = which_of(edit.word(1)).name;
    let mut count = 0usize;
    let mut last = b"".as_slice();
    'items: for item in items.as_slice() {
        if is_child_of(item, key) {
            count = count.saturating_add(1);
            if count <= NAMED {
                last = item.key;
                let parts = [
                    Part::Name(item.key),
                    Part::Count(line_of(edit.file, item.start)),
                    Part::Name(key),
                ];
                lines.say(b"the crossref of % in line % names %", &parts)?;
            }
        }
    }
    if count > NAMED {
        let parts = [Part::Count(count - NAMED)];
        lines.say(b"and % more", &parts)?;
    }
    let parts = [Part::Typed(edit.name, b"F"), Part::Typed(last, b"KEY")];
    lines.say(
        b"first type, for each of them: bibkeep edit % drop % crossref",
        &parts,
    )
}

/// Where uses see the definition that the edit removes.
fn hint_used(lines: &mut Lines, edit: &Edit<'_>) -> Result<(), AllocError> {
    let alloc = lines.alloc();
    let items = items_of(alloc, edit.file)?;
    let which = which_of(edit.word(1));
    let name = which.name;
    let mut met = 0usize;
    let mut count = 0usize;
    'items: for item in items.as_slice() {
        if is_definition_of(item, name) {
            met = met.saturating_add(1);
        } else if met == which.number.unwrap_or(1) {
            if let Some(place) = place_of_use(alloc, item, name)? {
                count = count.saturating_add(1);
                if count <= NAMED {
                    let line = line_of(edit.file, item.start.saturating_add(place));
                    let parts = [Part::Count(line), Part::Name(name)];
                    lines.say(b"a value in line % uses the macro %", &parts)?;
                }
            }
        }
    }
    if count > NAMED {
        let parts = [Part::Count(count - NAMED)];
        lines.say(b"and % more", &parts)?;
    }
    if which.number.is_some() {
        return Ok(());
    }
    let parts = [Part::Typed(edit.name, b"F"), Part::Typed(name, b"NAME")];
    lines.say(
        b"bibkeep edit % inline % writes the macro's text for its uses, and removes the definition",
        &parts,
    )
}

fn hint_merge(lines: &mut Lines, edit: &Edit<'_>) -> Result<(), AllocError> {
    if edit.is_named(b"drop") {
        return lines.say(
            b"then a `)` would become a part of the key: write a space before it",
            &[],
        );
    }
    let parts = [Part::Name(edit.word(1))];
    if is_about_macro(edit) {
        return lines.say(
            b"without the definition of %, the text before and after it would be read as an item",
            &parts,
        );
    }
    lines.say(
        b"without the entry %, the text before and after it would be read as an item",
        &parts,
    )
}

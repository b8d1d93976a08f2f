//! The items of a file, and where they are.

ghost use Rattle.bib_scan.specs.ValueParts.{IsPartsOf};

use bib_scan::{FieldView, ItemView, Kind, Part, Parts, Reader, read_value};
use bib_text::{NAME_LIMIT, same_folded};
use folded_map::FoldedMap;
use memchr::memrchr;
use std::alloc::{AllocError, Global};

/// An item of a file: its kind, its key if it is an entry, its bytes, and its offset in the file.
#[derive(Clone, Copy)]
pub struct Item<'a> {
    pub kind: Kind,
    pub key: &'a [u8],
    pub body: &'a [u8],
    pub start: usize,
}

/// The items of a file; of a file that is not valid those before the fault.
pub fn items_of(alloc: Global, file: &[u8]) -> Result<Vec<Item<'_>>, AllocError> {
    let mut items = Vec::new(alloc);
    let Ok(mut reader) = Reader::new(alloc, file) else {
        return Ok(items);
    };
    'items: loop {
        match reader.next_item() {
            Ok(Some(read)) => items.push(item_of(read.body, read.start))?,
            Ok(None) => return Ok(items),
            Err(fault) if fault.is_memory() => return Err(AllocError),
            Err(_) => return Ok(items),
        }
    }
}

fn item_of(body: &[u8], start: usize) -> Item<'_> {
    let view = ItemView::of(body, b"");
    Item {
        kind: view.kind(),
        key: view.key(),
        body,
        start,
    }
}

/// The entries with this key, ignoring case. None has the empty key.
pub fn holders<'a>(
    alloc: Global,
    items: &[Item<'a>],
    key: &[u8],
) -> Result<Vec<Item<'a>>, AllocError> {
    let mut found = Vec::new(alloc);
    'items: for item in items {
        if item.kind == Kind::Entry && !key.is_empty() && same_folded(item.key, key) {
            found.push(*item)?;
        }
    }
    Ok(found)
}

/// Where the first entry of each key begins.
pub fn first_holders(alloc: Global, file: &[u8]) -> Result<FoldedMap<usize>, AllocError> {
    let mut starts = FoldedMap::new(alloc);
    let items = items_of(alloc, file)?;
    'items: for item in items.as_slice() {
        if item.kind == Kind::Entry && !item.key.is_empty() {
            note_first(&mut starts, item.key, item.start)?;
        }
    }
    Ok(starts)
}

/// Where the first definition of each macro begins.
pub fn first_definitions(alloc: Global, file: &[u8]) -> Result<FoldedMap<usize>, AllocError> {
    let mut starts = FoldedMap::new(alloc);
    let items = items_of(alloc, file)?;
    'items: for item in items.as_slice() {
        if let Some(name) = defined_by(item) {
            note_first(&mut starts, name, item.start)?;
        }
    }
    Ok(starts)
}

/// The macro that the item defines, if it is a definition.
pub fn defined_by<'a>(item: &Item<'a>) -> Option<&'a [u8]> {
    if item.kind != Kind::Macro {
        return None;
    }
    match ItemView::of(item.body, b"").fields().next() {
        Some(field) => Some(field.name),
        None => None,
    }
}

/// Gives a name its number, if it has none.
pub fn note_first(
    numbers: &mut FoldedMap<usize>,
    name: &[u8],
    number: usize,
) -> Result<(), AllocError> {
    if name.len() <= NAME_LIMIT && numbers.get(name).is_none() {
        numbers.insert(name, number)?;
    }
    Ok(())
}

/// The definitions of this macro, ignoring case.
pub fn definitions<'a>(
    alloc: Global,
    items: &[Item<'a>],
    name: &[u8],
) -> Result<Vec<Item<'a>>, AllocError> {
    let mut found = Vec::new(alloc);
    'items: for item in items {
        if item.kind == Kind::Macro && field_of(item, name).is_some() {
            found.push(*item)?;
        }
    }
    Ok(found)
}

/// The first field of an item with this name, ignoring case.
pub fn field_of<'a>(item: &Item<'a>, name: &[u8]) -> Option<FieldView<'a>> {
    let view = ItemView::of(item.body, b"");
    'fields: for field in view.fields() {
        if same_folded(field.name, name) {
            return Some(field);
        }
    }
    None
}

/// Whether the item is a definition of this macro, ignoring case.
pub fn is_definition_of(item: &Item<'_>, name: &[u8]) -> bool {
    match defined_by(item) {
        Some(defined) => same_folded(defined, name),
        None => false,
    }
}

/// Where the value of the item's first field that uses this macro begins in the item.
pub fn place_of_use(
    alloc: Global,
    item: &Item<'_>,
    name: &[u8],
) -> Result<Option<usize>, AllocError> {
    let view = ItemView::of(item.body, b"");
    'fields: for field in view.fields() {
        if is_used_in(alloc, field.value, name)? {
            return Ok(Some(field.value_at));
        }
    }
    Ok(None)
}

/// Whether a part of the value is the macro's name, ignoring case.
fn is_used_in(alloc: Global, value: &[u8], name: &[u8]) -> Result<bool, AllocError> {
    match read_value(alloc, value) {
        Ok(parts) => Ok(is_used_among(value, &parts, name)),
        Err(fault) if fault.is_memory() => Err(AllocError),
        Err(_) => Ok(false),
    }
}

/// Whether one of these parts of a value is the macro's name, ignoring case.
fn is_used_among(value: &[u8], parts: &Parts, name: &[u8]) -> bool
    requires { IsPartsOf value.now parts.now }
{
    'parts: for n in 0..parts.len() {
        if is_use(parts.part(value, n), name) {
            return true;
        }
    }
    false
}

/// Whether the part is the macro's name, ignoring case.
fn is_use(part: Part<'_>, name: &[u8]) -> bool {
    match part {
        Part::Macro(used) => same_folded(used, name),
        _ => false,
    }
}

/// The line of a place in a text, counted from 1.
pub fn line_of(text: &[u8], place: usize) -> usize {
    let mut line = 1usize;
    'bytes: for byte in before(text, place) {
        if *byte == b'\n' {
            line = line.saturating_add(1);
        }
    }
    line
}

/// The column of a place in a text, counted from 1.
pub fn column_of(text: &[u8], place: usize) -> usize {
    let before = before(text, place);
    match memrchr(b'\n', before) {
        Some(last) => before.len() - last,
        None => before.len().saturating_add(1),
    }
}

/// The bytes of a text before a place.
pub fn before(text: &[u8], place: usize) -> &[u8] {
    text.split_at(place.min(text.len())).0
}

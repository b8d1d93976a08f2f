//! Entries and macro definitions of a file that another file lacks.

ghost use Rattle.std.specs.Prelude.{◌≡◌};
ghost use Rattle.bib_store.specs.Readings.{OfReading};
ghost use Rattle.bib_renames.specs.Changes.{count_named};

use crate::rename::Named;
use bib_scan::{FieldView, ItemView, Kind};
use bib_store::{Database, ItemList};
use bib_text::{Text, copied, same_folded};
use std::alloc::{AllocError, Global};

/// An entry or a definition that another file lacks: what it says without its name, and the name.
#[derive(Drop)]
pub(crate) struct Lone {
    pub what: Named,
    pub says: Vec<u8>,
    pub name: Text,
}

/// How many entries have this key, or how many items define this macro.
pub(crate) fn count<L: ItemList>(db: &Database<L>, what: Named, name: &[u8]) -> usize
    ensures { OfReading db.now (λ r. result ≡ count_named what name.now r) }
{
    match what {
        Named::Entry => db.holders(name),
        Named::Macro => db.definition_count(name),
    }
}

/// The name of an entry or of a definition.
fn name_of<'a>(item: &ItemView<'a>) -> Option<(Named, &'a [u8])> {
    match item.kind() {
        Kind::Entry => Some((Named::Entry, item.key())),
        Kind::Macro => match item.fields().next() {
            Some(field) => Some((Named::Macro, field.name)),
            None => None,
        },
        Kind::Preamble | Kind::Comment => None,
    }
}

/// Whether item `n` has this name, byte for byte.
fn is_at<L: ItemList>(db: &Database<L>, n: usize, what: Named, name: &[u8]) -> bool {
    if n >= db.item_count() {
        return false;
    }
    match name_of(&db.item(n)) {
        Some((other, text)) => other == what && text == name,
        None => false,
    }
}

/// The number of the first item that has this name.
fn first_with<L: ItemList>(db: &Database<L>, what: Named, name: &[u8]) -> Option<usize> {
    match what {
        Named::Entry => match db.find(name) {
            Ok(n) if n < db.entry_count() => Some(db.entry_item(n)),
            _ => None,
        },
        Named::Macro => db.first_definition(name),
    }
}

/// The number of an item that has this name. Item `n` is looked at first: only time depends on it.
fn item_with<L: ItemList>(db: &Database<L>, n: usize, what: Named, name: &[u8]) -> Option<usize> {
    if is_at(db, n, what, name) {
        return Some(n);
    }
    first_with(db, what, name)
}

/// The text with its letters in lower case.
fn lower(alloc: Global, text: &[u8]) -> Result<Vec<u8>, AllocError> {
    let mut bytes = Vec::from_slice(alloc, text)?;
    bytes.make_ascii_lowercase();
    Ok(bytes)
}

/// Adds the name of a field in lower case, and its value.
fn add_field(alloc: Global, says: &mut Vec<u8>, field: &FieldView<'_>) -> Result<(), AllocError> {
    let name = lower(alloc, field.name)?;
    says.extend_from_slice(name.as_slice())?;
    says.push(b'=')?;
    says.extend_from_slice(field.value)?;
    says.push(b',')?;
    Ok(())
}

/// The type of an entry, and its fields except `crossref` with their values, byte for byte. Nothing for an entry without such fields.
fn entry_says(alloc: Global, entry: &ItemView<'_>) -> Result<Option<Vec<u8>>, AllocError> {
    let mut says = lower(alloc, entry.type_name())?;
    says.push(b'{')?;
    let mut has_field = false;
    let mut rest = entry.fields();
    'fields: while let Some(field) = rest.next() {
        if !same_folded(field.name, b"crossref") {
            add_field(alloc, &mut says, &field)?;
            has_field = true;
        }
    }
    if has_field { Ok(Some(says)) } else { Ok(None) }
}

/// The value of a definition. No entry says the same, since a brace follows its type.
fn definition_says(
    alloc: Global,
    definition: &ItemView<'_>,
) -> Result<Option<Vec<u8>>, AllocError> {
    let Some(field) = definition.fields().next() else {
        return Ok(None);
    };
    let mut says = Vec::from_slice(alloc, b"=")?;
    says.extend_from_slice(field.value)?;
    Ok(Some(says))
}

/// What an entry or a definition says without its name.
fn item_says(alloc: Global, item: &ItemView<'_>) -> Result<Option<Vec<u8>>, AllocError> {
    match item.kind() {
        Kind::Entry => entry_says(alloc, item),
        Kind::Macro => definition_says(alloc, item),
        Kind::Preamble | Kind::Comment => Ok(None),
    }
}

/// The item with this name, which another file lacks, if no other item has the name and it says something.
fn lone_item<L: ItemList>(
    alloc: Global,
    db: &Database<L>,
    item: &ItemView<'_>,
    what: Named,
    name: &[u8],
) -> Result<Option<Lone>, AllocError> {
    if count(db, what, name) != 1 {
        return Ok(None);
    }
    match item_says(alloc, item)? {
        Some(says) => Ok(Some(Lone {
            what,
            says,
            name: copied(alloc, name)?,
        })),
        None => Ok(None),
    }
}

/// The entries and definitions whose names the file has once, and the other file lacks, in the order of the file. If the items of the
/// other file are in the same order, few names are looked up.
pub(crate) fn lone_items<L: ItemList>(
    alloc: Global,
    db: &Database<L>,
    other: &Database<L>,
) -> Result<Vec<Lone>, AllocError> {
    let mut lone = Vec::new(alloc);
    let mut next: usize = 0;
    'items: for n in 0..db.item_count() {
        let item = db.item(n);
        if let Some((what, name)) = name_of(&item) {
            match item_with(other, next, what, name) {
                Some(m) => next = m.saturating_add(1),
                None => {
                    if let Some(item) = lone_item(alloc, db, &item, what, name)? {
                        lone.push(item)?;
                    }
                }
            }
        }
    }
    Ok(lone)
}

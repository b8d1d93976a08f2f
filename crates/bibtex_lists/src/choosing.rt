//! The fields of a record that have one of some names, chosen from one entry after another.

ghost use Rattle.std.specs.Prelude.{◌≡◌, ◌++◌, List, map, IfOk, OnOk};
ghost use Rattle.std.specs.List.{list_any};
ghost use Rattle.bib_spec.specs.Text.{same};
ghost use Rattle.bib_spec.specs.Records.{RecordField, entries_of, missing, fields_at, with_inherited};
ghost use Rattle.bib_store.specs.Choosing.{chosen};
ghost use Rattle.bib_store.specs.Readings.{OfReading};

use bib_store::{Database, ItemList};
use bib_text::{Text, same_folded};
use std::alloc::{AllocError, Global};

/// Whether one of the fields has this name.
fn has_name(fields: &[(Text, Text)], name: &[u8]) -> bool
    ensures { result ≡ list_any (λ other. same other.0 name.now) fields.now }
{
    fields
        .iter()
        .any(|field| same_folded(field.0.as_slice(), name))
}

/// Those of the given fields whose names none of the fields has.
fn missing_of(own: &[(Text, Text)], given: Vec<(Text, Text)>) -> Vec<(Text, Text)>
    ensures { result.items ≡ missing own.now given.items }
{
    let mut given = given;
    given.retain(|field| !has_name(own, field.0.as_slice()));
    given
}

/// Adds those of the given fields whose names none of the fields has.
fn add_missing(fields: &mut Vec<(Text, Text)>, given: Vec<(Text, Text)>) -> Result<(), AllocError>
    ensures { OnOk result (fields.new.items ≡ fields.old.items ++ missing fields.old.items given.items) }
{
    let mut given = missing_of(fields.as_slice(), given);
    fields.append(&mut given)?;
    Ok(())
}

/// The own fields of entry `n` that have one of these names; none, if there is no such entry.
pub(crate) fn chosen_of<L: ItemList>(
    alloc: Global,
    db: &Database<L>,
    n: usize,
    names: &[&[u8]],
) -> Result<Vec<(Text, Text)>, AllocError>
    ensures { IfOk result (λ fields. OfReading db.now (λ r. fields.items ≡ chosen (map (λ name. name.now) names.now) (fields_at (entries_of r) n))) }
{
    let count = db.entry_count();
    if n >= count {
        return Ok(Vec::new(alloc));
    }
    match db.own_fields_with(n, names) {
        Ok(fields) => Ok(fields.into_vec()),
        Err(_) => Err(AllocError),
    }
}

/// Adds what these entries give, in turn.
pub(crate) fn choose_inherited<L: ItemList>(
    alloc: Global,
    db: &Database<L>,
    up: &[usize],
    names: &[&[u8]],
    fields: &mut Vec<(Text, Text)>,
) -> Result<(), AllocError>
    ensures { OnOk result (OfReading db.now (λ r. (all : List RecordField) → fields.old.items ≡ chosen (map (λ name. name.now) names.now) all → fields.new.items ≡ chosen (map (λ name. name.now) names.now) (with_inherited (entries_of r) all up.now))) }
{
    'inherit: for n in up {
        let given = chosen_of(alloc, db, *n, names)?;
        add_missing(fields, given)?;
    }
    Ok(())
}

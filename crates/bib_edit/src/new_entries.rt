//! Entries to be added together: whether they can be, and the piece that puts them in.

ghost use Rattle.std.specs.Prelude.{◌≡◌, ◌||◌, ◌↔◌, nat_lt, true, IfOk, IfErr, IsTrue};
ghost use Rattle.std.specs.List.{list_all};
ghost use Rattle.bib_spec.specs.Text.{is_name, is_new_key};
ghost use Rattle.bib_spec.specs.Tree.{is_type};
ghost use Rattle.edit_spec.specs.Edits.{has_same, holders};
ghost use Rattle.bib_store.specs.Readings.{OfReading, IsItemGap};
ghost use Rattle.bib_edit.specs.ManyEntries.{keys_given, names_given, types_given, are_named, AllHaveValues, has_field_twice, is_any_held, AreAnyLong, put_in};
ghost use Rattle.bib_edit.specs.declared.fault.EditFault.TheVariants.{Memory};

use crate::fault::EditFault;
use crate::new_fields::{are_named, are_values, has_same_name, is_any_long};
use crate::pieces::{insertion_of, one_piece};
use bib_data::NewEntry;
use bib_scan::{is_key, is_type};
use bib_store::{Database, ItemList, Piece};
use bib_text::{Seq, Text};
use folded_map::FoldedMap;
use std::alloc::{AllocError, Global};

/// Whether each key is valid.
pub(crate) fn have_keys(entries: &[NewEntry]) -> bool
    ensures { result ≡ list_all is_new_key (keys_given entries.now) }
{
    entries.iter().all(|entry| is_key(entry.key.as_slice()))
}

/// Whether each field's name is valid.
fn have_names(entries: &[NewEntry]) -> bool
    ensures { result ≡ list_all is_name (names_given entries.now) }
{
    entries
        .iter()
        .all(|entry| are_named(entry.fields.as_slice()))
}

/// Whether each type is valid.
fn have_types(entries: &[NewEntry]) -> bool
    ensures { result ≡ list_all is_type (types_given entries.now) }
{
    entries
        .iter()
        .all(|entry| is_type(entry.kind_name.as_slice()))
}

/// Whether each field's name and each type is valid.
pub(crate) fn have_names_and_types(entries: &[NewEntry]) -> bool
    ensures { result ≡ are_named entries.now }
{
    have_names(entries) && have_types(entries)
}

/// Whether each field of each entry has a value.
pub(crate) fn have_values(alloc: Global, entries: &[NewEntry]) -> Result<bool, AllocError>
    ensures { IfOk result (λ have. IsTrue have ↔ AllHaveValues entries.now) }
{
    'entries: for entry in entries {
        if !are_values(alloc, entry.fields.as_slice())? {
            return Ok(false);
        }
    }
    Ok(true)
}

/// Whether an entry has a field twice, folded. It takes memory for the names of one entry at a time.
pub(crate) fn has_field_twice(alloc: Global, entries: &[NewEntry]) -> Result<bool, AllocError>
    requires { list_all is_name (names_given entries.now) ≡ true }
    ensures { IfOk result (λ twice. twice ≡ has_field_twice entries.now) }
{
    'entries: for entry in entries {
        if has_same_name(alloc, entry.fields.as_slice())? {
            return Ok(true);
        }
    }
    Ok(false)
}

/// Whether two keys are the same, folded. It takes memory for the keys, and time in their number.
fn has_same_key(alloc: Global, entries: &[NewEntry]) -> Result<bool, AllocError>
    requires { list_all is_new_key (keys_given entries.now) ≡ true }
    ensures { IfOk result (λ same. same ≡ has_same (keys_given entries.now)) }
{
    let mut seen = FoldedMap::new(alloc);
    'entries: for entry in entries {
        let key = entry.key.as_slice();
        if seen.get(key).is_some() {
            return Ok(true);
        }
        seen.insert(key, true)?;
    }
    Ok(false)
}

/// Whether an entry of the file has this key, folded. A dangling crossref may name the key: the new entry becomes its
/// target.
pub(crate) fn is_held<L: ItemList>(db: &Database<L>, key: &[u8]) -> bool
    ensures { OfReading db.now (λ r. result ≡ nat_lt 0 (holders key.now r)) }
{
    db.holders(key) > 0
}

/// Whether an entry of the file has one of the keys, folded.
fn is_any_held<L: ItemList>(db: &Database<L>, entries: &[NewEntry]) -> bool
    ensures { OfReading db.now (λ r. result ≡ is_any_held (keys_given entries.now) r) }
{
    entries
        .iter()
        .any(|entry| is_held(db, entry.key.as_slice()))
}

/// Whether a key is that of another one of the entries, or of an entry of the file, folded.
pub(crate) fn are_keys_taken<L: ItemList>(
    alloc: Global,
    db: &Database<L>,
    entries: &[NewEntry],
) -> Result<bool, AllocError>
    requires { list_all is_new_key (keys_given entries.now) ≡ true }
    ensures { IfOk result (λ taken. OfReading db.now (λ r. taken ≡ (has_same (keys_given entries.now) || is_any_held (keys_given entries.now) r))) }
{
    if has_same_key(alloc, entries)? {
        return Ok(true);
    }
    Ok(is_any_held(db, entries))
}

/// Whether the raw text of a field would be too long before item `n`. Each field has a value.
pub(crate) fn are_any_long<L: ItemList>(
    alloc: Global,
    db: &Database<L>,
    n: usize,
    entries: &[NewEntry],
) -> Result<bool, EditFault>
    requires place { IsItemGap db.now n }
    requires values { AllHaveValues entries.now }
    ensures long { IfOk result (λ long. OfReading db.now (λ r. AreAnyLong long r n entries.now)) }
    ensures only { IfErr result (λ fault. fault ≡ Memory) }
{
    'entries: for entry in entries {
        if is_any_long(alloc, db, n, entry.fields.as_slice())? {
            return Ok(true);
        }
    }
    Ok(false)
}

/// The piece that puts this text before item `n`, or after the last item; none for no text.
pub(crate) fn put_in<L: ItemList>(
    alloc: Global,
    db: &Database<L>,
    n: usize,
    text: Text,
) -> Result<Seq<Piece>, EditFault>
    requires { IsItemGap db.now n }
    ensures pieces { IfOk result (λ pieces. OfReading db.now (λ r. pieces ≡ put_in r n text)) }
    ensures only { IfErr result (λ fault. fault ≡ Memory) }
{
    if text.as_slice().is_empty() {
        return Ok(Seq::empty(alloc));
    }
    one_piece(alloc, insertion_of(alloc, db, n, text))
}

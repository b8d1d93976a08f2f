//! Entries whose crossref names an entry on the side that they come from, and none in the merge.

ghost use Rattle.std.specs.Prelude.{◌≡◌, ◌++◌, if◌then◌else◌, Some, None, IfOk, OnOk};
ghost use Rattle.std.specs.Option.{option_copied, option_to_list};
ghost use Rattle.bib_spec.specs.Text.{same};
ghost use Rattle.bib_spec.specs.Records.{entries_of};
ghost use Rattle.bib_store.specs.Readings.{OfReading, IsEntryNumber};
ghost use Rattle.merge_spec.specs.Parents.{named_at, named_on, named_on_both, is_lost, lost_key, lost_keys};

use bib_store::{Database, ItemList};
use bib_text::{Text, copied, same_folded};
use std::alloc::{AllocError, Global};

/// Whether a crossref names an entry, if it says this text.
fn named_if(other: &[u8], text: &[u8], names: bool) -> Option<bool>
    ensures { result ≡ (if same other.now text.now then Some names else None) }
{
    if same_folded(other, text) {
        Some(names)
    } else {
        None
    }
}

/// Whether the crossref of entry `m` of a side names an entry there, if it says this text.
fn named_at<L: ItemList>(side: &Database<L>, text: &[u8], m: usize) -> Option<bool>
    requires { IsEntryNumber side.now m }
    ensures { OfReading side.now (λ r. result ≡ named_at (entries_of r) text.now m) }
{
    match side.crossref_text(m) {
        Some(other) => named_if(other, text, side.target(m).is_some()),
        None => None,
    }
}

/// The same of the entry that this key finds, if the side has one.
fn named_on<L: ItemList>(side: &Database<L>, key: &[u8], text: &[u8]) -> Option<bool>
    ensures { OfReading side.now (λ r. result ≡ named_on (entries_of r) key.now text.now) }
{
    match side.find(key) {
        Ok(m) => named_at(side, text, m),
        Err(_) => None,
    }
}

/// Whether one side at least has the crossref, and it names an entry on each that has it.
fn named_on_both(ours: Option<bool>, theirs: Option<bool>) -> bool
    ensures { result ≡ named_on_both ours theirs }
{
    match (ours, theirs) {
        (None, None) => false,
        (None, Some(theirs)) => theirs,
        (Some(ours), None) => ours,
        (Some(ours), Some(theirs)) => ours && theirs,
    }
}

/// Whether entry `n` of the merge has lost the parent that it has on the side that it comes from.
fn is_lost<L: ItemList>(
    ours: &Database<L>,
    theirs: &Database<L>,
    merged: &Database<L>,
    n: usize,
) -> bool
    requires { IsEntryNumber merged.now n }
    ensures { OfReading ours.now (λ ro. OfReading theirs.now (λ rt. OfReading merged.now (λ rm. result ≡ is_lost (entries_of ro) (entries_of rt) (entries_of rm) n))) }
{
    if merged.target(n).is_some() {
        return false;
    }
    match merged.crossref_text(n) {
        Some(text) => {
            let key = merged.entry(n).key();
            named_on_both(named_on(ours, key, text), named_on(theirs, key, text))
        }
        None => false,
    }
}

/// The key of entry `n` of the merge, if that entry has lost its parent.
fn lost_key<'a, L: ItemList>(
    ours: &Database<L>,
    theirs: &Database<L>,
    merged: &'a Database<L>,
    n: usize,
) -> Option<&'a [u8]>
    requires { IsEntryNumber merged.now n }
    ensures { OfReading ours.now (λ ro. OfReading theirs.now (λ rt. OfReading merged.now (λ rm. option_to_list (option_copied result) ≡ lost_key (entries_of ro) (entries_of rt) (entries_of rm) n))) }
{
    if is_lost(ours, theirs, merged, n) {
        return Some(merged.entry(n).key());
    }
    None
}

/// Adds a copy of the key, if there is one.
fn add(alloc: Global, keys: &mut Vec<Text>, key: Option<&[u8]>) -> Result<(), AllocError>
    ensures { OnOk result (keys.new.items ≡ keys.old.items ++ option_to_list (option_copied key.entry)) }
{
    if let Some(key) = key {
        keys.push(copied(alloc, key)?)?;
    }
    Ok(())
}

/// The keys of the entries of a merge that have lost the parent that they have on the side that they come from, in order: their
/// crossref names no entry in the merged file, and it names one on each side whose entry of the same key says the same crossref. It
/// takes time in the number of entries of the merge and in the lengths of their keys and crossrefs, and memory for the keys that it
/// finds. (dialect)
pub fn lost_keys<L: ItemList>(
    alloc: Global,
    ours: &Database<L>,
    theirs: &Database<L>,
    merged: &Database<L>,
) -> Result<Vec<Text>, AllocError>
    ensures { IfOk result (λ keys. OfReading ours.now (λ ro. OfReading theirs.now (λ rt. OfReading merged.now (λ rm. keys.items ≡ lost_keys (entries_of ro) (entries_of rt) (entries_of rm))))) }
{
    let mut keys = Vec::new(alloc);
    'entries: for n in 0..merged.entry_count() {
        add(alloc, &mut keys, lost_key(ours, theirs, merged, n))?;
    }
    Ok(keys)
}

//! Uses of macros that find another definition in a merge than on the side that they come from.

ghost use Rattle.std.specs.Prelude.{◌≡◌, ◌++◌, Some, if◌then◌else◌, map, filter, slice_get, IfOk, OnOk};
ghost use Rattle.bib_spec.specs.Bytes.{name_limit};
ghost use Rattle.bib_spec.specs.Text.{Text as Bytes, folded};
ghost use Rattle.bib_spec.specs.Tree.{Entry, IsEntry, EntryTree};
ghost use Rattle.bib_spec.specs.Reading.{Reading};
ghost use Rattle.bib_scan.specs.View.{view_of};
ghost use Rattle.bib_store.specs.Readings.{OfReading, IsItemNumber};
ghost use Rattle.merge_spec.specs.Merged.{is_number};
ghost use Rattle.bib_uses.specs.Uses.{uses_in, rows_at};
ghost use Rattle.bib_uses.specs.Lost.{is_kept, is_changed, is_lost, with_name, each_once, lost_names, lost_use, lost_in, lost_at, lost_uses};
ghost use Rattle.bib_uses.specs.Seen.{use_seen, AreDefined, IsSourceOf, AreTold};

use crate::defined::{Defined, defined_before, defined_in};
use crate::sources::{Source, defined_on, item_named, source_of};
use crate::uses::{UseView, uses_of};
use bib_scan::{ItemView, Kind};
use bib_store::{Database, ItemList};
use bib_text::{NAME_LIMIT, Seq, Text, copied};
use folded_map::FoldedMap;
use std::alloc::{AllocError, Global};

/// A use of a macro that has lost its meaning in a merge: the key of its entry, as the merged file has it, and the name of the macro,
/// in lower case.
#[derive(Debug, Drop)]
pub struct LostUse {
    pub key: Text,
    pub name: Text,
}

/// Whether a use comes from a side with so many definitions before it, and may have so many as here.
fn is_kept(here: usize, there: Option<usize>) -> bool
    ensures { result ≡ is_kept here there }
{
    match there {
        Some(there) => there == 0 || there == here,
        None => false,
    }
}

/// Whether a use comes from a side, and finds a definition there, and another here.
fn is_changed(ours: Option<usize>, theirs: Option<usize>, here: usize) -> bool
    ensures { result ≡ is_changed ours theirs here }
{
    (ours.is_some() || theirs.is_some()) && !(is_kept(here, ours) || is_kept(here, theirs))
}

/// Whether a use in item `n` of the merge has lost its meaning.
fn is_lost(
    ours: &Option<Source<'_>>,
    theirs: &Option<Source<'_>>,
    here: &Defined,
    n: usize,
    u: UseView<'_>,
) -> bool
    ensures { (ro rt rm : Reading) (key : Bytes) → IsSourceOf ro key ours.now → IsSourceOf rt key theirs.now → AreDefined rm.items here.now
        → result ≡ is_lost ro rt rm key n (use_seen u.entry) }
{
    is_changed(
        defined_on(ours, u),
        defined_on(theirs, u),
        defined_before(here, n, u.used),
    )
}

/// A copy of the name in lower case.
fn lower(alloc: Global, name: &[u8]) -> Result<Text, AllocError>
    ensures { IfOk result (λ text. text ≡ folded name.now) }
{
    let mut bytes = name.to_vec(alloc)?;
    bytes.as_mut_slice().make_ascii_lowercase();
    Ok(Seq::from_vec(bytes))
}

/// Adds the name, unless it is told.
fn add_name(
    alloc: Global,
    names: &mut Vec<Text>,
    told: &mut FoldedMap<bool>,
    name: &[u8],
) -> Result<(), AllocError>
    requires { AreTold told.old names.old.items }
    ensures names { OnOk result (names.new.items ≡ with_name names.old.items (folded name.now)) }
    ensures told { OnOk result (AreTold told.new names.new.items) }
{
    // No item uses a longer name.
    if name.len() > NAME_LIMIT {
        return Err(AllocError);
    }
    if told.insert(name, true)?.is_none() {
        names.push(lower(alloc, name)?)?;
    }
    Ok(())
}

/// Adds the name of a use that is lost, unless it is told.
fn add_if(
    alloc: Global,
    names: &mut Vec<Text>,
    told: &mut FoldedMap<bool>,
    name: &[u8],
    is_lost: bool,
) -> Result<(), AllocError>
    requires { AreTold told.old names.old.items }
    ensures names { OnOk result (names.new.items ≡ (if is_lost then with_name names.old.items (folded name.now) else names.old.items)) }
    ensures told { OnOk result (AreTold told.new names.new.items) }
{
    if is_lost {
        add_name(alloc, names, told, name)?;
    }
    Ok(())
}

/// The macros of these uses, in item `n` of the merge, that have lost their meaning, each once.
fn lost_names(
    alloc: Global,
    ours: &Option<Source<'_>>,
    theirs: &Option<Source<'_>>,
    here: &Defined,
    n: usize,
    uses: &[UseView<'_>],
) -> Result<Vec<Text>, AllocError>
    ensures { IfOk result (λ names. (ro rt rm : Reading) (key : Bytes) → IsSourceOf ro key ours.now → IsSourceOf rt key theirs.now → AreDefined rm.items here.now
        → names.items ≡ each_once (map (λ u. folded u.used) (filter (is_lost ro rt rm key n) (map use_seen uses.now)))) }
{
    let mut names = Vec::new(alloc);
    let mut told = FoldedMap::new(alloc);
    'uses: for k in 0..uses.len() {
        let u = uses[k];
        let lost = is_lost(ours, theirs, here, n, u);
        add_if(alloc, &mut names, &mut told, u.used, lost)?;
    }
    Ok(names)
}

/// Adds these macros as lost uses of the entry with this key.
fn add_lost(
    alloc: Global,
    lost: &mut Vec<LostUse>,
    key: &[u8],
    names: &[Text],
) -> Result<(), AllocError>
    ensures { OnOk result (lost.new.items ≡ lost.old.items ++ map (lost_use key.now) names.now) }
{
    'names: for k in 0..names.len() {
        let name = copied(alloc, names[k].as_slice())?;
        lost.push(LostUse {
            key: copied(alloc, key)?,
            name,
        })?;
    }
    Ok(())
}

/// A file, and which of its items define each macro.
#[derive(Drop)]
struct Indexed<'a, L: ItemList> {
    db: &'a Database<L>,
    defined: Defined,
}

/// The file, and which of its items define each macro.
fn indexed_file<'a, L: ItemList>(
    alloc: Global,
    db: &'a Database<L>,
) -> Result<Indexed<'a, L>, AllocError>
    ensures file { IfOk result (λ k. k.db.now ≡ db.now) }
    ensures defined { IfOk result (λ k. OfReading k.db.now (λ r. AreDefined r.items k.defined)) }
{
    let defined = defined_in(alloc, db)?;
    Ok(Indexed { db, defined })
}

/// The macros of the uses in item `n` of the merge, an entry with this key, that have lost their meaning.
fn names_at<L: ItemList>(
    alloc: Global,
    ours: &Indexed<'_, L>,
    theirs: &Indexed<'_, L>,
    merged: &Indexed<'_, L>,
    n: usize,
    key: &[u8],
    uses: &[UseView<'_>],
) -> Result<Vec<Text>, AllocError>
    requires ours { OfReading ours.now.db.now (λ r. AreDefined r.items ours.now.defined) }
    requires theirs { OfReading theirs.now.db.now (λ r. AreDefined r.items theirs.now.defined) }
    requires merged { OfReading merged.now.db.now (λ r. AreDefined r.items merged.now.defined) }
    ensures { IfOk result (λ names. OfReading ours.now.db.now (λ ro. OfReading theirs.now.db.now (λ rt. OfReading merged.now.db.now (λ rm. map use_seen uses.now ≡ uses_in (rows_at rm n) → names.items ≡ lost_names ro rt rm key.now n)))) }
{
    // Most entries use no macro.
    if uses.is_empty() {
        return Ok(Vec::new(alloc));
    }
    let source = source_of(alloc, ours.db, &ours.defined, key)?;
    let other = source_of(alloc, theirs.db, &theirs.defined, key)?;
    let names = lost_names(alloc, &source, &other, &merged.defined, n, uses)?;
    Ok(names)
}

/// Whether the number is this one.
fn is_number(n: usize, number: Option<usize>) -> bool
    ensures { result ≡ is_number n number }
{
    match number {
        Some(m) => m == n,
        None => false,
    }
}

/// Adds the lost uses in item `n` of the merge, which is an entry.
fn add_in_entry<L: ItemList>(
    alloc: Global,
    lost: &mut Vec<LostUse>,
    ours: &Indexed<'_, L>,
    theirs: &Indexed<'_, L>,
    merged: &Indexed<'_, L>,
    n: usize,
    entry: &ItemView<'_>,
) -> Result<(), AllocError>
    requires ours { OfReading ours.now.db.now (λ r. AreDefined r.items ours.now.defined) }
    requires theirs { OfReading theirs.now.db.now (λ r. AreDefined r.items theirs.now.defined) }
    requires merged { OfReading merged.now.db.now (λ r. AreDefined r.items merged.now.defined) }
    ensures { OnOk result (OfReading ours.now.db.now (λ ro. OfReading theirs.now.db.now (λ rt. OfReading merged.now.db.now (λ rm. (e : Entry) (trail : Bytes) → IsEntry name_limit e
        → slice_get rm.items n ≡ Some (record { tree = EntryTree e; trail = trail }) → entry.now ≡ view_of (record { tree = EntryTree e; trail = trail }) → lost.new.items ≡ lost.old.items ++ lost_in ro rt rm n (EntryTree e))))) }
{
    if !is_number(n, item_named(merged.db, entry.key())) {
        return Ok(());
    }
    let uses = uses_of(alloc, entry)?;
    let names = names_at(alloc, ours, theirs, merged, n, entry.key(), uses.as_slice())?;
    add_lost(alloc, lost, entry.key(), names.as_slice())?;
    Ok(())
}

/// Adds the lost uses in item `n` of the merge.
fn add_at<L: ItemList>(
    alloc: Global,
    lost: &mut Vec<LostUse>,
    ours: &Indexed<'_, L>,
    theirs: &Indexed<'_, L>,
    merged: &Indexed<'_, L>,
    n: usize,
) -> Result<(), AllocError>
    requires ours { OfReading ours.now.db.now (λ r. AreDefined r.items ours.now.defined) }
    requires theirs { OfReading theirs.now.db.now (λ r. AreDefined r.items theirs.now.defined) }
    requires merged { OfReading merged.now.db.now (λ r. AreDefined r.items merged.now.defined) }
    requires number { IsItemNumber merged.now.db.now n }
    ensures { OnOk result (OfReading ours.now.db.now (λ ro. OfReading theirs.now.db.now (λ rt. OfReading merged.now.db.now (λ rm. lost.new.items ≡ lost.old.items ++ lost_at ro rt rm n)))) }
{
    let item = merged.db.item(n);
    match item.kind() {
        Kind::Entry => {
            add_in_entry(alloc, lost, ours, theirs, merged, n, &item)?;
            Ok(())
        }
        Kind::Macro | Kind::Preamble | Kind::Comment => Ok(()),
    }
}

/// The uses of macros in the entries of a merge that have lost their meaning, in order, each macro once for an entry. A use has lost its
/// meaning if it comes from one side at least and, on each side that it comes from, finds a definition there, and another in the merge.
/// It comes from a side if the entry that the key of its own entry finds there has the same value in the same field. It finds the last
/// definition of its macro before it; two definitions of a macro are the same if equally many definitions of it are before them. Of
/// entries with one key the first counts, and of fields with one name on a side. It takes time and memory in the number of items of the
/// three files and in the lengths of the merge's entries, and of those that their keys find; for a macro that is defined m times, a use
/// takes log m. (dialect)
pub fn lost_uses<L: ItemList>(
    alloc: Global,
    ours: &Database<L>,
    theirs: &Database<L>,
    merged: &Database<L>,
) -> Result<Vec<LostUse>, AllocError>
    ensures { IfOk result (λ lost. OfReading ours.now (λ ro. OfReading theirs.now (λ rt. OfReading merged.now (λ rm. lost.items ≡ lost_uses ro rt rm)))) }
{
    let our_file = indexed_file(alloc, ours)?;
    let their_file = indexed_file(alloc, theirs)?;
    let merged_file = indexed_file(alloc, merged)?;
    let mut lost = Vec::new(alloc);
    'items: for n in 0..merged.item_count() {
        add_at(alloc, &mut lost, &our_file, &their_file, &merged_file, n)?;
    }
    Ok(lost)
}

//! Records of listed entries.

ghost use Rattle.std.specs.Prelude.{◌≡◌, ◌++◌, map, IfOk, OnOk};
ghost use Rattle.bib_spec.specs.Records.{entries_of, missing, fields_at, with_inherited};
ghost use Rattle.bib_store.specs.Readings.{OfReading, IsEntryNumber};
ghost use Rattle.bib_store.specs.Choosing.{with_chosen};
ghost use Rattle.bib_store.specs.Gathering.{AreTaken};
ghost use Rattle.bibtex_lists.specs.Records.{kind_at, record_as_listed};

use crate::choosing::{choose_inherited, chosen_of};
use crate::gathering::{Gathered, lower};
use bib_store::{Database, ItemList, Record};
use bib_text::{Seq, Text, copied};
use bibtex_places::BibtexEntry;
use std::alloc::{AllocError, Global};

/// Adds the own fields of entry `n` that are missing.
fn gather_entry<L: ItemList>(
    db: &Database<L>,
    n: usize,
    fields: &mut Gathered,
) -> Result<(), AllocError>
    requires number { IsEntryNumber db.now n }
    requires names { AreTaken fields.old.names fields.old.fields.items }
    ensures names { OnOk result (AreTaken fields.new.names fields.new.fields.items) }
    ensures added { OnOk result (OfReading db.now (λ r. fields.new.fields.items ≡ fields.old.fields.items ++ missing fields.old.fields.items (fields_at (entries_of r) n))) }
{
    db.opens();
    fields.add_all(db.entry(n).fields(), &db.macros_at(db.entry_item(n)))?;
    Ok(())
}

/// Adds the own fields of entry `n` that are missing; none, if there is no such entry.
fn gather<L: ItemList>(db: &Database<L>, n: usize, fields: &mut Gathered) -> Result<(), AllocError>
    requires { AreTaken fields.old.names fields.old.fields.items }
    ensures names { OnOk result (AreTaken fields.new.names fields.new.fields.items) }
    ensures added { OnOk result (OfReading db.now (λ r. fields.new.fields.items ≡ fields.old.fields.items ++ missing fields.old.fields.items (fields_at (entries_of r) n))) }
{
    let count = db.entry_count();
    if n >= count {
        return Ok(());
    }
    gather_entry(db, n, fields)?;
    Ok(())
}

/// Adds what these entries give, in turn.
fn gather_inherited<L: ItemList>(
    db: &Database<L>,
    up: &[usize],
    fields: &mut Gathered,
) -> Result<(), AllocError>
    requires { AreTaken fields.old.names fields.old.fields.items }
    ensures { OnOk result (OfReading db.now (λ r. fields.new.fields.items ≡ with_inherited (entries_of r) fields.old.fields.items up.now)) }
{
    'inherit: for n in up {
        gather(db, *n, fields)?;
    }
    Ok(())
}

/// The type of entry `n` in lower case; empty, if there is no such entry.
fn kind_of<L: ItemList>(alloc: Global, db: &Database<L>, n: usize) -> Result<Text, AllocError>
    ensures { IfOk result (λ kind. OfReading db.now (λ r. kind ≡ kind_at (entries_of r) n)) }
{
    let count = db.entry_count();
    if n >= count {
        return Ok(Seq::empty(alloc));
    }
    let kind = lower(alloc, db.entry(n).type_name())?;
    Ok(kind)
}

/// The record of a listed entry, as a style gets it: the type in lower case, the key as the list spells it, the entry's own fields
/// without `crossref`, and then the fields that are missing, from each of the entries that give it fields, in turn. It takes memory for
/// the record and its names, and time n log n in the bytes of all these entries. Numbers that no entry has give nothing. It is refused
/// only out of memory. (bibtex 277)
pub fn record_as_bibtex<L: ItemList>(
    alloc: Global,
    db: &Database<L>,
    listed: &BibtexEntry,
) -> Result<Record, AllocError>
    ensures { IfOk result (λ rec. OfReading db.now (λ r. rec ≡ record_as_listed (entries_of r) listed.now)) }
{
    let kind_name = kind_of(alloc, db, listed.entry)?;
    let key = copied(alloc, listed.key.as_slice())?;
    let mut fields = Gathered::none(alloc)?;
    gather(db, listed.entry, &mut fields)?;
    gather_inherited(db, listed.up.as_slice(), &mut fields)?;
    Ok(Record {
        kind_name,
        key,
        fields: fields.into_fields(),
    })
}

/// The record that `record_as_bibtex` gives, with only those fields that have one of these names, without regard to ASCII case. It
/// takes memory for those fields alone, and time in the bytes of all entries that it reads, times the number of names. It is refused
/// only out of memory.
pub fn record_as_bibtex_with<L: ItemList>(
    alloc: Global,
    db: &Database<L>,
    listed: &BibtexEntry,
    names: &[&[u8]],
) -> Result<Record, AllocError>
    ensures { IfOk result (λ rec. OfReading db.now (λ r. rec ≡ with_chosen (map (λ name. name.now) names.now) (record_as_listed (entries_of r) listed.now))) }
{
    let kind_name = kind_of(alloc, db, listed.entry)?;
    let key = copied(alloc, listed.key.as_slice())?;
    let mut fields = chosen_of(alloc, db, listed.entry, names)?;
    choose_inherited(alloc, db, listed.up.as_slice(), names, &mut fields)?;
    Ok(Record {
        kind_name,
        key,
        fields: Seq::from_vec(fields),
    })
}

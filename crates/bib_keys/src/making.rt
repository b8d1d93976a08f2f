//! Keys that are made for entries.

ghost use Rattle.std.specs.Prelude.{◌≡◌, ◌≤◌, ◌<◌, ◌+◌, ◌*◌, ◌^◌, ◌++◌, List, [], ◌∷◌, length, map, slice_get, Some, IfOk, OnOk, IsOkAnd};
ghost use Rattle.std.specs.List.{AllByRecursion};
ghost use Rattle.bib_spec.specs.Bytes.{name_limit, file_limit};
ghost use Rattle.bib_spec.specs.Text.{Text as Bytes};
ghost use Rattle.bib_spec.specs.Records.{EntryTexts, entries_of, record_of, IsDepth};
ghost use Rattle.bib_spec.specs.MadeKeys.{free_key, made_keys, new_keys, base_limit};
ghost use Rattle.bib_store.specs.Readings.{OfReading, IsEntryNumber};
ghost use Rattle.bib_names.specs.Label.{label_names};
ghost use Rattle.bib_keys.specs.MadeBase.{made_base};
ghost use Rattle.bib_keys.specs.Parents.{AreParents};
ghost use Rattle.bib_keys.specs.TakenKeys.{AreTaken, taken_in};

use crate::label_bases::{LabelRecords, Parents};
use crate::taken_keys::TakenKeys;
use bib_names::{key_letters, label_names};
use bib_store::{Database, ItemList};
use bib_text::{Seq, Text};
use std::alloc::{AllocError, Global};

/// The base of the key that is made for entry `n` from its record.
fn base_of<L: ItemList>(
    alloc: Global,
    records: &LabelRecords<'_, L>,
    n: usize,
    parents: &mut Parents,
) -> Result<Text, AllocError>
    requires number { IsEntryNumber records.now.db.now n }
    requires depth { IsDepth records.now.depth }
    requires names { map (λ name. name.now) records.now.names.now ≡ label_names }
    requires parents { AreParents records.now.db.now parents.old }
    ensures parents { OnOk result (AreParents records.now.db.now parents.new) }
    ensures base { IfOk result (λ base. OfReading records.now.db.now (λ r. (entry : EntryTexts) → slice_get (entries_of r) n ≡ Some entry → base ≡ made_base (record_of records.now.depth (entries_of r) n entry))) }
    ensures short { IfOk result (λ base. length base ≤ base_limit) }
{
    let label_base = parents.label_base(alloc, records, n)?;
    key_letters(alloc, label_base.as_slice())
}

/// The key that is made for entry `n`: the first candidate of its base that is not taken. The key is taken then.
fn make_key<L: ItemList>(
    alloc: Global,
    records: &LabelRecords<'_, L>,
    n: usize,
    taken: &mut TakenKeys,
    parents: &mut Parents,
) -> Result<Text, AllocError>
    requires number { IsEntryNumber records.now.db.now n }
    requires depth { IsDepth records.now.depth }
    requires names { map (λ name. name.now) records.now.names.now ≡ label_names }
    requires parents { AreParents records.now.db.now parents.old }
    requires count { taken.old.count + 1 < 2 ^ 64 }
    ensures parents { OnOk result (AreParents records.now.db.now parents.new) }
    ensures key { IfOk result (λ key. OfReading records.now.db.now (λ r. (entry : EntryTexts) → slice_get (entries_of r) n ≡ Some entry → (keys : List Bytes) → AreTaken keys taken.old → key ≡ free_key keys (made_base (record_of records.now.depth (entries_of r) n entry)))) }
    ensures taken { IfOk result (λ key. (keys : List Bytes) → AreTaken keys taken.old → AreTaken (key ∷ keys) taken.new) }
    ensures count { OnOk result (taken.new.count ≡ taken.old.count + 1) }
    ensures short { IfOk result (λ key. length key ≤ name_limit) }
{
    let base = base_of(alloc, records, n, parents)?;
    taken.take_free(base.as_slice())
}

/// Adds the key, if one was made.
fn push_made(keys: &mut Vec<Text>, made: Result<Text, AllocError>) -> Result<(), AllocError>
    ensures pushed { OnOk result (IsOkAnd made (λ key. keys.new.items ≡ keys.old.items ++ key ∷ [])) }
{
    keys.push(made?)?;
    Ok(())
}

/// The made keys of all entries: for each in turn the first candidate of its base that is neither an earlier entry's
/// made key nor the text of a dangling crossref. The base of an entry is the base of its record at this depth. It takes
/// time in the number of entries, once for each parent that is read, and in their bytes, and memory for the keys and
/// for what parents give.
pub fn made_keys<L: ItemList>(
    alloc: Global,
    db: &Database<L>,
    depth: u8,
) -> Result<Seq<Text>, AllocError>
    requires { IsDepth depth }
    ensures keys { IfOk result (λ keys. OfReading db.now (λ r. keys ≡ new_keys made_base depth (entries_of r))) }
    ensures short { IfOk result (AllByRecursion (λ key. length key ≤ name_limit)) }
{
    db.opens();
    let mut taken = TakenKeys::of_dangling(alloc, db)?;
    let names = label_names(alloc)?;
    let records = LabelRecords {
        db,
        depth,
        names: names.as_slice(),
    };
    let mut parents = Parents::none(alloc);
    let mut keys = Vec::new(alloc);
    'entries: for n in 0..db.entry_count() {
        push_made(
            &mut keys,
            make_key(alloc, &records, n, &mut taken, &mut parents),
        )?;
    }
    Ok(Seq::from_vec(keys))
}

/// The keys that no free key may be: the keys of the file, these others, and the texts of dangling crossrefs.
fn taken_in<L: ItemList>(
    alloc: Global,
    db: &Database<L>,
    others: &[Text],
) -> Result<TakenKeys, AllocError>
    ensures taken { IfOk result (λ taken. OfReading db.now (λ r. AreTaken (taken_in r others.now) taken)) }
    ensures count { IfOk result (λ taken. taken.count ≤ 2 * file_limit + length others.now) }
{
    db.opens();
    let mut taken = TakenKeys::of_dangling(alloc, db)?;
    taken.add_all(others)?;
    taken.add_entries(db)?;
    Ok(taken)
}

/// A free key: the base, or the base with `a`, .. `z`, `aa` and so on, the first of them that is, without regard to
/// ASCII case, no key of the file, no text of a dangling crossref, and no key in `taken`. It takes time in the number
/// of entries and of the taken keys, and memory for them. The one refusal is want of memory.
pub fn free_key<L: ItemList>(
    alloc: Global,
    db: &Database<L>,
    base: &[u8],
    taken: &[Text],
) -> Result<Text, AllocError>
    requires { length base.now ≤ base_limit }
    ensures { IfOk result (λ key. OfReading db.now (λ r. key ≡ free_key (taken_in r taken.now) base.now)) }
{
    let mut known = taken_in(alloc, db, taken)?;
    known.take_free(base)
}

/// A free key for each of these bases in turn, as `free_key` finds it; the key is taken then. It takes time in the
/// number of entries, of taken keys and of bases, even if all bases are the same, and memory for the keys. The one
/// refusal is want of memory.
pub fn free_keys<L: ItemList>(
    alloc: Global,
    db: &Database<L>,
    bases: &[Text],
    taken: &[Text],
) -> Result<Seq<Text>, AllocError>
    requires { AllByRecursion (λ base. length base ≤ base_limit) bases.now }
    ensures { IfOk result (λ keys. OfReading db.now (λ r. keys ≡ made_keys (taken_in r taken.now) bases.now)) }
{
    let mut known = taken_in(alloc, db, taken)?;
    let mut keys = Vec::new(alloc);
    'bases: for base in bases {
        keys.push(known.take_free(base.as_slice())?)?;
    }
    Ok(Seq::from_vec(keys))
}

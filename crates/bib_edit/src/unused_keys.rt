//! Keys that are free in a file.

ghost use Rattle.std.specs.Prelude.{◌≡◌, ◌≤◌, length, IfOk, IfErr};
ghost use Rattle.std.specs.List.{AllByRecursion};
ghost use Rattle.bib_spec.specs.MadeKeys.{free_key, made_keys, base_limit};
ghost use Rattle.bib_store.specs.Readings.{OfReading};
ghost use Rattle.bib_keys.specs.TakenKeys.{taken_in};
ghost use Rattle.bib_edit.specs.declared.fault.EditFault.TheVariants.{Memory};

use crate::fault::EditFault;
use bib_store::{Database, ItemList};
use bib_text::{Seq, Text};
use std::alloc::Global;

/// The first free one of these: the base, the base with `a`, .. with `z`, with `aa` and so on. Without regard to ASCII
/// case, a free key is not a key of the file, not the text of a dangling crossref, and not one of the taken keys. It
/// takes time in the number of entries and of the taken keys, and memory for them. The one refusal is want of memory.
pub fn free_key<L: ItemList>(
    alloc: Global,
    db: &Database<L>,
    base: &[u8],
    taken: &[Text],
) -> Result<Text, EditFault>
    requires { length base.now ≤ base_limit }
    ensures key { IfOk result (λ key. OfReading db.now (λ r. key ≡ free_key (taken_in r taken.now) base.now)) }
    ensures only { IfErr result (λ fault. fault ≡ Memory) }
{
    Ok(bib_keys::free_key(alloc, db, base, taken)?)
}

/// A free key for each of these bases in turn, as `free_key` finds one; each found key is taken for the next ones. It
/// takes time in the number of entries, of taken keys and of bases, even if all bases are the same, and memory for the
/// keys. The one refusal is want of memory.
pub fn free_keys<L: ItemList>(
    alloc: Global,
    db: &Database<L>,
    bases: &[Text],
    taken: &[Text],
) -> Result<Seq<Text>, EditFault>
    requires { AllByRecursion (λ base. length base ≤ base_limit) bases.now }
    ensures keys { IfOk result (λ keys. OfReading db.now (λ r. keys ≡ made_keys (taken_in r taken.now) bases.now)) }
    ensures only { IfErr result (λ fault. fault ≡ Memory) }
{
    Ok(bib_keys::free_keys(alloc, db, bases, taken)?)
}

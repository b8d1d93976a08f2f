//! One free key, for which the indexes of a file are asked and its keys are not listed.

ghost use Rattle.std.specs.Prelude.{◌≡◌, ◌≤◌, ◌∷◌, [], false, length, None, IfOk};
ghost use Rattle.std.specs.List.{AllByRecursion};
ghost use Rattle.std.specs.Option.{IfSome};
ghost use Rattle.bib_spec.specs.Bytes.{name_limit};
ghost use Rattle.bib_spec.specs.Texts.{is_empty};
ghost use Rattle.bib_spec.specs.Records.{entries_of, entry_named};
ghost use Rattle.bib_spec.specs.MadeKeys.{free_key, is_taken, made_keys, base_limit};
ghost use Rattle.bib_keys.specs.TakenKeys.{taken_in};
ghost use Rattle.bib_store.specs.Readings.{OfReading};

use bib_names::candidate;
use bib_store::{Database, ItemList};
use bib_text::{Seq, Text, same_folded};
use std::alloc::{AllocError, Global};

/// How many candidates of a base are looked up. If all are taken, the keys of the file are listed.
const FEW: usize = 64;

/// Whether one of these texts is the key, without regard to ASCII case.
pub(crate) fn is_among(key: &[u8], ids: &[Text]) -> bool
    ensures { result ≡ is_taken ids.now key.now }
{
    'ids: for id in ids {
        if same_folded(key, id.as_slice()) {
            return true;
        }
    }
    false
}

/// Whether a key that no entry has is one of these IDs, or the text of a dangling crossref.
fn is_awaited<L: ItemList>(db: &Database<L>, ids: &[Text], key: &[u8]) -> bool
    requires filled { is_empty key.now ≡ false }
    requires short { length key.now ≤ name_limit }
    requires free { OfReading db.now (λ r. entry_named (entries_of r) key.now ≡ None) }
    ensures { OfReading db.now (λ r. result ≡ is_taken (taken_in r ids.now) key.now) }
{
    is_among(key, ids) || db.referrer(key, 0).is_some()
}

/// Whether the key is a key of the file, one of these IDs, or the text of a dangling crossref. It takes two look-ups, and
/// time in the number of IDs.
fn is_taken<L: ItemList>(db: &Database<L>, ids: &[Text], key: &[u8]) -> bool
    requires filled { is_empty key.now ≡ false }
    requires short { length key.now ≤ name_limit }
    ensures { OfReading db.now (λ r. result ≡ is_taken (taken_in r ids.now) key.now) }
{
    match db.find(key) {
        Ok(_) => true,
        Err(_) => is_awaited(db, ids, key),
    }
}

/// The free key of a base, if it is one of the first candidates.
fn look_up<L: ItemList>(
    alloc: Global,
    db: &Database<L>,
    base: &[u8],
    ids: &[Text],
) -> Result<Option<Text>, AllocError>
    requires { length base.now ≤ base_limit }
    ensures { IfOk result (λ found. IfSome found (λ key. OfReading db.now (λ r. key ≡ free_key (taken_in r ids.now) base.now))) }
{
    if base.is_empty() {
        return Ok(None);
    }
    let most = db.entry_count().min(FEW);
    let mut n: usize = 0;
    'candidates: while n < most {
        let key = candidate(alloc, base, n)?;
        if !is_taken(db, ids, key.as_slice()) {
            return Ok(Some(key));
        }
        n += 1;
    }
    Ok(None)
}

/// A list of this key alone.
fn alone(alloc: Global, key: Text) -> Result<Seq<Text>, AllocError>
    ensures { IfOk result (λ keys. keys ≡ key ∷ []) }
{
    let mut keys = Vec::new(alloc);
    keys.push(key)?;
    Ok(Seq::from_vec(keys))
}

/// The key that is made for the one base, if it is found by a few look-ups. For several bases there is no answer: to list the
/// keys of the file once is then cheaper.
pub(crate) fn look_up_keys<L: ItemList>(
    alloc: Global,
    db: &Database<L>,
    bases: &[Text],
    ids: &[Text],
) -> Result<Option<Seq<Text>>, AllocError>
    requires { AllByRecursion (λ base. length base ≤ base_limit) bases.now }
    ensures { IfOk result (λ found. IfSome found (λ keys. OfReading db.now (λ r. keys ≡ made_keys (taken_in r ids.now) bases.now))) }
{
    let Some((base, others)) = bases.split_first() else {
        return Ok(None);
    };
    if !others.is_empty() {
        return Ok(None);
    }
    match look_up(alloc, db, base.as_slice(), ids)? {
        Some(key) => Ok(Some(alone(alloc, key)?)),
        None => Ok(None),
    }
}

//! A filter of names: which names an item may have twice.

ghost use Rattle.std.specs.Prelude.{◌≡◌, ◌<◌, [], IfOk, Some};
ghost use Rattle.bib_answers.specs.Recurring.{hash_of, bucket_of, with_one_more};

use bib_scan::Fields;
use std::alloc::{AllocError, Global};

/// The multiplier of the hash of Fowler, Noll and Vo, for 32 bits.
const FNV_PRIME: u32 = 16_777_619;

/// A hash filter of the names of an item's fields: for each bucket 0, 1 or 2, where no name, one name or more names fall into
/// it. Names that differ in case alone fall into one bucket.
#[derive(Drop)]
pub(crate) struct NameFilter {
    counts: Vec<u8>,
}

impl NameFilter {
    ghost use Rattle.bib_answers.specs.Recurring.{is_shared, AreTold, names_of};

    /// The filter of the names of these fields, with `count` buckets. It takes a byte for each bucket, and time in the
    /// fields' length.
    pub fn of(alloc: Global, fields: Fields<'_>, count: usize) -> Result<Self, AllocError>
        ensures { IfOk result (λ filter. AreTold (Some filter) [] (names_of fields.entry)) }
    {
        let mut counts = vec![in alloc; 0; count]?;
        let mut rest = fields;
        'fields: while let Some(field) = rest.next() {
            count_name(&mut counts, field.name);
        }
        Ok(NameFilter { counts })
    }

    /// Whether another of the names may be this one: two or more fall into its bucket, or there are no buckets.
    pub fn is_shared(&self, name: &[u8]) -> bool
        ensures { result ≡ is_shared self.now.counts.items name.now }
    {
        let counts = self.counts.as_slice();
        counts.is_empty() || counts[bucket_of(name, counts.len())] == 2
    }
}

/// The hash of a name. Names that differ in case alone have the same hash.
fn hash_of(name: &[u8]) -> u32
    ensures { result ≡ hash_of name.now }
{
    let mut hash: u32 = 0;
    'bytes: for byte in name {
        hash = hash
            .wrapping_mul(FNV_PRIME)
            .wrapping_add(u32::from(byte.to_ascii_lowercase()));
    }
    hash
}

/// The bucket that a name falls into, by its number below `buckets`.
fn bucket_of(name: &[u8], buckets: usize) -> usize
    requires { 0 < buckets }
    ensures bucket { result ≡ bucket_of buckets name.now }
    ensures within { result < buckets }
{
    hash_of(name) as usize % buckets
}

/// Counts one more name in its bucket.
fn count_name(counts: &mut Vec<u8>, name: &[u8])
    ensures { counts.new.items ≡ with_one_more counts.old.items name.now }
{
    if counts.is_empty() {
        return;
    }
    let bucket = bucket_of(name, counts.len());
    counts[bucket] = if counts[bucket] == 0 { 1 } else { 2 };
}

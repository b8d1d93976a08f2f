//! Labels for a list of records.

ghost use Rattle.std.specs.Prelude.{◌≡◌, ◌<◌, ◌+◌, ◌++◌, ◌∷◌, [], ◌^◌, ℕ, List, IfOk, IfErr, OnOk, map, reverse, if◌then◌else◌};
ghost use Rattle.std.specs.Str.{bytes_eq};
ghost use Rattle.bib_spec.specs.MadeKeys.{letters};
ghost use Rattle.bib_names.specs.Counts.{times};
ghost use Rattle.bib_names.specs.Label.{label_base, label_of, labels_of};

use crate::fault::NameFault;
use crate::label_fields::base_of;
use crate::tally::Tally;
use bib_data::Record;
use bib_text::{Seq, Text};
use std::alloc::{AllocError, Global};

/// The letters of a number: none of 0, then a, b, .. z, aa, ab, ..
pub(crate) fn letters(alloc: Global, number: usize) -> Result<Vec<u8>, AllocError>
    ensures { IfOk result (λ r. r.items ≡ reverse (letters number)) }
{
    let mut letters = Vec::new(alloc);
    let mut rest = number;
    while rest > 0 {
        letters.push(b'a' + ((rest - 1) % 26) as u8)?;
        rest = (rest - 1) / 26;
    }
    letters.reverse();
    Ok(letters)
}

/// The label of a base that is `count` times in the list, `earlier` times of them before this record.
fn label_of(alloc: Global, base: &[u8], count: usize, earlier: usize) -> Result<Text, AllocError>
    requires { earlier + 1 < 2 ^ 64 }
    ensures { IfOk result (λ label. label ≡ label_of base.now count earlier) }
{
    let mut label = Vec::from_slice(alloc, base)?;
    if count > 1 {
        label.extend_from_slice(letters(alloc, earlier + 1)?.as_slice())?;
    }
    Ok(Seq::from_vec(label))
}

/// Adds the label of the next base, given how often each base is in the list, and how often before this one.
fn push_label<'a>(
    alloc: Global,
    labels: &mut Vec<Text>,
    all: &Tally<'_>,
    earlier: &mut Tally<'a>,
    base: &'a [u8],
) -> Result<(), AllocError>
    requires { times earlier.old.counts base.now + 1 < 2 ^ 64 }
    ensures label { OnOk result (labels.new.items ≡ labels.old.items ++ label_of base.now (times all.now.counts base.now) (times earlier.old.counts base.now) ∷ []) }
    ensures earlier { OnOk result ((other : List ℕ) → times earlier.new.counts other ≡ times earlier.old.counts other + (if bytes_eq other base.now then 1 else 0)) }
{
    let count = all.count(base);
    let label = label_of(alloc, base, count, earlier.add(base)?)?;
    labels.push(label)?;
    Ok(())
}

/// The labels of records with these bases, as `labels` gives them: a caller who has many records needs to keep only the
/// base of each. It takes time in the lengths of the bases.
pub fn labels_of(alloc: Global, bases: &[Text]) -> Result<Seq<Text>, AllocError>
    ensures { IfOk result (λ labels. labels ≡ labels_of bases.now) }
{
    let all = Tally::of(alloc, bases)?;
    let mut earlier = Tally::none(alloc);
    let mut labels = Vec::new(alloc);
    for base in bases {
        push_label(alloc, &mut labels, &all, &mut earlier, base.as_slice())?;
    }
    Ok(Seq::from_vec(labels))
}

/// The label bases of records.
fn bases_of(alloc: Global, records: &[Record]) -> Result<Vec<Text>, AllocError>
    ensures { IfOk result (λ bases. bases.items ≡ map (λ r. label_base r.fields) records.now) }
{
    let mut bases = Vec::new(alloc);
    for record in records {
        bases.push(base_of(alloc, record.fields.as_slice())?)?;
    }
    Ok(bases)
}

/// The labels of records, in their order: if a base is there more than once, byte for byte, a, b, .. z, aa, ab, .. are
/// added in list order. It takes time in the lengths of the records and their number. The one refusal is want of
/// memory.
pub fn labels(alloc: Global, records: &[Record]) -> Result<Seq<Text>, NameFault>
    ensures labels { IfOk result (λ labels. labels ≡ labels_of (map (λ r. label_base r.fields) records.now)) }
    ensures memory { IfErr result (λ fault. fault ≡ NameFault.Memory) }
{
    let bases = bases_of(alloc, records)?;
    Ok(labels_of(alloc, bases.as_slice())?)
}

//! The order of a bibliography, and the letters by which labels in it differ.

ghost use Rattle.std.specs.Prelude.{◌≡◌, ◌<◌, ◌≤◌, ◌+◌, ◌^◌, ◌++◌, if◌then◌else◌, IfOk, OnOk};
ghost use Rattle.bibtex_labels.specs.Order.{in_order, is_followed, letter, kept, lettered};

use crate::kept::kept;
use bib_text::{Seq, Text, copied};
use std::alloc::{AllocError, Global};

/// What a style keeps of a listed entry: its label, still without a letter; the sort label, by which labels that look alike are
/// found; the sort key; and the entry's key.
#[derive(Debug, Drop)]
pub struct Labelled {
    pub label: Text,
    pub sort_label: Text,
    pub sort_key: Text,
    pub key: Text,
}

/// The entries in the order of their sort keys; those with one sort key stay in their order. It takes n log n comparisons of sort
/// keys, and memory in the number of entries.
pub fn in_order(entries: Vec<Labelled>) -> Result<Vec<Labelled>, AllocError>
    ensures { IfOk result (λ ordered. ordered.items ≡ in_order entries.items) }
{
    let mut ordered = entries;
    ordered.sort_by(|a, b| a.sort_key.as_slice().cmp(b.sort_key.as_slice()))?;
    Ok(ordered)
}

/// Whether the first two entries have one sort label.
fn is_followed(entries: &[Labelled]) -> bool
    ensures { result ≡ is_followed entries.now }
{
    match entries {
        [entry, next, ..] => entry.sort_label.as_slice() == next.sort_label.as_slice(),
        _ => false,
    }
}

/// The letter of an entry with this number among the neighbours that have its sort label.
fn push_letter(out: &mut Vec<u8>, number: usize, followed: bool) -> Result<(), AllocError>
    ensures { OnOk result (out.new.items ≡ out.old.items ++ letter number followed) }
{
    if number == 0 && !followed {
        return Ok(());
    }
    if number < 30 {
        out.push(b'a' + number as u8)?;
    }
    Ok(())
}

/// The label with its letter.
fn with_letter(
    alloc: Global,
    label: &[u8],
    number: usize,
    followed: bool,
) -> Result<Text, AllocError>
    ensures { IfOk result (λ t. t ≡ kept (label.now ++ letter number followed)) }
{
    let mut out = Vec::from_slice(alloc, label)?;
    push_letter(&mut out, number, followed)?;
    copied(alloc, kept(out.as_slice()))
}

/// The number of the next entry among the neighbours that have its sort label.
fn next_number(number: usize, followed: bool) -> usize
    requires { number + 1 < 2 ^ 64 }
    ensures number { result ≡ (if followed then number + 1 else 0) }
    ensures within { result ≤ number + 1 }
{
    if followed { number + 1 } else { 0 }
}

/// The labels of a bibliography's entries, in order: neighbours with one sort label get letters, of which there are 30. It takes
/// time and memory in the lengths of the labels.
pub fn lettered(alloc: Global, entries: &[Labelled]) -> Result<Seq<Text>, AllocError>
    ensures { IfOk result (λ labels. labels ≡ lettered entries.now) }
{
    let mut labels = Vec::with_capacity(alloc, entries.len())?;
    let mut number = 0;
    'labels: for n in 0..entries.len() {
        let followed = is_followed(entries.split_at(n).1);
        labels.push(with_letter(alloc, entries[n].label.as_slice(), number, followed)?)?;
        number = next_number(number, followed);
    }
    Ok(Seq::from_vec(labels))
}

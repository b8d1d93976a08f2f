//! Whether two open files agree.

ghost use Rattle.std.specs.Prelude.{◌≡◌, true, false, IfOk, IfSome};
ghost use Rattle.bib_spec.specs.Text.{Text as Bytes, folded};
ghost use Rattle.std.specs.Option.{option_copied, IfNone};
ghost use Rattle.bib_store.specs.Readings.{IsEntryNumber};
ghost use Rattle.diff_spec.specs.Agreement.{FilesAgree};
ghost use Rattle.bib_diff.specs.Agreeing.{HaveAlike, HaveAllAlike, SameAt, ShowTheSame, AreTheSame};

use crate::texts::{Texts, texts_at};
use bib_scan::{Fields, ItemView};
use bib_store::{Database, Paged};
use bib_text::{Text, same_folded};
use std::alloc::{AllocError, Global};

/// Whether both texts are there and the same, or none is.
fn is_same(a: Option<&Text>, b: Option<&Text>) -> bool
    ensures same { result ≡ true → option_copied a.entry ≡ option_copied b.entry }
    ensures other { result ≡ false → option_copied a.entry ≡ option_copied b.entry → ⊥ }
{
    match (a, b) {
        (Some(a), Some(b)) => a.as_slice() == b.as_slice(),
        (None, None) => true,
        _ => false,
    }
}

/// Whether both have the same texts for the names of these fields.
fn are_alike(fields: Fields<'_>, old: &Texts, new: &Texts) -> bool
    ensures same { result ≡ true → HaveAllAlike old.now new.now fields.entry }
    ensures other { result ≡ false → ((name : Bytes) → HaveAlike old.now new.now name) → ⊥ }
{
    let mut rest = fields;
    'fields: while let Some(field) = rest.next() {
        if !is_same(old.get(field.name), new.get(field.name)) {
            return false;
        }
    }
    true
}

/// Whether two entries have the same type, folded, and the same key.
fn is_same_head(was: &ItemView<'_>, is: &ItemView<'_>) -> bool
    ensures same { result ≡ true → (was.now.key ≡ is.now.key) × (folded was.now.type_name ≡ folded is.now.type_name) }
    ensures other { result ≡ false → was.now.key ≡ is.now.key → folded was.now.type_name ≡ folded is.now.type_name → ⊥ }
{
    was.key() == is.key() && same_folded(was.type_name(), is.type_name())
}

/// Whether two entries, which have these texts, say the same.
fn are_same(was: &ItemView<'_>, is: &ItemView<'_>, old: &Texts, new: &Texts) -> bool
    ensures same { result ≡ true → ShowTheSame was.now is.now old.now new.now }
    ensures other { result ≡ false → AreTheSame was.now is.now old.now new.now → ⊥ }
{
    is_same_head(was, is) && are_alike(was.fields(), old, new) && are_alike(is.fields(), old, new)
}

/// Whether entry `n` says the same in both files.
fn is_same_at(
    alloc: Global,
    old: &Database<Paged>,
    new: &Database<Paged>,
    n: usize,
) -> Result<bool, AllocError>
    requires old { IsEntryNumber old.now n }
    requires new { IsEntryNumber new.now n }
    ensures same { IfOk result (λ b. b ≡ true → SameAt n old.now new.now) }
    ensures other { IfOk result (λ b. b ≡ false → SameAt n old.now new.now → ⊥) }
{
    old.opens();
    new.opens();
    let old_texts = texts_at(alloc, old, n)?;
    let new_texts = texts_at(alloc, new, n)?;
    let (was, is) = (old.entry(n), new.entry(n));
    Ok(are_same(&was, &is, &old_texts, &new_texts))
}

/// The number of the first entry that does not say the same in both files, or that only one of them has; nothing if the files
/// agree. It takes time in the lengths of both files and of the texts, and memory for the texts of two entries at a time.
pub(crate) fn first_difference(
    alloc: Global,
    old: &Database<Paged>,
    new: &Database<Paged>,
) -> Result<Option<usize>, AllocError>
    ensures agree { IfOk result (λ o. IfNone o (FilesAgree old.now new.now)) }
    ensures differ { IfOk result (λ o. IfSome o (λ n. FilesAgree old.now new.now → ⊥)) }
{
    old.opens();
    new.opens();
    let count = old.entry_count().min(new.entry_count());
    'entries: for n in 0..count {
        if !is_same_at(alloc, old, new, n)? {
            return Ok(Some(n));
        }
    }
    if old.entry_count() == new.entry_count() {
        Ok(None)
    } else {
        Ok(Some(count))
    }
}

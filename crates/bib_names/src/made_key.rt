//! Made keys.

ghost use Rattle.std.specs.Prelude.{◌≡◌, ◌≤◌, IfOk, IfErr, true, length};
ghost use Rattle.bib_spec.specs.Text.{is_new_key};
ghost use Rattle.bib_spec.specs.MadeKeys.{base_limit, candidate, IsKeyBase};
ghost use Rattle.bib_names.specs.Label.{key_letters, key_base};

use crate::fault::NameFault;
use crate::label::or_anon;
use crate::label_fields::base_of;
use crate::labelling::letters;
use bib_data::Record;
use bib_text::{Seq, Text};
use std::alloc::{AllocError, Global};

/// The longest base of a made key, in bytes. (dialect)
pub const BASE_LIMIT: usize = 40;

/// The letters and digits of a text, or `anon`, cut to the limit.
fn letters_of(alloc: Global, base: &[u8]) -> Result<Vec<u8>, AllocError>
    ensures { IfOk result (λ t. t.items ≡ key_letters base.now) }
{
    let kept: Vec<u8> = base
        .iter()
        .copied()
        .filter(|b| b.is_ascii_alphanumeric())
        .collect(alloc)?;
    let mut out = or_anon(alloc, kept)?;
    out.truncate(BASE_LIMIT);
    Ok(out)
}

/// The base of the made key of a record that has this label base: the letters and digits of the label base, or `anon`,
/// cut to 40 bytes. It is a key that an edit may write. It takes time in the length of the label base. The one refusal
/// is want of memory. (dialect)
pub fn key_letters(alloc: Global, label_base: &[u8]) -> Result<Text, AllocError>
    ensures letters { IfOk result (λ t. t ≡ key_letters label_base.now) }
    ensures is_key { IfOk result (λ t. is_new_key t ≡ true) }
    ensures short { IfOk result (λ t. length t ≤ base_limit) }
{
    Ok(Seq::from_vec(letters_of(alloc, label_base)?))
}

/// The base of a record's made key: the letters and digits of its label base, cut to 40 bytes. It is a key that an edit
/// may write, and it does not depend on the citation key. The one refusal is want of memory.
pub fn key_base(alloc: Global, entry: &Record) -> Result<Text, NameFault>
    ensures base { IfOk result (λ t. t ≡ key_base entry.now.fields) }
    ensures is_key { IfOk result (λ t. is_new_key t ≡ true) }
    ensures short { IfOk result (λ t. length t ≤ base_limit) }
    ensures memory { IfErr result (λ fault. fault ≡ NameFault.Memory) }
{
    let base = base_of(alloc, entry.fields.as_slice())?;
    Ok(key_letters(alloc, base.as_slice())?)
}

/// The key that is candidate `n` of a base: the base, and after it no letters for 0, then a, b, .. z, aa, ab, .. It
/// takes time logarithmic in the number.
pub fn candidate(alloc: Global, base: &[u8], n: usize) -> Result<Text, AllocError>
    ensures { IfOk result (λ key. key ≡ candidate base.now n) }
{
    let letters = letters(alloc, n)?;
    let mut key = Vec::with_capacity(alloc, base.len().saturating_add(letters.len()))?;
    key.extend_from_slice(base)?;
    key.extend_from_slice(letters.as_slice())?;
    Ok(Seq::from_vec(key))
}

/// The base of a made key does not depend on the citation key, and it is a short key.
pub fn key_bases_are_keys()
    ensures { IsKeyBase (λ r. key_base r.fields) }
{}

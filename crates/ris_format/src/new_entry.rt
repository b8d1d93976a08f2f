//! A record as an entry that an edit adds.

ghost use Rattle.std.specs.Prelude.{◌≡◌, IfOk, IfErr, OnOk, Err, map, true, false};
ghost use Rattle.ris_format.specs.Entry.{value_field, entry_of, are_balanced};
ghost use Rattle.ris_format.specs.declared.fault.MappingFault.TheVariants.{Memory, UnbalancedText};

use crate::fault::MappingFault;
use crate::text::{balances, copy_with_room, in_braces};
use bib_data::{NewEntry, Record};
use bib_text::{Seq, Text, copied};
use std::alloc::{AllocError, Global};
use std::mem;

/// Whether each text is balanced.
fn are_balanced(entry: &Record) -> bool
    ensures { result ≡ are_balanced entry.now }
{
    for field in entry.fields.as_slice() {
        if !balances(field.1.as_slice()) {
            return false;
        }
    }
    true
}

/// Puts the field's text in braces.
fn brace(alloc: Global, field: &mut (Text, Text)) -> Result<(), AllocError>
    ensures { OnOk result (field.new ≡ value_field field.old) }
{
    let text = mem::replace(&mut field.1, Seq::empty(alloc));
    field.1 = in_braces(text)?;
    Ok(())
}

/// Puts each field's text in braces.
fn brace_all(alloc: Global, fields: &mut Vec<(Text, Text)>) -> Result<(), AllocError>
    ensures { OnOk result (fields.new.items ≡ map value_field fields.old.items) }
{
    'fields: for n in 0..fields.len() {
        brace(alloc, &mut fields[n])?;
    }
    Ok(())
}

/// A copy of the field, with its text in braces.
fn braced(alloc: Global, field: &(Text, Text)) -> Result<(Text, Text), AllocError>
    ensures { IfOk result (λ braced. braced ≡ value_field field.now) }
{
    let name = copied(alloc, field.0.as_slice())?;
    let text = in_braces(copy_with_room(alloc, field.1.as_slice())?)?;
    Ok((name, text))
}

/// Copies of the fields, each with its text in braces.
fn all_braced(alloc: Global, fields: &[(Text, Text)]) -> Result<Vec<(Text, Text)>, AllocError>
    ensures { IfOk result (λ braced. braced.items ≡ map value_field fields.now) }
{
    let mut all = Vec::with_capacity(alloc, fields.len())?;
    for field in fields {
        all.push(braced(alloc, field)?)?;
    }
    Ok(all)
}

/// The entry that an edit may add for a record: the record's type, key and field names, and each text in braces. It
/// takes time and memory in the record's size.
///
/// A record with a text whose braces do not balance is refused as 64; the only other refusal is want of memory.
pub fn to_entry(alloc: Global, given: &Record) -> Result<NewEntry, MappingFault>
    ensures entry { IfOk result (λ e. e ≡ entry_of given.now) }
    ensures balanced { OnOk result (are_balanced given.now ≡ true) }
    ensures unbalanced { are_balanced given.now ≡ false → result ≡ Err UnbalancedText }
    ensures memory { are_balanced given.now ≡ true → IfErr result (λ fault. fault ≡ Memory) }
{
    if !are_balanced(given) {
        return Err(MappingFault::UnbalancedText);
    }
    let kind_name = copied(alloc, given.kind_name.as_slice())?;
    let key = copied(alloc, given.key.as_slice())?;
    let fields = all_braced(alloc, given.fields.as_slice())?;
    Ok(NewEntry {
        kind_name,
        key,
        fields: Seq::from_vec(fields),
    })
}

/// The entry that `to_entry` makes of a record, in the record's own memory: a text gets its braces in place if there is
/// room for them, else in more memory. It takes time in the record's size.
///
/// A record with a text whose braces do not balance is refused as 64; the only other refusal is want of memory.
pub fn into_entry(alloc: Global, entry: Record) -> Result<NewEntry, MappingFault>
    ensures entry { IfOk result (λ e. e ≡ entry_of entry) }
    ensures balanced { OnOk result (are_balanced entry ≡ true) }
    ensures unbalanced { are_balanced entry ≡ false → result ≡ Err UnbalancedText }
    ensures memory { are_balanced entry ≡ true → IfErr result (λ fault. fault ≡ Memory) }
{
    if !are_balanced(&entry) {
        return Err(MappingFault::UnbalancedText);
    }
    let mut fields = entry.fields.into_vec();
    brace_all(alloc, &mut fields)?;
    Ok(NewEntry {
        kind_name: entry.kind_name,
        key: entry.key,
        fields: Seq::from_vec(fields),
    })
}

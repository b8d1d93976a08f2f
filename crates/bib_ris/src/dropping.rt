//! Fields of a file's entries that RIS leaves out.

ghost use Rattle.std.specs.Prelude.{◌≡◌, ◌<◌, ◌++◌, [], length, All, IfOk, IfErr, OnOk};
ghost use Rattle.std.specs.List.{flat_map};
ghost use Rattle.std.specs.Option.{option_map_or};
ghost use Rattle.bib_spec.specs.Records.{entries_of, expanded, IsDepth};
ghost use Rattle.bib_store.specs.Readings.{OfReading, IsEntryNumber};
ghost use Rattle.ris_format.specs.declared.fault.MappingFault.TheVariants.{Memory};
ghost use Rattle.bib_ris.specs.Dropped.{dropped_line, dropped_lines, entries_dropped};

use crate::judging::lines_judged;
use bib_store::{Database, ItemList, Record};
use bib_text::{Seq, Text};
use ris_format::{MappingFault, dropped_of};
use std::alloc::{AllocError, Global};

/// Adds a line with a key, a tab, and the name of a field.
pub(crate) fn add_name(text: &mut Vec<u8>, key: &[u8], name: &[u8]) -> Result<(), AllocError>
    ensures { OnOk result (text.new.items ≡ text.old.items ++ dropped_line key.now name.now) }
{
    text.extend_from_slice(key)?;
    text.extend_from_slice(b"\t")?;
    text.extend_from_slice(name)?;
    text.extend_from_slice(b"\n")
}

/// Adds a line for each of these names.
fn add_names(text: &mut Vec<u8>, key: &[u8], names: &[Text]) -> Result<(), AllocError>
    ensures { OnOk result (text.new.items ≡ text.old.items ++ flat_map (dropped_line key.now) names.now) }
{
    'names: for name in names {
        add_name(text, key, name.as_slice())?;
    }
    Ok(())
}

/// Adds a line for each field of the record that RIS leaves out.
fn add_record(alloc: Global, text: &mut Vec<u8>, rec: &Record) -> Result<(), MappingFault>
    ensures text { OnOk result (text.new.items ≡ text.old.items ++ dropped_lines rec.now) }
    ensures memory { IfErr result (λ fault. fault ≡ Memory) }
{
    let names = dropped_of(alloc, rec)?;
    add_names(text, rec.key.as_slice(), names.as_slice())?;
    Ok(())
}

/// Adds a line for each field that RIS leaves out of entry `n`, with what it inherits at this depth, from its whole record.
fn add_expanded<L: ItemList>(
    alloc: Global,
    text: &mut Vec<u8>,
    db: &Database<L>,
    n: usize,
    depth: u8,
) -> Result<(), MappingFault>
    requires number { IsEntryNumber db.now n }
    requires depth { IsDepth depth }
    ensures text { OnOk result (OfReading db.now (λ r. text.new.items ≡ text.old.items ++ option_map_or dropped_lines (expanded depth (entries_of r) n) [])) }
    ensures memory { IfErr result (λ fault. fault ≡ Memory) }
{
    let Ok(expanded) = db.expanded(n, depth) else {
        return Err(MappingFault::Memory);
    };
    add_record(alloc, text, &expanded.rec)
}

/// Adds a line for each field that RIS leaves out of entry `n`, with what it inherits at this depth. The record of the entry
/// is made only if it has many names of fields.
fn add_entry<L: ItemList>(
    alloc: Global,
    text: &mut Vec<u8>,
    db: &Database<L>,
    n: usize,
    depth: u8,
) -> Result<(), MappingFault>
    requires number { IsEntryNumber db.now n }
    requires depth { IsDepth depth }
    ensures text { OnOk result (OfReading db.now (λ r. text.new.items ≡ text.old.items ++ option_map_or dropped_lines (expanded depth (entries_of r) n) [])) }
    ensures memory { IfErr result (λ fault. fault ≡ Memory) }
{
    if let Some(lines) = lines_judged(alloc, db, n, depth)? {
        text.extend_from_slice(lines.as_slice())?;
        return Ok(());
    }
    add_expanded(alloc, text, db, n, depth)
}

/// A line for each field of these entries that has a text, and from which no line of their RIS text comes: the key of the
/// entry, a tab, and the name of the field. Each entry has the fields that it inherits at this depth. It makes no RIS
/// text. It takes time in the lengths of the entries, and memory for the lines. The one refusal is want of memory.
pub fn entries_dropped<L: ItemList>(
    alloc: Global,
    db: &Database<L>,
    list: &[usize],
    depth: u8,
) -> Result<Text, MappingFault>
    requires numbers { OfReading db.now (λ r. All (λ n. n < length (entries_of r)) list.now) }
    requires depth { IsDepth depth }
    ensures text { IfOk result (λ text. OfReading db.now (λ r. text ≡ entries_dropped depth (entries_of r) list.now)) }
    ensures memory { IfErr result (λ fault. fault ≡ Memory) }
{
    let mut text = Vec::new(alloc);
    'entries: for n in list {
        add_entry(alloc, &mut text, db, *n, depth)?;
    }
    Ok(Seq::from_vec(text))
}

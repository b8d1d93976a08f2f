//! Entries of a file as RIS.

ghost use Rattle.std.specs.Prelude.{◌≡◌, ◌<◌, ◌++◌, [], length, All, IfOk, IfErr, OnOk};
ghost use Rattle.std.specs.Option.{option_map_or};
ghost use Rattle.bib_spec.specs.Records.{entries_of, expanded, IsDepth};
ghost use Rattle.bib_store.specs.Readings.{OfReading, IsEntryNumber};
ghost use Rattle.ris_text.specs.Writing.{record_text};
ghost use Rattle.ris_format.specs.Mapping.{ris};
ghost use Rattle.ris_format.specs.declared.fault.MappingFault.TheVariants.{Memory};
ghost use Rattle.bib_ris.specs.Export.{entries_ris};
ghost use Rattle.bib_ris.specs.Plain.{in_plain, entries_plain};

use crate::plain_records::in_plain;
use bib_store::{Database, ItemList};
use bib_text::{Seq, Text};
use ris_format::{MappingFault, given_records_fit, ris_names, ris_of, write_entry};
use ris_text::write_record;
use std::alloc::Global;

/// Adds the RIS text of entry `n`, with what it inherits at this depth, to a text. It gathers only the fields that RIS
/// has a place for.
fn add_entry<L: ItemList>(
    alloc: Global,
    text: &mut Vec<u8>,
    db: &Database<L>,
    n: usize,
    depth: u8,
) -> Result<(), MappingFault>
    requires number { IsEntryNumber db.now n }
    requires depth { IsDepth depth }
    ensures text { OnOk result (OfReading db.now (λ r. text.new.items ≡ text.old.items ++ option_map_or (λ entry. record_text (ris entry)) (expanded depth (entries_of r) n) [])) }
    ensures memory { IfErr result (λ fault. fault ≡ Memory) }
{
    db.opens();
    given_records_fit();
    let names = ris_names();
    let Ok(entry) = db.expanded_with(n, depth, &names) else {
        return Err(MappingFault::Memory);
    };
    write_entry(alloc, text, &entry)?;
    Ok(())
}

/// The RIS text of these entries, each with what it inherits at this depth, in this order. What RIS has no place for is
/// left out. It takes time in the lengths of the entries, and memory for the text. The one refusal is want of memory.
pub fn entries_ris<L: ItemList>(
    alloc: Global,
    db: &Database<L>,
    list: &[usize],
    depth: u8,
) -> Result<Text, MappingFault>
    requires numbers { OfReading db.now (λ r. All (λ n. n < length (entries_of r)) list.now) }
    requires depth { IsDepth depth }
    ensures text { IfOk result (λ text. OfReading db.now (λ r. text ≡ entries_ris depth (entries_of r) list.now)) }
    ensures memory { IfErr result (λ fault. fault ≡ Memory) }
{
    let mut text = Vec::new(alloc);
    'entries: for n in list {
        add_entry(alloc, &mut text, db, *n, depth)?;
    }
    Ok(Seq::from_vec(text))
}

/// Adds the RIS text of entry `n` with plain texts, with what it inherits at this depth, to a text.
fn add_plain<L: ItemList>(
    alloc: Global,
    text: &mut Vec<u8>,
    db: &Database<L>,
    n: usize,
    depth: u8,
) -> Result<(), MappingFault>
    requires number { IsEntryNumber db.now n }
    requires depth { IsDepth depth }
    ensures text { OnOk result (OfReading db.now (λ r. text.new.items ≡ text.old.items ++ option_map_or (λ entry. record_text (in_plain (ris entry))) (expanded depth (entries_of r) n) [])) }
    ensures memory { IfErr result (λ fault. fault ≡ Memory) }
{
    db.opens();
    given_records_fit();
    let names = ris_names();
    let Ok(entry) = db.expanded_with(n, depth, &names) else {
        return Err(MappingFault::Memory);
    };
    let record = ris_of(alloc, &entry)?;
    let record = in_plain(alloc, record)?;
    write_record(text, &record)?;
    Ok(())
}

/// The RIS text of these entries with plain texts, each with what it inherits at this depth, in this order: without braces,
/// and with letters in place of LaTeX's commands for letters, signs and accents, except in URL, DOI and ID. It takes time
/// in the lengths of the entries, and memory for the text. The one refusal is want of memory.
pub fn entries_plain<L: ItemList>(
    alloc: Global,
    db: &Database<L>,
    list: &[usize],
    depth: u8,
) -> Result<Text, MappingFault>
    requires numbers { OfReading db.now (λ r. All (λ n. n < length (entries_of r)) list.now) }
    requires depth { IsDepth depth }
    ensures text { IfOk result (λ text. OfReading db.now (λ r. text ≡ entries_plain depth (entries_of r) list.now)) }
    ensures memory { IfErr result (λ fault. fault ≡ Memory) }
{
    let mut text = Vec::new(alloc);
    'entries: for n in list {
        add_plain(alloc, &mut text, db, *n, depth)?;
    }
    Ok(Seq::from_vec(text))
}

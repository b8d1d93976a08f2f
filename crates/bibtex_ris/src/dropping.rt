//! Fields of listed records that RIS leaves out.

ghost use Rattle.std.specs.Prelude.{◌≡◌, ◌++◌, map, IfOk, OnOk};
ghost use Rattle.std.specs.List.{flat_map};
ghost use Rattle.bib_spec.specs.Records.{entries_of};
ghost use Rattle.bib_store.specs.Readings.{OfReading};
ghost use Rattle.bib_ris.specs.Dropped.{dropped_line, dropped_lines};
ghost use Rattle.bibtex_lists.specs.Records.{record_as_listed};

use bib_data::Record;
use bib_store::{Database, Paged};
use bib_text::Text;
use bibtex_lists::{BibtexEntry, record_as_bibtex};
use ris_format::dropped_of;
use std::alloc::{AllocError, Global};

/// A line for each field of these listed entries that has a text, and from which no line of their RIS text comes: the key, a tab, and
/// the name of the field.
pub(crate) fn entries_dropped(
    alloc: Global,
    db: &Database<Paged>,
    list: &[BibtexEntry],
) -> Result<Text, AllocError>
    ensures { IfOk result (λ text. OfReading db.now (λ r. text ≡ flat_map dropped_lines (map (record_as_listed (entries_of r)) list.now))) }
{
    let mut text = Vec::new(alloc);
    'entries: for entry in list {
        let rec = record_as_bibtex(alloc, db, entry)?;
        add_record(alloc, &mut text, &rec)?;
    }
    Ok(Text::from_vec(text))
}

/// Adds a line for each field of the record that RIS leaves out.
fn add_record(alloc: Global, text: &mut Vec<u8>, rec: &Record) -> Result<(), AllocError>
    ensures { OnOk result (text.new.items ≡ text.old.items ++ dropped_lines rec.now) }
{
    match dropped_of(alloc, rec) {
        Ok(names) => add_names(text, rec.key.as_slice(), names.as_slice()),
        Err(_) => Err(AllocError),
    }
}

/// Adds a line for each of these names.
fn add_names(text: &mut Vec<u8>, key: &[u8], names: &[Text]) -> Result<(), AllocError>
    ensures { OnOk result (text.new.items ≡ text.old.items ++ flat_map (dropped_line key.now) names.now) }
{
    'names: for name in names {
        add_name(text, key, name.as_slice())?;
    }
    Ok(())
}

/// Adds a line with a key, a tab, and the name of a field.
fn add_name(text: &mut Vec<u8>, key: &[u8], name: &[u8]) -> Result<(), AllocError>
    ensures { OnOk result (text.new.items ≡ text.old.items ++ dropped_line key.now name.now) }
{
    text.extend_from_slice(key)?;
    text.extend_from_slice(b"\t")?;
    text.extend_from_slice(name)?;
    text.extend_from_slice(b"\n")
}

//! Listed records as RIS.

ghost use Rattle.std.specs.Prelude.{◌≡◌, ◌++◌, true, map, IfOk, OnOk};
ghost use Rattle.bib_spec.specs.Records.{entries_of};
ghost use Rattle.bib_store.specs.Readings.{OfReading};
ghost use Rattle.ris_text.specs.Writing.{record_text, ris_text, is_well_formed};
ghost use Rattle.ris_format.specs.Mapping.{ris};
ghost use Rattle.bib_ris.specs.Plain.{in_plain};
ghost use Rattle.bibtex_lists.specs.Records.{record_as_listed};
ghost use Rattle.bibtex_ris.specs.Fitting.{AreFitting};

use bib_data::Record;
use bib_ris::in_plain;
use bib_store::{Database, Paged};
use bib_text::Text;
use bibtex_lists::{BibtexEntry, record_as_bibtex};
use ris_format::{ris_of, write_entry};
use ris_text::write_record;
use std::alloc::{AllocError, Global};

/// The RIS text of these listed entries, in this order.
pub(crate) fn entries_ris(
    alloc: Global,
    db: &Database<Paged>,
    list: &[BibtexEntry],
) -> Result<Text, AllocError>
    requires { AreFitting db.now list.now }
    ensures { IfOk result (λ text. OfReading db.now (λ r. text ≡ ris_text (map ris (map (record_as_listed (entries_of r)) list.now)))) }
{
    db.opens();
    let mut text = Vec::new(alloc);
    'entries: for entry in list {
        let rec = record_as_bibtex(alloc, db, entry)?;
        add_record(alloc, &mut text, &rec)?;
    }
    Ok(Text::from_vec(text))
}

/// The RIS text of these listed entries with plain texts, in this order.
pub(crate) fn entries_plain(
    alloc: Global,
    db: &Database<Paged>,
    list: &[BibtexEntry],
) -> Result<Text, AllocError>
    requires { AreFitting db.now list.now }
    ensures { IfOk result (λ text. OfReading db.now (λ r. text ≡ ris_text (map in_plain (map ris (map (record_as_listed (entries_of r)) list.now))))) }
{
    db.opens();
    let mut text = Vec::new(alloc);
    'entries: for entry in list {
        let rec = record_as_bibtex(alloc, db, entry)?;
        add_plain(alloc, &mut text, &rec)?;
    }
    Ok(Text::from_vec(text))
}

/// Adds the RIS text of a record.
fn add_record(alloc: Global, text: &mut Vec<u8>, rec: &Record) -> Result<(), AllocError>
    requires { is_well_formed (ris rec.now) ≡ true }
    ensures { OnOk result (text.new.items ≡ text.old.items ++ record_text (ris rec.now)) }
{
    match write_entry(alloc, text, rec) {
        Ok(()) => Ok(()),
        Err(_) => Err(AllocError),
    }
}

/// Adds the RIS text of a record with plain texts.
fn add_plain(alloc: Global, text: &mut Vec<u8>, rec: &Record) -> Result<(), AllocError>
    requires { is_well_formed (ris rec.now) ≡ true }
    ensures { OnOk result (text.new.items ≡ text.old.items ++ record_text (in_plain (ris rec.now))) }
{
    let Ok(given) = ris_of(alloc, rec) else {
        return Err(AllocError);
    };
    let plain = in_plain(alloc, given)?;
    write_record(text, &plain)
}

//! The extract of a file.

ghost use Rattle.std.specs.Prelude.{◌≡◌, ◌≤◌, ◌<◌, [], ◌∷◌, ◌++◌, if◌then◌else◌, length, filter, IfOk, IfErr, OnOk};
ghost use Rattle.std.specs.List.{range_with_len};
ghost use Rattle.bib_spec.specs.Bytes.{file_limit};
ghost use Rattle.bib_spec.specs.Reading.{bytes_of};
ghost use Rattle.bib_spec.specs.Records.{entries_of, unknown};
ghost use Rattle.bib_spec.specs.Texts.{IsOpenable};
ghost use Rattle.bib_store.specs.Readings.{OfReading};
ghost use Rattle.extract_spec.specs.Extract.{kept, extract_of};
ghost use Rattle.bib_extract.specs.Faults.{RefusesExtract};
ghost use Rattle.bib_extract.specs.Marks.{is_marked};
ghost use Rattle.bib_extract.specs.declared.fault.ExtractFault.TheVariants.{FileTooLong};

use crate::entries::kept_entries;
use crate::fault::ExtractFault;
use crate::items::kept_items;
use crate::writing::marked_bytes;
use bib_scan::FILE_LIMIT;
use bib_store::{Database, ItemList};
use bib_text::{Seq, Text};
use std::alloc::{AllocError, Global};

/// For each item whether it is kept for these keys.
fn kept_marks<L: ItemList>(
    alloc: Global,
    db: &Database<L>,
    keys: &[Text],
) -> Result<Vec<bool>, ExtractFault>
    ensures marks { IfOk result (λ marks. OfReading db.now (λ r. marks.items ≡ kept r keys.now)) }
    ensures known { OnOk result (OfReading db.now (λ r. unknown (entries_of r) keys.now ≡ [])) }
    ensures fault { IfErr result (RefusesExtract db.now keys.now) }
{
    db.opens();
    // Which parents are listed too is all the same: all of them are kept.
    let Ok(cited) = db.cited(keys, 1) else {
        return Err(ExtractFault::Memory);
    };
    if let Some(position) = cited.unknown.as_slice().first() {
        return Err(ExtractFault::NoSuchEntry(*position));
    }
    let entries = kept_entries(alloc, db, cited.listed.as_slice())?;
    Ok(kept_items(alloc, db, entries.as_slice())?)
}

/// Adds the number, if it is marked.
fn add_marked(numbers: &mut Vec<usize>, n: usize, is_marked: bool) -> Result<(), AllocError>
    ensures { OnOk result (numbers.new.items ≡ numbers.old.items ++ (if is_marked then n ∷ [] else [])) }
{
    if is_marked {
        numbers.push(n)?;
    }
    Ok(())
}

/// The numbers that are marked, in order.
fn marked_numbers(alloc: Global, marks: &[bool]) -> Result<Vec<usize>, AllocError>
    ensures { IfOk result (λ numbers. numbers.items ≡ filter (is_marked marks.now) (range_with_len 0 (length marks.now))) }
{
    let mut numbers = Vec::new(alloc);
    'marks: for n in 0..marks.len() {
        add_marked(&mut numbers, n, marks[n])?;
    }
    Ok(numbers)
}

/// The numbers of the items that the extract for these keys keeps, in order: the entries that the keys find, with all parents
/// along their chains; each preamble; and for each use of a macro in a kept item the last definition before that item. The one
/// key `*` finds all entries. It takes time in the number of items and keys, and in the bytes of the kept items and of
/// definitions, and memory in these numbers. It is refused with 11 at the first key that finds no entry, and with 10.
pub fn kept<L: ItemList>(
    alloc: Global,
    db: &Database<L>,
    keys: &[Text],
) -> Result<Seq<usize>, ExtractFault>
    ensures numbers { IfOk result (λ numbers. OfReading db.now (λ r. numbers ≡ filter (is_marked (kept r keys.now)) (range_with_len 0 (length r.items)))) }
    ensures known { OnOk result (OfReading db.now (λ r. unknown (entries_of r) keys.now ≡ [])) }
    ensures fault { IfErr result (RefusesExtract db.now keys.now) }
{
    let marks = kept_marks(alloc, db, keys)?;
    Ok(Seq::from_vec(marked_numbers(alloc, marks.as_slice())?))
}

/// The extract of the file for these keys: the kept items in order, each with its own bytes, and after it the white space behind
/// it if that ends the line, or else a line feed. It is a file in which each kept entry says what it said, and the keys cite
/// what they cited. It takes the time and memory of `kept`, and those of its bytes. It is refused with 11 at the first key that
/// finds no entry, with 9 if it would be longer than a file may be, and with 10. (btxdoc 2.1; dialect)
pub fn extract<L: ItemList>(
    alloc: Global,
    db: &Database<L>,
    keys: &[Text],
) -> Result<Text, ExtractFault>
    ensures text { IfOk result (λ text. OfReading db.now (λ r. text ≡ bytes_of (extract_of r keys.now))) }
    ensures opens { IfOk result IsOpenable }
    ensures known { OnOk result (OfReading db.now (λ r. unknown (entries_of r) keys.now ≡ [])) }
    ensures fault { IfErr result (RefusesExtract db.now keys.now) }
{
    db.opens();
    let marks = kept_marks(alloc, db, keys)?;
    let text = marked_bytes(alloc, db, marks.as_slice())?;
    fitting(text)
}

/// The text, if it is not longer than a file may be.
fn fitting(text: Text) -> Result<Text, ExtractFault>
    ensures same { IfOk result (λ fits. fits ≡ text) }
    ensures short { OnOk result (length text ≤ file_limit) }
    ensures fault { IfErr result (λ fault. (fault ≡ FileTooLong) × (file_limit < length text)) }
{
    if text.as_slice().len() > FILE_LIMIT {
        return Err(ExtractFault::FileTooLong);
    }
    Ok(text)
}

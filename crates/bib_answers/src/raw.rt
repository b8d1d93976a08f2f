//! `json --raw`: entries with their fields as they are written, a line each.

ghost use Rattle.std.specs.Prelude.{◌≡◌, ◌≢◌, ◌++◌, true, false, Some, IfOk, IfErr, OnOk, map, length};
ghost use Rattle.std.specs.List.{range_with_len};
ghost use Rattle.std.specs.Option.{option_copied};
ghost use Rattle.bib_spec.specs.Records.{IsDepth};
ghost use Rattle.bib_store.specs.Readings.{OfReading, IsEntryNumber};
ghost use Rattle.entry_json.specs.RawJson.{entry_seen};
ghost use Rattle.entry_json.specs.declared.fault.JsonFault.TheVariants.{Memory};
ghost use Rattle.bib_answers.specs.Marks.{AreEntryNumbers};
ghost use Rattle.bib_answers.specs.Raw.{RawIn, raw_in, raw_in_line, is_raw_in_utf8, raw_answer_in, raw_lines_answer, standing_of};

use crate::answers::{Answer, done, no_such_entry};
use crate::citing::all_cited;
use crate::json::{file_of, key_of, not_utf8};
use crate::named_files::NamedFiles;
use crate::standings::{standing_at, standings_of};
use crate::written::written_fields;
use bib_store::{Database, Paged};
use bib_text::Text;
use entry_json::{JsonFault, RawEntry, Standing, WrittenField, add_raw_line};
use std::alloc::{AllocError, Global};

/// The entries that the keys cite, as they are written, with their fields at this depth; or that a key finds none, or that a text is
/// not UTF-8. If files are open as one, each entry has the name of its file. It counts the lines of the file once, and takes memory
/// for where each item stands, and time for the fields of the entries that the keys cite.
pub(crate) fn raw_in(
    alloc: Global,
    db: &Database<Paged>,
    files: Option<&NamedFiles<'_>>,
    keys: &[Text],
    depth: u8,
) -> Result<Answer, AllocError>
    requires { IsDepth depth }
    ensures { IfOk result (λ answer. OfReading db.now (λ r. answer ≡ raw_answer_in (option_copied files.entry) depth keys.now r)) }
{
    match all_cited(db, keys)? {
        Some(list) => {
            let standings = standings_of(alloc, db, files)?;
            lines_of(
                alloc,
                db,
                files,
                standings.as_slice(),
                list.as_slice(),
                depth,
            )
        }
        None => no_such_entry(alloc),
    }
}

/// A line for each of these entries, or that a text of one is not UTF-8.
fn lines_of(
    alloc: Global,
    db: &Database<Paged>,
    files: Option<&NamedFiles<'_>>,
    standings: &[Standing],
    list: &[usize],
    depth: u8,
) -> Result<Answer, AllocError>
    requires numbers { AreEntryNumbers db.now list.now }
    requires standings { OfReading db.now (λ r. standings.now ≡ map (standing_of (option_copied files) r) (range_with_len 0 (length r.items))) }
    ensures { IfOk result (λ answer. OfReading db.now (λ r. answer ≡ raw_lines_answer (option_copied files.entry) depth list.now r)) }
{
    let mut lines = Vec::new(alloc);
    'entries: for n in list {
        lines = match with_entry(alloc, lines, db, files, standings, *n, depth) {
            Ok(more) => more,
            Err(JsonFault::NotUtf8) => return not_utf8(alloc, db.entry(*n).key()),
            Err(JsonFault::Memory) => return Err(AllocError),
        };
    }
    Ok(done(alloc, Text::from_vec(lines)))
}

/// The lines, with the line of entry `n` after them.
fn with_entry(
    alloc: Global,
    lines: Vec<u8>,
    db: &Database<Paged>,
    files: Option<&NamedFiles<'_>>,
    standings: &[Standing],
    n: usize,
    depth: u8,
) -> Result<Vec<u8>, JsonFault>
    requires number { IsEntryNumber db.now n }
    requires standings { OfReading db.now (λ r. standings.now ≡ map (standing_of (option_copied files) r) (range_with_len 0 (length r.items))) }
    ensures line { IfOk result (λ more. OfReading db.now (λ r. (one : RawIn) → raw_in depth (option_copied files.entry) r n ≡ Some one → more.items ≡ lines.items ++ raw_in_line one)) }
    ensures utf8 { OnOk result (OfReading db.now (λ r. (one : RawIn) → raw_in depth (option_copied files.entry) r n ≡ Some one → is_raw_in_utf8 one ≡ true)) }
    ensures fault { IfErr result (λ fault. fault ≢ Memory → OfReading db.now (λ r. (one : RawIn) → raw_in depth (option_copied files.entry) r n ≡ Some one → is_raw_in_utf8 one ≡ false)) }
{
    let found = found_at(alloc, db, files, standings, n, depth)?;
    add_raw_line(
        alloc,
        lines,
        found.entry,
        found.fields.as_slice(),
        found.file,
    )
}

/// An entry as it is written, with its fields, and the name of its file if files are open as one.
#[derive(Drop)]
struct Found<'a> {
    entry: RawEntry<'a>,
    fields: Vec<WrittenField<'a>>,
    file: Option<&'a [u8]>,
}

/// Entry `n` as it is written, with its fields at this depth.
fn found_at<'a>(
    alloc: Global,
    db: &'a Database<Paged>,
    files: Option<&NamedFiles<'a>>,
    standings: &[Standing],
    n: usize,
    depth: u8,
) -> Result<Found<'a>, AllocError>
    requires number { IsEntryNumber db.now n }
    requires standings { OfReading db.now (λ r. standings.now ≡ map (standing_of (option_copied files) r) (range_with_len 0 (length r.items))) }
    ensures { IfOk result (λ found. OfReading db.now (λ r. raw_in depth (option_copied files.entry) r n ≡ Some (entry_seen found.entry found.fields.items, option_copied found.file))) }
{
    db.opens();
    let entry = db.entry(n);
    Ok(Found {
        entry: RawEntry {
            kind: entry.type_name(),
            key: entry.key(),
            parent: key_of(db, db.parent(n)),
            standing: standing_at(standings, db.entry_item(n)),
        },
        fields: written_fields(alloc, db, n, depth)?,
        file: file_of(files, db, n),
    })
}

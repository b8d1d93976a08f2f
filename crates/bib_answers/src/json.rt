//! `json`: entries as values of JSON, a line each.

ghost use Rattle.std.specs.Prelude.{◌≡◌, ◌≢◌, ◌++◌, [], true, false, Some, IfSome, IfOk, IfErr, option_map};
ghost use Rattle.std.specs.Option.{option_copied};
ghost use Rattle.bib_spec.specs.Records.{entries_of, IsDepth};
ghost use Rattle.bib_store.specs.Readings.{OfReading, IsEntryNumber};
ghost use Rattle.entry_json.specs.declared.fault.JsonFault.TheVariants.{Memory};
ghost use Rattle.bib_answers.specs.Entries.{key_at};
ghost use Rattle.bib_answers.specs.Json.{ToldIn, told_in, told_line, is_told_in_utf8, told_of, file_of, not_utf8_line, told_answer, records_answer_in};
ghost use Rattle.bib_answers.specs.Raw.{json_answer, json_answer_in};
ghost use Rattle.bib_answers.specs.Marks.{AreEntryNumbers};
ghost use Rattle.bib_answers.specs.Opened.{AnswersFile};
ghost use Rattle.bib_answers.specs.Outcome.{answer_of};

use crate::answers::{Answer, done, no_such_entry, refused};
use crate::citing::all_cited;
use crate::lines::add_all;
use crate::named_files::NamedFiles;
use crate::opening::answer_file;
use crate::raw::raw_in;
use bib_store::{Database, Paged};
use bib_text::Text;
use entry_json::{JsonFault, add_line_in};
use std::alloc::{AllocError, Global};

/// The entries that the keys cite, with their records at this depth, or with their fields as they are written if `raw`; or that a key
/// finds none, or that a text is not UTF-8.
pub fn answer_json(
    alloc: Global,
    file: Vec<u8>,
    keys: &[Text],
    depth: u8,
    raw: bool,
) -> Result<Answer, AllocError>
    requires { IsDepth depth }
    ensures { IfOk result (AnswersFile (json_answer raw depth keys.now) file.items) }
{
    answer_file(alloc, file, |db| json_in(alloc, db, None, keys, depth, raw))
}

/// What `answer_json` answers, for a file that is open; or for files that are open as one, each entry with the name of its file. It
/// takes time and memory for what is told of the entries that the keys cite, and with `raw` for where each item of the file stands.
pub fn json_in(
    alloc: Global,
    db: &Database<Paged>,
    files: Option<&NamedFiles<'_>>,
    keys: &[Text],
    depth: u8,
    raw: bool,
) -> Result<Answer, AllocError>
    requires { IsDepth depth }
    ensures { IfOk result (λ answer. OfReading db.now (λ r. answer ≡ json_answer_in raw (option_copied files.entry) depth keys.now r)) }
{
    if raw {
        return raw_in(alloc, db, files, keys, depth);
    }
    records_in(alloc, db, files, keys, depth)
}

/// The entries that the keys cite, with their records at this depth.
fn records_in(
    alloc: Global,
    db: &Database<Paged>,
    files: Option<&NamedFiles<'_>>,
    keys: &[Text],
    depth: u8,
) -> Result<Answer, AllocError>
    requires { IsDepth depth }
    ensures { IfOk result (λ answer. OfReading db.now (λ r. answer ≡ records_answer_in (option_copied files.entry) depth keys.now r)) }
{
    match all_cited(db, keys)? {
        Some(list) => lines_of(alloc, db, files, list.as_slice(), depth),
        None => no_such_entry(alloc),
    }
}

/// A line for each of these entries, or that a text of one is not UTF-8.
fn lines_of(
    alloc: Global,
    db: &Database<Paged>,
    files: Option<&NamedFiles<'_>>,
    list: &[usize],
    depth: u8,
) -> Result<Answer, AllocError>
    requires numbers { AreEntryNumbers db.now list.now }
    requires depth { IsDepth depth }
    ensures { IfOk result (λ answer. OfReading db.now (λ r. answer ≡ told_answer (told_of depth (entries_of r) (file_of (option_copied files.entry) r) list.now))) }
{
    let mut lines = Vec::new(alloc);
    'entries: for n in list {
        lines = match with_entry(lines, db, files, *n, depth) {
            Ok(more) => more,
            Err(JsonFault::NotUtf8) => return not_utf8(alloc, db.entry(*n).key()),
            Err(JsonFault::Memory) => return Err(AllocError),
        };
    }
    Ok(done(alloc, Text::from_vec(lines)))
}

/// Nothing is output, and the message says in which entry a text is not UTF-8.
pub(crate) fn not_utf8(alloc: Global, key: &[u8]) -> Result<Answer, AllocError>
    ensures { IfOk result (λ answer. answer ≡ answer_of [] (not_utf8_line key.now) 1) }
{
    let mut message = Vec::new(alloc);
    add_all(&mut message, &[b"bibkeep: 24 NotUtf8 in ", key, b"\n"])?;
    Ok(refused(alloc, Text::from_vec(message)))
}

/// The lines, with the line of entry `n` after them.
fn with_entry(
    lines: Vec<u8>,
    db: &Database<Paged>,
    files: Option<&NamedFiles<'_>>,
    n: usize,
    depth: u8,
) -> Result<Vec<u8>, JsonFault>
    requires number { IsEntryNumber db.now n }
    requires depth { IsDepth depth }
    ensures line { IfOk result (λ more. OfReading db.now (λ r. (one : ToldIn) → told_in depth (entries_of r) (file_of (option_copied files.entry) r) n ≡ Some one → (is_told_in_utf8 one ≡ true) × (more.items ≡ lines.items ++ told_line one))) }
    ensures fault { IfErr result (λ fault. fault ≢ Memory → OfReading db.now (λ r. (one : ToldIn) → told_in depth (entries_of r) (file_of (option_copied files.entry) r) n ≡ Some one → is_told_in_utf8 one ≡ false)) }
{
    let Ok(expanded) = db.expanded(n, depth) else {
        return Err(JsonFault::Memory);
    };
    let parent = key_of(db, expanded.parent);
    add_line_in(lines, &expanded.rec, parent, file_of(files, db, n))
}

/// The name of the file in which entry `n` stands, if these files were read as one.
pub(crate) fn file_of<'a>(
    files: Option<&NamedFiles<'a>>,
    db: &Database<Paged>,
    n: usize,
) -> Option<&'a [u8]>
    requires { IsEntryNumber db.now n }
    ensures { OfReading db.now (λ r. option_copied result ≡ file_of (option_copied files.entry) r n) }
{
    let files = files?;
    Some(files.name_at(db.item_place(db.entry_item(n))))
}

/// The key of an entry, if there is one.
pub(crate) fn key_of(db: &Database<Paged>, n: Option<usize>) -> Option<&[u8]>
    requires { IfSome n (IsEntryNumber db.now) }
    ensures { OfReading db.now (λ r. option_copied result ≡ option_map (key_at (entries_of r)) n) }
{
    match n {
        Some(n) => Some(db.entry(n).key()),
        None => None,
    }
}

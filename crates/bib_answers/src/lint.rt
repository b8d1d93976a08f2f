//! `lint`: what is wrong with a file, a line each, as compilers write it.

ghost use Rattle.std.specs.Prelude.{◌≡◌, ◌≢◌, ◌+◌, ◌<◌, ◌^◌, ℕ, List, [], ◌∷◌, length, nat_lt, IfOk, OnOk};
ghost use Rattle.std.specs.List.{flat_map};
ghost use Rattle.bib_faults.specs.GoingOn.{Fault, Faults};
ghost use Rattle.aux_text.specs.declared.placing.AuxKeys.{AuxKeys as Cited};
ghost use Rattle.bib_answers.specs.Lint.{lint_lines, lint_status, lint_answer, files_answer, error_line, fault_lines, IsFaultAnswer, IsLintAnswer};
ghost use Rattle.bib_answers.specs.LintedThrough.{IsLintedBefore};
ghost use Rattle.bib_answers.specs.Outcome.{answer_of};
ghost use Rattle.bib_answers.specs.Positions.{position_of};
ghost use Rattle.bib_store.specs.Readings.{OfReading, IsItemNumber, IsOpenFault};

use crate::answers::{Answer, outcome_of};
use crate::check::counted;
use crate::empty_parents::has_empty_parents;
use crate::finding_lines::{FindingLines, add_error};
use crate::findings::add_item_findings;
use crate::gap_findings::add_gap_findings;
use crate::kinds::is_same_kind;
use crate::missing_keys::add_missing_keys;
use crate::named_files::NamedFiles;
use crate::numbered::NumberedItem;
use crate::positions::{first_known, known_at};
use crate::seen_names::SeenNames;
use aux_text::AuxKeys;
use bib_faults::read_all;
use bib_scan::{ItemView, Kind, ReadFault};
use bib_store::{Database, Paged};
use bib_text::{Text, copied};
use bib_words::status;
use std::alloc::{AllocError, Global};

/// The last of the faults of reading, by number: faults with a greater number are of files that are valid or too long.
const LAST_OF_READING: u8 = 7;

/// What is wrong with the file that has this name and these bytes, and which of the keys that these aux files cite no entry has; or
/// each place where the file is not valid. Findings with one of the ignored codes are left out; a code that no finding has changes
/// nothing.
pub fn answer_lint(
    alloc: Global,
    name: &[u8],
    file: Vec<u8>,
    ignored: &[Text],
    cited: &[AuxKeys],
) -> Result<Answer, AllocError>
    ensures { IfOk result (IsLintAnswer ignored.now cited.now name.now file.items) }
{
    match Database::open_or_return(alloc, file, Paged::new(alloc)) {
        Ok(db) => lint_alone(alloc, &db, name, ignored, cited),
        Err(unopened) => unread(alloc, name, unopened.file.as_slice(), unopened.fault),
    }
}

/// Whether a file with this fault is valid or too long.
fn is_past_reading(fault: ReadFault) -> bool
    ensures { result ≡ nat_lt 7 fault.kind }
{
    fault.kind > LAST_OF_READING
}

/// The answer to a file that is not opened: each fault of reading, or the one fault for which a file that has none is not
/// opened. Want of memory is no answer.
fn unread(alloc: Global, name: &[u8], file: &[u8], fault: ReadFault) -> Result<Answer, AllocError>
    requires { fault.kind ≢ 10 → IsOpenFault file.now fault.kind fault.place }
    ensures { IfOk result (λ answer. (fault.kind ≢ 10) × ((ignored : List (List ℕ)) (cited : List Cited) → IsLintAnswer ignored cited name.now file.now answer)) }
{
    if fault.is_memory() {
        return Err(AllocError);
    }
    lint_fault(alloc, name, file, fault)
}

/// What `lint` answers if the file with this name and these bytes is not opened for this fault: a line for each fault of reading,
/// or a line for this one if it is of a file that is valid or too long. It takes time in the file's length, and memory for the
/// lines.
pub fn lint_fault(
    alloc: Global,
    name: &[u8],
    file: &[u8],
    fault: ReadFault,
) -> Result<Answer, AllocError>
    ensures { IfOk result (IsFaultAnswer name.now file.now fault.kind fault.place) }
{
    if is_past_reading(fault) {
        return answer_faults(alloc, name, file, &[fault]);
    }
    answer_all(alloc, name, file)
}

/// A line for each fault of reading. The file is not too long, since its first fault was found.
fn answer_all(alloc: Global, name: &[u8], file: &[u8]) -> Result<Answer, AllocError>
    ensures { IfOk result (λ answer. (faults : List Fault) × Faults file.now faults × (answer ≡ answer_of (fault_lines name.now file.now faults) [] 1)) }
{
    match read_all(alloc, file) {
        Ok(faults) => answer_faults(alloc, name, file, faults.as_slice()),
        Err(_) => Err(AllocError),
    }
}

/// The answer with a line for each of these faults.
fn answer_faults(
    alloc: Global,
    name: &[u8],
    file: &[u8],
    faults: &[ReadFault],
) -> Result<Answer, AllocError>
    ensures { IfOk result (λ answer. answer ≡ answer_of (flat_map (λ fault. error_line name.now (position_of file.now fault.place) fault.kind) faults.now) [] 1) }
{
    let mut lines = Vec::new(alloc);
    let mut known = first_known();
    'faults: for fault in faults {
        known = known_at(file, known, fault.place);
        add_error(&mut lines, name, known.at, fault.kind)?;
    }
    Ok(told(alloc, lines, status::REFUSED))
}

/// The answer with these lines as output, and this status.
fn told(alloc: Global, lines: Vec<u8>, status: u8) -> Answer
    ensures { result ≡ answer_of lines.items [] status }
{
    Answer {
        output: Text::from_vec(lines),
        outcome: outcome_of(Text::empty(alloc), status),
    }
}

/// The status of a run that found these lines.
fn status_of(lines: &[u8]) -> u8
    ensures { result ≡ lint_status lines.now }
{
    if lines.is_empty() {
        status::DONE
    } else {
        status::REFUSED
    }
}

/// What is wrong with an open file that has this name, and which of the keys that are cited no entry has.
fn lint_alone(
    alloc: Global,
    db: &Database<Paged>,
    name: &[u8],
    ignored: &[Text],
    cited: &[AuxKeys],
) -> Result<Answer, AllocError>
    ensures { IfOk result (λ answer. OfReading db.now (λ r. answer ≡ lint_answer ignored.now cited.now name.now db.now r)) }
{
    let names = alone(alloc, name)?;
    let spans = [(0, db.byte_count())];
    let files = NamedFiles::new(names.as_slice(), db, &spans);
    lint_in(alloc, db, &files, ignored, cited)
}

/// The name, alone in a list.
fn alone(alloc: Global, name: &[u8]) -> Result<Vec<Text>, AllocError>
    ensures { IfOk result (λ names. names.items ≡ name.now ∷ []) }
{
    let mut names = Vec::new(alloc);
    names.push(copied(alloc, name)?)?;
    Ok(names)
}

/// What is wrong with files that are open as one, and which of the keys that these aux files cite no entry has. Findings with one
/// of the ignored codes are left out. It takes time in the length of the files and of the keys, and memory for the lines and the
/// missing keys.
pub fn lint_in(
    alloc: Global,
    db: &Database<Paged>,
    files: &NamedFiles<'_>,
    ignored: &[Text],
    cited: &[AuxKeys],
) -> Result<Answer, AllocError>
    ensures { IfOk result (λ answer. OfReading db.now (λ r. answer ≡ files_answer ignored.now cited.now files.now.names files.now.files r)) }
{
    let mut lines = lines_of(alloc, db, files, ignored)?;
    add_missing_keys(alloc, &mut lines, db, ignored, cited)?;
    let status = status_of(lines.as_slice());
    Ok(told(alloc, lines, status))
}

/// What is found in one pass over the items: the lines, how many of the items are entries, and where the next item begins; and
/// whether BibTeX finds parents for empty crossrefs, which is known before the pass.
#[derive(Drop)]
struct Found<'a> {
    lines: FindingLines<'a>,
    entries: usize,
    place: usize,
    empty_parents: bool,
}

/// The lines of the front and of all items.
fn lines_of(
    alloc: Global,
    db: &Database<Paged>,
    files: &NamedFiles<'_>,
    ignored: &[Text],
) -> Result<Vec<u8>, AllocError>
    ensures { IfOk result (λ lines. OfReading db.now (λ r. lines.items ≡ lint_lines ignored.now files.now.names files.now.files r)) }
{
    let mut found = Found {
        lines: FindingLines::new(alloc, ignored, files),
        entries: 0,
        place: db.front().len(),
        empty_parents: has_empty_parents(db),
    };
    add_gap_findings(&mut found.lines, false, 0, db.front())?;
    let mut names = SeenNames::new(alloc);
    'items: for n in 0..db.item_count() {
        look_at(alloc, &mut found, db, n, &mut names)?;
    }
    Ok(found.lines.into_text())
}

/// Adds what is found in item `n`. `names` lends its memory for the names of the fields.
fn look_at<'a>(
    alloc: Global,
    found: &mut Found<'_>,
    db: &'a Database<Paged>,
    n: usize,
    names: &mut SeenNames<'a>,
) -> Result<(), AllocError>
    requires item { IsItemNumber db.now n }
    requires small { n + 1 < 2 ^ 64 }
    requires before { IsLintedBefore db.now found.old.lines.ignored found.old.lines.names found.old.lines.files n found.old }
    ensures { OnOk result (IsLintedBefore db.now found.old.lines.ignored found.old.lines.names found.old.lines.files (n + 1) found.new) }
{
    db.opens();
    let item = db.item(n);
    let entries = found.entries;
    let it = NumberedItem {
        n,
        view: &item,
        entries,
    };
    found.lines.begin_item(found.place);
    add_item_findings(alloc, &mut found.lines, db, it, found.empty_parents, names)?;
    found.entries = counted(entries, is_same_kind(item.kind(), Kind::Entry));
    found.place = place_after(&item, found.place);
    Ok(())
}

/// Where the item ends with its trail, if it begins at this place.
fn place_after(item: &ItemView<'_>, place: usize) -> usize
    requires { (place + length item.now.body) + length item.now.trail < 2 ^ 64 }
    ensures { result ≡ (place + length item.now.body) + length item.now.trail }
{
    place + item.body().len() + item.trail().len()
}

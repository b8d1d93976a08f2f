//! `check`: what is in a file, and what is wrong with it.

ghost use Rattle.std.specs.Prelude.{◌≡◌, ◌++◌, ◌+◌, ◌<◌, ◌^◌, [], if◌then◌else◌, IfOk, OnOk};
ghost use Rattle.bib_spec.specs.Tree.{is_comment};
ghost use Rattle.bib_store.specs.Readings.{OfReading, IsItemNumber};
ghost use Rattle.bib_answers.specs.Opened.{AnswersFile};
ghost use Rattle.bib_definitions.specs.Definitions.{is_definition_tree};
ghost use Rattle.bib_answers.specs.Check.{count_items, all_reports, check_answer, check_answer_without};
ghost use Rattle.bib_answers.specs.LookedThrough.{IsFoundBefore};

use crate::answers::{Answer, done};
use crate::kinds::is_same_kind;
use crate::numbered::NumberedItem;
use crate::opening::answer_file;
use crate::reporting::add_item_reports;
use crate::seen_names::SeenNames;
use bib_scan::Kind;
use bib_store::{Database, Paged};
use bib_text::Text;
use std::alloc::{AllocError, Global};

/// How many bytes are set aside for a report on an entry. Most keys fit in.
const REPORT_LEN: usize = 32;

/// What is in the file, and what is wrong with it.
pub fn answer_check(alloc: Global, file: Vec<u8>) -> Result<Answer, AllocError>
    ensures { IfOk result (AnswersFile check_answer file.items) }
{
    answer_file(alloc, file, |db| check_in(alloc, db, 0))
}

/// What is in an open file, and what is wrong with it; or in files that were joined with this many seams, which are not counted.
/// It takes time in the file's length, and memory for the reports and for the names of an item's fields.
pub fn check_in(alloc: Global, db: &Database<Paged>, seams: usize) -> Result<Answer, AllocError>
    ensures { IfOk result (λ answer. OfReading db.now (λ r. answer ≡ check_answer_without seams r)) }
{
    let found = look_through(alloc, db)?;
    let counts = format!(in alloc;
        "items {}\nentries {}\nmacros {}\npreambles {}\ncomments {}\n",
        db.item_count().saturating_sub(seams),
        db.entry_count(),
        found.definitions,
        db.preamble_count(),
        found.comments.saturating_sub(seams)
    )?;
    let out = put_first(counts.as_bytes(), found.reports)?;
    Ok(done(alloc, Text::from_vec(out)))
}

/// The text with these bytes before it, in the memory that it has.
fn put_first(bytes: &[u8], text: Vec<u8>) -> Result<Vec<u8>, AllocError>
    ensures { IfOk result (λ out. out.items ≡ bytes.now ++ text.items) }
{
    let mut out = text;
    let len = out.len();
    out.extend_from_slice(bytes)?;
    out.rotate_left(len);
    Ok(out)
}

/// What is found in one pass over the items: the reports on them in order, and how many are entries, definitions and
/// comments.
#[derive(Drop)]
struct Found {
    reports: Vec<u8>,
    entries: usize,
    definitions: usize,
    comments: usize,
}

fn look_through(alloc: Global, db: &Database<Paged>) -> Result<Found, AllocError>
    ensures reports { IfOk result (λ found. OfReading db.now (λ r. found.reports.items ≡ all_reports r)) }
    ensures definitions { IfOk result (λ found. OfReading db.now (λ r. found.definitions ≡ count_items is_definition_tree r)) }
    ensures comments { IfOk result (λ found. OfReading db.now (λ r. found.comments ≡ count_items is_comment r)) }
{
    let mut found = Found {
        reports: room_for_reports(alloc, db),
        entries: 0,
        definitions: 0,
        comments: 0,
    };
    let mut names = SeenNames::new(alloc);
    'items: for n in 0..db.item_count() {
        look_at(alloc, &mut found, db, n, &mut names)?;
    }
    Ok(found)
}

/// Adds what is found in item `n`. `names` lends its memory for the names of the fields.
fn look_at<'a>(
    alloc: Global,
    found: &mut Found,
    db: &'a Database<Paged>,
    n: usize,
    names: &mut SeenNames<'a>,
) -> Result<(), AllocError>
    requires item { IsItemNumber db.now n }
    requires small { n + 1 < 2 ^ 64 }
    requires before { IsFoundBefore db.now n found.old }
    ensures { OnOk result (IsFoundBefore db.now (n + 1) found.new) }
{
    let item = db.item(n);
    let entries = found.entries;
    let it = NumberedItem {
        n,
        view: &item,
        entries,
    };
    add_item_reports(alloc, &mut found.reports, db, it, names)?;
    let kind = item.kind();
    found.entries = counted(entries, is_same_kind(kind, Kind::Entry));
    found.definitions = counted(found.definitions, is_same_kind(kind, Kind::Macro));
    found.comments = counted(found.comments, is_same_kind(kind, Kind::Comment));
    Ok(())
}

/// No reports yet. If a key is repeated, there is room for a report on each entry, as far as memory allows: while reports that
/// outgrow their memory are copied, they take memory twice.
fn room_for_reports(alloc: Global, db: &Database<Paged>) -> Vec<u8>
    ensures { result.items ≡ [] }
{
    let mut reports = Vec::new(alloc);
    if !db.are_keys_apart() {
        let _ = reports.reserve(db.entry_count().saturating_mul(REPORT_LEN));
    }
    reports
}

/// The count, and one more if this is one.
pub(crate) fn counted(count: usize, is_one: bool) -> usize
    requires { count + 1 < 2 ^ 64 }
    ensures { result ≡ count + (if is_one then 1 else 0) }
{
    if is_one { count + 1 } else { count }
}

//! `labels`: short names for the entries that keys cite.

ghost use Rattle.std.specs.Prelude.{◌≡◌, ◌++◌, ◌∷◌, [], codes, zip, IfOk, OnOk};
ghost use Rattle.std.specs.List.{flat_map};
ghost use Rattle.bib_spec.specs.Records.{entries_of, IsDepth};
ghost use Rattle.bib_store.specs.Readings.{OfReading};
ghost use Rattle.bib_answers.specs.Opened.{AnswersFile};
ghost use Rattle.bib_names.specs.Label.{labels_of};
ghost use Rattle.bib_answers.specs.Labels.{label_lines, records_at, keyed_line, AreLabelRows, labels_answer};
ghost use Rattle.bib_answers.specs.Marks.{AreEntryNumbers};

use crate::answers::{Answer, done, no_such_entry};
use crate::citing::all_cited;
use crate::lines::add_all;
use crate::opening::answer_file;
use bib_keys::{LabelRecords, Parents};
use bib_names::{label_names, labels_of};
use bib_store::{Database, Paged};
use bib_text::{Text, copied};
use std::alloc::{AllocError, Global};

/// The labels of the entries that the keys cite, of their records at this depth, or that a key finds none.
pub fn answer_labels(
    alloc: Global,
    file: Vec<u8>,
    keys: &[Text],
    depth: u8,
) -> Result<Answer, AllocError>
    requires { IsDepth depth }
    ensures { IfOk result (AnswersFile (labels_answer depth keys.now) file.items) }
{
    answer_file(alloc, file, |db| labels_in(alloc, db, keys, depth))
}

/// What `answer_labels` answers, for a file that is open. It takes time and memory for the records of the entries that the keys cite.
pub fn labels_in(
    alloc: Global,
    db: &Database<Paged>,
    keys: &[Text],
    depth: u8,
) -> Result<Answer, AllocError>
    requires { IsDepth depth }
    ensures { IfOk result (λ answer. OfReading db.now (λ r. answer ≡ labels_answer depth keys.now r)) }
{
    match all_cited(db, keys)? {
        Some(list) => Ok(done(alloc, lines_of(alloc, db, list.as_slice(), depth)?)),
        None => no_such_entry(alloc),
    }
}

/// A line for each of these entries, with its label.
fn lines_of(
    alloc: Global,
    db: &Database<Paged>,
    list: &[usize],
    depth: u8,
) -> Result<Text, AllocError>
    requires numbers { AreEntryNumbers db.now list.now }
    requires depth { IsDepth depth }
    ensures { IfOk result (λ text. OfReading db.now (λ r. text ≡ label_lines depth (entries_of r) list.now)) }
{
    let rows = label_rows(alloc, db, list, depth)?;
    label_lines(alloc, rows.bases.as_slice(), rows.keys.as_slice())
}

/// The label bases of entries, and their keys.
#[derive(Drop)]
struct LabelRows {
    bases: Vec<Text>,
    keys: Vec<Text>,
}

impl LabelRows {
    ghost use Rattle.std.specs.Prelude.{[], IfOk};
    ghost use Rattle.bib_answers.specs.Labels.{AreLabelRows};

    /// No rows, with room for `count` of them.
    fn with_room(alloc: Global, count: usize) -> Result<LabelRows, AllocError>
        ensures { IfOk result (λ rows. AreLabelRows [] rows.bases.items rows.keys.items) }
    {
        Ok(LabelRows {
            bases: Vec::with_capacity(alloc, count)?,
            keys: Vec::with_capacity(alloc, count)?,
        })
    }
}

/// The label bases of these entries, and their keys. What many of them inherit is read once.
fn label_rows(
    alloc: Global,
    db: &Database<Paged>,
    list: &[usize],
    depth: u8,
) -> Result<LabelRows, AllocError>
    requires numbers { AreEntryNumbers db.now list.now }
    requires depth { IsDepth depth }
    ensures { IfOk result (λ rows. OfReading db.now (λ r. AreLabelRows (records_at depth (entries_of r) list.now) rows.bases.items rows.keys.items)) }
{
    let names = label_names(alloc)?;
    let records = LabelRecords {
        db,
        depth,
        names: names.as_slice(),
    };
    let mut parents = Parents::none(alloc);
    let mut rows = LabelRows::with_room(alloc, list.len())?;
    'rows: for n in list {
        let base = parents.label_base(alloc, &records, *n)?;
        add_label_row(alloc, &mut rows, base, db.entry(*n).key())?;
    }
    Ok(rows)
}

/// Adds a label base, and the key of its entry.
fn add_label_row(
    alloc: Global,
    rows: &mut LabelRows,
    base: Text,
    key: &[u8],
) -> Result<(), AllocError>
    ensures keys { OnOk result (rows.new.keys.items ≡ rows.old.keys.items ++ key.now ∷ []) }
    ensures bases { OnOk result (rows.new.bases.items ≡ rows.old.bases.items ++ base ∷ []) }
{
    rows.keys.push(copied(alloc, key)?)?;
    rows.bases.push(base)?;
    Ok(())
}

/// A line for each of these bases, with its label and its key.
fn label_lines(alloc: Global, bases: &[Text], keys: &[Text]) -> Result<Text, AllocError>
    ensures { IfOk result (λ text. text ≡ flat_map keyed_line (zip (labels_of bases.now) keys.now)) }
{
    let labels = labels_of(alloc, bases)?;
    let labels = labels.as_slice();
    let mut out = Vec::new(alloc);
    'line: for n in 0..labels.len().min(keys.len()) {
        add_label(&mut out, labels[n].as_slice(), keys[n].as_slice())?;
    }
    Ok(Text::from_vec(out))
}

fn add_label(out: &mut Vec<u8>, label: &[u8], key: &[u8]) -> Result<(), AllocError>
    ensures { OnOk result (out.new.items ≡ out.old.items ++ (label.now ++ (codes "\t" ++ (key.now ++ codes "\n")))) }
{
    add_all(out, &[label, b"\t", key, b"\n"])
}

//! `show`: an entry as a style is given it.

ghost use Rattle.std.specs.Prelude.{◌≡◌, ◌++◌, [], IfOk, IfSome, OnOk};
ghost use Rattle.std.specs.List.{flat_map};
ghost use Rattle.bib_spec.specs.Records.{entries_of, IsDepth};
ghost use Rattle.bib_store.specs.Readings.{OfReading, IsEntryNumber};
ghost use Rattle.bib_answers.specs.Opened.{AnswersFile};
ghost use Rattle.bib_answers.specs.Show.{head_line, shown_field, record_lines, parent_line, shown, show_answer};

use crate::answers::{Answer, done, no_such_entry};
use crate::lines::add_all;
use crate::opening::answer_file;
use bib_store::{Database, Paged, Record};
use bib_text::Text;
use std::alloc::{AllocError, Global};

/// The first entry with this key, at this depth, or that there is none.
pub fn answer_show(
    alloc: Global,
    file: Vec<u8>,
    key: &[u8],
    depth: u8,
) -> Result<Answer, AllocError>
    requires { IsDepth depth }
    ensures { IfOk result (AnswersFile (show_answer depth key.now) file.items) }
{
    answer_file(alloc, file, |db| show_in(alloc, db, key, depth))
}

/// What `answer_show` answers, for a file that is open. It takes a look-up, and time and memory for the record.
pub fn show_in(
    alloc: Global,
    db: &Database<Paged>,
    key: &[u8],
    depth: u8,
) -> Result<Answer, AllocError>
    requires { IsDepth depth }
    ensures { IfOk result (λ answer. OfReading db.now (λ r. answer ≡ show_answer depth key.now r)) }
{
    match db.find(key) {
        Ok(n) => Ok(done(alloc, Text::from_vec(entry_text(alloc, db, n, depth)?))),
        Err(_) => no_such_entry(alloc),
    }
}

/// Entry `n`: its record at this depth, and its parent.
fn entry_text(
    alloc: Global,
    db: &Database<Paged>,
    n: usize,
    depth: u8,
) -> Result<Vec<u8>, AllocError>
    requires number { IsEntryNumber db.now n }
    requires depth { IsDepth depth }
    ensures { IfOk result (λ text. OfReading db.now (λ r. text.items ≡ shown depth (entries_of r) n)) }
{
    let Ok(expanded) = db.expanded(n, depth) else {
        return Err(AllocError);
    };
    expanded_text(alloc, db, &expanded.rec, expanded.parent)
}

/// A record, and the parent of its entry.
fn expanded_text(
    alloc: Global,
    db: &Database<Paged>,
    rec: &Record,
    parent: Option<usize>,
) -> Result<Vec<u8>, AllocError>
    requires { IfSome parent (IsEntryNumber db.now) }
    ensures { IfOk result (λ text. OfReading db.now (λ r. text.items ≡ record_lines rec.now ++ parent_line (entries_of r) parent)) }
{
    let mut out = Vec::new(alloc);
    add_record(&mut out, rec)?;
    add_parent(&mut out, db, parent)?;
    Ok(out)
}

fn add_parent(
    out: &mut Vec<u8>,
    db: &Database<Paged>,
    parent: Option<usize>,
) -> Result<(), AllocError>
    requires { IfSome parent (IsEntryNumber db.now) }
    ensures { OnOk result (OfReading db.now (λ r. out.new.items ≡ out.old.items ++ parent_line (entries_of r) parent)) }
{
    let Some(parent) = parent else {
        return Ok(());
    };
    add_field(out, b"crossref", db.entry(parent).key())?;
    Ok(())
}

fn add_record(out: &mut Vec<u8>, rec: &Record) -> Result<(), AllocError>
    ensures { OnOk result (out.new.items ≡ out.old.items ++ record_lines rec.now) }
{
    add_head(out, rec.kind_name.as_slice(), rec.key.as_slice())?;
    add_fields(out, rec.fields.as_slice())
}

fn add_head(out: &mut Vec<u8>, kind_name: &[u8], key: &[u8]) -> Result<(), AllocError>
    ensures { OnOk result (out.new.items ≡ out.old.items ++ head_line (record { kind_name = kind_name.now; key = key.now; fields = [] })) }
{
    add_all(out, &[b"@", kind_name, b" ", key, b"\n"])
}

fn add_fields(out: &mut Vec<u8>, fields: &[(Text, Text)]) -> Result<(), AllocError>
    ensures { OnOk result (out.new.items ≡ out.old.items ++ flat_map shown_field fields.now) }
{
    for field in fields {
        add_field(out, field.0.as_slice(), field.1.as_slice())?;
    }
    Ok(())
}

fn add_field(out: &mut Vec<u8>, name: &[u8], text: &[u8]) -> Result<(), AllocError>
    ensures { OnOk result (out.new.items ≡ out.old.items ++ shown_field (name.now, text.now)) }
{
    add_all(out, &[name, b" = ", text, b"\n"])
}

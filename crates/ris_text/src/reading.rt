//! Reads files.

ghost use Rattle.std.specs.Prelude.{◌≡◌, ◌≤◌, ◌<◌, ◌+◌, ◌^◌, ◌⊎◌, [], Ok, Err, length, IfOk, IfErr, IfSome, IfNone};
ghost use Rattle.ris_text.specs.Reading.{Reads, IsFaultOf};
ghost use Rattle.ris_text.specs.Rest.{rest_of};
ghost use Rattle.ris_text.specs.Code.{seen, inside, ris_file, with_record, with_skipped, told, told_inner, record_told};
ghost use Rattle.ris_text.specs.declared.fault.RisFault.TheVariants.{Memory};

use crate::fault::RisFault;
use crate::joining::continued;
use crate::lines::{Class, Line, Lines};
use crate::records::{RisFile, RisLine, RisRecord};
use bib_text::Seq;
use std::alloc::Global;
use std::marker::Model;

/// The lines that a record keeps, how many are skipped, and the lines after its ER line.
#[derive(Drop)]
struct Inner<'a> {
    kept: Seq<RisLine>,
    skipped: u64,
    after: Lines<'a>,
}

/// Reads a record after its TY line, in a file that ends at this place.
fn read_inner<'a>(alloc: Global, end: usize, lines: Lines<'a>) -> Result<Inner<'a>, RisFault>
    requires { length lines < 2 ^ 64 }
    ensures read { IfOk result (λ r. told_inner end lines.entry ≡ inside r.kept r.skipped (Ok (told end r.after).outside)) }
    ensures count { IfOk result (λ r. r.skipped + length r.after ≤ length lines.entry) }
    ensures refused { IfErr result (λ fault. (fault ≡ Memory) ⊎ ((told_inner end lines.entry).after ≡ Err fault)) }
{
    let mut kept = Vec::new(alloc);
    let mut skipped: u64 = 0;
    let mut rest = lines;
    'line: loop {
        let Some((line, after)) = rest.first() else {
            return Err(RisFault::NoEnd(end));
        };
        rest = after;
        match line.class {
            Class::Begin => return Err(RisFault::NoEnd(line.place)),
            Class::End => {
                return Ok(Inner {
                    kept: Seq::from_vec(kept),
                    skipped,
                    after: rest,
                });
            }
            Class::Known(tag) => {
                let (value, after) = continued(alloc, line.text, rest)?;
                kept.push(RisLine { tag, value })?;
                rest = after;
            }
            Class::Other => skipped += 1,
            Class::Blank | Class::Untagged => {}
        }
    }
}

/// A record, how many of its lines are skipped, and the lines after it.
#[derive(Drop)]
struct Whole<'a> {
    rec: RisRecord,
    skipped: u64,
    after: Lines<'a>,
}

/// Reads a record, given its TY line and the lines after the TY line.
fn read_record<'a>(
    alloc: Global,
    end: usize,
    begin: Line<'_>,
    lines: Lines<'a>,
) -> Result<Whole<'a>, RisFault>
    requires { length lines < 2 ^ 64 }
    ensures read { IfOk result (λ r. record_told end (seen begin.entry) lines.entry ≡ with_record r.rec (with_skipped r.skipped (told end r.after).outside)) }
    ensures count { IfOk result (λ r. r.skipped + length r.after ≤ length lines.entry) }
    ensures refused { IfErr result (λ fault. (fault ≡ Memory) ⊎ (record_told end (seen begin.entry) lines.entry ≡ Err fault)) }
{
    let (kind_name, inner) = continued(alloc, begin.text, lines)?;
    let inner = read_inner(alloc, end, inner)?;
    if kind_name.as_slice().is_empty() {
        return Err(RisFault::EmptyType(begin.place));
    }
    let rec = RisRecord {
        kind_name,
        lines: inner.kept,
    };
    Ok(Whole {
        rec,
        skipped: inner.skipped,
        after: inner.after,
    })
}

/// What is next in a file: a record, or none if the file ends; how many lines were skipped by then; and the lines that
/// are left.
#[derive(Drop)]
struct Next<'a> {
    rec: Option<RisRecord>,
    skipped: u64,
    after: Lines<'a>,
}

/// Reads on to the end of the next record, in a file that ends at this place, where `skipped` lines were skipped so
/// far.
fn read_next<'a>(
    alloc: Global,
    end: usize,
    skipped: u64,
    lines: Lines<'a>,
) -> Result<Next<'a>, RisFault>
    requires { skipped + length lines < 2 ^ 64 }
    ensures some { IfOk result (λ r. IfSome r.rec (λ rec. (rest_of end skipped lines.entry).says ≡ with_record rec (rest_of end r.skipped r.after).says)) }
    ensures fewer { IfOk result (λ r. IfSome r.rec (λ _. length r.after < length lines.entry)) }
    ensures none { IfOk result (λ r. IfNone r.rec ((rest_of end skipped lines.entry).says ≡ Ok (ris_file [] r.skipped))) }
    ensures count { IfOk result (λ r. r.skipped + length r.after ≤ skipped + length lines.entry) }
    ensures refused { IfErr result (λ fault. (fault ≡ Memory) ⊎ ((rest_of end skipped lines.entry).says ≡ Err fault)) }
{
    let mut passed = skipped;
    let mut rest = lines;
    'line: loop {
        let Some((line, after)) = rest.first() else {
            return Ok(Next {
                rec: None,
                skipped: passed,
                after: rest,
            });
        };
        rest = after;
        match line.class {
            Class::Begin => {
                let whole = read_record(alloc, end, line, rest)?;
                return Ok(Next {
                    rec: Some(whole.rec),
                    skipped: passed + whole.skipped,
                    after: whole.after,
                });
            }
            Class::Blank => {}
            Class::Untagged => passed += 1,
            Class::End | Class::Known(_) | Class::Other => {
                return Err(RisFault::NoStart(line.place));
            }
        }
    }
}

/// A file whose records are read one by one: what is left of it. It takes no memory.
#[derive(Drop)]
pub struct Unread<'a> {
    end: usize,
    skipped: u64,
    lines: Lines<'a>,
}

impl<'a> Model for Unread<'a> {
    ghost use Rattle.std.specs.Prelude.{◌+◌, ◌<◌, ◌^◌, length};
    ghost use Rattle.ris_text.specs.Rest.{Rest, rest_of};

    ghost Value = { Rest };

    ghost view = { λ u. rest_of u.end u.skipped u.lines };

    ghost invariant = { λ u. u.skipped + length u.lines < 2 ^ 64 };
}

impl<'a> Unread<'a> {
    ghost use Rattle.std.specs.Prelude.{◌≡◌, ◌<◌, ◌⊎◌, [], Ok, Err, IfOk, IfErr, IfSome, IfNone};
    ghost use Rattle.ris_text.specs.Rest.{IsLeft};
    ghost use Rattle.ris_text.specs.Code.{ris_file, with_record};
    ghost use Rattle.ris_text.specs.declared.fault.RisFault.TheVariants.{Memory};

    /// A file before its first record is read. A mark of UTF-8 at its front is dropped, but counted in places.
    pub fn of(file: &'a [u8]) -> Self
        ensures { IsLeft file.now [] result }
    {
        Unread {
            end: file.len(),
            skipped: 0,
            lines: Lines::of(file),
        }
    }

    /// How many lines were skipped so far.
    pub fn skipped(&self) -> u64
        ensures { result ≡ self.now.skipped }
    {
        self.skipped
    }

    /// The next record, or none if the file ends, and what is left after it; or the line at which the file goes wrong.
    /// It takes time in the length of what it reads, and memory for the record. A file that goes wrong is refused as 61
    /// to 63, with the place; else the one refusal is want of memory.
    pub fn next(self, alloc: Global) -> Result<(Option<RisRecord>, Unread<'a>), RisFault>
        ensures some { IfOk result (λ r. IfSome r.0 (λ rec. self.entry.says ≡ with_record rec r.1.says)) }
        ensures fewer { IfOk result (λ r. IfSome r.0 (λ _. r.1.lines < self.entry.lines)) }
        ensures none { IfOk result (λ r. IfNone r.0 (self.entry.says ≡ Ok (ris_file [] r.1.skipped))) }
        ensures refused { IfErr result (λ fault. (fault ≡ Memory) ⊎ (self.entry.says ≡ Err fault)) }
    {
        let end = self.end;
        let next = read_next(alloc, end, self.skipped, self.lines)?;
        let rest = Unread {
            end,
            skipped: next.skipped,
            lines: next.after,
        };
        Ok((next.rec, rest))
    }
}

/// Reads a file: the records that it says, or the first line at which it goes wrong. A mark of UTF-8 at its front is
/// dropped, but counted in places. It takes time in the length of the file, and memory for all its records: `Unread`
/// takes memory for one record at a time. (RIS format specification; dialect: docs/FORMAT-RIS.md)
///
/// A file that goes wrong is refused as 61 to 63, with its place in bytes from 0; else the one refusal is want of
/// memory.
pub fn read_ris(alloc: Global, bytes: &[u8]) -> Result<RisFile, RisFault>
    ensures read { IfOk result (λ file. Reads bytes.now file) }
    ensures refused { IfErr result (λ fault. (fault ≡ Memory) ⊎ IsFaultOf bytes.now fault) }
{
    let mut records = Vec::new(alloc);
    let mut rest = Unread::of(bytes);
    'records: loop {
        let (first, after) = rest.next(alloc)?;
        rest = after;
        let Some(rec) = first else {
            return Ok(RisFile {
                records: Seq::from_vec(records),
                skipped: rest.skipped(),
            });
        };
        records.push(rec)?;
    }
}

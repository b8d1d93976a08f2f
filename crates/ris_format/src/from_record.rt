//! From a record to RIS.

ghost use Rattle.std.specs.Prelude.{◌≡◌, ◌++◌, ◌∷◌, [], if◌then◌else◌, true, IfOk, IfErr, OnOk, map, filter};
ghost use Rattle.std.specs.List.{flat_map};
ghost use Rattle.ris_text.specs.Writing.{record_text, is_well_formed};
ghost use Rattle.ris_format.specs.Kinds.{ris_type, kind_of_entry};
ghost use Rattle.ris_format.specs.Lines.{lines_of};
ghost use Rattle.ris_format.specs.Mapping.{field, booktitle_text, written_names, written_titles, written_numbers, written_publishers, written_notes, written_fields, written, ris, is_dropped, dropped};
ghost use Rattle.ris_format.specs.Carried.{is_written, is_carried};
ghost use Rattle.ris_format.specs.declared.fault.MappingFault.TheVariants.{Memory};

use crate::dates::{has_slash, month_digits, push_date};
use crate::fault::MappingFault;
use crate::fields::{has_field, text_of};
use crate::judging::are_written_people;
use crate::keeping::Kept;
use crate::keywords::{has_keyword, push_keywords};
use crate::kinds::{Kind, is};
use crate::lines::push_single;
use crate::pages::{push_end, push_start};
use crate::people::push_people;
use crate::text::has_bytes;
use bib_data::Record;
use bib_text::{Seq, Text, copied};
use ris_text::{RisLine, RisRecord, write_line};
use std::alloc::{AllocError, Global};

// ---- lines

/// Adds the lines of author and editor.
fn push_names<T: Kept>(
    alloc: Global,
    lines: &mut Vec<T>,
    fields: &[(Text, Text)],
) -> Result<(), AllocError>
    ensures { OnOk result (lines.new.items ≡ lines.old.items ++ flat_map T.kept (lines_of (written_names fields.now))) }
{
    push_people(alloc, lines, *b"AU", text_of(fields, b"author"))?;
    push_people(alloc, lines, *b"A2", text_of(fields, b"editor"))
}

/// The booktitle, empty for an article.
fn booktitle<'a>(kind: Kind, fields: &'a [(Text, Text)]) -> &'a [u8]
    ensures { result.now ≡ booktitle_text kind fields.now }
{
    if kind.is_article() {
        b""
    } else {
        text_of(fields, b"booktitle")
    }
}

/// Adds the lines of titles.
fn push_titles<T: Kept>(
    alloc: Global,
    lines: &mut Vec<T>,
    kind: Kind,
    fields: &[(Text, Text)],
) -> Result<(), AllocError>
    ensures { OnOk result (lines.new.items ≡ lines.old.items ++ flat_map T.kept (lines_of (written_titles kind fields.now))) }
{
    push_single(alloc, lines, *b"TI", text_of(fields, b"title"))?;
    push_single(alloc, lines, *b"T2", booktitle(kind, fields))?;
    push_single(alloc, lines, *b"T3", text_of(fields, b"series"))?;
    push_single(alloc, lines, *b"JF", text_of(fields, b"journal"))
}

/// Adds the lines of date, volume, number and pages.
fn push_numbers<T: Kept>(
    alloc: Global,
    lines: &mut Vec<T>,
    fields: &[(Text, Text)],
) -> Result<(), AllocError>
    ensures { OnOk result (lines.new.items ≡ lines.old.items ++ flat_map T.kept (lines_of (written_numbers fields.now))) }
{
    let year = text_of(fields, b"year");
    push_date(alloc, lines, *b"PY", year, text_of(fields, b"month"))?;
    push_single(alloc, lines, *b"VL", text_of(fields, b"volume"))?;
    push_single(alloc, lines, *b"IS", text_of(fields, b"number"))?;
    let pages = text_of(fields, b"pages");
    push_start(alloc, lines, *b"SP", pages)?;
    push_end(alloc, lines, *b"EP", pages)
}

/// Adds the lines of publisher, address and serial number.
fn push_publishers<T: Kept>(
    alloc: Global,
    lines: &mut Vec<T>,
    kind: Kind,
    fields: &[(Text, Text)],
) -> Result<(), AllocError>
    ensures { OnOk result (lines.new.items ≡ lines.old.items ++ flat_map T.kept (lines_of (written_publishers kind fields.now))) }
{
    push_single(
        alloc,
        lines,
        *b"PB",
        text_of(fields, kind.publisher_field()),
    )?;
    push_single(alloc, lines, *b"CY", text_of(fields, b"address"))?;
    push_single(alloc, lines, *b"SN", text_of(fields, kind.serial_field()))
}

/// Adds the lines of URL, DOI, abstract, note and keywords.
fn push_notes<T: Kept>(
    alloc: Global,
    lines: &mut Vec<T>,
    fields: &[(Text, Text)],
) -> Result<(), AllocError>
    ensures { OnOk result (lines.new.items ≡ lines.old.items ++ flat_map T.kept (lines_of (written_notes fields.now))) }
{
    push_single(alloc, lines, *b"UR", text_of(fields, b"url"))?;
    push_single(alloc, lines, *b"DO", text_of(fields, b"doi"))?;
    push_single(alloc, lines, *b"AB", text_of(fields, b"abstract"))?;
    push_single(alloc, lines, *b"N1", text_of(fields, b"note"))?;
    push_keywords(alloc, lines, *b"KW", text_of(fields, b"keywords"))
}

/// Adds the lines of a record's fields.
fn push_fields<T: Kept>(
    alloc: Global,
    lines: &mut Vec<T>,
    kind: Kind,
    fields: &[(Text, Text)],
) -> Result<(), AllocError>
    ensures { OnOk result (lines.new.items ≡ lines.old.items ++ flat_map T.kept (lines_of (written_fields kind fields.now))) }
{
    push_names(alloc, lines, fields)?;
    push_titles(alloc, lines, kind, fields)?;
    push_numbers(alloc, lines, fields)?;
    push_publishers(alloc, lines, kind, fields)?;
    push_notes(alloc, lines, fields)
}

/// Adds the lines of a record, with its key at the end.
fn push_record<T: Kept>(
    alloc: Global,
    lines: &mut Vec<T>,
    kind: Kind,
    entry: &Record,
) -> Result<(), AllocError>
    ensures { OnOk result (lines.new.items ≡ lines.old.items ++ flat_map T.kept (lines_of (written kind entry.now))) }
{
    push_fields(alloc, lines, kind, entry.fields.as_slice())?;
    push_single(alloc, lines, *b"ID", entry.key.as_slice())
}

// ---- what is dropped

/// Whether the rules of this name leave a line of the text, which is not empty.
fn is_written(alloc: Global, name: &[u8], text: &[u8]) -> Result<bool, AllocError>
    ensures { IfOk result (λ b. b ≡ is_written name.now text.now) }
{
    if is(name, b"author") || is(name, b"editor") {
        return are_written_people(alloc, text);
    }
    if is(name, b"year") {
        return Ok(!has_slash(text));
    }
    if is(name, b"month") {
        return Ok(month_digits(text).is_some());
    }
    if is(name, b"keywords") {
        return Ok(has_keyword(text));
    }
    Ok(true)
}

/// Whether a line comes from a field of this name with this text, which is not empty.
fn is_carried(alloc: Global, kind: Kind, name: &[u8], text: &[u8]) -> Result<bool, AllocError>
    ensures { IfOk result (λ b. b ≡ is_carried kind name.now text.now) }
{
    if !has_field(kind, name) {
        return Ok(false);
    }
    is_written(alloc, name, text)
}

/// Whether a field of this name has a text, and no line comes from it.
fn is_dropped(alloc: Global, kind: Kind, name: &[u8], text: &[u8]) -> Result<bool, AllocError>
    ensures { IfOk result (λ b. b ≡ is_dropped kind (field name.now text.now)) }
{
    if !has_bytes(text) {
        return Ok(false);
    }
    Ok(!is_carried(alloc, kind, name, text)?)
}

/// Whether RIS drops a field of this name with this text from a record of this type, as `dropped_of` says of all fields of
/// a record. It takes time in the length of the text, and memory if it is a list of names: for their places. The one
/// refusal is want of memory.
pub fn drops(alloc: Global, kind_name: &[u8], name: &[u8], text: &[u8]) -> Result<bool, AllocError>
    ensures { IfOk result (λ b. b ≡ is_dropped (kind_of_entry kind_name.now) (field name.now text.now)) }
{
    is_dropped(alloc, Kind::of_entry(kind_name), name, text)
}

/// Adds the name of the field if the field is dropped.
fn push_dropped(
    alloc: Global,
    names: &mut Vec<Text>,
    kind: Kind,
    field: &(Text, Text),
) -> Result<(), AllocError>
    ensures { OnOk result (names.new.items ≡ (if is_dropped kind field.now then names.old.items ++ field.now.0 ∷ [] else names.old.items)) }
{
    if is_dropped(alloc, kind, field.0.as_slice(), field.1.as_slice())? {
        let name = copied(alloc, field.0.as_slice())?;
        names.push(name)?;
    }
    Ok(())
}

/// The names of those of these fields that are dropped.
fn dropped_names(
    alloc: Global,
    kind: Kind,
    fields: &[(Text, Text)],
) -> Result<Vec<Text>, AllocError>
    ensures { IfOk result (λ names. names.items ≡ map (λ f. f.0) (filter (is_dropped kind) fields.now)) }
{
    let mut names = Vec::new(alloc);
    for field in fields {
        push_dropped(alloc, &mut names, kind, field)?;
    }
    Ok(names)
}

/// The lines of a record, with its key at the end.
fn record_lines(alloc: Global, kind: Kind, entry: &Record) -> Result<Vec<RisLine>, AllocError>
    ensures { IfOk result (λ lines. lines.items ≡ lines_of (written kind entry.now)) }
{
    let mut lines = Vec::with_capacity(alloc, entry.fields.as_slice().len() + 4)?;
    push_record(alloc, &mut lines, kind, entry)?;
    Ok(lines)
}

/// The RIS record of a record of this kind.
fn record_of(alloc: Global, kind: Kind, entry: &Record) -> Result<RisRecord, AllocError>
    ensures { IfOk result (λ r. r ≡ record { kind_name = ris_type kind; lines = lines_of (written kind entry.now) }) }
{
    Ok(RisRecord {
        kind_name: copied(alloc, kind.ris_type())?,
        lines: Seq::from_vec(record_lines(alloc, kind, entry)?),
    })
}

/// Adds the text of a record's RIS record, as `to_ris` makes it, to a text. It takes time in the record's size, and
/// memory for the text alone. The one refusal is want of memory: then a part of the record may follow the text.
pub fn write_entry(alloc: Global, text: &mut Vec<u8>, entry: &Record) -> Result<(), MappingFault>
    requires { is_well_formed (ris entry.now) ≡ true }
    ensures text { OnOk result (text.new.items ≡ text.old.items ++ record_text (ris entry.now)) }
    ensures memory { IfErr result (λ fault. fault ≡ Memory) }
{
    let kind = Kind::of_entry(entry.kind_name.as_slice());
    write_line(text, b"TY", kind.ris_type())?;
    push_record(alloc, text, kind, entry)?;
    write_line(text, b"ER", b"")?;
    Ok(())
}

/// The RIS record of a record, as `to_ris` makes it, without the names of dropped fields. It takes time in the record's
/// size. The one refusal is want of memory.
pub fn ris_of(alloc: Global, entry: &Record) -> Result<RisRecord, MappingFault>
    ensures record { IfOk result (λ r. r ≡ ris entry.now) }
    ensures memory { IfErr result (λ fault. fault ≡ Memory) }
{
    let kind = Kind::of_entry(entry.kind_name.as_slice());
    Ok(record_of(alloc, kind, entry)?)
}

/// The names of the fields that `to_ris` drops: those that have a text, and from which no line of the RIS record comes.
/// They are fields that the table of the record's type does not have, lists of names that cannot be taken apart or have
/// no word, years with a slash, months whose text names no month, and keywords without a word. They come in the record's
/// order. A field with an empty text is left out too, but says nothing, and is not named. It makes no RIS record: it takes
/// time in the record's size, and memory for the names and for the places in one list of names. The one refusal is want
/// of memory.
pub fn dropped_of(alloc: Global, entry: &Record) -> Result<Seq<Text>, MappingFault>
    ensures dropped { IfOk result (λ names. names ≡ dropped entry.now) }
    ensures memory { IfErr result (λ fault. fault ≡ Memory) }
{
    let kind = Kind::of_entry(entry.kind_name.as_slice());
    let names = dropped_names(alloc, kind, entry.fields.as_slice())?;
    Ok(Seq::from_vec(names))
}

/// The RIS record of a record, and the names of the fields that are dropped, as `dropped_of` gives them. If two fields
/// have one name, the first that is not empty is written. It takes time in the record's size. The one refusal is want of
/// memory.
pub fn to_ris(alloc: Global, entry: &Record) -> Result<(RisRecord, Seq<Text>), MappingFault>
    ensures record { IfOk result (λ r. r.0 ≡ ris entry.now) }
    ensures dropped { IfOk result (λ r. r.1 ≡ dropped entry.now) }
    ensures memory { IfErr result (λ fault. fault ≡ Memory) }
{
    let record = ris_of(alloc, entry)?;
    let names = dropped_of(alloc, entry)?;
    Ok((record, names))
}

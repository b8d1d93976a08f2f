//! From RIS to a record.

ghost use Rattle.std.specs.Prelude.{◌≡◌, ◌++◌, ◌∷◌, [], IfOk, IfErr, OnOk, codes, filter};
ghost use Rattle.ris_format.specs.Keywords.{read_keywords};
ghost use Rattle.ris_format.specs.Lines.{values_at};
ghost use Rattle.ris_format.specs.Mapping.{field, has_text, read_names, read_journal, read_booktitle, read_titles, read_numbers, read_publishers, read_notes, read_fields, record_in, back};
ghost use Rattle.ris_format.specs.Escapes.{back_escaped, back_as};
ghost use Rattle.ris_format.specs.People.{read_people};
ghost use Rattle.ris_format.specs.declared.fault.MappingFault.TheVariants.{Memory};

use crate::dates::{read_month, read_year};
use crate::escaping::escaped_lines;
use crate::fault::MappingFault;
use crate::fields::{MOST_FIELDS, push_field, push_text};
use crate::kinds::Kind;
use crate::lines::{are_neat_lines, or_else, read_lines, value_at, values_at};
use crate::pages::read_pages;
use crate::people::read_people;
use crate::text::join;
use bib_data::Record;
use bib_text::{Seq, Text, copied};
use ris_text::{RisLine, RisRecord};
use std::alloc::{AllocError, Global};

/// Adds a field with the names after these tags.
fn push_people(
    alloc: Global,
    fields: &mut Vec<(Text, Text)>,
    name: &[u8],
    tags: &[[u8; 2]],
    lines: &[RisLine],
) -> Result<(), AllocError>
    ensures { OnOk result (fields.new.items ≡ fields.old.items ++ filter has_text (field name.now (read_people (values_at tags.now lines.now)) ∷ [])) }
{
    let values = values_at(alloc, tags, lines)?;
    let people = read_people(alloc, values.as_slice())?;
    push_text(alloc, fields, name, people)
}

/// Adds author, editor and title.
fn push_names(
    alloc: Global,
    fields: &mut Vec<(Text, Text)>,
    lines: &[RisLine],
) -> Result<(), AllocError>
    ensures { OnOk result (fields.new.items ≡ fields.old.items ++ filter has_text (read_names lines.now)) }
{
    push_people(alloc, fields, b"author", &[*b"AU", *b"A1"], lines)?;
    push_people(alloc, fields, b"editor", &[*b"A2", *b"ED"], lines)?;
    push_field(alloc, fields, b"title", value_at(&[*b"TI", *b"T1"], lines))
}

/// The journal: the value after JF, else after JO, else for an article after T2.
fn read_journal(kind: Kind, lines: &[RisLine]) -> &[u8]
    ensures { result.now ≡ read_journal kind lines.now }
{
    let title = if kind.is_article() {
        value_at(&[*b"T2"], lines)
    } else {
        b""
    };
    or_else(
        value_at(&[*b"JF"], lines),
        or_else(value_at(&[*b"JO"], lines), title),
    )
}

/// Adds the booktitle, except for an article.
fn push_booktitle(
    alloc: Global,
    fields: &mut Vec<(Text, Text)>,
    kind: Kind,
    lines: &[RisLine],
) -> Result<(), AllocError>
    ensures { OnOk result (fields.new.items ≡ fields.old.items ++ filter has_text (read_booktitle kind lines.now)) }
{
    if kind.is_article() {
        return Ok(());
    }
    push_field(alloc, fields, b"booktitle", value_at(&[*b"T2"], lines))
}

/// Adds series and journal.
fn push_titles(
    alloc: Global,
    fields: &mut Vec<(Text, Text)>,
    kind: Kind,
    lines: &[RisLine],
) -> Result<(), AllocError>
    ensures { OnOk result (fields.new.items ≡ fields.old.items ++ filter has_text (read_titles kind lines.now)) }
{
    push_field(alloc, fields, b"series", value_at(&[*b"T3"], lines))?;
    push_field(alloc, fields, b"journal", read_journal(kind, lines))
}

/// Adds year, month, volume, number and pages.
fn push_numbers(
    alloc: Global,
    fields: &mut Vec<(Text, Text)>,
    lines: &[RisLine],
) -> Result<(), AllocError>
    ensures { OnOk result (fields.new.items ≡ fields.old.items ++ filter has_text (read_numbers lines.now)) }
{
    let date = value_at(&[*b"PY", *b"Y1"], lines);
    push_field(alloc, fields, b"year", read_year(date))?;
    push_field(alloc, fields, b"month", read_month(date))?;
    push_field(alloc, fields, b"volume", value_at(&[*b"VL"], lines))?;
    push_field(alloc, fields, b"number", value_at(&[*b"IS"], lines))?;
    let end = value_at(&[*b"EP"], lines);
    let pages = read_pages(alloc, value_at(&[*b"SP"], lines), end)?;
    push_text(alloc, fields, b"pages", pages)
}

/// Adds publisher, address and serial number.
fn push_publishers(
    alloc: Global,
    fields: &mut Vec<(Text, Text)>,
    kind: Kind,
    lines: &[RisLine],
) -> Result<(), AllocError>
    ensures { OnOk result (fields.new.items ≡ fields.old.items ++ filter has_text (read_publishers kind lines.now)) }
{
    push_field(
        alloc,
        fields,
        kind.publisher_field(),
        value_at(&[*b"PB"], lines),
    )?;
    push_field(alloc, fields, b"address", value_at(&[*b"CY"], lines))?;
    push_field(
        alloc,
        fields,
        kind.serial_field(),
        value_at(&[*b"SN"], lines),
    )
}

/// Adds the keywords.
fn push_keywords(
    alloc: Global,
    fields: &mut Vec<(Text, Text)>,
    lines: &[RisLine],
) -> Result<(), AllocError>
    ensures { OnOk result (fields.new.items ≡ fields.old.items ++ filter has_text (field (codes "keywords") (read_keywords (values_at (codes "KW" ∷ []) lines.now)) ∷ [])) }
{
    let words = values_at(alloc, &[*b"KW"], lines)?;
    let keywords = join(alloc, b", ", words.as_slice())?;
    push_text(alloc, fields, b"keywords", keywords)
}

/// Adds URL, DOI, abstract, note and keywords.
fn push_notes(
    alloc: Global,
    fields: &mut Vec<(Text, Text)>,
    lines: &[RisLine],
) -> Result<(), AllocError>
    ensures { OnOk result (fields.new.items ≡ fields.old.items ++ filter has_text (read_notes lines.now)) }
{
    push_field(alloc, fields, b"url", value_at(&[*b"UR"], lines))?;
    push_field(alloc, fields, b"doi", value_at(&[*b"DO"], lines))?;
    push_field(
        alloc,
        fields,
        b"abstract",
        value_at(&[*b"AB", *b"N2"], lines),
    )?;
    push_field(alloc, fields, b"note", value_at(&[*b"N1"], lines))?;
    push_keywords(alloc, fields, lines)
}

/// The fields that lines say, if the values of the lines are field texts.
fn read_fields(
    alloc: Global,
    kind: Kind,
    lines: &[RisLine],
) -> Result<Vec<(Text, Text)>, AllocError>
    ensures { IfOk result (λ fields. fields.items ≡ filter has_text (read_fields kind lines.now)) }
{
    let mut fields = Vec::with_capacity(alloc, lines.len().min(MOST_FIELDS))?;
    push_names(alloc, &mut fields, lines)?;
    push_booktitle(alloc, &mut fields, kind, lines)?;
    push_titles(alloc, &mut fields, kind, lines)?;
    push_numbers(alloc, &mut fields, lines)?;
    push_publishers(alloc, &mut fields, kind, lines)?;
    push_notes(alloc, &mut fields, lines)?;
    Ok(fields)
}

/// The record of a kind that lines say, if the values of the lines are field texts.
fn record_in(alloc: Global, kind: Kind, lines: &[RisLine]) -> Result<Record, AllocError>
    ensures { IfOk result (λ entry. entry ≡ record_in kind lines.now) }
{
    let fields = read_fields(alloc, kind, lines)?;
    Ok(Record {
        kind_name: copied(alloc, kind.entry_type())?,
        key: copied(alloc, value_at(&[*b"ID"], lines))?,
        fields: Seq::from_vec(fields),
    })
}

/// The record of a RIS record. Its values are read as field texts, and its key is the text after ID, empty if there is
/// no ID. docs/FORMAT-RIS.md says which tag gives which field. It takes time in the record's size. The one refusal is
/// want of memory.
pub fn from_ris(alloc: Global, ris: &RisRecord) -> Result<Record, MappingFault>
    ensures record { IfOk result (λ entry. entry ≡ back ris.now) }
    ensures memory { IfErr result (λ fault. fault ≡ Memory) }
{
    let kind = Kind::of_ris(ris.kind_name.as_slice());
    let lines = ris.lines.as_slice();
    // Most values are their own field text.
    if are_neat_lines(lines) {
        return Ok(record_in(alloc, kind, lines)?);
    }
    let lines = read_lines(alloc, lines)?;
    Ok(record_in(alloc, kind, lines.as_slice())?)
}

/// The record of a RIS record, where LaTeX prints each text as it is in RIS. The key and the texts of `url` and `doi` are
/// copied.
fn from_ris_escaped(alloc: Global, ris: &RisRecord) -> Result<Record, AllocError>
    ensures { IfOk result (λ entry. entry ≡ back_escaped ris.now) }
{
    let kind = Kind::of_ris(ris.kind_name.as_slice());
    let lines = escaped_lines(alloc, ris.lines.as_slice())?;
    record_in(alloc, kind, lines.as_slice())
}

/// The record of a RIS record, as `from_ris` makes it; or, with `latex`, with texts that LaTeX prints as they are in RIS: in
/// all texts except `url` and `doi`, a byte that LaTeX takes for a command is written so that LaTeX prints it
/// (docs/FORMAT-RIS.md). It takes time in the record's size. The one refusal is want of memory.
pub fn from_ris_as(alloc: Global, ris: &RisRecord, latex: bool) -> Result<Record, MappingFault>
    ensures record { IfOk result (λ entry. entry ≡ back_as latex ris.now) }
    ensures memory { IfErr result (λ fault. fault ≡ Memory) }
{
    if latex {
        return Ok(from_ris_escaped(alloc, ris)?);
    }
    from_ris(alloc, ris)
}

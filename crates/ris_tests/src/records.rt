//! Worked examples of the mapping.

use bib_data::Record;
use bib_text::{Seq, Text, copied};
use ris_format::{MappingFault, dropped_of, from_ris, in_profile, into_entry, to_entry, to_ris};
use ris_text::{RisLine, RisRecord};
use std::alloc::Global;
use std::test::Fail;

fn owned(alloc: Global, text: &[u8]) -> Result<Text, MappingFault> {
    Ok(copied(alloc, text)?)
}

/// A record of this type with the key `k1` and these fields.
fn entry(alloc: Global, kind: &[u8], fields: &[(&[u8], &[u8])]) -> Result<Record, MappingFault> {
    let mut all = Vec::new(alloc);
    for field in fields {
        all.push((owned(alloc, field.0)?, owned(alloc, field.1)?))?;
    }
    Ok(Record {
        kind_name: owned(alloc, kind)?,
        key: owned(alloc, b"k1")?,
        fields: Seq::from_vec(all),
    })
}

/// A RIS record of this type with these lines.
fn ris(alloc: Global, kind: &[u8], lines: &[([u8; 2], &[u8])]) -> Result<RisRecord, MappingFault> {
    let mut all = Vec::new(alloc);
    for line in lines {
        all.push(RisLine {
            tag: line.0,
            value: owned(alloc, line.1)?,
        })?;
    }
    Ok(RisRecord {
        kind_name: owned(alloc, kind)?,
        lines: Seq::from_vec(all),
    })
}

fn is_ris(record: &RisRecord, kind: &[u8], lines: &[([u8; 2], &[u8])]) -> bool {
    if record.kind_name.as_slice() != kind || record.lines.as_slice().len() != lines.len() {
        return false;
    }
    for (line, other) in record.lines.as_slice().iter().zip(lines.iter()) {
        if line.tag != other.0 || line.value.as_slice() != other.1 {
            return false;
        }
    }
    true
}

fn are_fields(fields: &[(Text, Text)], others: &[(&[u8], &[u8])]) -> bool {
    if fields.len() != others.len() {
        return false;
    }
    for (field, other) in fields.iter().zip(others.iter()) {
        if field.0.as_slice() != other.0 || field.1.as_slice() != other.1 {
            return false;
        }
    }
    true
}

const KING: [(&[u8], &[u8]); 6] = [
    (
        b"author",
        b"King, Jr, Martin Luther and de la Fontaine, Jean",
    ),
    (b"title", b"On Things"),
    (b"journal", b"J"),
    (b"year", b"1984"),
    (b"month", b"May"),
    (b"pages", b"10--20"),
];

const KING_LINES: [([u8; 2], &[u8]); 8] = [
    (*b"AU", b"King, Martin Luther, Jr"),
    (*b"AU", b"de la Fontaine, Jean"),
    (*b"TI", b"On Things"),
    (*b"JF", b"J"),
    (*b"PY", b"1984/05//"),
    (*b"SP", b"10"),
    (*b"EP", b"20"),
    (*b"ID", b"k1"),
];

/// Whether these are the names, in this order.
fn are_named(dropped: &[Text], names: &[&[u8]]) -> bool {
    dropped.len() == names.len()
        && dropped
            .iter()
            .zip(names)
            .all(|(name, other)| name.as_slice() == *other)
}

/// Whether a record is written as these lines, and only the fields with these names are dropped.
fn is_written(
    alloc: Global,
    record: &Record,
    kind: &[u8],
    lines: &[([u8; 2], &[u8])],
    names: &[&[u8]],
) -> Result<bool, MappingFault> {
    let (written, dropped) = to_ris(alloc, record)?;
    Ok(are_named(dropped.as_slice(), names) && is_ris(&written, kind, lines))
}

/// Whether a RIS record is read as a record of this type, with this key and these fields.
fn is_read(
    alloc: Global,
    record: &RisRecord,
    kind: &[u8],
    key: &[u8],
    fields: &[(&[u8], &[u8])],
) -> Result<bool, MappingFault> {
    let back = from_ris(alloc, record)?;
    Ok(
        back.kind_name.as_slice() == kind
            && back.key.as_slice() == key
            && are_fields(back.fields.as_slice(), fields),
    )
}

/// Whether the record is the same again after it is written and read.
fn comes_back(alloc: Global, record: &Record) -> Result<bool, MappingFault> {
    let (written, _dropped) = to_ris(alloc, record)?;
    is_read(alloc, &written, b"article", b"k1", &KING)
}

/// Whether the record of the profile is written as its lines say, and comes back.
fn is_kept(alloc: Global, record: &Record) -> Result<bool, MappingFault> {
    Ok(
        in_profile(alloc, record)?
            && is_written(alloc, record, b"JOUR", &KING_LINES, &[])?
            && comes_back(alloc, record)?,
    )
}

#[test]
fn an_article_is_written_and_read_back(rt: HostRuntime) -> Result<(), Fail> {
    let record = entry(rt.alloc(), b"article", &KING)?;
    assert!(rt; is_kept(rt.alloc(), &record)?);
    Ok(())
}

#[test]
fn texts_of_a_new_entry_stand_in_braces(rt: HostRuntime) -> Result<(), Fail> {
    let alloc = rt.alloc();
    let record = entry(alloc, b"article", &KING)?;
    let made = to_entry(alloc, &record)?;
    let fields: [(&[u8], &[u8]); 6] = [
        (
            b"author",
            b"{King, Jr, Martin Luther and de la Fontaine, Jean}",
        ),
        (b"title", b"{On Things}"),
        (b"journal", b"{J}"),
        (b"year", b"{1984}"),
        (b"month", b"{May}"),
        (b"pages", b"{10--20}"),
    ];
    assert!(rt; are_fields(made.fields.as_slice(), &fields));
    let made = into_entry(alloc, record)?;
    assert!(rt; are_fields(made.fields.as_slice(), &fields));
    Ok(())
}

#[test]
fn a_text_that_is_not_balanced_is_refused(rt: HostRuntime) -> Result<(), Fail> {
    let alloc = rt.alloc();
    let record = entry(alloc, b"misc", &[(b"title", b"a}b")])?;
    match to_entry(alloc, &record) {
        Err(fault) => assert!(rt; fault.number() == 64),
        Ok(_) => assert!(rt; false),
    }
    match into_entry(alloc, record) {
        Err(fault) => assert!(rt; fault.number() == 64),
        Ok(_) => assert!(rt; false),
    }
    Ok(())
}

#[test]
fn what_cannot_be_written_is_named(rt: HostRuntime) -> Result<(), Fail> {
    let alloc = rt.alloc();
    let fields: [(&[u8], &[u8]); 7] = [
        (b"author", b"a, b, c, d"),
        (b"foo", b"x"),
        (b"bar", b""),
        (b"year", b"1984/5"),
        (b"month", b"5"),
        (b"title", b"T"),
        (b"keywords", b"a,b; c , ,"),
    ];
    let lines: [([u8; 2], &[u8]); 4] = [
        (*b"TI", b"T"),
        (*b"KW", b"a"),
        (*b"KW", b"b; c"),
        (*b"ID", b"k1"),
    ];
    let names: [&[u8]; 4] = [b"author", b"foo", b"year", b"month"];
    let record = entry(alloc, b"foo", &fields)?;
    assert!(rt; is_written(alloc, &record, b"GEN", &lines, &names)?);
    Ok(())
}

#[test]
fn a_field_of_which_nothing_is_written_is_named(rt: HostRuntime) -> Result<(), Fail> {
    let alloc = rt.alloc();
    let fields: [(&[u8], &[u8]); 6] = [
        (b"author", b"~"),
        (b"editor", b","),
        (b"keywords", b",, "),
        (b"note", b"~"),
        (b"booktitle", b"B"),
        (b"url", b""),
    ];
    let lines: [([u8; 2], &[u8]); 2] = [(*b"N1", b"~"), (*b"ID", b"k1")];
    let names: [&[u8]; 4] = [b"author", b"editor", b"keywords", b"booktitle"];
    let record = entry(alloc, b"article", &fields)?;
    assert!(rt; is_written(alloc, &record, b"JOUR", &lines, &names)?);
    let dropped = dropped_of(alloc, &record)?;
    assert!(rt; are_named(dropped.as_slice(), &names));
    Ok(())
}

#[test]
fn lines_of_others_are_read(rt: HostRuntime) -> Result<(), Fail> {
    let alloc = rt.alloc();
    let lines: [([u8; 2], &[u8]); 11] = [
        (*b"A1", b"King, , Jr"),
        (*b"AU", b"a, b, c, d"),
        (*b"AU", b"Barnes and Noble"),
        (*b"AU", b"{a"),
        (*b"T1", b"  One   two "),
        (*b"T2", b"J"),
        (*b"Y1", b" 1984 / 005/x"),
        (*b"EP", b"20"),
        (*b"N2", b"About"),
        (*b"KW", b"a, b"),
        (*b"KW", b"c"),
    ];
    let fields: [(&[u8], &[u8]); 8] = [
        (
            b"author",
            b"King, Jr, {} and {a, b, c, d} and {Barnes and Noble} and {a",
        ),
        (b"title", b"One two"),
        (b"journal", b"J"),
        (b"year", b"1984"),
        (b"month", b"May"),
        (b"pages", b"20"),
        (b"abstract", b"About"),
        (b"keywords", b"a, b, c"),
    ];
    let record = ris(alloc, b"JOUR", &lines)?;
    assert!(rt; is_read(alloc, &record, b"article", b"", &fields)?);
    Ok(())
}

//! Files read, refused and written.

use bib_text::{Seq, Text, copied};
use ris_text::{RisFault, RisLine, RisRecord, SkippedLines, are_well_formed, read_ris, write_ris};
use std::alloc::Global;
use std::test::Fail;

fn owned(alloc: Global, text: &[u8]) -> Result<Text, RisFault> {
    Ok(copied(alloc, text)?)
}

/// The records of a file, written as text again, if they can be written.
fn again(alloc: Global, file: &[u8]) -> Result<Option<Text>, RisFault> {
    let file = read_ris(alloc, file)?;
    let records = file.records.as_slice();
    if are_well_formed(records) {
        Ok(Some(write_ris(alloc, records)?))
    } else {
        Ok(None)
    }
}

fn is_again(alloc: Global, file: &[u8], expected: &[u8]) -> Result<bool, RisFault> {
    match again(alloc, file)? {
        Some(text) => Ok(text.as_slice() == expected),
        None => Ok(false),
    }
}

fn skipped(alloc: Global, file: &[u8]) -> Result<u64, RisFault> {
    Ok(read_ris(alloc, file)?.skipped)
}

/// Whether the file is refused with this number at this place.
fn is_refused(alloc: Global, file: &[u8], number: u16, place: usize) -> bool {
    match read_ris(alloc, file) {
        Ok(_) => false,
        Err(fault) => fault.number() == number && fault.place() == Some(place),
    }
}

#[test]
fn lines_without_a_tag_continue_a_value(rt: HostRuntime) -> Result<(), Fail> {
    let alloc = rt.alloc();
    let file = b"\xef\xbb\xbfTY  - JOUR\r\nXX  - q\r\nTI  - A\r\n  long one\r\n\r\nER  -\r\n";
    assert!(rt; is_again(alloc, file, b"TY  - JOUR\nTI  - A long one\nER  - \n")?);
    assert!(rt; skipped(alloc, file)? == 1);
    Ok(())
}

#[test]
fn faults_stand_at_the_lines_that_show_them(rt: HostRuntime) -> Result<(), Fail> {
    let alloc = rt.alloc();
    assert!(rt; is_refused(alloc, b"AU  - x\n", 61, 0));
    assert!(rt; is_refused(alloc, b"ER  -\n", 61, 0));
    assert!(rt; is_refused(alloc, b"\xef\xbb\xbf\nZ9  -", 61, 4));
    assert!(rt; is_refused(alloc, b"TY  - BOOK\n", 62, 11));
    assert!(rt; is_refused(alloc, b"TY  -\n\nTY  - BOOK\nER  -\n", 62, 7));
    assert!(rt; is_refused(alloc, b"TY  -\nER  -\n", 63, 0));
    assert!(rt; is_refused(alloc, b"x\nTY  -\n \nTI  - A\nER  - B\n", 63, 2));
    Ok(())
}

#[test]
fn lines_outside_records_are_counted_unless_blank(rt: HostRuntime) -> Result<(), Fail> {
    let alloc = rt.alloc();
    let file = b"a\n \t\nTY  -BOOK \n of \n\nX1  - y\nz\nKW  -\n\tk\nER  - v\nb\n\nc";
    assert!(rt; is_again(alloc, file, b"TY  - BOOK of\nKW  - k\nER  - \n")?);
    assert!(rt; skipped(alloc, file)? == 4);
    assert!(rt; skipped(alloc, b"")? == 0);
    assert!(rt; skipped(alloc, b"TI -no tag\nt1  - nor this")? == 2);
    Ok(())
}

/// Whether these lines of the file are skipped: their numbers, places and bytes.
fn skips(file: &[u8], expected: &[(usize, usize, &[u8])]) -> bool {
    let mut rest = SkippedLines::of(file);
    for (number, place, bytes) in expected {
        let Some((line, after)) = rest.next() else {
            return false;
        };
        if line.number != *number || line.place != *place || line.bytes != *bytes {
            return false;
        }
        rest = after;
    }
    rest.next().is_none()
}

#[test]
fn skipped_lines_are_found_where_they_stand(rt: HostRuntime) -> Result<(), Fail> {
    let file = b"\xef\xbb\xbfa\r\nTY  - GEN\nX1  - y\n z\nTI  - t\nX2  - \nER  - \n\nb";
    let expected: [(usize, usize, &[u8]); 4] = [
        (1, 3, b"a\r"),
        (3, 16, b"X1  - y"),
        (6, 35, b"X2  - "),
        (9, 50, b"b"),
    ];
    assert!(rt; skips(file, &expected));
    assert!(rt; skips(b"TY  - GEN\n\nq\nER  - \n \n", &[]));
    Ok(())
}

/// One record with one line.
fn one_record(
    alloc: Global,
    kind_name: &[u8],
    tag: [u8; 2],
    value: &[u8],
) -> Result<Seq<RisRecord>, RisFault> {
    let mut lines = Vec::new(alloc);
    let value = owned(alloc, value)?;
    lines.push(RisLine { tag, value })?;
    let mut records = Vec::new(alloc);
    records.push(RisRecord {
        kind_name: owned(alloc, kind_name)?,
        lines: Seq::from_vec(lines),
    })?;
    Ok(Seq::from_vec(records))
}

/// The text of one record with one line, if the record is well formed.
fn written(
    alloc: Global,
    kind_name: &[u8],
    tag: [u8; 2],
    value: &[u8],
) -> Result<Option<Text>, RisFault> {
    let records = one_record(alloc, kind_name, tag, value)?;
    if are_well_formed(records.as_slice()) {
        Ok(Some(write_ris(alloc, records.as_slice())?))
    } else {
        Ok(None)
    }
}

fn is_written(alloc: Global, expected: &[u8]) -> Result<bool, RisFault> {
    match written(alloc, b"GEN", *b"TI", b"")? {
        Some(text) => Ok(text.as_slice() == expected),
        None => Ok(false),
    }
}

#[test]
fn what_is_written_is_read_back(rt: HostRuntime) -> Result<(), Fail> {
    let expected: &[u8] = b"TY  - GEN\nTI  - \nER  - \n";
    assert!(rt; is_written(rt.alloc(), expected)?);
    assert!(rt; is_again(rt.alloc(), expected, expected)?);
    Ok(())
}

#[test]
fn a_record_that_is_read_otherwise_is_not_well_formed(rt: HostRuntime) -> Result<(), Fail> {
    let rows: [(&[u8], [u8; 2], &[u8]); 6] = [
        (b"", *b"TI", b"a"),
        (b"GEN", *b"XX", b"a"),
        (b"GEN", *b"ER", b"a"),
        (b"GEN", *b"TI", b" a"),
        (b"GEN", *b"TI", b"a\rb"),
        (b"GEN", *b"TI", b"a\nER  - "),
    ];
    for (kind_name, tag, value) in rows {
        assert!(rt; written(rt.alloc(), kind_name, tag, value)?.is_none());
    }
    Ok(())
}

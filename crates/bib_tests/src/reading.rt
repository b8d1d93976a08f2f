//! Files read, and files refused at a place.

use bib_scan::{FILE_LIMIT, ReadFault, Reader, read};
use std::alloc::{AllocError, Global};
use std::test::Fail;

/// How many items the file has, or the number and place of its fault.
#[derive(Clone, Copy, Debug, PartialEq, Eq)]
enum Outcome {
    Items(usize),
    Fault(u8, usize),
}

fn answer(alloc: Global, bytes: &[u8]) -> Outcome {
    match read(alloc, bytes) {
        Ok(layout) => Outcome::Items(layout.len()),
        Err(fault) => Outcome::Fault(fault.kind, fault.place),
    }
}

const ACCEPTED: &[(&[u8], usize)] = &[
    (b"", 0),
    (b"no command", 0),
    (b"@1misc{a}", 0),
    (b"@misc{ }", 1),
    (b"@misc(a )", 1),
    (b"@misc{a, @b = @x,}", 1),
    (
        b"@string{p = {A} # 1 # q}@preamble( \"a{\"}\" )@misc(, a = 1 , )",
        3,
    ),
    (b"@misc @misc{a}", 1),
    // a command inside a comment is an item
    (b"@comment{ @misc{a}}", 2),
    (b"@COMMENT@misc{a}", 2),
];

const REFUSED: &[(&[u8], u8, usize)] = &[
    // faults inside a value
    (b"@misc{a, t = \"x}y\"}", 6, 15),
    (b"@misc{a, t {x}}", 3, 11),
    (b"@misc{a, t = }", 5, 13),
    (b"@misc{a, t = {x}", 1, 16),
    (b"@misc{a, t = 1a}", 4, 14),
    (b"@misc{a, t = \"x\" #}", 5, 18),
    // other faults inside an item
    (b"@misc{a b}", 4, 8),
    (b"@misc{a,,}", 2, 8),
    (b"@misc(a)", 1, 8),
    (b"@misc( )", 1, 8),
    (b"@string{a=1,}", 4, 11),
    (b"@preamble{}", 5, 10),
];

#[test]
fn files_are_read_or_refused_at_a_place(rt: HostRuntime) {
    for (bytes, items) in ACCEPTED {
        assert_eq!(rt; answer(rt.alloc(), bytes), Outcome::Items(*items));
    }
    for (bytes, kind, place) in REFUSED {
        assert_eq!(rt; answer(rt.alloc(), bytes), Outcome::Fault(*kind, *place));
    }
}

/// The front, then the byte `middle` `count` times, then the end.
fn joined(
    alloc: Global,
    front: &[u8],
    middle: u8,
    count: usize,
    end: &[u8],
) -> Result<Vec<u8>, AllocError> {
    let mut text = Vec::from_slice(alloc, front)?;
    for _ in 0..count {
        text.push(middle)?;
    }
    text.extend_from_slice(end)?;
    Ok(text)
}

/// A file with one byte many times, and what reading it gives.
#[derive(Clone, Copy)]
struct Long<'a> {
    name: &'a str,
    front: &'a [u8],
    middle: u8,
    count: usize,
    end: &'a [u8],
    outcome: Outcome,
}

const LONG: &[Long<'static>] = &[
    Long {
        name: "a key of 255 bytes",
        front: b"@misc{",
        middle: b'k',
        count: 255,
        end: b"}",
        outcome: Outcome::Items(1),
    },
    Long {
        name: "a key of 256 bytes",
        front: b"@misc{",
        middle: b'k',
        count: 256,
        end: b"}",
        outcome: Outcome::Fault(7, 261),
    },
    Long {
        name: "a field's name of 256 bytes",
        front: b"@misc{a,",
        middle: b'n',
        count: 256,
        end: b"=1}",
        outcome: Outcome::Fault(7, 263),
    },
    Long {
        name: "a macro's name of 256 bytes",
        front: b"@misc{a,t=",
        middle: b'n',
        count: 256,
        end: b"}",
        outcome: Outcome::Fault(7, 265),
    },
    Long {
        name: "a type's name of 256 bytes",
        front: b"@",
        middle: b't',
        count: 256,
        end: b"{a}",
        outcome: Outcome::Items(0),
    },
    Long {
        name: "the longest file",
        front: b"",
        middle: b'x',
        count: FILE_LIMIT,
        end: b"",
        outcome: Outcome::Items(0),
    },
    Long {
        name: "a file one byte longer",
        front: b"",
        middle: b'x',
        count: FILE_LIMIT,
        end: b"x",
        outcome: Outcome::Fault(9, 16_777_216),
    },
];

fn answer_to_long(alloc: Global, row: &Long<'_>) -> Result<Outcome, AllocError> {
    let bytes = joined(alloc, row.front, row.middle, row.count, row.end)?;
    Ok(answer(alloc, bytes.as_slice()))
}

#[test]
fn names_keys_and_files_have_limits(rt: HostRuntime) -> Result<(), Fail> {
    for row in LONG {
        assert!(rt;
            answer_to_long(rt.alloc(), row)? == row.outcome,
            "{}",
            row.name
        );
    }
    Ok(())
}

/// What reading gives for a value with braces nested `depth` deep, and then the end.
fn answer_to_nested(alloc: Global, depth: usize, end: &[u8]) -> Result<Outcome, AllocError> {
    let closing = joined(alloc, b"", b'}', depth, end)?;
    let bytes = joined(alloc, b"@misc{a,t=", b'{', depth, closing.as_slice())?;
    Ok(answer(alloc, bytes.as_slice()))
}

#[test]
fn braces_nest_500_000_deep(rt: HostRuntime) -> Result<(), Fail> {
    let open = answer_to_nested(rt.alloc(), 500_000, b"")?;
    let whole = answer_to_nested(rt.alloc(), 500_000, b"}")?;
    assert!(rt; open == Outcome::Fault(1, 1_000_010) && whole == Outcome::Items(1));
    Ok(())
}

/// Whether the first item is seen, and then the fault after it.
fn is_read_up_to_a_fault(reader: &mut Reader<'_>) -> Result<bool, ReadFault> {
    let is_first = match reader.next_item()? {
        Some(item) => item.body == b"@a{x,}".as_slice() && item.start == 15,
        None => false,
    };
    match reader.next_item() {
        Ok(_) => Ok(false),
        Err(fault) => Ok(is_first && fault.kind == 3 && fault.place == 31),
    }
}

#[test]
fn items_are_read_one_by_one_up_to_a_fault(rt: HostRuntime) -> Result<(), Fail> {
    let mut reader = Reader::new(rt.alloc(), b"mail joe@x.org\n@a{x,} so\n@b{y,z}")?;
    assert!(rt; is_read_up_to_a_fault(&mut reader)?);
    Ok(())
}

/// What reading gives for an entry whose value has `apart` bytes before, between and after its braces, and the length
/// of the file.
fn answer_to_apart(
    alloc: Global,
    apart: usize,
    end: &[u8],
) -> Result<(Outcome, usize), AllocError> {
    let back = joined(alloc, b"}", b'z', apart, end)?;
    let middle = joined(alloc, b"{", b'y', apart, back.as_slice())?;
    let bytes = joined(alloc, b"@misc{a,t={", b'x', apart, middle.as_slice())?;
    Ok((answer(alloc, bytes.as_slice()), bytes.len()))
}

fn are_found(alloc: Global, apart: usize) -> Result<bool, AllocError> {
    let (whole, _) = answer_to_apart(alloc, apart, b"}}")?;
    let (open, end) = answer_to_apart(alloc, apart, b"}")?;
    Ok(whole == Outcome::Items(1) && open == Outcome::Fault(1, end))
}

#[test]
fn braces_are_found_however_far_apart(rt: HostRuntime) -> Result<(), Fail> {
    for apart in 0..70 {
        assert!(rt; are_found(rt.alloc(), apart)?, "{apart} bytes apart");
    }
    Ok(())
}

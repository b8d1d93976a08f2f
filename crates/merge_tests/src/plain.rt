//! Merges that need no search.

ghost use Rattle.std.specs.Prelude.{◌≡◌, IfOk};

use bib_places::{Side, is_merge, merged_text, plain_places};
use bib_store::{Database, Paged};
use bib_units::{FileUnits, comments_of, units_of};
use std::alloc::{AllocError, Global};
use std::test::Fail;

/// Opens a file.
fn opened(alloc: Global, file: &[u8]) -> Result<Database<Paged>, AllocError>
    ensures { IfOk result (λ db. db ≡ file.now) }
{
    match Database::open_bytes(alloc, file, Paged::new(alloc)) {
        Ok(db) => Ok(db),
        Err(_) => Err(AllocError),
    }
}

/// Whether the merge of these files that needs no search has this text.
fn gives(alloc: Global, base: &[u8], ours: &[u8], theirs: &[u8], text: &[u8]) -> bool {
    match has_text(alloc, base, ours, theirs, text) {
        Ok(has) => has,
        Err(_) => false,
    }
}

/// The same, if memory does not run out.
fn has_text(
    alloc: Global,
    base: &[u8],
    ours: &[u8],
    theirs: &[u8],
    text: &[u8],
) -> Result<bool, AllocError> {
    let b = opened(alloc, base)?;
    has_text_over(alloc, &b, ours, theirs, text)
}

/// The same, of which the common file is open.
fn has_text_over(
    alloc: Global,
    b: &Database<Paged>,
    ours: &[u8],
    theirs: &[u8],
    text: &[u8],
) -> Result<bool, AllocError> {
    let comments = comments_of(alloc, b)?;
    let of_base = units_of(alloc, b, &comments)?;
    has_text_with_base(alloc, b, &of_base, ours, theirs, text)
}

/// The same, of which the common file has these units.
fn has_text_with_base(
    alloc: Global,
    b: &Database<Paged>,
    of_base: &FileUnits<'_>,
    ours: &[u8],
    theirs: &[u8],
    text: &[u8],
) -> Result<bool, AllocError> {
    let o = opened(alloc, ours)?;
    has_text_between(alloc, b, of_base, &o, theirs, text)
}

/// The same, of which ours is open, too.
fn has_text_between(
    alloc: Global,
    b: &Database<Paged>,
    of_base: &FileUnits<'_>,
    o: &Database<Paged>,
    theirs: &[u8],
    text: &[u8],
) -> Result<bool, AllocError> {
    let comments = comments_of(alloc, o)?;
    let of_ours = units_of(alloc, o, &comments)?;
    has_text_with_ours(alloc, b, of_base, o, &of_ours, theirs, text)
}

/// The same, of which ours has these units.
fn has_text_with_ours(
    alloc: Global,
    b: &Database<Paged>,
    of_base: &FileUnits<'_>,
    o: &Database<Paged>,
    of_ours: &FileUnits<'_>,
    theirs: &[u8],
    text: &[u8],
) -> Result<bool, AllocError> {
    let t = opened(alloc, theirs)?;
    has_text_of(alloc, b, of_base, o, of_ours, &t, text)
}

/// The same of open files.
fn has_text_of(
    alloc: Global,
    b: &Database<Paged>,
    of_base: &FileUnits<'_>,
    o: &Database<Paged>,
    of_ours: &FileUnits<'_>,
    t: &Database<Paged>,
    text: &[u8],
) -> Result<bool, AllocError> {
    let comments = comments_of(alloc, t)?;
    let of_theirs = units_of(alloc, t, &comments)?;
    is_text(alloc, b, of_base, o, of_ours, t, &of_theirs, text)
}

/// The same of open files with these units.
fn is_text(
    alloc: Global,
    b: &Database<Paged>,
    of_base: &FileUnits<'_>,
    o: &Database<Paged>,
    of_ours: &FileUnits<'_>,
    t: &Database<Paged>,
    of_theirs: &FileUnits<'_>,
    text: &[u8],
) -> Result<bool, AllocError> {
    let base = Side {
        db: b,
        units: of_base.units.as_slice(),
    };
    let ours = Side {
        db: o,
        units: of_ours.units.as_slice(),
    };
    let theirs = Side {
        db: t,
        units: of_theirs.units.as_slice(),
    };
    let given = Vec::new(alloc);
    let given = given.as_slice();
    let places = plain_places(alloc, given, &base, &ours, &theirs)?;
    let places = places.as_slice();
    if !is_merge(alloc, given, &base, &ours, &theirs, places)? {
        return Ok(false);
    }
    let merged = merged_text(alloc, &ours, &theirs, b"", places)?;
    Ok(merged.as_slice() == text)
}

#[test]
fn units_meet_in_whatever_order(rt: HostRuntime) -> Result<(), Fail> {
    let alloc = rt.alloc();
    let base = b"@misc{a}\n@misc{b}\n@misc{c}\n";
    let set = b"@misc{a}\n@misc{b, t = 1}\n@misc{c}\n";
    assert!(rt; gives(alloc, base, base, base, base));
    assert!(rt; gives(alloc, base, set, base, set));
    assert!(rt; gives(alloc, base, base, set, set));
    // the order is that of the common file
    assert!(rt;
        gives(
            alloc,
            base,
            b"@misc{c}\n@misc{b, t = 1}\n@misc{a}\n",
            b"@misc{c}\n@misc{b}\n@misc{a}\n",
            set
        )
    );
    assert!(rt;
        gives(
            alloc,
            base,
            b"@misc{c}\n@misc{A}\n",
            b"@misc{c}\n@misc{b}\n@misc{a}\n",
            b"@misc{A}\n@misc{c}\n"
        )
    );
    Ok(())
}

#[test]
fn units_of_one_label_meet_in_their_order(rt: HostRuntime) -> Result<(), Fail> {
    let alloc = rt.alloc();
    // the second unit of the common file meets ours, and the first of theirs the first
    assert!(rt;
        gives(
            alloc,
            b"@misc{a, t = 1}\n@misc{a, t = 2}\n",
            b"@misc{a, t = 1}\n@misc{b}\n@misc{a, t = 2}\n",
            b"@misc{c}\n@misc{a, t = 1}\n@misc{a, t = 3}\n",
            b"@misc{a, t = 1}\n@misc{a, t = 3}\n@misc{b}\n@misc{c}\n"
        )
    );
    // a text between items is there as often as in the file that has it more often
    assert!(rt;
        gives(
            alloc,
            b"x\n",
            b"x\n@misc{a}\nx\n",
            b"x\n@misc{b}\nx\n@misc{c}\nx\n",
            b"x\n@misc{a}\nx\n@misc{b}\n@misc{c}\nx\n"
        )
    );
    Ok(())
}

#[test]
fn what_one_side_added_or_took_away_is_followed(rt: HostRuntime) -> Result<(), Fail> {
    let alloc = rt.alloc();
    let file = b"@misc{a}\n@string{m = 1}\n% x\n";
    assert!(rt; gives(alloc, b"", b"", b"", b""));
    assert!(rt; gives(alloc, file, b"", file, b""));
    assert!(rt; gives(alloc, file, file, b"", b""));
    assert!(rt; gives(alloc, b"", b"", file, file));
    assert!(rt; gives(alloc, b"", file, b"", file));
    assert!(rt;
        gives(
            alloc,
            b"@misc{a}\n",
            b"@misc{b}\n@misc{a}\n",
            b"@misc{c}\n",
            b"@misc{b}\n@misc{c}\n"
        )
    );
    Ok(())
}

#[test]
fn what_both_sides_added_is_there_once(rt: HostRuntime) -> Result<(), Fail> {
    let alloc = rt.alloc();
    assert!(rt;
        gives(
            alloc,
            b"",
            b"@misc{a}\n@misc{b}\n",
            b"@misc{b}\n@misc{a}\n",
            b"@misc{a}\n@misc{b}\n"
        )
    );
    assert!(rt;
        gives(
            alloc,
            b"",
            b"@misc{a}\n",
            b"@misc{a}\n@misc{A}\n",
            b"@misc{a}\n@misc{A}\n"
        )
    );
    assert!(rt;
        gives(
            alloc,
            b"",
            b"@misc{a, t = 1}\n",
            b"@misc{a, t = 2}\n",
            b"<<<<<<< ours\n@misc{a, t = 1}\n=======\n@misc{a, t = 2}\n>>>>>>> theirs\n"
        )
    );
    Ok(())
}

/// Adds an entry whose key has the digits of this number.
fn add_entry(file: &mut Vec<u8>, n: usize) -> Result<(), AllocError> {
    file.extend_from_slice(b"@misc{k")?;
    let mut rest = n;
    for _ in 0..5 {
        file.push(b'0' + (rest % 10) as u8)?;
        rest = rest / 10;
    }
    file.extend_from_slice(b"}\n")?;
    Ok(())
}

/// A file of this many entries.
fn ascending(alloc: Global, count: usize) -> Result<Vec<u8>, AllocError> {
    let mut file = Vec::new(alloc);
    for n in 0..count {
        add_entry(&mut file, n)?;
    }
    Ok(file)
}

/// The same file in the opposite order.
fn descending(alloc: Global, count: usize) -> Result<Vec<u8>, AllocError> {
    let mut file = Vec::new(alloc);
    for n in 0..count {
        add_entry(&mut file, count - 1 - n)?;
    }
    Ok(file)
}

/// Whether files of this many entries in opposite orders give the common file.
fn gives_first_order(alloc: Global, count: usize) -> Result<bool, AllocError> {
    let base = ascending(alloc, count)?;
    let other = descending(alloc, count)?;
    let (first, opposite) = (base.as_slice(), other.as_slice());
    let has = has_text(alloc, first, opposite, opposite, first)?;
    Ok(has)
}

#[test]
fn many_units_in_opposite_orders_meet_quickly(rt: HostRuntime) -> Result<(), Fail> {
    let alloc = rt.alloc();
    match gives_first_order(alloc, 20_000) {
        Ok(gives) => assert!(rt; gives),
        Err(_) => assert!(rt; false),
    }
    Ok(())
}

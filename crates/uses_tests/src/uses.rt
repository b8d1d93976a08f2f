//! Uses of macros in small files.

use bib_store::{Database, Flat};
use bib_uses::{LostUse, lost_uses};
use std::alloc::{AllocError, Global};
use std::test::Fail;

/// The lost uses, a line each.
fn lines(alloc: Global, lost: &[LostUse]) -> Result<Vec<u8>, AllocError> {
    let mut out = Vec::new(alloc);
    'lost: for k in 0..lost.len() {
        out.extend_from_slice(lost[k].name.as_slice())?;
        out.extend_from_slice(b" in ")?;
        out.extend_from_slice(lost[k].key.as_slice())?;
        out.push(b'\n')?;
    }
    Ok(out)
}

/// Whether these are the lost uses of a merge of two open sides, a line each.
fn are_lost(
    alloc: Global,
    ours: &Database<Flat>,
    theirs: &Database<Flat>,
    merged: &Database<Flat>,
    lost: &[u8],
) -> Result<bool, AllocError> {
    let found = lost_uses(alloc, ours, theirs, merged)?;
    let told = lines(alloc, found.as_slice())?;
    Ok(told.as_slice() == lost)
}

/// The same of a merge with these bytes.
fn merge_loses(
    alloc: Global,
    ours: &Database<Flat>,
    theirs: &Database<Flat>,
    merged: &[u8],
    lost: &[u8],
) -> bool {
    match Database::open_bytes(alloc, merged, Flat::new(alloc)) {
        Ok(m) => are_lost(alloc, ours, theirs, &m, lost).unwrap_or(false),
        Err(_) => false,
    }
}

/// The same of a side with these bytes and an open one.
fn sides_lose(
    alloc: Global,
    ours: &Database<Flat>,
    theirs: &[u8],
    merged: &[u8],
    lost: &[u8],
) -> bool {
    match Database::open_bytes(alloc, theirs, Flat::new(alloc)) {
        Ok(t) => merge_loses(alloc, ours, &t, merged, lost),
        Err(_) => false,
    }
}

/// Whether these are the lost uses of a merge of two sides, a line each.
fn loses(alloc: Global, ours: &[u8], theirs: &[u8], merged: &[u8], lost: &[u8]) -> bool {
    match Database::open_bytes(alloc, ours, Flat::new(alloc)) {
        Ok(o) => sides_lose(alloc, &o, theirs, merged, lost),
        Err(_) => false,
    }
}

/// One definition, and an entry that uses it.
const ONE: &[u8] = b"@string{x = 1}\n@misc{k, t = x}\n";

/// Two definitions, and after them an entry that uses the macro.
const TWO: &[u8] = b"@string{x = 1}\n@string{x = 2}\n@misc{k, t = x}\n";

#[test]
fn a_merge_that_is_one_of_its_sides_loses_nothing(rt: HostRuntime) -> Result<(), Fail> {
    let alloc = rt.alloc();
    assert!(rt; loses(alloc, b"", b"", b"", b""));
    assert!(rt; loses(alloc, ONE, ONE, ONE, b""));
    assert!(rt; loses(alloc, ONE, TWO, ONE, b""));
    assert!(rt; loses(alloc, ONE, TWO, TWO, b""));
    // also where two entries have one key
    let twice = b"@string{x = 1}\n@misc{k, t = x}\n@string{x = 2}\n@misc{k, t = x}\n";
    assert!(rt; loses(alloc, twice, twice, twice, b""));
    Ok(())
}

#[test]
fn a_use_that_finds_another_definition_is_lost(rt: HostRuntime) -> Result<(), Fail> {
    let alloc = rt.alloc();
    // their value, behind our second definition
    let theirs = b"@string{x = 1}\n@misc{k, t = x, u = X # \"a\"}\n";
    let merged = b"@string{x = 1}\n@string{x = 2}\n@misc{k, t = x, u = X # \"a\"}\n";
    assert!(rt; loses(alloc, TWO, theirs, merged, b"x in k\n"));
    assert!(rt; loses(alloc, theirs, TWO, merged, b"x in k\n"));
    // the definition is gone
    assert!(rt; loses(alloc, ONE, ONE, b"@misc{k, t = x}\n", b"x in k\n"));
    // it comes after the use
    assert!(rt;
        loses(
            alloc,
            ONE,
            ONE,
            b"@misc{k, t = x}\n@string{x = 1}\n",
            b"x in k\n"
        )
    );
    Ok(())
}

#[test]
fn a_use_that_finds_what_it_finds_on_one_side_is_kept(rt: HostRuntime) -> Result<(), Fail> {
    let alloc = rt.alloc();
    // we moved the entry behind the second definition, and both have the value
    let theirs = b"@string{x = 1}\n@misc{k, t = x}\n@string{x = 2}\n";
    assert!(rt; loses(alloc, TWO, theirs, TWO, b""));
    // they changed the value as well
    let changed = b"@string{x = 1}\n@misc{k, t = x # \"a\"}\n@string{x = 2}\n";
    let merged = b"@string{x = 1}\n@string{x = 2}\n@misc{k, t = x # \"a\"}\n";
    assert!(rt; loses(alloc, TWO, changed, merged, b"x in k\n"));
    Ok(())
}

#[test]
fn a_use_that_finds_nothing_on_its_side_may_find_anything(rt: HostRuntime) -> Result<(), Fail> {
    let alloc = rt.alloc();
    let undefined = b"@misc{k, t = x}\n";
    let defined = b"@string{x = 1}\n";
    assert!(rt; loses(alloc, undefined, defined, ONE, b""));
    assert!(rt; loses(alloc, defined, undefined, ONE, b""));
    // one side is enough
    assert!(rt; loses(alloc, ONE, undefined, TWO, b""));
    Ok(())
}

#[test]
fn months_are_found_like_other_macros(rt: HostRuntime) -> Result<(), Fail> {
    let alloc = rt.alloc();
    let month = b"@misc{k, t = jan}\n";
    let mine = b"@string{Jan = 1}\n@misc{k, t = jan}\n";
    assert!(rt; loses(alloc, month, month, month, b""));
    assert!(rt; loses(alloc, month, b"", mine, b""));
    assert!(rt; loses(alloc, mine, mine, month, b"jan in k\n"));
    Ok(())
}

#[test]
fn a_use_from_neither_side_is_kept(rt: HostRuntime) -> Result<(), Fail> {
    let alloc = rt.alloc();
    // another value, another field, another entry
    assert!(rt; loses(alloc, ONE, ONE, b"@misc{k, t = x # x}\n", b""));
    assert!(rt; loses(alloc, ONE, ONE, b"@misc{k, u = x}\n", b""));
    assert!(rt; loses(alloc, ONE, ONE, b"@misc{m, t = x}\n", b""));
    assert!(rt; loses(alloc, ONE, ONE, b"@misc{, t = x}\n", b""));
    // names and keys are compared without regard to case
    assert!(rt; loses(alloc, ONE, ONE, b"@misc{K, T = x}\n", b"x in K\n"));
    Ok(())
}

#[test]
fn lost_uses_stand_in_order_and_once_for_an_entry(rt: HostRuntime) -> Result<(), Fail> {
    let alloc = rt.alloc();
    let ours = b"@string{x = 1}\n@string{y = 1}\n@misc{b, t = y # x # Y, u = X}\n@book{a, t = x}\n";
    let merged = b"@misc{b, t = y # x # Y, u = X}\n@book{a, t = x}\n";
    assert!(rt; loses(alloc, ours, ours, merged, b"y in b\nx in b\nx in a\n"));
    // of fields with one name on a side, the first counts
    let fields = b"@string{x = 1}\n@misc{b, t = 1, t = x}\n";
    assert!(rt; loses(alloc, fields, fields, b"@misc{b, t = 1, t = x}\n", b""));
    Ok(())
}

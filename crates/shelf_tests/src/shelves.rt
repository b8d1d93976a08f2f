//! Shelves of small files.

use bib_shelf::{Joined, Shelf, ShelfFault, seam};
use bib_store::Paged;
use std::alloc::{AllocError, Global};
use std::test::Fail;

/// How many items and how many entries the shelf has. The comments between files are items.
fn counts(alloc: Global, files: &[&[u8]]) -> Result<(usize, usize), ShelfFault> {
    let shelf = Shelf::open(alloc, files, Paged::new(alloc))?;
    let db = shelf.database();
    Ok((db.item_count(), db.entry_count()))
}

/// The number of the entry that a key finds, if it finds one.
fn found(alloc: Global, files: &[&[u8]], key: &[u8]) -> Result<Option<usize>, ShelfFault> {
    let shelf = Shelf::open(alloc, files, Paged::new(alloc))?;
    Ok(shelf.database().find(key).ok())
}

/// The number of the fault, its place and its file, if the files are refused.
fn refused(alloc: Global, files: &[&[u8]]) -> Option<(u16, Option<usize>, Option<usize>)> {
    match Shelf::open(alloc, files, Paged::new(alloc)) {
        Ok(_) => None,
        Err(fault) => Some((fault.number(), fault.place(), fault.file())),
    }
}

/// The file with a place of the shelf, and the place in that file.
fn located(alloc: Global, files: &[&[u8]], place: usize) -> Result<(usize, usize), ShelfFault> {
    let shelf = Shelf::open(alloc, files, Paged::new(alloc))?;
    Ok(shelf.locate(place))
}

/// The number of the first item of a file, and how many items it has, if there is such a file.
fn items(
    alloc: Global,
    files: &[&[u8]],
    file: usize,
) -> Result<Option<(usize, usize)>, ShelfFault> {
    let shelf = Shelf::open(alloc, files, Paged::new(alloc))?;
    if file >= shelf.file_count() {
        return Ok(None);
    }
    Ok(Some(shelf.items(file)))
}

/// Whether this is the text of the shelf, and the shelf has as many files as are given.
fn is_text(alloc: Global, files: &[&[u8]], text: &[u8]) -> Result<bool, AllocError> {
    let joined = Joined::of(alloc, files)?;
    Ok(joined.text.as_slice() == text && joined.spans.as_slice().len() == files.len())
}

/// Definitions of macros from `m0` on, each but the first twice the one before.
const FIRST: &[u8] =
    b"@string{m0 = {x}}@string{m1 = m0 # m0}@string{m2 = m1 # m1}@string{m3 = m2 # m2}@string{m4 = m3 # m3}@string{m5 = m4 # m4}@string{m6 = m5 # m5}@string{m7 = m6 # m6}@string{m8 = m7 # m7}@string{m9 = m8 # m8}@string{m10 = m9 # m9}";

/// The next ten definitions, with which a text has as many bytes as it may have.
const SECOND: &[u8] =
    b"@string{m11 = m10 # m10}@string{m12 = m11 # m11}@string{m13 = m12 # m12}@string{m14 = m13 # m13}@string{m15 = m14 # m14}@string{m16 = m15 # m15}@string{m17 = m16 # m16}@string{m18 = m17 # m17}@string{m19 = m18 # m18}@string{m20 = m19 # m19}";

/// The same, and one definition more.
const LONGER: &[u8] =
    b"@string{m11 = m10 # m10}@string{m12 = m11 # m11}@string{m13 = m12 # m12}@string{m14 = m13 # m13}@string{m15 = m14 # m14}@string{m16 = m15 # m15}@string{m17 = m16 # m16}@string{m18 = m17 # m17}@string{m19 = m18 # m18}@string{m20 = m19 # m19}@string{m21 = m20 # m20}";

#[test]
fn a_seam_stands_between_two_files(rt: HostRuntime) -> Result<(), Fail> {
    let alloc = rt.alloc();
    assert!(rt; seam() == b"@comment %\n".as_slice());
    assert!(rt; is_text(alloc, &[b"a"], b"a")?);
    assert!(rt; is_text(alloc, &[b"a", b"", b"b"], b"a@comment %\n@comment %\nb")?);
    Ok(())
}

#[test]
fn no_command_is_made_of_two_files(rt: HostRuntime) -> Result<(), Fail> {
    let alloc = rt.alloc();
    let parted: &[&[u8]] = &[b"x@foo ", b"{y}@misc{a}"];
    assert!(rt; counts(alloc, parted)? == (2, 1));
    assert!(rt; found(alloc, parted, b"a")? == Some(0));
    assert!(rt; found(alloc, parted, b"y")?.is_none());
    assert!(rt; counts(alloc, &[b"@comment", b"s{"])? == (2, 0));
    Ok(())
}

#[test]
fn a_key_finds_the_first_entry_in_the_order_of_the_files(rt: HostRuntime) -> Result<(), Fail> {
    let alloc = rt.alloc();
    let files: &[&[u8]] = &[b"@misc{b}\n@misc{a}\n", b"@misc{A,t=1}\n@misc{c}\n"];
    assert!(rt; counts(alloc, files)? == (5, 4));
    assert!(rt; found(alloc, files, b"a")? == Some(1));
    assert!(rt; found(alloc, files, b"C")? == Some(3));
    Ok(())
}

#[test]
fn a_fault_is_of_the_file_that_has_it(rt: HostRuntime) -> Result<(), Fail> {
    let alloc = rt.alloc();
    let unended: &[&[u8]] = &[b"@misc{a,t=p}\n", b"@misc{"];
    assert!(rt; refused(alloc, unended) == Some((1, Some(6), Some(1))));
    Ok(())
}

#[test]
fn a_file_that_ends_inside_an_item_is_not_valid(rt: HostRuntime) -> Result<(), Fail> {
    let alloc = rt.alloc();
    // The bytes that would end the value are in another file.
    assert!(rt; refused(alloc, &[b"@misc{a,t={", b"}}"]) == Some((1, Some(11), Some(0))));
    assert!(rt; refused(alloc, &[b"@misc{a,t=\"x", b"y\"}"]) == Some((1, Some(12), Some(0))));
    let among: &[&[u8]] = &[b"@misc{b}", b"@misc{a,t={x", b"", b"y}}", b"@misc{c}"];
    assert!(rt; refused(alloc, among) == Some((1, Some(12), Some(1))));
    // Its fault comes before the faults that all files have together.
    assert!(rt;
        refused(alloc, &[b"@misc{a,t={", b"}} @misc{b c}"]) == Some((1, Some(11), Some(0)))
    );
    assert!(rt;
        refused(alloc, &[FIRST, LONGER, b"@misc{a,t={", b"}}"]) == Some((1, Some(11), Some(2)))
    );
    Ok(())
}

#[test]
fn a_text_may_be_too_long_behind_another_file(rt: HostRuntime) -> Result<(), Fail> {
    let alloc = rt.alloc();
    assert!(rt; refused(alloc, &[FIRST, SECOND]).is_none());
    assert!(rt; refused(alloc, &[FIRST, LONGER]) == Some((8, Some(254), Some(1))));
    assert!(rt; refused(alloc, &[LONGER, FIRST]).is_none());
    Ok(())
}

#[test]
fn all_files_together_have_the_limit_of_one(rt: HostRuntime) -> Result<(), Fail> {
    let alloc = rt.alloc();
    let mut long = Vec::new(alloc);
    long.resize(16_777_204, b'x')?;
    assert!(rt; refused(alloc, &[long.as_slice(), b"y"]).is_none());
    long.push(b'x')?;
    assert!(rt; refused(alloc, &[long.as_slice(), b"y"]) == Some((9, Some(0), Some(1))));
    Ok(())
}

#[test]
fn a_place_is_found_in_its_file(rt: HostRuntime) -> Result<(), Fail> {
    let alloc = rt.alloc();
    let files: &[&[u8]] = &[b"ab", b"", b"cde"];
    assert!(rt; located(alloc, files, 0)? == (0, 0));
    assert!(rt; located(alloc, files, 2)? == (0, 2));
    // a place in a seam is the end of the file before it
    assert!(rt; located(alloc, files, 12)? == (0, 2));
    assert!(rt; located(alloc, files, 13)? == (1, 0));
    assert!(rt; located(alloc, files, 23)? == (1, 0));
    assert!(rt; located(alloc, files, 24)? == (2, 0));
    assert!(rt; located(alloc, files, 27)? == (2, 3));
    Ok(())
}

#[test]
fn each_file_has_its_items(rt: HostRuntime) -> Result<(), Fail> {
    let alloc = rt.alloc();
    let files: &[&[u8]] = &[
        b"@misc{a}\n@misc{b}\n",
        b"",
        b"x@comment\n@string{p={1}}\n",
        b"only text",
        b"@misc{c}",
    ];
    assert!(rt; items(alloc, files, 0)? == Some((0, 2)));
    // a file without items has the number of the comment after it
    assert!(rt; items(alloc, files, 1)? == Some((3, 0)));
    assert!(rt; items(alloc, files, 2)? == Some((4, 2)));
    assert!(rt; items(alloc, files, 3)? == Some((7, 0)));
    assert!(rt; items(alloc, files, 4)? == Some((8, 1)));
    assert!(rt; items(alloc, files, 5)?.is_none());
    // at the end of the shelf, that is the number of all items
    assert!(rt; items(alloc, &[b"@misc{a}", b""], 1)? == Some((2, 0)));
    Ok(())
}

#[test]
fn the_items_of_one_file_are_those_of_the_shelf(rt: HostRuntime) -> Result<(), Fail> {
    let alloc = rt.alloc();
    assert!(rt; items(alloc, &[b"front @misc{a}@preamble{{x}}"], 0)? == Some((0, 2)));
    assert!(rt; items(alloc, &[b"only text"], 0)? == Some((0, 0)));
    assert!(rt; items(alloc, &[b""], 0)? == Some((0, 0)));
    Ok(())
}

#[test]
fn a_comment_like_a_seam_is_an_item_of_its_file(rt: HostRuntime) -> Result<(), Fail> {
    let alloc = rt.alloc();
    let files: &[&[u8]] = &[b"@comment %\n", b"@comment %\n@misc{a}"];
    assert!(rt; items(alloc, files, 0)? == Some((0, 1)));
    assert!(rt; items(alloc, files, 1)? == Some((2, 2)));
    Ok(())
}

//! Extracts of small files, as text.

use bib_extract::{ExtractFault, extract, kept};
use bib_store::{Database, Flat, Paged};
use bib_text::{Text, copied};
use std::alloc::{AllocError, Global};
use std::test::Fail;

/// The words between spaces.
fn words(alloc: Global, text: &[u8]) -> Result<Vec<Text>, AllocError> {
    let mut keys = Vec::new(alloc);
    for word in text.split(|b| *b == b' ') {
        keys.push(copied(alloc, word)?)?;
    }
    Ok(keys)
}

/// The extract of a file for the keys between spaces, or the number of the fault.
fn extracted(alloc: Global, file: &[u8], keys: &[u8]) -> Result<Text, ExtractFault> {
    let keys = words(alloc, keys)?;
    match Database::open_bytes(alloc, file, Paged::new(alloc)) {
        Ok(db) => extract(alloc, &db, keys.as_slice()),
        Err(_) => Err(ExtractFault::Memory),
    }
}

/// Whether this is the extract of the file, and the extract of that for the same keys, too.
fn gives(alloc: Global, file: &[u8], keys: &[u8], text: &[u8]) -> Result<bool, ExtractFault> {
    let once = extracted(alloc, file, keys)?;
    let twice = extracted(alloc, once.as_slice(), keys)?;
    Ok(once.as_slice() == text && twice.as_slice() == text)
}

/// The numbers of the kept items.
fn kept_items(alloc: Global, file: &[u8], keys: &[u8]) -> Result<Vec<usize>, ExtractFault> {
    let keys = words(alloc, keys)?;
    match Database::open_bytes(alloc, file, Flat::new(alloc)) {
        Ok(db) => Ok(kept(alloc, &db, keys.as_slice())?.into_vec()),
        Err(_) => Err(ExtractFault::Memory),
    }
}

/// The position of the key that finds nothing.
fn unknown(alloc: Global, file: &[u8], keys: &[u8]) -> Option<usize> {
    match extracted(alloc, file, keys) {
        Ok(_) => None,
        Err(fault) => fault.position(),
    }
}

/// A file with everything that an extract keeps, and what it leaves out.
const NOTES: &[u8] =
    b"Private notes.\n@string{p = {Press}}@string{q = {Quarto}}\n@preamble{\"\\x\" # q}\n% read this\n@inproceedings{c1, title = {One}, crossref = {V}} % mine\n@inproceedings{c2, title = {Two}, crossref = {v}}\n\n@proceedings{v, publisher = p, crossref = {s}}\n\n@comment{old}\n@misc{s, year = 2001}\n@misc{z}\n";

#[test]
fn an_entry_comes_with_its_parents_and_macros(rt: HostRuntime) -> Result<(), Fail> {
    let alloc = rt.alloc();
    assert!(rt;
        gives(
            alloc,
            NOTES,
            b"C1",
            b"@string{p = {Press}}\n@string{q = {Quarto}}\n@preamble{\"\\x\" # q}\n@inproceedings{c1, title = {One}, crossref = {V}}\n@proceedings{v, publisher = p, crossref = {s}}\n\n@misc{s, year = 2001}\n"
        )?
    );
    assert!(rt; kept_items(alloc, NOTES, b"C1")?.as_slice() == [0, 1, 2, 3, 5, 7].as_slice());
    Ok(())
}

#[test]
fn a_use_comes_with_the_last_definition_before_it(rt: HostRuntime) -> Result<(), Fail> {
    let alloc = rt.alloc();
    let twice = b"@string{p={A}}@misc{a,t=p}@string{p={B}}@misc{b,t=p}";
    assert!(rt; gives(alloc, twice, b"a", b"@string{p={A}}\n@misc{a,t=p}\n")?);
    assert!(rt; gives(alloc, twice, b"b", b"@string{p={B}}\n@misc{b,t=p}\n")?);
    let month = b"@misc{a,month=jan}@string{jan=jan#{x}}@misc{b,month=jan}";
    assert!(rt; gives(alloc, month, b"a", b"@misc{a,month=jan}\n")?);
    assert!(rt;
        gives(
            alloc,
            month,
            b"b",
            b"@string{jan=jan#{x}}\n@misc{b,month=jan}\n"
        )?
    );
    let chain = b"@string{P={A}}@string{q=p#P}@string{p={B}}@misc{a,t=Q}";
    assert!(rt;
        gives(
            alloc,
            chain,
            b"A",
            b"@string{P={A}}\n@string{q=p#P}\n@misc{a,t=Q}\n"
        )?
    );
    Ok(())
}

#[test]
fn a_ring_of_parents_is_kept_whole(rt: HostRuntime) -> Result<(), Fail> {
    let alloc = rt.alloc();
    let ring = b"@misc{a,crossref={b}}@misc{b,crossref={a}}@misc{c}";
    assert!(rt;
        gives(
            alloc,
            ring,
            b"a",
            b"@misc{a,crossref={b}}\n@misc{b,crossref={a}}\n"
        )?
    );
    assert!(rt;
        gives(
            alloc,
            b"@misc{a,crossref={A}}",
            b"a",
            b"@misc{a,crossref={A}}\n"
        )?
    );
    Ok(())
}

#[test]
fn a_star_keeps_all_entries(rt: HostRuntime) -> Result<(), Fail> {
    let alloc = rt.alloc();
    assert!(rt;
        gives(
            alloc,
            b"@misc{a}@comment{x}@misc{A,t=1}@string{m=1}",
            b"*",
            b"@misc{a}\n@misc{A,t=1}\n"
        )?
    );
    assert!(rt; gives(alloc, b"x@comment y", b"*", b"")?);
    Ok(())
}

#[test]
fn the_first_key_that_finds_nothing_is_named(rt: HostRuntime) -> Result<(), Fail> {
    let alloc = rt.alloc();
    assert!(rt; unknown(alloc, NOTES, b"c1 zz yy") == Some(1));
    assert!(rt; unknown(alloc, NOTES, b"c1 *") == Some(1));
    assert!(rt; unknown(alloc, NOTES, b"*").is_none());
    Ok(())
}

#[test]
fn white_space_behind_an_item_stays_if_it_ends_the_line(rt: HostRuntime) -> Result<(), Fail> {
    let alloc = rt.alloc();
    assert!(rt;
        gives(
            alloc,
            b"@misc{a} \t\r\n  x\n@misc{b}  y\n@misc{c}\n\n\n",
            b"*",
            b"@misc{a} \t\r\n  @misc{b}\n@misc{c}\n\n\n"
        )?
    );
    Ok(())
}

//! What aux files say.

use aux_text::{Aux, with_cited};
use bib_text::{Text, copied};
use std::alloc::{AllocError, Global};
use std::test::Fail;

/// The words, a line each.
fn lines(alloc: Global, words: &[Text]) -> Result<Vec<u8>, AllocError> {
    let mut out = Vec::new(alloc);
    for word in words {
        out.extend_from_slice(word.as_slice())?;
        out.push(b'\n')?;
    }
    Ok(out)
}

/// Whether these are the keys and the further files of an aux file, a line each.
fn says(alloc: Global, text: &[u8], keys: &[u8], inputs: &[u8]) -> Result<bool, AllocError> {
    let aux = Aux::read(alloc, text)?;
    Ok(
        lines(alloc, aux.keys.as_slice())?.as_slice() == keys
            && lines(alloc, aux.inputs.as_slice())?.as_slice() == inputs,
    )
}

/// Whether a key, and after it the keys of an aux file, are these, a line each.
fn joins(alloc: Global, key: &[u8], text: &[u8], all: &[u8]) -> Result<bool, AllocError> {
    let mut keys = Vec::new(alloc);
    keys.push(copied(alloc, key)?)?;
    let cited = Aux::read(alloc, text)?.keys.into_vec();
    let all_keys = with_cited(alloc, keys, cited)?;
    Ok(lines(alloc, all_keys.as_slice())?.as_slice() == all)
}

#[test]
fn lines_of_citations_and_of_further_files_count(rt: HostRuntime) -> Result<(), Fail> {
    let alloc = rt.alloc();
    let text =
        b"\\relax \n\\citation{c1}\n\\citation{c2,v}\r\n\\bibdata{strings,refs}\n\\bibstyle{plain}\n\\@input{one.aux}\n \\citation{no}\n\\citation{a b}\n\\citation{d} x\n";
    assert!(rt; says(alloc, text, b"c1\nc2\nv\n", b"one.aux\n")?);
    Ok(())
}

#[test]
fn a_line_counts_only_as_a_whole(rt: HostRuntime) -> Result<(), Fail> {
    let alloc = rt.alloc();
    assert!(rt; says(alloc, b"", b"", b"")?);
    assert!(rt; says(alloc, b"\\citation{a}", b"a\n", b"")?);
    assert!(rt;
        says(
            alloc,
            b"\\citation{,a,,b,} \t\r\n\\citation{}",
            b"a\nb\n",
            b""
        )?
    );
    assert!(rt;
        says(
            alloc,
            b"\\citation{a\n\\citation{b}}\n\\citation{{c}}\n\\Citation{d}\n\\citation {e}",
            b"",
            b""
        )?
    );
    Ok(())
}

#[test]
fn a_star_stands_alone(rt: HostRuntime) -> Result<(), Fail> {
    let alloc = rt.alloc();
    assert!(rt;
        says(
            alloc,
            b"\\citation{a}\n\\citation{*}\n\\citation{b}\n",
            b"*\n",
            b""
        )?
    );
    assert!(rt; joins(alloc, b"x", b"\\citation{a}\n", b"x\na\n")?);
    assert!(rt; joins(alloc, b"x", b"\\citation{a,*}\n", b"*\n")?);
    assert!(rt; joins(alloc, b"x", b"", b"x\n")?);
    Ok(())
}

//! What values say.

use bib_scan::{ReadFault, is_name, read_value};
use bib_text::Text;
use bib_value::{Macros, ValueFault, field_text, raw_len, raw_text};
use std::alloc::Global;
use std::test::Fail;

/// The raw text of a value, in the definition of a macro if a macro is named.
fn said(
    alloc: Global,
    bytes: &[u8],
    macros: &Macros,
    own: Option<&[u8]>,
) -> Result<Result<Text, ValueFault>, ReadFault> {
    let parts = read_value(alloc, bytes)?;
    Ok(raw_text(alloc, &parts, bytes, macros, own))
}

/// Whether the result is this text.
fn says(
    alloc: Global,
    bytes: &[u8],
    macros: &Macros,
    own: Option<&[u8]>,
    text: &[u8],
) -> Result<bool, Fail> {
    let said = said(alloc, bytes, macros, own)??;
    Ok(said.as_slice() == text)
}

/// Defines a macro as this text, if the name and the text are allowed.
fn define(macros: &mut Macros, name: &[u8], text: &[u8]) -> Result<(), ValueFault> {
    if is_name(name) && text.len() <= 1_048_576 {
        macros.define(name, text)?;
    }
    Ok(())
}

fn stands_for(macros: &Macros, name: &[u8], text: &[u8]) -> bool {
    match macros.text(name) {
        Some(found) => found == text,
        None => false,
    }
}

/// A value, in the definition of a macro if a macro is named, and its text if the only macros are the months.
const SAID: &[(&[u8], Option<&[u8]>, &[u8])] = &[
    // parts are joined unchanged
    (b"\"a\" # { b} # 12 # Mar # none", None, b"a b12March"),
    // a macro gives nothing in its own definition
    (b"jan # { x} # JAN", Some(b"Jan"), b" x"),
];

fn are_said(alloc: Global, macros: &Macros) -> Result<bool, Fail> {
    for (bytes, own, text) in SAID {
        if !says(alloc, bytes, macros, *own, text)? {
            return Ok(false);
        }
    }
    Ok(true)
}

/// Whether names stand for their last definition.
fn are_replaced(macros: &mut Macros) -> Result<bool, ValueFault> {
    define(macros, b"p", b"x")?;
    let are_apart = stands_for(macros, b"P", b"x")
        && stands_for(macros, b"mar", b"March")
        && macros.text(b"q").is_none();
    define(macros, b"MAR", b"3")?;
    Ok(are_apart && stands_for(macros, b"mar", b"3"))
}

/// Macros and their values: each stands for the text of the macro before it twice.
const DOUBLED: &[(&[u8], &[u8])] = &[
    (b"m1", b"m0 # m0"),
    (b"m2", b"m1 # m1"),
    (b"m3", b"m2 # m2"),
    (b"m4", b"m3 # m3"),
    (b"m5", b"m4 # m4"),
    (b"m6", b"m5 # m5"),
    (b"m7", b"m6 # m6"),
    (b"m8", b"m7 # m7"),
    (b"m9", b"m8 # m8"),
    (b"m10", b"m9 # m9"),
    (b"m11", b"m10 # m10"),
    (b"m12", b"m11 # m11"),
    (b"m13", b"m12 # m12"),
    (b"m14", b"m13 # m13"),
    (b"m15", b"m14 # m14"),
    (b"m16", b"m15 # m15"),
    (b"m17", b"m16 # m16"),
    (b"m18", b"m17 # m17"),
    (b"m19", b"m18 # m18"),
    (b"m20", b"m19 # m19"),
];

/// Defines the macro `m0` as `x`, and each macro after it as the text of the macro before it twice.
fn double_all(alloc: Global, macros: &mut Macros) -> Result<(), Fail> {
    define(macros, b"m0", b"x")?;
    for (name, value) in DOUBLED {
        let text = said(alloc, value, macros, None)??;
        define(macros, name, text.as_slice())?;
    }
    Ok(())
}

/// How long the raw text of a value is.
fn len_of(alloc: Global, bytes: &[u8], macros: &Macros) -> Result<u32, ReadFault> {
    let parts = read_value(alloc, bytes)?;
    Ok(raw_len(&parts, bytes, macros, None))
}

/// Whether the text is `x` `count` times.
fn is_all_x(text: &[u8], count: usize) -> bool {
    text.len() == count && text.iter().all(|byte| *byte == b'x')
}

/// Whether a text may have 1,048,576 bytes, and not one more.
fn is_limited(alloc: Global, macros: &mut Macros) -> Result<bool, Fail> {
    double_all(alloc, macros)?;
    let full = said(alloc, b"m19 # m19", macros, None)??;
    let is_full = is_all_x(full.as_slice(), 1_048_576)
        && stands_for(macros, b"m20", full.as_slice());
    let is_over = len_of(alloc, b"m20 # m20", macros)? == 1_048_577;
    let fault = said(alloc, b"m20 # m20", macros, None)?.err();
    Ok(is_full && is_over && fault == Some(ValueFault::TextTooLong))
}

/// Whether values say their texts, a definition replaces a month, and a text may be as long as the limit.
fn are_kept(alloc: Global, macros: &mut Macros) -> Result<bool, Fail> {
    Ok(are_said(alloc, macros)? && are_replaced(macros)? && is_limited(alloc, macros)?)
}

#[test]
fn macros_stand_for_their_texts(rt: HostRuntime) -> Result<(), Fail> {
    let mut macros = Macros::months(rt.alloc())?;
    assert!(rt; are_kept(rt.alloc(), &mut macros)?);
    Ok(())
}

const SPACED: &[(&[u8], &[u8])] = &[
    (b" a \n\tb ", b"a b"),
    (b"", b""),
    (b" \r\n ", b""),
    (b"ab", b"ab"),
    (b"a\r\n\r\nb  c", b"a b c"),
];

fn is_made_one(alloc: Global, bytes: &[u8], text: &[u8]) -> Result<bool, ValueFault> {
    let made = field_text(alloc, bytes)?;
    Ok(made.as_slice() == text)
}

#[test]
fn white_space_is_made_one(rt: HostRuntime) -> Result<(), Fail> {
    for (bytes, text) in SPACED {
        assert!(rt; is_made_one(rt.alloc(), bytes, text)?, "{bytes:?}");
    }
    Ok(())
}

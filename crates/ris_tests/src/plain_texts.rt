//! Texts as LaTeX prints them.

use plain_text::plain;
use ris_text::RisFault;
use std::alloc::Global;
use std::test::Fail;

fn is_plain(alloc: Global, text: &[u8], expected: &str) -> Result<bool, RisFault> {
    Ok(plain(alloc, text)?.as_slice() == expected.as_bytes())
}

#[test]
fn accents_are_letters(rt: HostRuntime) -> Result<(), Fail> {
    let rows: [(&[u8], &str); 22] = [
        (b"\\\"o", "ö"),
        (b"{\\\"o}", "ö"),
        (b"\\\"{o}", "ö"),
        (b"{\\\"{o}}", "ö"),
        (b"\\'e\\`a\\^u\\~n\\=o\\.z", "éàûñōż"),
        (b"\\c c\\c{C}\\H{o}\\v S\\u g\\d{h}\\b{d}", "çÇőŠğḥḏ"),
        (b"\\'{\\i}\\'\\i\\v{\\j}", "ííǰ"),
        (b"\\i\\j", "ıȷ"),
        (b"\\o\\O\\l\\L\\ss\\ae\\AE\\oe\\OE\\aa\\AA", "øØłŁßæÆœŒåÅ"),
        (b"Stra\\ss e {\\o}re \\oe uvre", "Straße øre œuvre"),
        (b"\\& \\% \\$ \\# \\_ \\{ \\}", "& % $ # _ { }"),
        (b"a~b -- c --- d", "a b -- c --- d"),
        (b"{The} {{T}e{X}}book", "The TeXbook"),
        (b"\\TeX{}book {\\TeX}book", "\\TeX{}book \\TeXbook"),
        (b"\\emph{a {B} \\~n} {c}", "\\emph{a {B} ñ} c"),
        (b"\\href{u}{\\\"a}{v}w{x}", "\\href{u}{ä}{v}wx"),
        (
            b"\\\"{q} \\\"q \\t{oo} \\c{}x",
            "\\\"{q} \\\"q \\t{oo} \\c{}x",
        ),
        (b"\\alpha \\\\ \\, \\", "\\alpha \\\\ \\, \\"),
        (b"$x_{12}$", "$x_12$"),
        (b" a~", "a"),
        (b"}{a", "a"),
        (b"", ""),
    ];
    for (text, expected) in rows {
        assert!(rt; is_plain(rt.alloc(), text, expected)?);
    }
    Ok(())
}

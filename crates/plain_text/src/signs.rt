//! The commands of LaTeX that print one letter or sign, and the accents over a letter.

ghost use Rattle.std.specs.Prelude.{◌≡◌, ◌≤◌, ◌+◌, ◌<◌, ◌^◌, length, IsTrue, IfSome};
ghost use Rattle.std.specs.List.{prefix_len};
ghost use Rattle.std.specs.Char.{is_ascii_alphabetic};
ghost use Rattle.bib_spec.specs.Text.{is_space};
ghost use Rattle.plain_text.specs.Signs.{letters, accents, char_of, name_len, is_word, dotless, bare_letter, begins_with, closed, letter_at, composed, over_letter, accented, space_after, command_sign, sign_at, name_of, after_name};
ghost use Rattle.std.specs.Str.{bytes_eq};

use bib_text::is_space;
use unicode_normalization::char::compose;

/// A character, and how many bytes of a text say it.
#[derive(Clone, Copy)]
pub(crate) struct Sign {
    pub taken: usize,
    pub char: char,
}

/// Whether the text is this name.
fn is(text: &[u8], name: &[u8]) -> bool
    ensures test { result ≡ bytes_eq text.now name.now }
    ensures same { IsTrue result → text.now ≡ name.now }
{
    text == name
}

/// The character that the command of this name prints, if it prints one.
fn letter_of(name: &[u8]) -> Option<char>
    ensures { result ≡ char_of letters name.now }
{
    if is(name, b"&") {
        return Some('&');
    }
    if is(name, b"%") {
        return Some('%');
    }
    if is(name, b"$") {
        return Some('$');
    }
    if is(name, b"#") {
        return Some('#');
    }
    if is(name, b"_") {
        return Some('_');
    }
    if is(name, b"{") {
        return Some('{');
    }
    if is(name, b"}") {
        return Some('}');
    }
    if is(name, b"o") {
        return Some('ø');
    }
    if is(name, b"O") {
        return Some('Ø');
    }
    if is(name, b"l") {
        return Some('ł');
    }
    if is(name, b"L") {
        return Some('Ł');
    }
    if is(name, b"ss") {
        return Some('ß');
    }
    if is(name, b"ae") {
        return Some('æ');
    }
    if is(name, b"AE") {
        return Some('Æ');
    }
    if is(name, b"oe") {
        return Some('œ');
    }
    if is(name, b"OE") {
        return Some('Œ');
    }
    if is(name, b"aa") {
        return Some('å');
    }
    if is(name, b"AA") {
        return Some('Å');
    }
    if is(name, b"i") {
        return Some('ı');
    }
    if is(name, b"j") {
        return Some('ȷ');
    }
    if is(name, b"textbraceleft") {
        return Some('{');
    }
    if is(name, b"textbraceright") {
        return Some('}');
    }
    if is(name, b"textasciitilde") {
        return Some('~');
    }
    if is(name, b"textasciicircum") {
        return Some('^');
    }
    if is(name, b"textbackslash") {
        return Some('\\');
    }
    None
}

/// The combining character of the accent of this name, if there is such an accent.
fn accent_of(name: &[u8]) -> Option<char>
    ensures { result ≡ char_of accents name.now }
{
    if is(name, b"'") {
        return Some('\u{301}');
    }
    if is(name, b"`") {
        return Some('\u{300}');
    }
    if is(name, b"^") {
        return Some('\u{302}');
    }
    if is(name, b"\"") {
        return Some('\u{308}');
    }
    if is(name, b"~") {
        return Some('\u{303}');
    }
    if is(name, b"=") {
        return Some('\u{304}');
    }
    if is(name, b".") {
        return Some('\u{307}');
    }
    if is(name, b"c") {
        return Some('\u{327}');
    }
    if is(name, b"H") {
        return Some('\u{30b}');
    }
    if is(name, b"v") {
        return Some('\u{30c}');
    }
    if is(name, b"u") {
        return Some('\u{306}');
    }
    if is(name, b"d") {
        return Some('\u{323}');
    }
    if is(name, b"b") {
        return Some('\u{331}');
    }
    if is(name, b"t") {
        return Some('\u{361}');
    }
    None
}

/// How many bytes at the front of the text are letters.
fn letters_len(text: &[u8]) -> usize
    ensures len { result ≡ prefix_len is_ascii_alphabetic text.now }
    ensures within { result ≤ length text.now }
{
    text.iter().take_while(|b| b.is_ascii_alphabetic()).count()
}

/// How many bytes at the front of the text are white space.
fn space_len(text: &[u8]) -> usize
    ensures len { result ≡ prefix_len is_space text.now }
    ensures within { result ≤ length text.now }
{
    text.iter().take_while(|b| is_space(**b)).count()
}

/// How many bytes the name of a command takes, after its backslash.
pub(crate) fn name_len(text: &[u8]) -> usize
    ensures len { result ≡ name_len text.now }
    ensures within { result ≤ length text.now }
{
    match text {
        [] => 0,
        [first, ..] if first.is_ascii_alphabetic() => letters_len(text),
        _ => 1,
    }
}

/// The name of a command, after its backslash, and the text after the name.
fn name_at(text: &[u8]) -> (&[u8], &[u8])
    ensures name { result.0.now ≡ name_of text.now }
    ensures rest { result.1.now ≡ after_name text.now }
    ensures all { length result.0.now + length result.1.now ≡ length text.now }
{
    text.split_at(name_len(text))
}

/// Whether the name is made of letters.
fn is_word(name: &[u8]) -> bool
    ensures { result ≡ is_word name.now }
{
    match name {
        [] => false,
        [first, ..] => first.is_ascii_alphabetic(),
    }
}

/// The i or j that has no dot, which counts as i or j under an accent.
fn dotless(name: &[u8]) -> Option<Sign>
    ensures letter { result ≡ dotless name.now }
    ensures within { IfSome result (λ l. l.taken ≤ length name.now + 1) }
{
    if is(name, b"i") {
        return Some(Sign {
            taken: 2,
            char: 'i',
        });
    }
    if is(name, b"j") {
        return Some(Sign {
            taken: 2,
            char: 'j',
        });
    }
    None
}

/// A letter at the front of the text, or one without its dot.
fn bare_letter(text: &[u8]) -> Option<Sign>
    ensures letter { result ≡ bare_letter text.now }
    ensures within { IfSome result (λ l. l.taken ≤ length text.now) }
{
    match text {
        [] => None,
        [first, rest @ ..] => {
            if first.is_ascii_alphabetic() {
                return Some(Sign {
                    taken: 1,
                    char: char::from(*first),
                });
            }
            if *first == b'\\' {
                return dotless(name_at(rest).0);
            }
            None
        }
    }
}

/// Whether the text begins with this byte.
fn begins_with(byte: u8, text: &[u8]) -> bool
    ensures { result ≡ begins_with byte text.now }
{
    match text {
        [] => false,
        [first, ..] => *first == byte,
    }
}

/// The letter, if it is in the text and a closing brace follows it.
fn closed(text: &[u8], letter: Option<Sign>) -> Option<Sign>
    requires { IfSome letter (λ l. l.taken ≤ length text.now) }
    ensures closed { result ≡ closed text.now letter }
    ensures within { IfSome result (λ l. l.taken ≤ length text.now + 1) }
{
    match letter {
        None => None,
        Some(letter) => {
            if !begins_with(b'}', text.split_at(letter.taken).1) {
                return None;
            }
            Some(Sign {
                taken: letter.taken + 2,
                char: letter.char,
            })
        }
    }
}

/// A letter at the front of the text, alone or in braces.
fn letter_at(text: &[u8]) -> Option<Sign>
    ensures letter { result ≡ letter_at text.now }
    ensures within { IfSome result (λ l. l.taken ≤ length text.now) }
{
    match text {
        [] => None,
        [first, rest @ ..] => {
            if *first == b'{' {
                return closed(rest, bare_letter(rest));
            }
            bare_letter(text)
        }
    }
}

/// The letter with the accent, if Unicode has both as one character; before it were so many bytes.
fn composed(before: usize, accent: char, letter: Option<Sign>) -> Option<Sign>
    requires { IfSome letter (λ l. before + l.taken < 2 ^ 64) }
    ensures sign { result ≡ composed before accent letter }
    ensures taken { IfSome result (λ s. IfSome letter (λ l. s.taken ≡ before + l.taken)) }
{
    match letter {
        None => None,
        Some(letter) => match compose(letter.char, accent) {
            Some(char) => Some(Sign {
                taken: before + letter.taken,
                char,
            }),
            None => None,
        },
    }
}

/// The accent over the letter that comes next, after white space; before the text were so many bytes.
fn over_letter(before: usize, accent: char, text: &[u8]) -> Option<Sign>
    requires { before + length text.now < 2 ^ 64 }
    ensures sign { result ≡ over_letter before accent text.now }
    ensures within { IfSome result (λ s. s.taken ≤ before + length text.now) }
{
    let space = space_len(text);
    composed(before + space, accent, letter_at(text.split_at(space).1))
}

/// An accented letter, after the backslash and the name of an accent.
fn accented(name: &[u8], text: &[u8]) -> Option<Sign>
    requires { length name.now + length text.now + 1 < 2 ^ 64 }
    ensures sign { result ≡ accented name.now text.now }
    ensures within { IfSome result (λ s. s.taken ≤ length name.now + 1 + length text.now) }
{
    match accent_of(name) {
        Some(accent) => over_letter(name.len() + 1, accent, text),
        None => None,
    }
}

/// How much white space after a command belongs to it.
fn space_after(name: &[u8], text: &[u8]) -> usize
    ensures len { result ≡ space_after name.now text.now }
    ensures within { result ≤ length text.now }
{
    if is_word(name) {
        return space_len(text);
    }
    0
}

/// What a command prints, after its backslash, if it is one letter or sign.
fn command_sign(name: &[u8], text: &[u8]) -> Option<Sign>
    requires { length name.now + length text.now + 1 < 2 ^ 64 }
    ensures sign { result ≡ command_sign name.now text.now }
    ensures within { IfSome result (λ s. s.taken ≤ length name.now + 1 + length text.now) }
{
    match letter_of(name) {
        Some(char) => Some(Sign {
            taken: name.len() + 1 + space_after(name, text),
            char,
        }),
        None => accented(name, text),
    }
}

/// The one letter or sign that stands at the front of the text, if it is written otherwise.
pub(crate) fn sign_at(text: &[u8]) -> Option<Sign>
    ensures sign { result ≡ sign_at text.now }
    ensures within { IfSome result (λ s. s.taken ≤ length text.now) }
    ensures some { IfSome result (λ s. 1 ≤ s.taken) }
{
    match text {
        [] => None,
        [first, rest @ ..] => {
            if *first == b'~' {
                return Some(Sign {
                    taken: 1,
                    char: ' ',
                });
            }
            if *first == b'\\' {
                let (name, rest) = name_at(rest);
                return command_sign(name, rest);
            }
            None
        }
    }
}

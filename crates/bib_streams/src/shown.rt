//! A writer that shows control bytes where it writes to a terminal.

ghost use Rattle.std.specs.Prelude.{◌≡◌, ◌<◌, ◌≤◌, true, length, IsTrue};
ghost use Rattle.std.specs.List.{count_by};
ghost use Rattle.std.specs.Io.{WritesAtMost};
ghost use Rattle.std.specs.Io.KnownBytes.{Keeps, WriteAppends};
ghost use Rattle.bib_streams.specs.Shown.{is_control, are_control, letter_of, begins_with_control, may_begin, IsPlainRun, IsPlainFront, WritesShown};

use std::io;
use std::io::Write;

/// How many bytes are looked at together: their count fits a byte.
const RUN: usize = 128;

/// A writer that passes on what is written to it. For a terminal it shows control bytes: ESC as `^[`, and U+009B as `M-^[`.
/// Then no file can give orders to the terminal. Tabs and line feeds pass. Its calls take no memory.
#[derive(Drop)]
pub struct Shown<W> {
    inner: W,
    shows_controls: bool,
}

impl<W> Shown<W> {
    ghost use Rattle.bib_streams.specs.Views.{shown_inner, shows_controls};

    /// A writer that shows control bytes if `shows`.
    pub fn new(inner: W, shows: bool) -> Self
        ensures inner { shown_inner result ≡ inner }
        ensures shows { shows_controls result ≡ shows }
    {
        Shown {
            inner,
            shows_controls: shows,
        }
    }

    /// The writer that it writes to, given back.
    pub fn into_inner(self) -> W
        ensures { result ≡ shown_inner self }
    {
        self.inner
    }
}

impl<W: Write> Write for Shown<W> {
    ghost use Rattle.bib_streams.specs.Views.{shown_inner, shows_controls, contents_of, PassesOn};

    ghost contents = { λ s. contents_of W.contents s };

    fn write(&mut self, buf: &[u8]) -> io::Result<usize>
        ensures bound { WritesAtMost result buf.now }
        ensures bytes { WriteAppends (contents_of W.contents self.old) (contents_of W.contents self.new) result buf.now }
        ensures shown { PassesOn W.contents self.old self.new buf.now result }
    {
        if self.shows_controls {
            write_shown(&mut self.inner, buf)
        } else {
            self.inner.write(buf)
        }
    }

    fn flush(&mut self) -> io::Result<()>
        ensures bytes { Keeps (contents_of W.contents self.old) (contents_of W.contents self.new) }
        ensures inner { Keeps (W.contents (shown_inner self.old)) (W.contents (shown_inner self.new)) }
        ensures same { shows_controls self.new ≡ shows_controls self.old }
    {
        self.inner.flush()
    }
}

/// Writes what a terminal is shown of some bytes at the front, and says how many they are.
fn write_shown<W: Write>(inner: &mut W, text: &[u8]) -> io::Result<usize>
    ensures bound { WritesAtMost result text.now }
    ensures shown { WritesShown (W.contents inner.old) (W.contents inner.new) text.now result }
{
    let plain = plain_len(text);
    if plain > 0 {
        return inner.write(text.split_at(plain).0);
    }
    write_control(inner, text)
}

/// How many bytes at the front are shown as they are. Bytes are looked at run by run as long as no run has a byte with which a
/// control character may begin, and then one by one.
fn plain_len(text: &[u8]) -> usize
    ensures plain { IsPlainFront text.now result }
    ensures rest { result ≡ 0 → 0 < length text.now → begins_with_control text.now ≡ true }
{
    let mut len = 0;
    'runs: while begins_with_plain_run(text.split_at(len).1) {
        len += RUN;
    }
    'plain: while len < text.len() && !begins_with_control(text.split_at(len).1) {
        len += 1;
    }
    len
}

/// Whether there is a run of bytes at the front of which none may begin a control character.
fn begins_with_plain_run(text: &[u8]) -> bool
    ensures { IsTrue result → IsPlainRun text.now 128 }
{
    if text.len() < RUN {
        return false;
    }
    count_in_run(text.split_at(RUN).0) == 0
}

/// How many bytes of a run may begin a control character. While the count fits a byte, the processor counts many bytes at once.
fn count_in_run(run: &[u8]) -> u8
    requires { length run.now ≤ 255 }
    ensures { result ≡ count_by may_begin run.now }
{
    let mut count = 0;
    'bytes: for byte in run {
        if may_begin(*byte) {
            count += 1;
        }
    }
    count
}

/// Whether it is a control byte, or the first byte of characters some of which are control characters.
fn may_begin(byte: u8) -> bool
    ensures { result ≡ may_begin byte }
{
    is_control(byte) || byte == 0xC2
}

/// Whether the text begins with a control byte, or with a control character of two bytes.
fn begins_with_control(text: &[u8]) -> bool
    ensures { result ≡ begins_with_control text.now }
{
    match text {
        [first, second, ..] => are_control(*first, *second) || is_control(*first),
        [only] => is_control(*only),
        [] => false,
    }
}

/// Whether it is a control byte other than tab and line feed.
fn is_control(byte: u8) -> bool
    ensures { result ≡ is_control byte }
{
    byte < 32 && byte != b'\t' && byte != b'\n' || byte == 127
}

/// Whether the two bytes are a control character in UTF-8.
fn are_control(first: u8, second: u8) -> bool
    ensures { result ≡ are_control first second }
{
    first == 0xC2 && (128..160).contains(&second)
}

/// Writes what shows the control byte or control character at the front, and says how many bytes it has.
fn write_control<W: Write>(inner: &mut W, text: &[u8]) -> io::Result<usize>
    requires { 0 < length text.now → begins_with_control text.now ≡ true }
    ensures bound { WritesAtMost result text.now }
    ensures shown { WritesShown (W.contents inner.old) (W.contents inner.new) text.now result }
{
    match text {
        [first, second, ..] if are_control(*first, *second) => {
            let letters = [b'M', b'-', b'^', *second - 64];
            inner.write_all(&letters)?;
            Ok(2)
        }
        [first, ..] => {
            let letters = [b'^', letter_of(*first)];
            inner.write_all(&letters)?;
            Ok(1)
        }
        [] => Ok(0),
    }
}

/// The letter of a control byte.
fn letter_of(byte: u8) -> u8
    requires { is_control byte ≡ true }
    ensures { result ≡ letter_of byte }
{
    if byte == 127 { b'?' } else { byte + 64 }
}

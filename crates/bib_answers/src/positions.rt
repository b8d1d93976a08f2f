//! Lines and columns.

ghost use Rattle.std.specs.Prelude.{◌≡◌, ◌+◌, ◌<◌, ◌≤◌, ◌^◌, ℕ, List, length, fold};
ghost use Rattle.std.specs.List.{count_by};
ghost use Rattle.bib_answers.specs.Positions.{position_after, position_of, is_line_feed, IsKnown};

use memchr::memrchr;

/// How many bytes a run has at most: the count of its line feeds fits a byte, and the processor counts 32 bytes at once.
const RUN: usize = 224;

/// Where a byte stands in a file, counted from 1. Columns count bytes.
#[derive(Clone, Copy, Debug, PartialEq, Eq)]
pub struct Position {
    pub line: usize,
    pub column: usize,
}

/// A place in a file, and its position.
#[derive(Clone, Copy, Debug)]
pub struct Known {
    pub place: usize,
    pub at: Position,
}

/// The first place of a file: line 1, column 1.
pub fn first_known() -> Known
    ensures known { (file : List ℕ) → IsKnown file result }
    ensures place { result.place ≡ 0 }
{
    Known {
        place: 0,
        at: Position { line: 1, column: 1 },
    }
}

/// The known place, or the first place of the file if the known place is after this one.
pub(crate) fn known_before(known: Known, place: usize) -> Known
    ensures known { (file : List ℕ) → IsKnown file known → IsKnown file result }
    ensures place { result.place ≤ place }
{
    if known.place <= place {
        known
    } else {
        first_known()
    }
}

/// The position after the bytes, if `from` is the position of the first byte.
pub(crate) fn moved(from: Position, bytes: &[u8]) -> Position
    requires line { from.line + length bytes.now < 2 ^ 64 }
    requires column { from.column + length bytes.now < 2 ^ 64 }
    ensures { result ≡ fold position_after from bytes.now }
{
    match memrchr(b'\n', bytes) {
        Some(last) => Position {
            line: from.line + feed_count(bytes),
            column: bytes.len() - last,
        },
        None => Position {
            line: from.line,
            column: from.column + bytes.len(),
        },
    }
}

/// How many of the bytes are line feeds. They are counted run by run: while a count fits a byte, the processor counts many bytes
/// at once.
fn feed_count(bytes: &[u8]) -> usize
    ensures { result ≡ count_by is_line_feed bytes.now }
{
    let mut count = 0;
    let mut rest = bytes;
    'runs: while rest.len() > RUN {
        let (run, more) = rest.split_at(RUN);
        count += usize::from(count_in_run(run));
        rest = more;
    }
    count + usize::from(count_in_run(rest))
}

/// How many bytes of a run are line feeds.
fn count_in_run(run: &[u8]) -> u8
    requires { length run.now ≤ 255 }
    ensures { result ≡ count_by is_line_feed run.now }
{
    let mut count = 0;
    'bytes: for byte in run {
        if *byte == b'\n' {
            count += 1;
        }
    }
    count
}

/// This place of the file, or the file's end if the place is after it, with its position. It takes time in the number of bytes
/// from the known place to this one. If this one is before the known place, it is counted from the beginning of the file.
pub fn known_at(file: &[u8], known: Known, place: usize) -> Known
    requires { IsKnown file.now known }
    ensures known { IsKnown file.now result }
    ensures at { result.at ≡ position_of file.now place }
{
    let end = place.min(file.len());
    let from = known_before(known, end);
    Known {
        place: end,
        at: moved(from.at, &file[from.place..end]),
    }
}

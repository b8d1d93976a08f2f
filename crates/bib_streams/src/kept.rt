//! A reader that keeps a copy of what was read.

ghost use Rattle.std.specs.Prelude.{◌≡◌, ◌++◌, ℕ, List, Some, IfSome};
ghost use Rattle.std.specs.Option.{option_map};
ghost use Rattle.std.specs.Io.{ReadsAtMost};
ghost use Rattle.std.specs.Io.KnownBytes.{ReadConsumes};

use std::alloc::Global;
use std::io;
use std::io::Read;

/// A reader, and a copy of the bytes that it gave. If memory for the copy is refused, there is none from then on, and reading
/// goes on.
#[derive(Drop)]
pub struct Kept<R> {
    inner: R,
    bytes: Option<Vec<u8>>,
}

impl<R> Kept<R> {
    ghost use Rattle.std.specs.Prelude.{Some, None, [], if◌then◌else◌};
    ghost use Rattle.bib_streams.specs.Heard.{kept_inner, kept_bytes};

    /// A reader that gave nothing yet. It keeps a copy if `keeps`.
    pub fn new(alloc: Global, inner: R, keeps: bool) -> Self
        ensures inner { kept_inner result ≡ inner }
        ensures bytes { kept_bytes result ≡ (if keeps then Some [] else None) }
    {
        let bytes = if keeps { Some(Vec::new(alloc)) } else { None };
        Kept { inner, bytes }
    }

    /// The reader, and the bytes that were kept.
    pub fn into_parts(self) -> (R, Option<Vec<u8>>)
        ensures inner { result.0 ≡ kept_inner self }
    {
        (self.inner, self.bytes)
    }
}

impl<R: Read> Read for Kept<R> {
    ghost use Rattle.bib_streams.specs.Heard.{kept_inner, Keeps};

    ghost remaining = { λ k. R.remaining (kept_inner k) };

    fn read(&mut self, buf: &mut [u8]) -> io::Result<usize>
        ensures bound { ReadsAtMost result buf.new }
        ensures bytes { ReadConsumes (R.remaining (kept_inner self.old)) (R.remaining (kept_inner self.new)) result buf.new }
        ensures kept { Keeps self.old self.new buf.new result }
    {
        let result = self.inner.read(buf);
        if let Ok(count) = &result {
            self.bytes = with_more(self.bytes.take(), &buf[..*count]);
        }
        result
    }
}

/// The bytes with more at their end; none if there were none, or if memory is refused.
fn with_more(bytes: Option<Vec<u8>>, more: &[u8]) -> Option<Vec<u8>>
    ensures { IfSome result (λ all. (before : List ℕ) × (option_map (λ b. b.items) bytes ≡ Some before) × (all.items ≡ before ++ more.now)) }
{
    let mut bytes = bytes?;
    bytes.extend_from_slice(more).ok()?;
    Some(bytes)
}

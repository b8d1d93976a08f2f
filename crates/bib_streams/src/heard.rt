//! A reader or a writer that remembers why a call on it failed.

ghost use Rattle.std.specs.Prelude.{◌≡◌};
ghost use Rattle.std.specs.Io.{ReadsAtMost, WritesAtMost};
ghost use Rattle.std.specs.Io.KnownBytes.{Keeps, ReadConsumes, WriteAppends};

use std::io;
use std::io::{Read, Write};

/// A reader or a writer, and the error of the last call that failed. Its calls take no memory.
#[derive(Drop)]
pub struct Heard<T> {
    inner: T,
    error: Option<io::Error>,
}

impl<T> Heard<T> {
    ghost use Rattle.std.specs.Prelude.{None};
    ghost use Rattle.bib_streams.specs.Heard.{heard_inner, last_error};

    /// A reader or a writer on which no call was made yet.
    pub fn new(inner: T) -> Self
        ensures inner { heard_inner result ≡ inner }
        ensures error { last_error result ≡ None }
    {
        Heard { inner, error: None }
    }

    /// Why the last call that failed did.
    pub fn error(&self) -> Option<io::Error>
        ensures { result ≡ last_error self.now }
    {
        self.error
    }
}

impl<R: Read> Read for Heard<R> {
    ghost use Rattle.bib_streams.specs.Heard.{heard_inner, Hears};

    ghost remaining = { λ h. R.remaining (heard_inner h) };

    fn read(&mut self, buf: &mut [u8]) -> io::Result<usize>
        ensures bound { ReadsAtMost result buf.new }
        ensures bytes { ReadConsumes (R.remaining (heard_inner self.old)) (R.remaining (heard_inner self.new)) result buf.new }
        ensures heard { Hears self.old self.new result }
    {
        let result = self.inner.read(buf);
        if let Err(error) = &result {
            self.error = Some(*error);
        }
        result
    }
}

impl<W: Write> Write for Heard<W> {
    ghost use Rattle.bib_streams.specs.Heard.{heard_inner, Hears};

    ghost contents = { λ h. W.contents (heard_inner h) };

    fn write(&mut self, buf: &[u8]) -> io::Result<usize>
        ensures bound { WritesAtMost result buf.now }
        ensures bytes { WriteAppends (W.contents (heard_inner self.old)) (W.contents (heard_inner self.new)) result buf.now }
        ensures heard { Hears self.old self.new result }
    {
        let result = self.inner.write(buf);
        if let Err(error) = &result {
            self.error = Some(*error);
        }
        result
    }

    fn flush(&mut self) -> io::Result<()>
        ensures bytes { Keeps (W.contents (heard_inner self.old)) (W.contents (heard_inner self.new)) }
        ensures heard { Hears self.old self.new result }
    {
        let result = self.inner.flush();
        if let Err(error) = &result {
            self.error = Some(*error);
        }
        result
    }
}

//! A reader or a writer that remembers whether a call on it failed.

ghost use Rattle.std.specs.Prelude.{◌≡◌};
ghost use Rattle.std.specs.Io.{ReadsAtMost, WritesAtMost};
ghost use Rattle.std.specs.Io.KnownBytes.{Keeps, ReadConsumes, WriteAppends};
ghost use Rattle.std.specs.IoError.{error_kind};
ghost use Rattle.bib_taps.specs.Interruptions.{is_interruption};

use std::io;
use std::io::{ErrorKind, Read, Write};

/// Calls may be interrupted this often; the next interruption is a fault.
const INTERRUPTION_LIMIT: u8 = 100;

/// A reader or a writer. It has failed once a call on it gave an error other than `Interrupted`, or its 101st
/// `Interrupted`, or a write of some bytes took none. Its calls take no memory of their own.
#[derive(Drop)]
pub struct Tap<T> {
    inner: T,
    interruptions: u8,
    failed: bool,
}

impl<T> Tap<T> {
    ghost use Rattle.std.specs.Prelude.{false};
    ghost use Rattle.bib_taps.specs.Taps.{tap_inner, interruptions, has_failed, NotesError};

    /// A tap on which no call was made yet.
    pub fn new(inner: T) -> Self
        ensures inner { tap_inner result ≡ inner }
        ensures count { interruptions result ≡ 0 }
        ensures fault { has_failed result ≡ false }
    {
        Tap {
            inner,
            interruptions: 0,
            failed: false,
        }
    }

    /// Whether a call on it failed.
    pub fn failed(&self) -> bool
        ensures { result ≡ has_failed self.now }
    {
        self.failed
    }

    /// The reader or writer, given back.
    pub fn into_inner(self) -> T
        ensures { result ≡ tap_inner self }
    {
        self.inner
    }

    fn note(&mut self, error: &io::Error)
        ensures inner { tap_inner self.new ≡ tap_inner self.old }
        ensures noted { NotesError self.old self.new error.now }
    {
        if is_interruption(error) {
            self.failed = self.failed || self.interruptions >= INTERRUPTION_LIMIT;
            self.interruptions = self.interruptions.saturating_add(1);
        } else {
            self.failed = true;
        }
    }
}

fn is_interruption(error: &io::Error) -> bool
    ensures { result ≡ is_interruption (error_kind error.now) }
{
    matches!(error.kind(), ErrorKind::Interrupted)
}

impl<R: Read> Read for Tap<R> {
    ghost use Rattle.bib_taps.specs.Taps.{tap_inner, Notes};

    ghost remaining = { λ t. R.remaining (tap_inner t) };

    fn read(&mut self, buf: &mut [u8]) -> io::Result<usize>
        ensures bound { ReadsAtMost result buf.new }
        ensures bytes { ReadConsumes (R.remaining (tap_inner self.old)) (R.remaining (tap_inner self.new)) result buf.new }
        ensures noted { Notes self.old self.new result }
    {
        let result = self.inner.read(buf);
        if let Err(error) = &result {
            self.note(error);
        }
        result
    }
}

impl<W: Write> Write for Tap<W> {
    ghost use Rattle.bib_taps.specs.Taps.{tap_inner, Notes, NotesWrite};

    ghost contents = { λ t. W.contents (tap_inner t) };

    fn write(&mut self, buf: &[u8]) -> io::Result<usize>
        ensures bound { WritesAtMost result buf.now }
        ensures bytes { WriteAppends (W.contents (tap_inner self.old)) (W.contents (tap_inner self.new)) result buf.now }
        ensures noted { NotesWrite self.old self.new buf.now result }
    {
        let result = self.inner.write(buf);
        match &result {
            Ok(count) => self.failed = self.failed || (*count == 0 && !buf.is_empty()),
            Err(error) => self.note(error),
        }
        result
    }

    fn flush(&mut self) -> io::Result<()>
        ensures bytes { Keeps (W.contents (tap_inner self.old)) (W.contents (tap_inner self.new)) }
        ensures noted { Notes self.old self.new result }
    {
        let result = self.inner.flush();
        if let Err(error) = &result {
            self.note(error);
        }
        result
    }
}

//! A flush, since no contract can say whether one was made.

use bib_taps::Tap;
use std::io;
use std::io::{ErrorKind, Write};
use std::test::Fail;

/// A writer that takes no byte, and counts its flushes.
#[derive(Drop)]
struct Shut {
    flushes: u32,
}

impl Write for Shut {
    fn write(&mut self, _buf: &[u8]) -> io::Result<usize> {
        Err(io::Error::from(ErrorKind::BrokenPipe))
    }

    fn flush(&mut self) -> io::Result<()> {
        self.flushes = self.flushes.saturating_add(1);
        Ok(())
    }
}

#[test]
fn a_tap_hands_a_flush_on(rt: HostRuntime) -> Result<(), Fail> {
    let mut out = Tap::new(Shut { flushes: 0 });
    let is_flushed = out.flush().is_ok() && !out.failed();
    let is_noted = out.write(b"x").is_err() && out.failed();
    assert!(rt; is_flushed && is_noted && out.into_inner().flushes == 1);
    Ok(())
}

//! Writing to a sink until it took all.

ghost use Rattle.std.specs.Prelude.{◌≡◌, true, false};
ghost use Rattle.bib_taps.specs.Taps.{tap_inner, has_failed};
ghost use Rattle.bib_run.specs.Transfers.{WritesPrefix};

use crate::Tap;
use std::io::Write;

/// Writes until the sink took all bytes, and says whether it did. It makes an interrupted call again.
pub fn write_whole<W: Write>(sink: &mut Tap<W>, bytes: &[u8]) -> bool
    ensures written { WritesPrefix (W.contents (tap_inner sink.old)) (W.contents (tap_inner sink.new))
        bytes.now result }
    ensures sound { result ≡ true → has_failed sink.new ≡ has_failed sink.old }
    ensures failed { result ≡ false → has_failed sink.new ≡ true }
{
    let mut done = 0;
    'drain: while done < bytes.len() {
        match sink.write(&bytes[done..]) {
            Ok(0) => return false,
            Ok(count) => done += count,
            Err(_) => {
                if sink.failed() {
                    return false;
                }
            }
        }
    }
    true
}

//! Reading a source up to a limit.

ghost use Rattle.std.specs.Prelude.{◌≡◌, true, IfOk, OnOk, Err};
ghost use Rattle.bib_taps.specs.Taps.{tap_inner, has_failed};
ghost use Rattle.bib_run.specs.Transfers.{ReadsUpTo};
ghost use Rattle.bib_run.specs.declared.source.SourceFault.TheVariants.{Failed, OutOfMemory};

use crate::Tap;
use std::alloc::{AllocError, Global};
use std::io::Read;

/// Why a source was not read.
#[derive(Clone, Copy, Debug, PartialEq, Eq)]
pub enum SourceFault {
    Failed,
    OutOfMemory,
}

impl From<AllocError> for SourceFault {
    ghost from_gives = { λ _ fault. fault ≡ OutOfMemory };

    fn from(_error: AllocError) -> Self {
        SourceFault::OutOfMemory
    }
}

/// One call reads at most this many bytes.
const CHUNK: usize = 16_384;

/// Reads to the end of the source, or until it gave `most` bytes. It makes an interrupted call again.
pub fn read_up_to<R: Read>(
    alloc: Global,
    source: &mut Tap<R>,
    most: usize,
) -> Result<Vec<u8>, SourceFault>
    ensures ok { IfOk result (λ bytes. ReadsUpTo most (R.remaining (tap_inner source.old))
        (R.remaining (tap_inner source.new)) bytes.items) }
    ensures sound { OnOk result (has_failed source.new ≡ has_failed source.old) }
    ensures failed { result ≡ Err Failed → has_failed source.new ≡ true }
    ensures memory { result ≡ Err OutOfMemory → has_failed source.new ≡ has_failed source.old }
{
    let mut bytes = Vec::new(alloc);
    let mut chunk = [0u8; CHUNK];
    'fill: while bytes.len() < most {
        let room = (most - bytes.len()).min(CHUNK);
        match source.read(&mut chunk[..room]) {
            Ok(0) => return Ok(bytes),
            Ok(count) => bytes.extend_from_slice(&chunk[..count])?,
            Err(_) => {
                if source.failed() {
                    return Err(SourceFault::Failed);
                }
            }
        }
    }
    Ok(bytes)
}

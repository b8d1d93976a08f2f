//! Runs of pieces.

ghost use Rattle.std.specs.Prelude.{◌≡◌, ◌≤◌, length};
ghost use Rattle.bib_spec.specs.Bytes.{file_limit};
ghost use Rattle.bib_store.specs.Stored.{file_of};

use crate::touching::touched;
use bib_data::Piece;
use bib_items::{ItemList, StoreFault};
use std::alloc::{AllocError, AllocFailed, Global};

/// Why pieces are not put in run by run. Nothing has changed then.
#[derive(Clone, Copy, Debug, PartialEq, Eq)]
pub(crate) enum RunFault {
    /// A request for memory was refused.
    Memory,
    /// The runs are not to be read apart, or one of them does not come and go alone. Whether the pieces serve is open.
    NotApart,
}

impl From<StoreFault> for RunFault {
    fn from(fault: StoreFault) -> Self {
        match fault {
            StoreFault::Memory => RunFault::Memory,
            StoreFault::NoSuchEntry | StoreFault::BadSplice => RunFault::NotApart,
        }
    }
}

impl From<AllocError> for RunFault {
    fn from(_error: AllocError) -> Self {
        RunFault::Memory
    }
}

impl<T: Drop> From<AllocFailed<T>> for RunFault {
    fn from(_failed: AllocFailed<T>) -> Self {
        RunFault::Memory
    }
}

/// This many runs are read apart in a file of any length.
const FEW_RUNS: usize = 64;

/// In a long file, as many runs are read apart as it has parts of this many bytes: a run takes about as long as reading half as
/// many bytes between runs.
const BYTES_FOR_A_RUN: usize = 4096;

/// No more runs are read apart: each takes some 500 bytes of the stack.
const MOST_RUNS: usize = 256;

/// More pieces for each run that may be read apart are not split into runs, since looking at each takes a few steps for each
/// page of items.
const PIECES_FOR_A_RUN: usize = 4;

/// How many runs are read apart at most. Only time depends on it.
fn runs_limit(file_len: usize) -> usize {
    (file_len / BYTES_FOR_A_RUN).clamp(FEW_RUNS, MOST_RUNS)
}

/// The number of the first piece of each run. The pieces of a run touch neighbouring items; between two runs there is an
/// item that no piece touches. It is refused if runs are not to be read apart: there is only one, or there are many. Only time
/// depends on where runs begin.
pub(crate) fn run_starts<L: ItemList>(
    alloc: Global,
    front: &[u8],
    items: &L,
    file_len: usize,
    pieces: &[Piece],
) -> Result<Vec<usize>, RunFault>
    requires len { file_len ≡ length (file_of front.now (L.items items.now)) }
    requires short { file_len ≤ file_limit }
{
    let most = runs_limit(file_len);
    // one piece makes one run
    if pieces.len() < 2 || pieces.len() / PIECES_FOR_A_RUN > most {
        return Err(RunFault::NotApart);
    }
    let mut starts = Vec::new(alloc);
    let mut end = 0;
    'pass: for k in 0..pieces.len() {
        if starts.len() > most {
            return Err(RunFault::NotApart);
        }
        let window = touched(front, items, file_len, &pieces[k..k + 1]);
        if starts.is_empty() || end < window.from {
            starts.push(k)?;
        }
        end = window.to;
    }
    if starts.len() < 2 || starts.len() > most {
        return Err(RunFault::NotApart);
    }
    Ok(starts)
}

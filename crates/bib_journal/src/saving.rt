//! A file and its journal, as a run leaves them.

ghost use Rattle.std.specs.Prelude.{◌≡◌, ◌-◌, ◌≤◌, ◌++◌, drop, length, reverse, take, IfOk, OnOk};
ghost use Rattle.journal_format.specs.Contents.{digest_of, IsDigest};
ghost use Rattle.journal_format.specs.JournalText.{journal_text};

use bib_text::Text;
use journal_format::{PackedSteps, Step, digest, write_journal, write_packed};
use std::alloc::{AllocError, Global};

/// A file and its journal, as a run leaves them and a later one loads them.
#[derive(Debug, Drop)]
pub struct Saved {
    pub file: Text,
    pub journal: Text,
}

/// The journal of a file with these past steps and these undone ones, the next to be redone last.
pub(crate) fn journal_of(
    alloc: Global,
    file: &[u8],
    past: &[Step],
    undone: &[Step],
) -> Result<Text, AllocError>
    ensures text { IfOk result (λ text. text ≡ journal_text (record { digest = digest_of file.now; past = past.now; future = reverse undone.now })) }
    ensures digest { OnOk result (IsDigest (digest_of file.now)) }
{
    let digest = digest(alloc, file)?;
    write_journal(alloc, digest.as_slice(), past, undone)
}

/// The file, and its journal once the last `n` of these past steps are taken back, before these future steps.
pub(crate) fn saved_back(
    alloc: Global,
    past: &PackedSteps<'_>,
    future: &PackedSteps<'_>,
    n: usize,
    file: Text,
) -> Result<Saved, AllocError>
    requires { n ≤ length past.now }
    ensures file { IfOk result (λ saved. saved.file ≡ file) }
    ensures journal { IfOk result (λ saved. saved.journal ≡ journal_text (record {
      digest = digest_of file;
      past = take (length past.now - n) past.now;
      future = drop (length past.now - n) past.now ++ future.now;
    })) }
    ensures digest { OnOk result (IsDigest (digest_of file)) }
{
    let digest = digest(alloc, file.as_slice())?;
    let undos = past.len() - n;
    let journal = write_packed(alloc, digest.as_slice(), undos, past, future)?;
    Ok(Saved { file, journal })
}

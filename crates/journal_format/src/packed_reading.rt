//! Reading a journal whose steps stay in its text.

ghost use Rattle.std.specs.Prelude.{ℕ, ◌≡◌, ◌+◌, IfOk, IfErr, MatchResult};
ghost use Rattle.journal_format.specs.Contents.{Contents};
ghost use Rattle.journal_format.specs.JournalText.{counts};
ghost use Rattle.journal_format.specs.Wrong.{IsWrongTail, IsWrongFromCounts, IsWrongFromDigest, IsWrongJournal};
ghost use Rattle.journal_format.specs.Faults.{IsJournalOf, Refuses, StopsWhere};
ghost use Rattle.journal_format.specs.Parts.{IsTailOf, IsFromCounts, IsFromDigest};

use crate::fault::{JournalFault, Stop};
use crate::heads::{split_counts, split_digest, split_version};
use crate::packed_journal::PackedJournal;
use crate::packed_steps::{PackedSteps, packed, split_places};
use crate::reading::steps_limit;
use crate::version::Version;
use std::alloc::Global;

/// The past steps, `undos` of them, and the future steps, `redos` of them; nothing may follow them.
fn pack_tail(
    alloc: Global,
    version: Version,
    undos: u64,
    redos: u64,
    text: &[u8],
) -> Result<(PackedSteps<'_>, PackedSteps<'_>), Stop>
    ensures read { IfOk result (λ x. IsTailOf version (counts undos redos) text.now x.0 x.1) }
    ensures wrong { IfErr result (StopsWhere (IsWrongTail version (undos + redos) text.now)) }
{
    let limit = steps_limit(version);
    if text.len() > limit {
        return Err(Stop::Wrong(text.len() - limit));
    }
    let (undo_places, after) = split_places(alloc, version, undos, text)?;
    let (redo_places, rest) = split_places(alloc, version, redos, after)?;
    if !rest.is_empty() {
        return Err(Stop::Wrong(rest.len()));
    }
    let (before, _) = text.split_at(text.len() - after.len());
    let past = packed(version, before, undo_places);
    let future = packed(version, after, redo_places);
    Ok((past, future))
}

/// The contents of a journal, from the line of the counts on.
fn pack_from_counts<'a>(
    alloc: Global,
    version: Version,
    digest: &'a [u8],
    text: &'a [u8],
) -> Result<PackedJournal<'a>, Stop>
    ensures read { IfOk result (IsFromCounts version digest.now text.now) }
    ensures wrong { IfErr result (StopsWhere (IsWrongFromCounts version text.now)) }
{
    let (undos, redos, rest) = split_counts(text)?;
    let (past, future) = pack_tail(alloc, version, undos, redos, rest)?;
    Ok(PackedJournal {
        digest,
        past,
        future,
    })
}

/// The contents of a journal, from the line of the digest on.
fn pack_from_digest(alloc: Global, version: Version, text: &[u8]) -> Result<PackedJournal<'_>, Stop>
    ensures read { IfOk result (IsFromDigest version text.now) }
    ensures wrong { IfErr result (StopsWhere (IsWrongFromDigest version text.now)) }
{
    let (digest, rest) = split_digest(text)?;
    pack_from_counts(alloc, version, digest, rest)
}

/// The contents of a journal, or why reading stops.
fn pack_all(alloc: Global, text: &[u8]) -> Result<PackedJournal<'_>, Stop>
    ensures read { IfOk result (λ journal. IsJournalOf journal text.now) }
    ensures wrong { IfErr result (StopsWhere (IsWrongJournal text.now)) }
{
    let (version, rest) = split_version(text)?;
    pack_from_digest(alloc, version, rest)
}

/// The contents of a journal, as `read_journal` reads them, with steps that stay in the text. It takes time linear in the length of
/// the text, and memory for the places of the steps.
pub fn pack_journal(alloc: Global, text: &[u8]) -> Result<PackedJournal<'_>, JournalFault>
    ensures read { IfOk result (λ journal. IsJournalOf journal text.now) }
    ensures refused { IfErr result (λ fault. Refuses fault text.now) }
    ensures again { (c : Contents) → IsJournalOf c text.now → MatchResult result (λ journal. journal ≡ c) (λ fault. fault ≡ JournalFault.Memory) }
{
    match pack_all(alloc, text) {
        Ok(journal) => Ok(journal),
        Err(Stop::Wrong(left)) => Err(JournalFault::BadJournal(text.len() - left)),
        Err(Stop::Memory) => Err(JournalFault::Memory),
    }
}

//! Reading a journal.

ghost use Rattle.std.specs.Prelude.{◌≡◌, ◌+◌, IfOk, IfErr, MatchResult};
ghost use Rattle.journal_format.specs.Contents.{Contents};
ghost use Rattle.journal_format.specs.JournalText.{steps_limit, counts};
ghost use Rattle.journal_format.specs.Wrong.{IsWrongTail, IsWrongFromCounts, IsWrongFromDigest, IsWrongJournal};
ghost use Rattle.journal_format.specs.Faults.{IsJournalOf, Refuses, StopsWhere};
ghost use Rattle.journal_format.specs.Parts.{IsTailOf, IsFromCounts, IsFromDigest};

use crate::fault::{JournalFault, Stop};
use crate::heads::{split_counts, split_digest, split_version};
use crate::journal::Journal;
use crate::step::Step;
use crate::steps::{STEP_TEXTS_LIMIT, split_steps};
use crate::version::Version;
use bib_text::{Seq, copied};
use std::alloc::Global;

/// The longest journal, in bytes. (dialect)
pub const JOURNAL_LIMIT: usize = 67_174_486;

/// The greatest length of the texts of all steps together in version 1, in bytes. (dialect)
const FIRST_STEP_TEXTS_LIMIT: u64 = 67_108_864;

/// The greatest length of the texts of all steps together in this version, in bytes.
pub(crate) fn steps_limit(version: Version) -> usize
    ensures { result ≡ steps_limit version }
{
    match version {
        Version::First => FIRST_STEP_TEXTS_LIMIT as usize,
        Version::Second => STEP_TEXTS_LIMIT as usize,
    }
}

/// The past steps, `undos` of them, and the future steps, `redos` of them; nothing may follow them.
fn read_tail(
    alloc: Global,
    version: Version,
    undos: u64,
    redos: u64,
    text: &[u8],
) -> Result<(Vec<Step>, Vec<Step>), Stop>
    ensures read { IfOk result (λ x. IsTailOf version (counts undos redos) text.now x.0.items x.1.items) }
    ensures wrong { IfErr result (StopsWhere (IsWrongTail version (undos + redos) text.now)) }
{
    let limit = steps_limit(version);
    if text.len() > limit {
        return Err(Stop::Wrong(text.len() - limit));
    }
    let (past, rest) = split_steps(alloc, version, undos, text)?;
    let (future, rest) = split_steps(alloc, version, redos, rest)?;
    if !rest.is_empty() {
        return Err(Stop::Wrong(rest.len()));
    }
    Ok((past, future))
}

/// The contents of a journal, from the line of the counts on.
fn read_from_counts(
    alloc: Global,
    version: Version,
    digest: &[u8],
    text: &[u8],
) -> Result<Journal, Stop>
    ensures read { IfOk result (IsFromCounts version digest.now text.now) }
    ensures wrong { IfErr result (StopsWhere (IsWrongFromCounts version text.now)) }
{
    let (undos, redos, rest) = split_counts(text)?;
    let (past, future) = read_tail(alloc, version, undos, redos, rest)?;
    Ok(Journal {
        digest: copied(alloc, digest)?,
        past: Seq::from_vec(past),
        future: Seq::from_vec(future),
    })
}

/// The contents of a journal, from the line of the digest on.
fn read_from_digest(alloc: Global, version: Version, text: &[u8]) -> Result<Journal, Stop>
    ensures read { IfOk result (IsFromDigest version text.now) }
    ensures wrong { IfErr result (StopsWhere (IsWrongFromDigest version text.now)) }
{
    let (digest, rest) = split_digest(text)?;
    read_from_counts(alloc, version, digest, rest)
}

/// The contents of a journal, or why reading stops.
fn read_all(alloc: Global, text: &[u8]) -> Result<Journal, Stop>
    ensures read { IfOk result (λ journal. IsJournalOf journal text.now) }
    ensures wrong { IfErr result (StopsWhere (IsWrongJournal text.now)) }
{
    let (version, rest) = split_version(text)?;
    read_from_digest(alloc, version, rest)
}

/// The contents of a journal of either version, or the place at which a text that is no journal goes wrong. It takes time
/// linear in the length of the text, and memory for the contents.
pub fn read_journal(alloc: Global, text: &[u8]) -> Result<Journal, JournalFault>
    ensures read { IfOk result (λ journal. IsJournalOf journal text.now) }
    ensures refused { IfErr result (λ fault. Refuses fault text.now) }
    ensures again { (c : Contents) → IsJournalOf c text.now → MatchResult result (λ journal. journal ≡ c) (λ fault. fault ≡ JournalFault.Memory) }
{
    match read_all(alloc, text) {
        Ok(journal) => Ok(journal),
        Err(Stop::Wrong(left)) => Err(JournalFault::BadJournal(text.len() - left)),
        Err(Stop::Memory) => Err(JournalFault::Memory),
    }
}

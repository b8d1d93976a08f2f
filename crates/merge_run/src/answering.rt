//! What `merge` answers to the bytes of three files.

ghost use Rattle.std.specs.Prelude.{◌≡◌, ◌≢◌, [], map, slice_index_or, IfOk};
ghost use Rattle.bib_places.specs.ConflictsSeen.{conflict_seen};
ghost use Rattle.bib_merge.specs.declared.fault.MergeFault.TheVariants.{Memory};
ghost use Rattle.merge_run.specs.Answers.{merged_status, merged_answer, fault_line, IsMergeAnswer};

use crate::lines::told_lines;
use bib_answers::{Answer, Outcome, outcome_of, refusal_in, refused};
use bib_merge::{Conflict, KeyConflict, LostUse, MergeFault, Merged, merge_files};
use bib_text::{Text, copied};
use bib_words::status;
use std::alloc::{AllocError, Global};

/// The name with this number, from 0; nothing if there are not so many names.
fn name_of(names: &[Text], i: usize) -> &[u8]
    ensures { result.now ≡ slice_index_or names.now i [] }
{
    match names.get(i) {
        Some(name) => name.as_slice(),
        None => b"",
    }
}

/// The message of why files with these names are not merged. If memory ran out, there is none.
fn fault_line(alloc: Global, names: &[Text], fault: MergeFault) -> Result<Text, AllocError>
    ensures { IfOk result (λ line. (fault ≢ Memory) × (line ≡ fault_line names.now fault)) }
{
    match fault {
        MergeFault::Base(fault) => refusal_in(alloc, fault.kind, fault.place, name_of(names, 0)),
        MergeFault::Ours(fault) => refusal_in(alloc, fault.kind, fault.place, name_of(names, 1)),
        MergeFault::Theirs(fault) => refusal_in(alloc, fault.kind, fault.place, name_of(names, 2)),
        MergeFault::Memory => Err(AllocError),
        MergeFault::TextTooLong => copied(alloc, b"bibkeep: 8 TextTooLong\n"),
        MergeFault::FileTooLong => copied(alloc, b"bibkeep: 9 FileTooLong\n"),
        MergeFault::WouldMerge => copied(alloc, b"bibkeep: 40 WouldMerge\n"),
    }
}

/// The status after a merge with these conflicts, in which the entries with these keys have lost their parents, and these uses of macros
/// their meaning.
fn merged_status(
    keys: &[KeyConflict],
    conflicts: &[Conflict],
    lost: &[Text],
    uses: &[LostUse],
) -> u8
    ensures { result ≡ merged_status keys.now (map conflict_seen conflicts.now) lost.now uses.now }
{
    match (keys.first(), conflicts.first(), lost.first(), uses.first()) {
        (None, None, None, None) => status::DONE,
        _ => status::REFUSED,
    }
}

/// The answer that has the merged file: to be stored, or with `print` as the output.
fn merged_answer(alloc: Global, print: bool, merged: Merged) -> Result<Answer, AllocError>
    ensures { IfOk result (λ answer. answer ≡ merged_answer print merged.text merged.keys.items (map conflict_seen merged.conflicts.items) merged.lost.items merged.uses.items) }
{
    let keys = merged.keys.as_slice();
    let (conflicts, lost) = (merged.conflicts.as_slice(), merged.lost.as_slice());
    let uses = merged.uses.as_slice();
    let lines = told_lines(alloc, keys, conflicts, lost, uses)?;
    let status = merged_status(keys, conflicts, lost, uses);
    if print {
        return Ok(Answer {
            output: merged.text,
            outcome: outcome_of(lines, status),
        });
    }
    Ok(Answer {
        output: lines,
        outcome: Outcome {
            file: Some(merged.text),
            journal: None,
            message: Text::empty(alloc),
            status,
        },
    })
}

/// What `merge` answers to a common file, ours and theirs, which have these names in this order: a line for each conflict, and the
/// merged file, which is to be stored or with `print` is the output, while the lines are the message. It uses the memory of the
/// files' bytes, reads and writes nothing, and is refused only if memory runs out. (dialect)
pub fn answer_merge(
    alloc: Global,
    print: bool,
    names: &[Text],
    base: Vec<u8>,
    ours: Vec<u8>,
    theirs: Vec<u8>,
) -> Result<Answer, AllocError>
    ensures { IfOk result (IsMergeAnswer print names.now base.items ours.items theirs.items) }
{
    match merge_files(alloc, base, ours, theirs) {
        Ok(merged) => merged_answer(alloc, print, merged),
        Err(fault) => {
            let line = fault_line(alloc, names, fault)?;
            Ok(refused(alloc, line))
        }
    }
}

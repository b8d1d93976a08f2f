//! The three files of `merge`: they are read, and the merged file takes the place of ours.

ghost use Rattle.std.specs.Option.{option_copied};
ghost use Rattle.bibkeep.specs.Merging.{RanMerge};
ghost use Rattle.bibkeep.specs.Ending.{MergedAndFinished};

use crate::endings::{errors, output};
use crate::opening::{Place, open_place};
use crate::other_files::{FileFault, READ_LIMIT, text_named, text_of, unread};
use crate::saying::{is_closed_by, say_unstored};
use crate::storing::finish;
use bib_files::{Folder, Paths};
use bib_run::Outcome;
use bib_text::Text;
use bib_words::Command;
use merge_run::run_merge;
use std::alloc::Global;
use std::{io, str};

/// What the three files of a merge hold, and the place of ours.
#[derive(Drop)]
pub struct Three {
    pub base: Text,
    pub ours: Text,
    pub theirs: Text,
    pub place: Place,
}

/// Reads the common file, ours and theirs, which have these names. If ours is to be stored, it is locked until the merged file is in
/// its place.
pub fn three_files(
    rt: &HostRuntime,
    alloc: Global,
    names: [&[u8]; 3],
    stores: bool,
) -> Result<Three, FileFault> {
    let [base, ours, theirs] = names;
    let base = text_named(rt, alloc, base)?;
    let place = place_named(rt, alloc, ours, stores)?;
    let ours = match text_of(alloc, &place.file, READ_LIMIT) {
        Ok(text) => Text::from_vec(text),
        Err(error) => return Err(unread(alloc, ours, error.kind())),
    };
    let theirs = text_named(rt, alloc, theirs)?;
    Ok(Three {
        base,
        ours,
        theirs,
        place,
    })
}

/// Opens the file with this name, in the place where it is stored.
fn place_named(
    rt: &HostRuntime,
    alloc: Global,
    name: &[u8],
    stores: bool,
) -> Result<Place, FileFault> {
    let opened = match str::from_utf8(name) {
        Ok(path) => open_place(rt, alloc, path, stores),
        Err(_) => Err(io::ErrorKind::InvalidFilename.into()),
    };
    match opened {
        Ok(place) => Ok(place),
        Err(error) => Err(unread(alloc, name, error.kind())),
    }
}

/// Merges three files with these bytes, says how it ended, and puts the merged file in the place of ours.
pub fn merge_files<D: Folder>(
    rt: &HostRuntime,
    alloc: Global,
    command: &Command,
    hints: bool,
    folder: &mut D,
    paths: Option<&Paths>,
    base: Vec<u8>,
    ours: Vec<u8>,
    theirs: Vec<u8>,
) -> u8
    ensures { MergedAndFinished command.now (option_copied paths.entry) base.items ours.items theirs.items result (D.files folder.old) (D.files folder.new) }
{
    let (outcome, is_closed) = outcome_of_merge(rt, alloc, command, base, ours, theirs);
    let finished = finish(folder, &mut errors(rt), paths, &outcome, is_closed);
    say_unstored(rt, alloc, command, hints, finished.unstored);
    finished.status
}

/// The outcome of a merge of files with these bytes, and whether the reader of the output was gone before its end. Lines of conflicts
/// have names from files, so their control bytes are always shown.
fn outcome_of_merge(
    rt: &HostRuntime,
    alloc: Global,
    command: &Command,
    base: Vec<u8>,
    ours: Vec<u8>,
    theirs: Vec<u8>,
) -> (Outcome, bool)
    ensures { RanMerge command.now base.items ours.items theirs.items result.0 }
{
    let mut out = output(rt, !command.print);
    let outcome = run_merge(alloc, command, base, ours, theirs, &mut out);
    (
        outcome,
        is_closed_by(&out.into_inner().into_inner().error()),
    )
}

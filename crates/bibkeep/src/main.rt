//! `bibkeep`: opens what the words of the command line name, runs the command, and says how it ended. Here it is decided
//! which files a command reads. `bib_command` reads the words; `bib_run`, `shelf_run` and `merge_run` know what a command does.
#![tactic(auto)]

ghost use Rattle.std.specs.Prelude.{◌≡◌, true, false, List, map, None, option_map, codes, string_bytes, IfOk, MatchResult};
ghost use Rattle.std.specs.Option.{option_copied};
ghost use Rattle.bib_spec.specs.Text.{Text as FileText};
ghost use Rattle.bib_words.specs.Command.{IsCommand, has_others};
ghost use Rattle.bib_taps.specs.Taps.{tap_inner, has_failed};
ghost use Rattle.bib_streams.specs.Heard.{heard_inner, kept_inner};
ghost use Rattle.bib_run.specs.Runs.{fresh, view_of};
ghost use Rattle.bibkeep.specs.Causes.{fault_status, aux_status};
ghost use Rattle.bibkeep.specs.Opening.{told_by};
ghost use Rattle.bibkeep.specs.Ending.{RanHere, RanAndFinished, RanAlone, HasRun, EndsWith, EndsMerged, MergedAndFinished, IsOverFile, EndsFor};
ghost use Rattle.bib_shelf.specs.Joined.{AreJoined};
ghost use Rattle.bibkeep.specs.Citing.{EndsCiting};
ghost use Rattle.bibkeep.specs.Program.{Ends, EndsForWords};
ghost use Rattle.bibkeep.specs.Together.{all_names, RanTogether, EndsTogether, RanBetween, EndsBetween};

mod aux_files;
mod disk;
mod endings;
mod merging;
mod opening;
mod other_files;
mod saying;
mod storing;

use aux_files::{AuxFault, cited_in, citing, names_any, placed_in, placing};
use bib_command::{Request, parse_request};
use bib_files::{Folder, Paths};
use bib_run::{Outcome, Sources, Tap, WRITE_FAULT, run, run_read};
use bib_streams::{Heard, Kept};
use bib_text::Text;
use bib_words::{Command, status};
use disk::Disk;
use endings::{
    end, end_long, end_run, end_unknown, end_unopened, end_unread, end_usage, end_without_memory,
    end_without_words, errors, output,
};
use merging::{Three, merge_files, three_files};
use opening::{Journal, Opened, Place, expect_room, open};
use other_files::{FileFault, all_names, joined_files, two_files};
use saying::{
    Ran, Streams, invite, is_closed, may_hint, say_hints, say_trouble, say_unstored, say_usage,
};
use shelf_run::{Joined, run_shelf};
use std::alloc::Global;
use std::fs::File;
use std::io::Read;
use std::process::ExitCode;
use std::{env, io, str};
use storing::finish;

fn main(rt: HostRuntime) -> ExitCode {
    ExitCode::from(answer_words(&rt, rt.alloc()))
}

/// Does what the words of the command line say, and returns the status to end with.
fn answer_words(rt: &HostRuntime, alloc: Global) -> u8
    ensures { Ends result }
{
    let words = match env::args(rt) {
        Ok(words) => words,
        Err(error) => return end_without_words(&mut errors(rt), &error),
    };
    let words: Vec<String> = match words.collect(alloc) {
        Ok(words) => words,
        Err(error) => return end_without_words(&mut errors(rt), &error.into()),
    };
    answer_these(rt, alloc, words.as_slice())
}

/// Does what these words say, of which the first is the program's own name, and returns the status to end with.
fn answer_these(rt: &HostRuntime, alloc: Global, words: &[String]) -> u8
    ensures { EndsForWords (map string_bytes words.now) result }
{
    match parse_request(alloc, words) {
        Ok(Request { command, hints }) => answer(rt, alloc, command, may_hint(rt, hints)),
        Err(usage) => {
            let status = end_usage(&mut output(rt, false), &mut errors(rt), &usage);
            say_usage(rt, alloc, words, status);
            status
        }
    }
}

/// Runs the command with the keys that its aux files cite, if it names any; `lint` with the place of each.
fn answer(rt: &HostRuntime, alloc: Global, command: Command, hints: bool) -> u8
    requires { IsCommand command }
    ensures { EndsCiting command result }
{
    if !names_any(command.aux.as_slice()) {
        return perform(rt, alloc, &command, hints);
    }
    if command.is_named(b"lint") {
        return match placed_in(rt, alloc, command.aux.as_slice()) {
            Ok(cited) => perform_known(rt, alloc, &placing(command, cited), hints),
            Err(fault) => end_without_aux(rt, alloc, &command, hints, fault),
        };
    }
    match cited_in(rt, alloc, command.aux.as_slice()) {
        Ok(cited) => match citing(alloc, command, cited) {
            Ok(command) => perform_known(rt, alloc, &command, hints),
            Err(_) => end_without_memory(&mut errors(rt)),
        },
        Err(fault) => end_without_aux(rt, alloc, &command, hints, fault),
    }
}

/// Says why it is not known what the aux files of the command cite.
fn end_without_aux(
    rt: &HostRuntime,
    alloc: Global,
    command: &Command,
    hints: bool,
    fault: AuxFault,
) -> u8
    ensures { result ≡ aux_status fault }
{
    match fault {
        AuxFault::File(fault) => end_unheard(rt, alloc, command, hints, &fault),
        AuxFault::TooLong(path) => end_long(&mut errors(rt), path.as_slice()),
    }
}

/// Says which file could not be read, and why.
fn end_unheard(
    rt: &HostRuntime,
    alloc: Global,
    command: &Command,
    hints: bool,
    fault: &FileFault,
) -> u8
    ensures { result ≡ fault_status fault.now }
{
    match fault {
        FileFault::Memory => end_without_memory(&mut errors(rt)),
        FileFault::Unread(path, kind) => {
            let status = end_unread(&mut errors(rt), path.as_slice());
            say_trouble(rt, alloc, command, hints, path.as_slice(), *kind);
            status
        }
    }
}

/// Runs a command that the program has: one over keys takes any number of them.
fn perform_known(rt: &HostRuntime, alloc: Global, command: &Command, hints: bool) -> u8
    ensures { EndsFor command.now result }
{
    if command.is_known() {
        return perform(rt, alloc, command, hints);
    }
    end_unknown(&mut errors(rt))
}

/// Runs the command over what it names. `explain` reads nothing; `diff` is run over the two files that it names, and `merge`
/// over three; or it is run over several files, if it names others. What is new is put in its place. With `hints`, hints follow a
/// message.
fn perform(rt: &HostRuntime, alloc: Global, command: &Command, hints: bool) -> u8
    requires { IsCommand command.now }
    ensures { EndsFor command.now result }
{
    if command.has_others() {
        return run_together(rt, alloc, command, hints);
    }
    if command.is_named(b"merge") {
        return run_merging(rt, alloc, command, hints);
    }
    if command.is_named(b"explain") {
        return run_alone(rt, alloc, command, hints, b"".as_slice());
    }
    if command.is_named(b"diff") {
        return run_between(rt, alloc, command, hints);
    }
    run_over_file(rt, alloc, command, hints)
}

/// Runs the command over the file that it names and its journal, or over standard input if it names no file.
fn run_over_file(rt: &HostRuntime, alloc: Global, command: &Command, hints: bool) -> u8
    requires known { IsCommand command.now }
    requires over { IsOverFile command.now }
    ensures { EndsFor command.now result }
{
    let Some(path) = command.words.as_slice().first() else {
        return run_alone(rt, alloc, command, hints, rt.stdin());
    };
    let Ok(path) = str::from_utf8(path.as_slice()) else {
        return end_unknown(&mut errors(rt));
    };
    let opened = open(rt, alloc, command, path);
    answer_opened(rt, alloc, command, hints, path.as_bytes(), opened)
}

/// Runs the command over the file that was opened and its journal, or says that they could not be opened.
fn answer_opened(
    rt: &HostRuntime,
    alloc: Global,
    command: &Command,
    hints: bool,
    path: &[u8],
    opened: io::Result<Opened>,
) -> u8
    requires { IsCommand command.now }
    ensures { EndsWith command.now opened result }
{
    match opened {
        Ok(opened) => {
            let room = expect_room(rt, command, &opened);
            run_opened(rt, alloc, command, hints, &opened, room)
        }
        Err(error) => {
            let status = end_unopened(&mut errors(rt), &error);
            say_trouble(rt, alloc, command, hints, path, error.kind());
            status
        }
    }
}

/// Runs the command over all its files as one, and says how it ended.
fn run_together(rt: &HostRuntime, alloc: Global, command: &Command, hints: bool) -> u8
    requires known { IsCommand command.now }
    requires others { has_others command.now ≡ true }
    ensures { EndsFor command.now result }
{
    let Ok(names) = all_names(alloc, command) else {
        return end_without_memory(&mut errors(rt));
    };
    let files = joined_files(rt, alloc, names.as_slice());
    answer_joined(rt, alloc, command, hints, names.as_slice(), files)
}

/// Runs the command over the files that were read, which have these names, or says which could not be read.
fn answer_joined(
    rt: &HostRuntime,
    alloc: Global,
    command: &Command,
    hints: bool,
    names: &[Text],
    files: Result<Joined, FileFault>,
) -> u8
    requires known { IsCommand command.now }
    requires others { has_others command.now ≡ true }
    requires names { names.now ≡ all_names command.now }
    requires joined { IfOk files (λ joined. (texts : List FileText) × AreJoined texts joined) }
    ensures { MatchResult files (λ joined. EndsTogether command.now result) (λ why. result ≡ fault_status why) }
{
    match files {
        Ok(files) => run_joined(rt, alloc, command, names, files),
        Err(fault) => end_unheard(rt, alloc, command, hints, &fault),
    }
}

/// Runs the command over these files, which have these names, and says how it ended.
fn run_joined(
    rt: &HostRuntime,
    alloc: Global,
    command: &Command,
    names: &[Text],
    files: Joined,
) -> u8
    requires known { IsCommand command.now }
    requires others { has_others command.now ≡ true }
    requires names { names.now ≡ all_names command.now }
    requires joined { (texts : List FileText) × AreJoined texts files }
    ensures { EndsTogether command.now result }
{
    let (outcome, is_closed) = outcome_of_joined(rt, alloc, command, names, files);
    end_run(&mut errors(rt), &outcome, is_closed)
}

/// The outcome of the command over these files, and whether the reader of the output was gone before its end.
fn outcome_of_joined(
    rt: &HostRuntime,
    alloc: Global,
    command: &Command,
    names: &[Text],
    files: Joined,
) -> (Outcome, bool)
    requires known { IsCommand command.now }
    requires others { has_others command.now ≡ true }
    requires names { names.now ≡ all_names command.now }
    requires joined { (texts : List FileText) × AreJoined texts files }
    ensures { RanTogether command.now result.0 }
{
    let mut out = output(rt, command.is_named(b"lint"));
    let outcome = run_shelf(alloc, command, names, files, &mut out);
    (outcome, is_closed(out))
}

/// Merges the three files that the command names, and puts the merged file in the place of ours.
fn run_merging(rt: &HostRuntime, alloc: Global, command: &Command, hints: bool) -> u8
    requires known { IsCommand command.now }
    requires alone { has_others command.now ≡ false }
    requires named { command.now.name ≡ codes "merge" }
    ensures { EndsFor command.now result }
{
    let names = [command.word(0), command.word(1), command.word(2)];
    let files = three_files(rt, alloc, names, !command.print);
    answer_three(rt, alloc, command, hints, files)
}

/// Merges the three files that were read, and puts the merged file in the place of ours; or says which could not be read.
fn answer_three(
    rt: &HostRuntime,
    alloc: Global,
    command: &Command,
    hints: bool,
    files: Result<Three, FileFault>,
) -> u8
    ensures { MatchResult files (λ three. EndsMerged command.now three result) (λ why. result ≡ fault_status why) }
{
    match files {
        Ok(files) => merge_three(rt, alloc, command, hints, files),
        Err(fault) => end_unheard(rt, alloc, command, hints, &fault),
    }
}

/// Merges these three files, and puts the merged file in the place of ours.
fn merge_three(rt: &HostRuntime, alloc: Global, command: &Command, hints: bool, files: Three) -> u8
    ensures { EndsMerged command.now files result }
{
    let base = files.base.into_vec();
    let ours = files.ours.into_vec();
    let theirs = files.theirs.into_vec();
    merge_at(rt, alloc, command, hints, &files.place, base, ours, theirs)
}

/// Merges files with these bytes, and puts the merged file in this place.
fn merge_at(
    rt: &HostRuntime,
    alloc: Global,
    command: &Command,
    hints: bool,
    place: &Place,
    base: Vec<u8>,
    ours: Vec<u8>,
    theirs: Vec<u8>,
) -> u8
    ensures { MergedAndFinished command.now place.now.paths base.items ours.items theirs.items result None None }
{
    let mut disk = Disk {
        rt,
        file: &place.file,
        first: None,
    };
    merge_files(
        rt,
        alloc,
        command,
        hints,
        &mut disk,
        place.paths.as_ref(),
        base,
        ours,
        theirs,
    )
}

/// Runs the command over the two files that it names, and says how it ended.
fn run_between(rt: &HostRuntime, alloc: Global, command: &Command, hints: bool) -> u8
    requires known { IsCommand command.now }
    requires alone { has_others command.now ≡ false }
    requires named { command.now.name ≡ codes "diff" }
    ensures { EndsFor command.now result }
{
    let sources = two_files(rt, alloc, command.word(0), command.word(1));
    answer_between(rt, alloc, command, hints, sources)
}

/// Runs the command over the two files that were read, or says which could not be read.
fn answer_between(
    rt: &HostRuntime,
    alloc: Global,
    command: &Command,
    hints: bool,
    sources: Result<Sources, FileFault>,
) -> u8
    requires { IsCommand command.now }
    ensures { MatchResult sources (λ read. EndsBetween command.now read result) (λ why. result ≡ fault_status why) }
{
    match sources {
        Ok(sources) => run_sources(rt, alloc, command, sources),
        Err(fault) => end_unheard(rt, alloc, command, hints, &fault),
    }
}

/// Runs the command over files that were read, and says how it ended.
fn run_sources(rt: &HostRuntime, alloc: Global, command: &Command, sources: Sources) -> u8
    requires { IsCommand command.now }
    ensures { EndsBetween command.now sources result }
{
    let (outcome, is_closed) = outcome_of_sources(rt, alloc, command, sources);
    end_run(&mut errors(rt), &outcome, is_closed)
}

/// The outcome of the command over files that were read, and whether the reader of the output was gone before its end.
fn outcome_of_sources(
    rt: &HostRuntime,
    alloc: Global,
    command: &Command,
    sources: Sources,
) -> (Outcome, bool)
    requires { IsCommand command.now }
    ensures { RanBetween command.now sources result.0 }
{
    let mut out = output(rt, false);
    let outcome = run_read(alloc, command, sources, &mut out);
    (outcome, is_closed(out))
}

/// Runs the command over a source that has no journal and no place for a new file.
fn run_alone<F: Read>(
    rt: &HostRuntime,
    alloc: Global,
    command: &Command,
    hints: bool,
    source: F,
) -> u8
where
    F: Drop,
    requires { IsCommand command.now }
    ensures { RanAlone command.now (F.remaining source) result }
{
    let ran = run_over(rt, alloc, command, hints, source, None::<File>);
    let status = end_run(&mut errors(rt), &ran.outcome, ran.streams.is_closed());
    say_hints(rt, alloc, command, hints, &ran);
    status
}

/// Runs the command over its file and its journal, unless there is no room for the journal that it stores.
fn run_opened(
    rt: &HostRuntime,
    alloc: Global,
    command: &Command,
    hints: bool,
    opened: &Opened,
    room: io::Result<()>,
) -> u8
    requires { IsCommand command.now }
    ensures { MatchResult room (λ _. HasRun command.now opened.now result) (λ error. result ≡ 3) }
{
    match room {
        Ok(()) => {
            let mut disk = Disk {
                rt,
                file: &opened.file,
                first: None,
            };
            run_in(rt, alloc, command, hints, &mut disk, opened)
        }
        Err(error) => {
            let status = end(&mut errors(rt), WRITE_FAULT, status::FAULT);
            say_unstored(rt, alloc, command, hints, Some(error));
            status
        }
    }
}

/// Runs the command over its file and its journal, and puts what is new in its place in the folder. A link in the place of
/// the journal is read as an empty text, which is no journal.
fn run_in<D: Folder>(
    rt: &HostRuntime,
    alloc: Global,
    command: &Command,
    hints: bool,
    folder: &mut D,
    opened: &Opened,
) -> u8
    requires { IsCommand command.now }
    ensures { RanAndFinished command.now opened.now.paths None (told_by opened.now.journal) result (D.files folder.old) (D.files folder.new) }
{
    let file = &opened.file;
    let paths = opened.paths.as_ref();
    match &opened.journal {
        Journal::Found(journal) => {
            let journal = Some(journal);
            run_stored(rt, alloc, command, hints, folder, paths, file, journal)
        }
        Journal::Link => {
            let damaged = Some(b"".as_slice());
            run_stored(rt, alloc, command, hints, folder, paths, file, damaged)
        }
        Journal::Unread | Journal::Missing => {
            let none = None::<&File>;
            run_stored(rt, alloc, command, hints, folder, paths, file, none)
        }
    }
}

/// Runs the command over its file and its journal, and puts what is new in its place.
fn run_stored<D: Folder, F: Read, J: Read>(
    rt: &HostRuntime,
    alloc: Global,
    command: &Command,
    hints: bool,
    folder: &mut D,
    paths: Option<&Paths>,
    file: F,
    journal: Option<J>,
) -> u8
where
    F: Drop,
    J: Drop,
    requires { IsCommand command.now }
    ensures { RanAndFinished command.now (option_copied paths.entry) (F.remaining file) (option_map J.remaining journal) result (D.files folder.old) (D.files folder.new) }
{
    let ran = run_over(rt, alloc, command, hints, file, journal);
    let is_closed = ran.streams.is_closed();
    let finished = finish(folder, &mut errors(rt), paths, &ran.outcome, is_closed);
    say_hints(rt, alloc, command, hints, &ran);
    say_unstored(rt, alloc, command, hints, finished.unstored);
    finished.status
}

/// Runs the command over the file and its journal, standard input and standard output. What is read is kept for hints.
fn run_over<F: Read, J: Read>(
    rt: &HostRuntime,
    alloc: Global,
    command: &Command,
    hints: bool,
    file: F,
    journal: Option<J>,
) -> Ran
where
    F: Drop,
    J: Drop,
    requires { IsCommand command.now }
    ensures { RanHere command.now (F.remaining file) (option_map J.remaining journal) result.outcome }
{
    invite(rt, alloc, command, hints);
    let mut file = watched(alloc, file, hints);
    let mut journal = over(journal);
    let mut input = watched(alloc, rt.stdin(), hints);
    let mut out = output(rt, command.is_named(b"lint"));
    let outcome = run(
        alloc,
        command,
        &mut file,
        journal.as_mut(),
        &mut input,
        &mut out,
    );
    Ran {
        outcome,
        streams: Streams::of(file.into_inner(), input.into_inner(), out.into_inner()),
    }
}

/// A new tap over the source, whose bytes are kept if `keeps`.
fn watched<R: Read>(alloc: Global, source: R, keeps: bool) -> Tap<Kept<Heard<R>>>
where
    R: Drop,
    ensures inner { heard_inner (kept_inner (tap_inner result)) ≡ source }
    ensures fault { has_failed result ≡ false }
{
    Tap::new(Kept::new(alloc, Heard::new(source), keeps))
}

/// A new tap over the source, if there is one.
fn over<J: Read>(source: Option<J>) -> Option<Tap<J>>
where
    J: Drop,
    ensures { option_map (view_of J.remaining) result ≡ option_map fresh (option_map J.remaining source) }
{
    match source {
        Some(source) => Some(Tap::new(source)),
        None => None,
    }
}

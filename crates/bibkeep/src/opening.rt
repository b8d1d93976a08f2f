//! Opens what a command reads: its file, which is locked if the command stores it, and the journal beside it.

ghost use Rattle.std.specs.Prelude.{◌≡◌, ◌≢◌, ◌↔◌, Some, IfOk, IfSome, OnErr, IsSome, IsTrue, option_map, pos, slice_get};
ghost use Rattle.std.specs.Fd.{file_raw_fd};
ghost use Rattle.std.specs.Path.{path_buf_bytes};
ghost use Rattle.bib_words.specs.Command.{ReadsJournal, TakesInput};
ghost use Rattle.bib_files.specs.Storing.{paths_for};
ghost use Rattle.bibkeep.specs.Opening.{Stores, StoresJournal};

use crate::disk::{found, is_same, kind_of};
use bib_files::{Kind, Paths};
use bib_words::Command;
use std::alloc::Global;
use std::fs::File;
use std::io::ErrorKind;
use std::os::fd::AsRawFd;
use std::path::PathBuf;
use std::{fs, io};

/// A file is opened so often at most, if other runs go on to replace it between opening and locking.
const ATTEMPT_LIMIT: u32 = 100_000;

/// The journal of a file, as it was found.
#[derive(Drop)]
pub enum Journal {
    /// It was not looked for: the command does not read it, or the file has no path.
    Unread,
    /// There is none.
    Missing,
    /// A file.
    Found(File),
    /// A symbolic link, which is not followed.
    Link,
}

/// An open file, and the paths at which it is stored, if it is to be stored.
#[derive(Drop)]
pub struct Place {
    pub file: File,
    pub paths: Option<Paths>,
}

/// What a run reads, and the paths at which it stores, if there are any.
#[derive(Drop)]
pub struct Opened {
    pub file: File,
    pub journal: Journal,
    pub paths: Option<Paths>,
}

/// Whether the command puts something in place.
fn stores(command: &Command) -> bool
    ensures { IsTrue result ↔ Stores command.now }
{
    (command.makes_file() && !command.print) || command.is_named(b"forget")
}

/// Opens the file, and its journal if there is one and the command reads it. If standard input is closed, the file gets
/// the number of standard input. Then it would be read as the input too, so a command that takes input fails.
pub fn open(rt: &HostRuntime, alloc: Global, command: &Command, path: &str) -> io::Result<Opened>
    requires { slice_get command.now.words 0 ≡ Some path.now }
    ensures apart { TakesInput command.now → IfOk result (λ opened. file_raw_fd opened.file ≢ pos 0) }
    ensures unread { ¬ ReadsJournal command.now → IfOk result (λ opened. opened.journal ≡ Journal.Unread) }
    ensures looked { ReadsJournal command.now → IfOk result (λ opened. IsSome opened.paths → opened.journal ≢ Journal.Unread) }
{
    let stores = stores(command);
    let paths = if stores || command.reads_journal() {
        paths_of(rt, alloc, path)?
    } else {
        None
    };
    let path = match &paths {
        Some(paths) => paths.file(),
        None => path,
    };
    let file = if stores {
        open_locked(rt, path)?
    } else {
        File::open(rt, path)?
    };
    if command.takes_input() && file.as_raw_fd() == rt.stdin().as_raw_fd() {
        return Err(ErrorKind::InvalidInput.into());
    }
    let journal = journal_beside(rt, command, &paths)?;
    Ok(Opened {
        file,
        journal,
        paths,
    })
}

/// Opens a file that a new one is to replace if it `stores`: then it is locked, and it is the file that the path leads to.
pub fn open_place(rt: &HostRuntime, alloc: Global, path: &str, stores: bool) -> io::Result<Place> {
    if !stores {
        let file = File::open(rt, path)?;
        return Ok(Place { file, paths: None });
    }
    let paths = paths_of(rt, alloc, path)?;
    let path = match &paths {
        Some(paths) => paths.file(),
        None => path,
    };
    let file = open_locked(rt, path)?;
    Ok(Place { file, paths })
}

/// The paths at which the file and its journal are stored. If the path is a symbolic link, they are those of the file that
/// it leads to. A pipe has none.
fn paths_of(rt: &HostRuntime, alloc: Global, path: &str) -> io::Result<Option<Paths>> {
    paths_at(alloc, found(fs::canonicalize(rt, path))?)
}

/// The paths at which the file at this path and its journal are stored, if there is one.
fn paths_at(alloc: Global, path: Option<PathBuf>) -> io::Result<Option<Paths>>
    ensures { IfOk result (λ paths. paths ≡ option_map (λ p. paths_for (path_buf_bytes p)) path) }
{
    match path {
        Some(path) => Ok(Some(Paths::of(alloc, path.into_string().as_str())?)),
        None => Ok(None),
    }
}

/// Opens a file and locks it: as long as it is open, another run that does so waits. A lock is of a file and not of its
/// path, so the file is opened again if another run has put a new one in its place meanwhile. What is no file, or cannot be
/// locked, is opened without a lock.
fn open_locked(rt: &HostRuntime, path: &str) -> io::Result<File> {
    for _ in 0..ATTEMPT_LIMIT {
        let file = File::open(rt, path)?;
        let opened = file.metadata()?;
        if !opened.is_file() || file.lock().is_err() || is_same(&opened, &fs::metadata(rt, path)?) {
            return Ok(file);
        }
    }
    Err(ErrorKind::ResourceBusy.into())
}

/// The journal beside the file, if it has a path and the command reads its journal.
fn journal_beside(rt: &HostRuntime, command: &Command, paths: &Option<Paths>) -> io::Result<Journal>
    ensures unread { ¬ ReadsJournal command.now → IfOk result (λ journal. journal ≡ Journal.Unread) }
    ensures looked { ReadsJournal command.now → IfOk result (λ journal. IsSome paths.now → journal ≢ Journal.Unread) }
{
    match paths {
        Some(paths) if command.reads_journal() => open_journal(rt, paths.journal()),
        _ => Ok(Journal::Unread),
    }
}

/// Opens the journal. A link is not followed, and anything but a file fails. The journal is looked for again if another
/// run has put a new one in its place between looking and opening.
fn open_journal(rt: &HostRuntime, path: &str) -> io::Result<Journal>
    ensures { IfOk result (λ journal. journal ≢ Journal.Unread) }
{
    for _ in 0..ATTEMPT_LIMIT {
        let Some(looked) = found(fs::symlink_metadata(rt, path))? else {
            return Ok(Journal::Missing);
        };
        match kind_of(&looked) {
            Kind::Link => return Ok(Journal::Link),
            Kind::File => {}
            Kind::Nothing | Kind::Other => return Err(ErrorKind::InvalidInput.into()),
        }
        let journal = File::open(rt, path)?;
        if is_same(&looked, &journal.metadata()?) {
            return Ok(Journal::Found(journal));
        }
    }
    Err(ErrorKind::ResourceBusy.into())
}

/// Fails if the command stores a journal for which there is no room.
pub fn expect_room(rt: &HostRuntime, command: &Command, opened: &Opened) -> io::Result<()>
    ensures { OnErr result (StoresJournal command.now × IsSome opened.now.paths) }
{
    match &opened.paths {
        Some(paths) if stores_journal(command) => expect_places(rt, &opened.file, paths),
        _ => Ok(()),
    }
}

/// Whether the command puts a journal in place.
fn stores_journal(command: &Command) -> bool
    ensures { IsTrue result ↔ StoresJournal command.now }
{
    stores(command) && !command.no_journal
}

/// Fails if nothing could be stored at the paths: the longest is no path that a file may have; or in the place of the
/// journal is a folder, a device, a pipe or a socket, or the file itself under a second name.
fn expect_places(rt: &HostRuntime, file: &File, paths: &Paths) -> io::Result<()> {
    found(fs::symlink_metadata(rt, paths.new_journal()))?;
    let Some(journal) = found(fs::symlink_metadata(rt, paths.journal()))? else {
        return Ok(());
    };
    if kind_of(&journal) == Kind::Other || is_same(&journal, &file.metadata()?) {
        return Err(ErrorKind::InvalidInput.into());
    }
    Ok(())
}

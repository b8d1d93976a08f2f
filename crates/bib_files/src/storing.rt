//! Puts a new file and a new journal in the place of the old ones.

ghost use Rattle.std.specs.Prelude.{◌≡◌, IfOk, IfSome, OnOk, OnErr};
ghost use Rattle.std.specs.Option.{option_copied};
ghost use Rattle.bib_files.specs.Folders.{Told, Keeps};
ghost use Rattle.bib_files.specs.Storing.{paths_for, PutsIf, MovesIf, CanStore, AreStored, AreUnstored};

use crate::folder::{Folder, Kind};
use std::alloc::{AllocError, Global};
use std::io;
use std::io::ErrorKind;
use std::marker::Model;
use std::string::String;

/// The paths of a file and of its journal, and the paths beside them where their new bytes are written first. No two are
/// one.
#[derive(Drop)]
pub struct Paths {
    file: String,
    journal: String,
    new_file: String,
    new_journal: String,
}

impl Model for Paths {
    ghost use Rattle.std.specs.Prelude.{string_bytes};
    ghost use Rattle.bib_files.specs.Storing.{Paths as PathsOf, AreApart};

    ghost Value = { PathsOf };

    ghost view = { λ p. record { file = string_bytes p.file; journal = string_bytes p.journal; new_file = string_bytes p.new_file; new_journal = string_bytes p.new_journal } };

    ghost invariant = { λ p. AreApart (record { file = string_bytes p.file; journal = string_bytes p.journal; new_file = string_bytes p.new_file; new_journal = string_bytes p.new_journal }) };
}

impl Paths {
    ghost use Rattle.bib_files.specs.Storing.{AreApart};

    /// The paths for the file at this path.
    pub fn of(alloc: Global, file: &str) -> Result<Paths, AllocError>
        ensures { IfOk result (λ paths. paths ≡ paths_for file.now) }
    {
        Ok(Paths {
            file: format!(in alloc; "{}", file)?,
            journal: format!(in alloc; "{}.bibkeep", file)?,
            new_file: format!(in alloc; "{}.bibkeep-new", file)?,
            new_journal: format!(in alloc; "{}.bibkeep.bibkeep-new", file)?,
        })
    }

    /// The path of the file.
    pub fn file(&self) -> &str
        ensures { result.now ≡ self.now.file }
    {
        self.file.as_str()
    }

    /// The path of the journal.
    pub fn journal(&self) -> &str
        ensures { result.now ≡ self.now.journal }
    {
        self.journal.as_str()
    }

    /// The path beside the file. No two of the four paths are one.
    pub fn new_file(&self) -> &str
        ensures path { result.now ≡ self.now.new_file }
        ensures apart { AreApart self.now }
    {
        self.new_file.as_str()
    }

    /// The path beside the journal.
    pub fn new_journal(&self) -> &str
        ensures { result.now ≡ self.now.new_journal }
    {
        self.new_journal.as_str()
    }
}

/// Puts the new file and the new journal, if there are any, in place. Both are written beside the old ones before either
/// is put in place, the file first. A file is replaced only by a file, and the journal's path may have nothing, a file
/// or a link, which is replaced itself. If a call fails, neither is in place, or the file alone.
pub fn store<D: Folder>(
    folder: &mut D,
    paths: &Paths,
    file: Option<&[u8]>,
    journal: Option<&[u8]>,
) -> io::Result<()>
    ensures ok { OnOk result (Told (AreStored paths.now (option_copied file.entry) (option_copied journal.entry)) (D.files folder.old) (D.files folder.new)) }
    ensures err { OnErr result (Told (AreUnstored paths.now (option_copied file.entry)) (D.files folder.old) (D.files folder.new)) }
{
    expect_room(folder, paths, file, journal)?;
    write(folder, paths.new_file(), file)?;
    if let Err(error) = write(folder, paths.new_journal(), journal) {
        discard(folder, paths.new_file(), file);
        return Err(error);
    }
    if let Err(error) = put(folder, paths.new_file(), paths.file(), file) {
        discard(folder, paths.new_journal(), journal);
        return Err(error);
    }
    put(folder, paths.new_journal(), paths.journal(), journal)
}

/// Fails unless there is a file where one is to be replaced, and no folder, device, pipe or socket in the place of a new
/// journal.
fn expect_room<D: Folder>(
    folder: &D,
    paths: &Paths,
    file: Option<&[u8]>,
    journal: Option<&[u8]>,
) -> io::Result<()>
    ensures { OnOk result (IfSome (D.files folder.now) (CanStore paths.now (option_copied file.entry) (option_copied journal.entry))) }
{
    if file.is_some() && folder.kind(paths.file())? != Kind::File {
        return Err(ErrorKind::InvalidInput.into());
    }
    if journal.is_some() && folder.kind(paths.journal())? == Kind::Other {
        return Err(ErrorKind::InvalidInput.into());
    }
    Ok(())
}

/// Writes the bytes, if there are any, at the path, or leaves nothing there if that can be done.
fn write<D: Folder>(folder: &mut D, path: &str, bytes: Option<&[u8]>) -> io::Result<()>
    ensures ok { OnOk result (Told (PutsIf path.now (option_copied bytes.entry)) (D.files folder.old) (D.files folder.new)) }
    ensures err { OnErr result (Told (Keeps path.now) (D.files folder.old) (D.files folder.new)) }
{
    let Some(bytes) = bytes else {
        return Ok(());
    };
    if let Err(error) = folder.write(path, bytes) {
        folder.discard(path);
        return Err(error);
    }
    Ok(())
}

/// Puts what was written at one path at another, if anything was, or removes it if that can be done.
fn put<D: Folder>(folder: &mut D, from: &str, to: &str, bytes: Option<&[u8]>) -> io::Result<()>
    ensures ok { OnOk result (Told (MovesIf (option_copied bytes.entry) from.now to.now) (D.files folder.old) (D.files folder.new)) }
    ensures err { OnErr result (Told (Keeps from.now) (D.files folder.old) (D.files folder.new)) }
{
    if bytes.is_none() {
        return Ok(());
    }
    if let Err(error) = folder.rename(from, to) {
        folder.discard(from);
        return Err(error);
    }
    Ok(())
}

/// Removes what was written at the path, if anything was and that can be done.
fn discard<D: Folder>(folder: &mut D, path: &str, bytes: Option<&[u8]>)
    ensures { Told (Keeps path.now) (D.files folder.old) (D.files folder.new) }
{
    if bytes.is_some() {
        folder.discard(path);
    }
}

//! The folders of the system, as far as storing calls them. Their contracts tell nothing.

ghost use Rattle.std.specs.Prelude.{◌≡◌, ◌≢◌, ◌↔◌, None, Some, IfOk, IsOkAnd, IsErrAnd};
ghost use Rattle.std.specs.IoError.{error_kind};
ghost use Rattle.std.specs.Fs.{file_type, IsFile, IsSymlink};
ghost use Rattle.bib_files.specs.declared.folder.Kind.TheVariants as kind;

use bib_files::{Folder, Kind};
use bib_run::{Tap, write_whole};
use std::fs::{File, Metadata, OpenOptions, Permissions};
use std::io::ErrorKind;
use std::os::unix::fs::{MetadataExt, OpenOptionsExt, PermissionsExt};
use std::{fs, io};

/// The permissions of a new file while it is written.
const OWN: u32 = 0o600;

/// The bits of the permissions that a new file gets: who may read, write and run it.
const PERMISSIONS: u32 = 0o777;

/// The folders of the system. A new file gets the permissions of `file`, but not its set-user-ID, set-group-ID and sticky
/// bits. The first of the new files stays open, and so it stays locked until both are in place.
#[derive(Drop)]
pub struct Disk<'a> {
    pub rt: &'a HostRuntime,
    pub file: &'a File,
    pub first: Option<File>,
}

impl Folder for Disk<'_> {
    fn kind(&self, path: &str) -> io::Result<Kind> {
        match found(fs::symlink_metadata(self.rt, path))? {
            Some(found) => Ok(kind_of(&found)),
            None => Ok(Kind::Nothing),
        }
    }

    fn write(&mut self, path: &str, bytes: &[u8]) -> io::Result<()> {
        let permissions = self.file.metadata()?.permissions().mode() & PERMISSIONS;
        // What an earlier run left is removed, even if it is a link: its target must not be written to.
        let _ = fs::remove_file(self.rt, path);
        let file = OpenOptions::new()
            .write(true)
            .create_new(true)
            .mode(OWN)
            .open(self.rt, path)?;
        // From the moment when the new file is in place, another run may open it: it waits until the journal is in place too.
        let _ = file.lock();
        if !write_whole(&mut Tap::new(&file), bytes) {
            return Err(ErrorKind::WriteZero.into());
        }
        file.set_permissions(Permissions::from_mode(permissions))?;
        file.sync_all()?;
        if self.first.is_none() {
            self.first = Some(file);
        }
        Ok(())
    }

    fn rename(&mut self, from: &str, to: &str) -> io::Result<()> {
        fs::rename(self.rt, from, to)
    }

    fn discard(&mut self, path: &str) {
        let _ = fs::remove_file(self.rt, path);
    }
}

/// What was found, or nothing if there is nothing. Another error stays one.
pub fn found<T: Drop>(looked: io::Result<T>) -> io::Result<Option<T>>
    ensures some { IfOk looked (λ found. IsOkAnd result (λ option. option ≡ Some found)) }
    ensures none { IfOk result (λ option. option ≡ None → IsErrAnd looked (λ error. error_kind error ≡ ErrorKind.NotFound)) }
{
    match looked {
        Ok(found) => Ok(Some(found)),
        Err(error) if error.kind() == ErrorKind::NotFound => Ok(None),
        Err(error) => Err(error),
    }
}

/// Which kind of thing was found.
pub fn kind_of(found: &Metadata) -> Kind
    ensures file { (result ≡ kind.File) ↔ IsFile (file_type found.now) }
    ensures link { (result ≡ kind.Link) ↔ IsSymlink (file_type found.now) }
    ensures there { result ≢ kind.Nothing }
{
    if found.is_file() {
        Kind::File
    } else if found.is_symlink() {
        Kind::Link
    } else {
        Kind::Other
    }
}

/// Whether both are one file, under two names or under one.
pub fn is_same(one: &Metadata, other: &Metadata) -> bool {
    one.dev() == other.dev() && one.ino() == other.ino()
}

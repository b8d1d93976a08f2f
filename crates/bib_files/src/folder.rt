//! A folder, as the calls on it.

ghost use Rattle.std.specs.Prelude.{◌≡◌, Option, None, IfOk, OnOk, OnErr, IfSome};
ghost use Rattle.bib_files.specs.Folders.{Files, Told, Keeps, Puts, Moves, kind_of};

use std::io;

/// What is at a path: nothing, a regular file, a symbolic link, or anything else, such as a folder or a device.
#[derive(Clone, Copy, Debug, PartialEq, Eq)]
pub enum Kind {
    Nothing,
    File,
    Link,
    Other,
}

/// A folder whose contracts may tell what is at its paths.
pub trait Folder {
    /// What is at its paths, if it tells that.
    ghost files: { Self → Option Files } = { λ _. None };

    /// What is at the path. A link is not followed.
    fn kind(&self, path: &str) -> io::Result<Kind>
        ensures { IfOk result (λ kind. IfSome (files self.now) (λ held. kind ≡ kind_of (held path.now))) };

    /// Writes a file with these bytes. If that fails, anything may be at the path.
    fn write(&mut self, path: &str, bytes: &[u8]) -> io::Result<()>
        ensures ok { OnOk result (Told (Puts path.now bytes.now) (files self.old) (files self.new)) }
        ensures err { OnErr result (Told (Keeps path.now) (files self.old) (files self.new)) };

    /// Puts what is at one path at another, in place of what is there. A link at either is moved or replaced itself.
    fn rename(&mut self, from: &str, to: &str) -> io::Result<()>
        ensures ok { OnOk result (Told (Moves from.now to.now) (files self.old) (files self.new)) }
        ensures err { OnErr result (files self.new ≡ files self.old) };

    /// Removes the file at the path, if that can be done.
    fn discard(&mut self, path: &str)
        ensures { Told (Keeps path.now) (files self.old) (files self.new) };
}

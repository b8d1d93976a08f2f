//! Files beside the one that a command is run over: the files that are read as one with it, a new file, and aux files.

ghost use Rattle.std.specs.Prelude.{◌≡◌, ◌++◌, ◌∷◌, [], List, IfOk, OnOk};
ghost use Rattle.bib_spec.specs.Text.{Text as FileText};
ghost use Rattle.bib_shelf.specs.Joined.{AreJoined};
ghost use Rattle.bibkeep.specs.Together.{all_names};

use bib_run::{SourceFault, Sources, Tap, read_up_to};
use bib_streams::Heard;
use bib_text::{Seq, Text, copied};
use bib_words::Command;
use shelf_run::Joined;
use std::alloc::{AllocError, Global};
use std::fs::File;
use std::io::{ErrorKind, Read};
use std::{io, str};

/// A file, and files that are read as one, have at most 16,777,216 bytes. One more shows that they have more.
pub const READ_LIMIT: usize = 16_777_217;

/// One call reads at most this many bytes.
const CHUNK: usize = 16_384;

/// Why such a file is not read.
#[derive(Drop)]
pub enum FileFault {
    Memory,
    /// The file at this path could not be read, for this reason.
    Unread(Text, ErrorKind),
}

impl From<AllocError> for FileFault {
    fn from(_error: AllocError) -> Self {
        FileFault::Memory
    }
}

/// The fault of the file at this path, which could not be read for this reason.
pub fn unread(alloc: Global, path: &[u8], kind: ErrorKind) -> FileFault {
    if kind == ErrorKind::OutOfMemory {
        return FileFault::Memory;
    }
    match copied(alloc, path) {
        Ok(path) => FileFault::Unread(path, kind),
        Err(_) => FileFault::Memory,
    }
}

/// Why this source, on which a read ended with this fault, was not read.
fn reason<R: Read>(source: Tap<Heard<R>>, fault: SourceFault) -> io::Error
where
    R: Drop,
{
    match fault {
        SourceFault::OutOfMemory => ErrorKind::OutOfMemory.into(),
        SourceFault::Failed => match source.into_inner().error() {
            Some(error) => error,
            None => ErrorKind::InvalidInput.into(),
        },
    }
}

/// The bytes of the file at this path, up to so many.
pub fn text_at(rt: &HostRuntime, alloc: Global, path: &str, most: usize) -> io::Result<Vec<u8>> {
    text_of(alloc, &File::open(rt, path)?, most)
}

/// The bytes of this file, up to so many.
pub fn text_of(alloc: Global, file: &File, most: usize) -> io::Result<Vec<u8>> {
    let mut source = Tap::new(Heard::new(file));
    match read_up_to(alloc, &mut source, most) {
        Ok(text) => Ok(text),
        Err(fault) => Err(reason(source, fault)),
    }
}

/// What the files with these names hold, the old one and the new one, each up to one byte past the limit.
pub fn two_files(
    rt: &HostRuntime,
    alloc: Global,
    old: &[u8],
    new: &[u8],
) -> Result<Sources, FileFault> {
    let file = text_named(rt, alloc, old)?;
    let input = text_named(rt, alloc, new)?;
    Ok(Sources {
        file,
        journal: None,
        input,
    })
}

/// The bytes of the file with this name, up to one byte past the limit.
pub fn text_named(rt: &HostRuntime, alloc: Global, name: &[u8]) -> Result<Text, FileFault> {
    let Ok(path) = str::from_utf8(name) else {
        return Err(unread(alloc, name, ErrorKind::InvalidFilename));
    };
    match text_at(rt, alloc, path, READ_LIMIT) {
        Ok(text) => Ok(Text::from_vec(text)),
        Err(error) => Err(unread(alloc, name, error.kind())),
    }
}

/// The names of all files of a command, in the order in which they are read.
pub fn all_names(alloc: Global, command: &Command) -> Result<Seq<Text>, AllocError>
    ensures { IfOk result (λ names. names ≡ all_names command.now) }
{
    let words = command.words.as_slice();
    let mut names = Vec::new(alloc);
    add_copies(alloc, &mut names, command.before.as_slice())?;
    add_copies(alloc, &mut names, &words[..words.len().min(1)])?;
    add_copies(alloc, &mut names, command.after.as_slice())?;
    Ok(Seq::from_vec(names))
}

fn add_copies(alloc: Global, texts: &mut Vec<Text>, more: &[Text]) -> Result<(), AllocError>
    ensures { OnOk result (texts.new.items ≡ texts.old.items ++ more.now) }
{
    'all: for text in more {
        texts.push(copied(alloc, text.as_slice())?)?;
    }
    Ok(())
}

/// The files with these names, joined in this order. What comes after the longest text that is read is left out: then the files
/// are too long together in any case.
pub fn joined_files(rt: &HostRuntime, alloc: Global, names: &[Text]) -> Result<Joined, FileFault>
    ensures { IfOk result (λ joined. (files : List FileText) × AreJoined files joined) }
{
    let mut joined = Joined::empty(alloc);
    'files: for name in names {
        joined = with_named(rt, alloc, joined, name.as_slice())?;
    }
    Ok(joined)
}

/// These files, and after them the file with this name.
fn with_named(
    rt: &HostRuntime,
    alloc: Global,
    joined: Joined,
    name: &[u8],
) -> Result<Joined, FileFault>
    ensures { IfOk result (λ more. (files : List FileText) → AreJoined files joined → (last : FileText) × AreJoined (files ++ last ∷ []) more) }
{
    let Ok(path) = str::from_utf8(name) else {
        return Err(unread(alloc, name, ErrorKind::InvalidFilename));
    };
    match with_file(rt, joined, path) {
        Ok(more) => Ok(more),
        Err(error) => Err(unread(alloc, name, error.kind())),
    }
}

/// These files, and after them the file at this path.
fn with_file(rt: &HostRuntime, joined: Joined, path: &str) -> io::Result<Joined>
    ensures { IfOk result (λ more. (files : List FileText) → AreJoined files joined → (last : FileText) × AreJoined (files ++ last ∷ []) more) }
{
    let room = READ_LIMIT.saturating_sub(joined.text.as_slice().len());
    let mut source = Tap::new(Heard::new(File::open(rt, path)?));
    let joined = joined.with(b"")?;
    match with_rest(joined, &mut source, room) {
        Ok(more) => Ok(more),
        Err(fault) => Err(reason(source, fault)),
    }
}

/// The same files, with what the source still has, up to so many bytes, at the end of the last one. The bytes are read into the
/// text of the files, without memory of their own. It makes an interrupted call again.
fn with_rest<R: Read>(
    joined: Joined,
    source: &mut Tap<R>,
    most: usize,
) -> Result<Joined, SourceFault>
    ensures { IfOk result (λ more. (files : List FileText) (last : FileText) → AreJoined (files ++ last ∷ []) joined → (now : FileText) × AreJoined (files ++ now ∷ []) more) }
{
    let mut joined = joined;
    let mut left = most;
    let mut chunk = [0u8; CHUNK];
    'fill: while left > 0 {
        let room = left.min(CHUNK);
        match source.read(&mut chunk[..room]) {
            Ok(0) => return Ok(joined),
            Ok(count) => {
                joined = joined.with_more(&chunk[..count])?;
                left -= count;
            }
            Err(_) => {
                if source.failed() {
                    return Err(SourceFault::Failed);
                }
            }
        }
    }
    Ok(joined)
}

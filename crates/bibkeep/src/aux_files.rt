//! The keys that the aux files of a document cite.

ghost use Rattle.std.specs.Prelude.{◌≡◌, IfOk};
ghost use Rattle.bib_words.specs.Command.{has_any};
ghost use Rattle.bibkeep.specs.Citing.{citing, placing};

use crate::disk::found;
use crate::other_files::{FileFault, text_at, unread};
use aux_text::{Aux, AuxKeys, cited_keys, with_cited};
use bib_text::{Seq, Text, copied};
use bib_words::Command;
use std::alloc::{AllocError, Global};
use std::collections::HashMap;
use std::io::ErrorKind;
use std::{fs, io, str};

/// An aux file has at most this many bytes: as many as a BibTeX file.
const AUX_LIMIT: usize = 16_777_216;

/// The aux files of one document name at most this many others.
const INPUT_LIMIT: usize = 65_535;

/// Why it is not known what aux files cite.
#[derive(Drop)]
pub enum AuxFault {
    /// One of them was not read.
    File(FileFault),
    /// The file at this path is longer than 16,777,216 bytes.
    TooLong(Text),
}

impl From<AllocError> for AuxFault {
    fn from(error: AllocError) -> Self {
        AuxFault::File(error.into())
    }
}

/// Whether there are names of aux files.
pub fn names_any(names: &[Text]) -> bool
    ensures { result ≡ has_any names.now }
{
    !names.is_empty()
}

/// The command with these keys after its own. If `*` is among them, it is the only key.
pub fn citing(alloc: Global, command: Command, cited: Vec<Text>) -> Result<Command, AllocError>
    ensures { IfOk result (λ now. now ≡ citing command cited.items) }
{
    let mut command = command;
    let mut words = command.words.into_vec();
    let keys = words.split_off(words.len().min(1))?;
    let mut keys = with_cited(alloc, keys, cited)?;
    words.append(&mut keys)?;
    command.words = Seq::from_vec(words);
    Ok(command)
}

/// The command with the keys that these aux files cite, each with its place, beside its own words.
pub fn placing(command: Command, cited: Vec<AuxKeys>) -> Command
    ensures { result ≡ placing command cited.items }
{
    let mut command = command;
    command.cited = Seq::from_vec(cited);
    command
}

/// What is kept of aux files.
trait Kept {
    /// Adds what the aux file at this path says, the text of which this is.
    fn add(
        &mut self,
        alloc: Global,
        path: &[u8],
        text: &[u8],
        keys: Seq<Text>,
    ) -> Result<(), AllocError>;
}

/// The keys alone.
impl Kept for Vec<Text> {
    fn add(
        &mut self,
        _alloc: Global,
        _path: &[u8],
        _text: &[u8],
        keys: Seq<Text>,
    ) -> Result<(), AllocError> {
        self.append(&mut keys.into_vec())
    }
}

/// The keys of each file, with their places.
impl Kept for Vec<AuxKeys> {
    fn add(
        &mut self,
        alloc: Global,
        path: &[u8],
        text: &[u8],
        _keys: Seq<Text>,
    ) -> Result<(), AllocError> {
        let file = copied(alloc, path)?;
        let keys = cited_keys(alloc, text)?;
        self.push(AuxKeys { file, keys })?;
        Ok(())
    }
}

/// The keys that the aux files with these names cite, in order, and those that the aux files cite that they name.
pub fn cited_in(rt: &HostRuntime, alloc: Global, names: &[Text]) -> Result<Vec<Text>, AuxFault> {
    let mut cited = Vec::new(alloc);
    read_all(rt, alloc, names, &mut cited)?;
    Ok(cited)
}

/// The same keys, file by file, and where each of them stands.
pub fn placed_in(
    rt: &HostRuntime,
    alloc: Global,
    names: &[Text],
) -> Result<Vec<AuxKeys>, AuxFault> {
    let mut placed = Vec::new(alloc);
    read_all(rt, alloc, names, &mut placed)?;
    Ok(placed)
}

/// Keeps what the aux files with these names say, and those that they name. Each file is read once. A file that is named by an aux
/// file lies in the folder of the first one, and only regular files are read so: an aux file may come from a stranger.
fn read_all<K: Kept>(
    rt: &HostRuntime,
    alloc: Global,
    names: &[Text],
    kept: &mut K,
) -> Result<(), AuxFault> {
    let mut known = HashMap::new(alloc);
    'names: for name in names {
        add_cited(rt, alloc, name.as_slice(), &mut known, kept)?;
    }
    Ok(())
}

/// The paths of the files that were read.
type Known = HashMap<String, bool>;

/// Keeps what the aux file with this name says, and those that it names.
fn add_cited<K: Kept>(
    rt: &HostRuntime,
    alloc: Global,
    name: &[u8],
    known: &mut Known,
    kept: &mut K,
) -> Result<(), AuxFault> {
    let mut paths = alone(alloc, name)?;
    'paths: for n in 0..INPUT_LIMIT + 1 {
        let Some(path) = paths.get(n) else {
            return Ok(());
        };
        let text = match text_once(rt, alloc, path.as_slice(), n > 0, known) {
            Ok(text) => text,
            Err(error) => return Err(AuxFault::File(unread(alloc, path.as_slice(), error.kind()))),
        };
        let Some(text) = text else {
            continue;
        };
        if text.len() > AUX_LIMIT {
            return Err(AuxFault::TooLong(copied(alloc, path.as_slice())?));
        }
        let aux = Aux::read(alloc, text.as_slice())?;
        kept.add(alloc, path.as_slice(), text.as_slice(), aux.keys)?;
        add_paths(alloc, &mut paths, folder_of(name), aux.inputs.as_slice())?;
    }
    Err(AuxFault::File(unread(alloc, name, ErrorKind::FileTooLarge)))
}

/// The path with this name, alone in a list.
fn alone(alloc: Global, name: &[u8]) -> Result<Vec<Text>, AllocError> {
    let mut paths = Vec::new(alloc);
    paths.push(copied(alloc, name)?)?;
    Ok(paths)
}

/// The bytes of the file at this path, up to one past the limit; nothing if it was read before.
fn text_once(
    rt: &HostRuntime,
    alloc: Global,
    path: &[u8],
    is_input: bool,
    known: &mut Known,
) -> io::Result<Option<Vec<u8>>> {
    let Ok(path) = str::from_utf8(path) else {
        return Err(ErrorKind::InvalidFilename.into());
    };
    // a pipe has no path of its own
    if let Some(whole) = found(fs::canonicalize(rt, path))? {
        match known.insert(whole.into_string(), true) {
            Ok(None) => {}
            Ok(Some(_)) => return Ok(None),
            Err(_) => return Err(ErrorKind::OutOfMemory.into()),
        }
    }
    if is_input && !fs::metadata(rt, path)?.is_file() {
        return Err(ErrorKind::InvalidInput.into());
    }
    Ok(Some(text_at(rt, alloc, path, AUX_LIMIT + 1)?))
}

/// Adds the paths of the files with these names, which lie in this folder unless they begin with a slash.
fn add_paths(
    alloc: Global,
    paths: &mut Vec<Text>,
    folder: Option<&str>,
    names: &[Text],
) -> Result<(), AllocError> {
    'names: for name in names {
        // one more than the limit shows that it is passed
        if paths.len() <= INPUT_LIMIT + 1 {
            paths.push(path_in(alloc, folder, name.as_slice())?)?;
        }
    }
    Ok(())
}

/// The path of the file with this name in this folder.
fn path_in(alloc: Global, folder: Option<&str>, name: &[u8]) -> Result<Text, AllocError> {
    let mut path = Vec::new(alloc);
    if let Some(folder) = folder
        && !name.starts_with(b"/")
    {
        path.extend_from_slice(folder.as_bytes())?;
        path.extend_from_slice(b"/")?;
    }
    path.extend_from_slice(name)?;
    Ok(Text::from_vec(path))
}

/// The folder in the path of a file: what comes before its last slash, if it has one.
fn folder_of(path: &[u8]) -> Option<&str> {
    let (folder, _) = str::from_utf8(path).ok()?.rsplit_once('/')?;
    Some(folder)
}

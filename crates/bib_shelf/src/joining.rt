//! Several files in one text.

ghost use Rattle.std.specs.Prelude.{◌≡◌, ◌++◌, ◌∷◌, [], length, IfOk};
ghost use Rattle.shelf_spec.specs.Shelf.{seam};

use bib_text::{Seq, Text};
use std::alloc::{AllocError, Global};

/// The bytes between two files of a shelf: a comment, after which nothing of the file before goes on. It takes no memory.
/// (dialect)
pub fn seam() -> &'static [u8]
    ensures { result.now ≡ seam }
{
    b"@comment %\n"
}

/// The text of a shelf: its files one after another, with a seam between two. Each span is where a file begins and where it ends
/// in the text, in bytes.
#[derive(Drop)]
pub struct Joined {
    pub text: Text,
    pub spans: Seq<(usize, usize)>,
}

/// The text with these bytes at its end, and the spans with that of a file that begins at this place and ends with them.
fn ended(
    text: Vec<u8>,
    spans: Vec<(usize, usize)>,
    start: usize,
    bytes: &[u8],
) -> Result<Joined, AllocError>
    ensures { IfOk result (λ joined. (joined.text ≡ text.items ++ bytes.now) × (joined.spans ≡ spans.items ++ (start, length (text.items ++ bytes.now)) ∷ [])) }
{
    let mut text = text;
    let mut spans = spans;
    text.extend_from_slice(bytes)?;
    spans.push((start, text.len()))?;
    Ok(Joined {
        text: Text::from_vec(text),
        spans: Seq::from_vec(spans),
    })
}

/// The text with this file at its end, and the spans with that of the file.
fn added(text: Vec<u8>, spans: Vec<(usize, usize)>, file: &[u8]) -> Result<Joined, AllocError>
    ensures { IfOk result (λ joined. (joined.text ≡ text.items ++ file.now) × (joined.spans ≡ spans.items ++ (length text.items, length (text.items ++ file.now)) ∷ [])) }
{
    let start = text.len();
    ended(text, spans, start, file)
}

impl Joined {
    ghost use Rattle.std.specs.Prelude.{◌≡◌, ◌++◌, ◌∷◌, [], List, map, IfOk};
    ghost use Rattle.bib_spec.specs.Text.{Text as FileText};
    ghost use Rattle.bib_shelf.specs.Joined.{AreJoined};

    /// No file yet. It asks for no memory.
    pub fn empty(alloc: Global) -> Self
        ensures { AreJoined [] result }
    {
        Joined {
            text: Text::empty(alloc),
            spans: Seq::empty(alloc),
        }
    }

    /// The same files, and this one after them. It takes time and memory in the length of this file, and now and then in the
    /// length of the text, as a vector that grows.
    pub fn with(self, file: &[u8]) -> Result<Self, AllocError>
        ensures { IfOk result (λ joined. (files : List FileText) → AreJoined files self → AreJoined (files ++ file.now ∷ []) joined) }
    {
        if self.spans.as_slice().is_empty() {
            return added(self.text.into_vec(), self.spans.into_vec(), file);
        }
        let mut text = self.text.into_vec();
        text.extend_from_slice(seam())?;
        added(text, self.spans.into_vec(), file)
    }

    /// The same files, with these bytes at the end of the last one; where there is no file, nothing is added. So a file can be added
    /// piece by piece, as it is read. It takes time and memory in the length of these bytes, and now and then in the length of the
    /// text, as a vector that grows.
    pub fn with_more(self, bytes: &[u8]) -> Result<Self, AllocError>
        ensures { IfOk result (λ joined. (files : List FileText) (last : FileText) → AreJoined (files ++ last ∷ []) self → AreJoined (files ++ (last ++ bytes.now) ∷ []) joined) }
    {
        let mut spans = self.spans.into_vec();
        match spans.pop() {
            Some((start, _)) => ended(self.text.into_vec(), spans, start, bytes),
            None => Ok(Joined {
                text: self.text,
                spans: Seq::from_vec(spans),
            }),
        }
    }

    /// The text of the shelf of these files, which are copied. It takes time and memory in their length.
    pub fn of(alloc: Global, files: &[&[u8]]) -> Result<Self, AllocError>
        ensures { IfOk result (AreJoined (map (λ file. file.now) files.now)) }
    {
        let mut joined = Joined::empty(alloc);
        'files: for file in files {
            joined = joined.with(file)?;
        }
        Ok(joined)
    }
}

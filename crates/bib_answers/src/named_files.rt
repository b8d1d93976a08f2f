//! Files that are open as one, each with its name, and where a place of their bytes is.

ghost use Rattle.std.specs.Prelude.{◌≡◌, ℕ, List, [], slice_index_or};
ghost use Rattle.bib_answers.specs.Lint.{name_at, place_at};
ghost use Rattle.bib_answers.specs.NamedFiles.{NamedFiles as Files};
ghost use Rattle.bib_answers.specs.Positions.{IsKnown, position_of};
ghost use Rattle.bib_shelf.specs.Joined.{located_in};

use crate::positions::{Known, first_known};
use crate::walking::known_in;
use bib_shelf::locate;
use bib_store::{Database, Paged};
use bib_text::Text;
use std::marker::Model;

/// Files that are open as one: their names, the database, and where each file begins and ends in its bytes. A contract sees the
/// names, and the bytes of each file.
#[derive(Drop)]
pub struct NamedFiles<'a> {
    names: &'a [Text],
    db: &'a Database<Paged>,
    spans: &'a [(usize, usize)],
}

impl<'a> Model for NamedFiles<'a> {
    ghost use Rattle.std.specs.Prelude.{◌≡◌};
    ghost use Rattle.bib_shelf.specs.Joined.{files_in, AreOfShelf};
    ghost use Rattle.bib_answers.specs.NamedFiles.{NamedFiles as Files};

    ghost Value = { Files };

    ghost view = { λ f. record { names = f.names.now; files = files_in f.spans.now f.db.now } };

    ghost invariant = { λ f. AreOfShelf f.db.now f.spans.now };
}

impl<'a> NamedFiles<'a> {
    ghost use Rattle.std.specs.Prelude.{◌≡◌, List, [], slice_index_or};
    ghost use Rattle.bib_spec.specs.Text.{Text as FileText};
    ghost use Rattle.bib_shelf.specs.Joined.{AreJoined, AreOfShelf, located_in};
    ghost use Rattle.bib_answers.specs.Positions.{IsKnown, position_of};

    /// The files with these names that are open as this database, each with its span.
    pub fn new(names: &'a [Text], db: &'a Database<Paged>, spans: &'a [(usize, usize)]) -> Self
        requires { AreOfShelf db.now spans.now }
        ensures { (files : List FileText) → AreJoined files (record { text = db.now; spans = spans.now }) → result ≡ (record { names = names.now; files = files }) }
    {
        NamedFiles { names, db, spans }
    }

    /// The number of the file with this place of the bytes, from 0, and the place in that file.
    fn locate(&self, place: usize) -> (usize, usize)
        ensures { result ≡ located_in self.now.files place }
    {
        locate(self.spans, place)
    }

    /// This place of file `i`, or the end of the file if the place is after it, with its position; and the number of the item at which
    /// the next count can begin. Each position is counted from the known place, if that is not after it, and item `n`, if that does
    /// not begin after the known place.
    fn known_at(&self, i: usize, n: usize, known: Known, place: usize) -> (Known, usize)
        requires { IsKnown (slice_index_or self.now.files i []) known }
        ensures known { IsKnown (slice_index_or self.now.files i []) result.0 }
        ensures at { result.0.at ≡ position_of (slice_index_or self.now.files i []) place }
    {
        match self.spans.get(i) {
            Some(span) => known_in(self.db, n, *span, known, place),
            None => (first_known(), n),
        }
    }

    /// The name of file `i`, counted from 0; nothing if there are not so many files.
    fn name(&self, i: usize) -> &'a [u8]
        ensures { result.now ≡ slice_index_or self.now.names i [] }
    {
        match self.names.get(i) {
            Some(name) => name.as_slice(),
            None => b"",
        }
    }

    /// The name of the file with this place of the bytes.
    pub fn name_at(&self, place: usize) -> &'a [u8]
        ensures { result.now ≡ name_at self.now.names self.now.files place }
    {
        self.name(self.locate(place).0)
    }
}

/// A place of a file, with its position; the number of the file; and that of an item that does not begin after the place.
#[derive(Clone, Copy, Debug)]
pub struct Reached {
    pub file: usize,
    pub known: Known,
    // only the time of the next count rests on it
    pub item: usize,
}

/// The first place of the first file.
pub fn first_reached() -> Reached
    ensures known { (files : List (List ℕ)) → IsKnown (slice_index_or files result.file []) result.known }
    ensures file { result.file ≡ 0 }
{
    Reached {
        file: 0,
        known: first_known(),
        item: 0,
    }
}

/// This place of the bytes, with its position in its file. Each position is counted from the one that was reached before, if that is
/// in the same file and not after it, or else from the beginning of the file.
pub fn reached_at(files: &NamedFiles<'_>, before: Reached, place: usize) -> Reached
    requires { IsKnown (slice_index_or files.now.files before.file []) before.known }
    ensures known { IsKnown (slice_index_or files.now.files result.file []) result.known }
    ensures at { result.known.at ≡ place_at files.now.files place }
    ensures file { result.file ≡ (located_in files.now.files place).0 }
{
    let (file, place) = files.locate(place);
    let known = if file == before.file {
        before.known
    } else {
        first_known()
    };
    let (known, item) = files.known_at(file, before.item, known, place);
    Reached { file, known, item }
}

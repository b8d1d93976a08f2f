//! One place of a merge.

ghost use Rattle.std.specs.Prelude.{◌≡◌};
ghost use Rattle.bib_places.specs.PlacesSeen.{number_in};

use bib_fields::Mix;

/// What becomes of the units that meet at a place.
#[derive(Clone, Copy)]
pub enum Outcome<'a> {
    /// Our bytes.
    Ours,
    /// Their bytes.
    Theirs,
    /// Our entry with their changes, field by field.
    Mixed(Mix<'a>),
    /// Neither.
    Gone,
    /// Both, between markers.
    Both,
}

/// One of the three files of a merge.
#[derive(Clone, Copy, Debug, PartialEq, Eq)]
pub enum File {
    Base,
    Ours,
    Theirs,
}

/// One place of a merge: the numbers of the units that meet there, what becomes of them, and the white space after it.
#[derive(Clone, Copy)]
pub struct Place<'a> {
    pub base: Option<usize>,
    pub ours: Option<usize>,
    pub theirs: Option<usize>,
    pub outcome: Outcome<'a>,
    pub space: &'a [u8],
}

/// The number of the unit of this file, if one is at the place.
pub(crate) fn number_in(place: &Place<'_>, file: File) -> Option<usize>
    ensures { result ≡ number_in file place.now }
{
    match file {
        File::Base => place.base,
        File::Ours => place.ours,
        File::Theirs => place.theirs,
    }
}

//! The kinds of items.

ghost use Rattle.std.specs.Prelude.{◌≡◌};
ghost use Rattle.bib_spec.specs.Tree.{Tree};
ghost use Rattle.bib_scan.specs.View.{kind_of};
ghost use Rattle.bib_answers.specs.Kinds.{is_of_kind};

use bib_scan::Kind;

/// Whether the two kinds are the same.
pub fn is_same_kind(one: Kind, other: Kind) -> bool
    ensures { (tree : Tree) → kind_of tree ≡ one → result ≡ is_of_kind other tree }
{
    match other {
        Kind::Entry => matches!(one, Kind::Entry),
        Kind::Macro => matches!(one, Kind::Macro),
        Kind::Preamble => matches!(one, Kind::Preamble),
        Kind::Comment => matches!(one, Kind::Comment),
    }
}

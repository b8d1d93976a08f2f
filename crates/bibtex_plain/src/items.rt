//! The at-signs of one item.

ghost use Rattle.std.specs.Prelude.{◌≡◌, ◌+◌, ◌++◌, ◌<◌, ◌^◌, List, ⊤, true, length, drop, MatchOption};
ghost use Rattle.bib_spec.specs.Bytes.{name_limit};
ghost use Rattle.bib_spec.specs.Text.{Text};
ghost use Rattle.bib_spec.specs.Tree.{Tree, is_comment, tree_bytes};
ghost use Rattle.bib_spec.specs.Reading.{Item, IsItem, item_bytes};
ghost use Rattle.bib_scan.specs.View.{kind_of, view_of};
ghost use Rattle.bib_scan.specs.declared.view.Kind.TheVariants as kind;
ghost use Rattle.bibtex_spec.specs.Plain.{is_misnamed, item_signs};
ghost use Rattle.bibtex_plain.specs.Walking.{Follows, IsLastFrom, GoesOn, IsInnerSign, repeats};

use crate::names::begins_foreign;
use crate::signs::{gap_breach, next_sign};
use bib_scan::{ItemView, Kind};

/// Whether an item of this kind is a comment.
fn is_comment(kind: Kind) -> bool
    ensures { (tree : Tree) → kind_of tree ≡ kind → result ≡ is_comment tree }
{
    matches!(kind, Kind::Comment)
}

/// Whether the name that BibTeX reads after the item's own at-sign is none of the dialect. That can be so of a comment alone: the
/// name may go on after its word.
fn is_head_misnamed(item: &ItemView<'_>, is_followed: bool) -> bool
    ensures { (i : Item) (more : Text) → item.now ≡ view_of i → IsItem name_limit i → Follows is_followed more → result ≡ is_misnamed (drop 1 (tree_bytes i.tree) ++ (i.trail ++ more)) }
{
    is_comment(item.kind()) && begins_foreign(item.trail(), is_followed)
}

/// The place in the item of the first at-sign after the key, if it is an entry whose key an earlier entry has.
fn inner_sign(item: &ItemView<'_>, is_repeated: bool) -> Option<usize>
    requires item { (i : Item) × (item.now ≡ view_of i) × (is_repeated ≡ true → kind_of i.tree ≡ kind.Entry) }
    ensures within { MatchOption result ⊤ (λ k. k < length item.now.body) }
    ensures sign { (i : Item) (keys : List Text) → item.now ≡ view_of i → is_repeated ≡ repeats keys i.tree → IsInnerSign keys i.tree result }
{
    if !is_repeated {
        return None;
    }
    next_sign(item.body(), item.key_at() + item.key().len())
}

/// The place of the first at-sign of an item for which the file is not plain; or else whether what BibTeX read last ends in the last
/// line, which begins at `last`. The item begins at this place of the file, and after it another item follows, or the file
/// ends. `is_repeated` says whether an earlier entry has its key, and `is_over` whether what was read before the item ends in the
/// last line. It takes time in the length of the trail, and for a repeated entry in that of the item.
pub(crate) fn item_breach(
    item: &ItemView<'_>,
    place: usize,
    last: usize,
    is_followed: bool,
    is_repeated: bool,
    is_over: bool,
) -> Result<bool, usize>
    requires item { (i : Item) × (item.now ≡ view_of i) × (is_repeated ≡ true → kind_of i.tree ≡ kind.Entry) }
    requires small { place + length item.now.body + length item.now.trail < 2 ^ 64 }
    ensures { (i : Item) (keys : List Text) (more : Text) → item.now ≡ view_of i → IsItem name_limit i → Follows is_followed more
        → IsLastFrom last place (item_bytes i ++ more) → is_repeated ≡ repeats keys i.tree → GoesOn is_over (item_signs keys place i more) result }
{
    if is_over || is_head_misnamed(item, is_followed) {
        return Err(place);
    }
    if let Some(k) = inner_sign(item, is_repeated) {
        return Err(place + k);
    }
    let behind = place + item.body().len();
    gap_breach(item.trail(), behind, last, is_followed, last <= behind)
}

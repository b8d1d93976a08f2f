//! The units of an item, and of a text between items.

ghost use Rattle.std.specs.Prelude.{◌≡◌, ◌≢◌, ◌≤◌, ◌+◌, [], ◌++◌, List, length, IfOk, OnOk};
ghost use Rattle.bib_spec.specs.Text.{Text};
ghost use Rattle.bib_spec.specs.Tree.{Tree, tree_bytes};
ghost use Rattle.bib_spec.specs.Reading.{Item, Reading, item_bytes};
ghost use Rattle.bib_spec.specs.Texts.{Macros, months, macros_at, is_empty};
ghost use Rattle.bib_scan.specs.View.{view_of, kind_of};
ghost use Rattle.bib_scan.specs.declared.view.Kind.TheVariants.{Entry, Macro, Comment};
ghost use Rattle.merge_spec.specs.Units.{Spaced, text_units, units_in, tree_label};
ghost use Rattle.bib_units.specs.Comments.{comment_bytes};
ghost use Rattle.bib_units.specs.Labels.{label_seen};
ghost use Rattle.bib_units.specs.UnitsSeen.{AreUnits, IsItemAt};

use crate::labels::Label;
use crate::spaces::{split_end, split_front};
use crate::unit_view::UnitView;
use bib_scan::{ItemView, Kind};
use std::alloc::AllocError;

/// Adds the text between items, without the white space at its ends, if anything is left of it.
pub(crate) fn add_text<'a>(units: &mut Vec<UnitView<'a>>, text: &'a [u8]) -> Result<(), AllocError>
    ensures { OnOk result ((r : Reading) (macros : Macros) (before : List Spaced) → AreUnits r units.old.items before
        → AreUnits r units.new.items (before ++ text_units macros text.now)) }
{
    let (_, rest) = split_front(text);
    if rest.is_empty() {
        return Ok(());
    }
    let (bytes, space) = split_end(rest);
    units.push(UnitView {
        item: None,
        label: Label::Bytes(bytes),
        bytes,
        space,
    })?;
    Ok(())
}

/// The label of an entry with this body: its key, or its bytes if the key is empty.
fn entry_label<'a>(body: &'a [u8], item: &ItemView<'a>) -> Label<'a>
    ensures { (tree : Tree) (trail : Text) → item.now ≡ view_of (record { tree = tree; trail = trail }) → tree_bytes tree ≡ body.now → kind_of tree ≡ Entry
        → label_seen result ≡ tree_label tree [] }
{
    let key = item.key();
    if key.is_empty() {
        return Label::Bytes(body);
    }
    Label::Entry(key)
}

/// The label of a macro definition: the name of the macro.
fn macro_label<'a>(body: &'a [u8], item: &ItemView<'a>) -> Label<'a>
    ensures { (tree : Tree) (trail : Text) → item.now ≡ view_of (record { tree = tree; trail = trail }) → tree_bytes tree ≡ body.now → kind_of tree ≡ Macro
        → label_seen result ≡ tree_label tree [] }
{
    match item.fields().next() {
        Some(field) => Label::Macro(field.name),
        None => Label::Bytes(body),
    }
}

/// The label of an item with this body that is no comment.
fn label_of<'a>(body: &'a [u8], item: &ItemView<'a>) -> Label<'a>
    ensures { (tree : Tree) (trail : Text) → item.now ≡ view_of (record { tree = tree; trail = trail }) → tree_bytes tree ≡ body.now → kind_of tree ≢ Comment
        → label_seen result ≡ tree_label tree [] }
{
    match item.kind() {
        Kind::Entry => entry_label(body, item),
        Kind::Macro => macro_label(body, item),
        Kind::Preamble | Kind::Comment => Label::Bytes(body),
    }
}

/// Adds item `n`, which is no comment, and the text after it.
fn add_plain<'a>(
    units: &mut Vec<UnitView<'a>>,
    n: usize,
    body: &'a [u8],
    trail: &'a [u8],
    label: Label<'a>,
) -> Result<(), AllocError>
    ensures { OnOk result ((r : Reading) (i : Item) (before : List Spaced) → IsItemAt r n i → tree_bytes i.tree ≡ body.now → i.trail ≡ trail.now
        → kind_of i.tree ≢ Comment → label_seen label.entry ≡ tree_label i.tree [] → AreUnits r units.old.items before
        → AreUnits r units.new.items (before ++ units_in (macros_at months r.items n) i.tree i.trail)) }
{
    let (space, _) = split_front(trail);
    units.push(UnitView {
        item: Some(n),
        label,
        bytes: body,
        space,
    })?;
    add_text(units, trail)?;
    Ok(())
}

/// Adds item `n`, which is a comment, with the text after it.
fn add_comment<'a>(
    units: &mut Vec<UnitView<'a>>,
    n: usize,
    text: &'a [u8],
    len: usize,
) -> Result<(), AllocError>
    requires { len ≤ length text.now }
    ensures { OnOk result ((r : Reading) (i : Item) (before : List Spaced) → IsItemAt r n i → item_bytes i ≡ text.now → length (tree_bytes i.tree) ≡ len
        → kind_of i.tree ≡ Comment → AreUnits r units.old.items before
        → AreUnits r units.new.items (before ++ units_in (macros_at months r.items n) i.tree i.trail)) }
{
    let (words, space) = split_end(text.split_at(len).1);
    let bytes = text.split_at(len + words.len()).0;
    units.push(UnitView {
        item: Some(n),
        label: Label::Bytes(bytes),
        bytes,
        space,
    })?;
    Ok(())
}

/// Adds the units of item `n`. If it is a comment, the text begins with its bytes and those of the text after it. What comes after
/// them is returned.
pub(crate) fn add_item<'a>(
    units: &mut Vec<UnitView<'a>>,
    n: usize,
    item: &ItemView<'a>,
    rest: &'a [u8],
) -> Result<&'a [u8], AllocError>
    requires { item.now.kind ≡ Comment → length item.now.body + length item.now.trail ≤ length rest.now }
    ensures rest { IfOk result (λ after. (i : Item) (more : Text) → item.now ≡ view_of i → rest.now ≡ comment_bytes i ++ more → after.now ≡ more) }
    ensures units { OnOk result ((r : Reading) (i : Item) (more : Text) (before : List Spaced) → IsItemAt r n i → item.now ≡ view_of i → rest.now ≡ comment_bytes i ++ more
        → AreUnits r units.old.items before → AreUnits r units.new.items (before ++ units_in (macros_at months r.items n) i.tree i.trail)) }
{
    match item.kind() {
        Kind::Comment => {
            let len = item.body().len();
            let (text, after) = rest.split_at(len + item.trail().len());
            add_comment(units, n, text, len)?;
            Ok(after)
        }
        _ => {
            let body = item.body();
            add_plain(units, n, body, item.trail(), label_of(body, item))?;
            Ok(rest)
        }
    }
}

//! The bytes of the items that are kept.

ghost use Rattle.std.specs.Prelude.{◌≡◌, ◌≤◌, [], ◌∷◌, ◌++◌, Some, length, slice_get, IfOk, OnOk};
ghost use Rattle.std.specs.List.{prefix_len, take_while};
ghost use Rattle.bib_spec.specs.Text.{is_space};
ghost use Rattle.bib_spec.specs.Reading.{Item, item_bytes};
ghost use Rattle.bib_scan.specs.View.{view_of};
ghost use Rattle.bib_store.specs.Readings.{OfReading, IsItemNumber};
ghost use Rattle.extract_spec.specs.Extract.{space_of, on_its_line};
ghost use Rattle.bib_extract.specs.Written.{marked_bytes};

use bib_scan::ItemView;
use bib_store::{Database, ItemList};
use bib_text::{Text, is_space};
use std::alloc::{AllocError, Global};

/// How many bytes of white space the text begins with.
fn space_len(text: &[u8]) -> usize
    ensures len { result ≡ prefix_len is_space text.now }
    ensures within { result ≤ length text.now }
{
    text.iter().take_while(|b| is_space(**b)).count()
}

/// The white space that the text begins with.
fn front_space(text: &[u8]) -> &[u8]
    ensures { result.now ≡ take_while is_space text.now }
{
    text.split_at(space_len(text)).0
}

/// The white space with which a trail begins, if it ends the line, or else a line feed.
fn line_end(trail: &[u8]) -> &[u8]
    ensures { result.now ≡ space_of trail.now }
{
    let space = front_space(trail);
    if space.contains(&b'\n') {
        return space;
    }
    b"\n"
}

/// How many bytes the marked items have at most, each on its line. It spares moves of what is written.
fn most_bytes<L: ItemList>(db: &Database<L>, marks: &[bool]) -> usize
    requires { OfReading db.now (λ r. length marks.now ≡ length r.items) }
{
    let mut len: usize = 0;
    'items: for n in 0..marks.len() {
        if marks[n] {
            let end = db.item_place(n + 1);
            len = len
                .saturating_add(end.saturating_sub(db.item_place(n)))
                .saturating_add(1);
        }
    }
    len
}

/// Adds the bytes of an item, and after it the end of its line.
fn add_item(out: &mut Vec<u8>, item: &ItemView<'_>) -> Result<(), AllocError>
    ensures { OnOk result ((i : Item) → item.now ≡ view_of i → out.new.items ≡ out.old.items ++ item_bytes (on_its_line i)) }
{
    out.extend_from_slice(item.body())?;
    out.extend_from_slice(line_end(item.trail()))?;
    Ok(())
}

/// Adds the bytes of item `n`, if it is marked.
fn add_marked<L: ItemList>(
    out: &mut Vec<u8>,
    db: &Database<L>,
    n: usize,
    is_marked: bool,
) -> Result<(), AllocError>
    requires { IsItemNumber db.now n }
    ensures { OnOk result (OfReading db.now (λ r. (i : Item) → slice_get r.items n ≡ Some i → out.new.items ≡ out.old.items ++ marked_bytes (is_marked ∷ []) (i ∷ []))) }
{
    if is_marked {
        add_item(out, &db.item(n))?;
    }
    Ok(())
}

/// The bytes of the marked items, each on its line.
pub(crate) fn marked_bytes<L: ItemList>(
    alloc: Global,
    db: &Database<L>,
    marks: &[bool],
) -> Result<Text, AllocError>
    requires { OfReading db.now (λ r. length marks.now ≡ length r.items) }
    ensures { IfOk result (λ text. OfReading db.now (λ r. text ≡ marked_bytes marks.now r.items)) }
{
    let mut out = Vec::with_capacity(alloc, most_bytes(db, marks))?;
    'items: for n in 0..marks.len() {
        add_marked(&mut out, db, n, marks[n])?;
    }
    Ok(Text::from_vec(out))
}

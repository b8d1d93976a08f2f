//! The comments of a file. The text after a comment belongs to its unit, so each is needed in one run with this text.

ghost use Rattle.std.specs.Prelude.{◌≡◌, ◌++◌, IfOk, OnOk};
ghost use Rattle.bib_spec.specs.Reading.{Item};
ghost use Rattle.bib_scan.specs.View.{view_of};
ghost use Rattle.bib_store.specs.Readings.{OfReading};
ghost use Rattle.bib_units.specs.Comments.{comment_bytes, comments_of};

use bib_scan::{ItemView, Kind};
use bib_store::{Database, ItemList};
use bib_text::Text;
use std::alloc::{AllocError, Global};

/// Adds the bytes of an item and of the text after it, if it is a comment.
fn add_comment_bytes(out: &mut Vec<u8>, item: &ItemView<'_>) -> Result<(), AllocError>
    ensures { OnOk result ((i : Item) → item.now ≡ view_of i → out.new.items ≡ out.old.items ++ comment_bytes i) }
{
    match item.kind() {
        Kind::Comment => {
            out.extend_from_slice(item.body())?;
            out.extend_from_slice(item.trail())?;
        }
        _ => {}
    }
    Ok(())
}

/// The bytes of the comments of an open file, each with the text after it, one after another. It takes memory for them, and time in
/// the number of items. It is refused only out of memory.
pub fn comments_of<L: ItemList>(alloc: Global, db: &Database<L>) -> Result<Text, AllocError>
    ensures { IfOk result (λ text. OfReading db.now (λ r. text ≡ comments_of r)) }
{
    let mut out = Vec::new(alloc);
    'items: for n in 0..db.item_count() {
        let item = db.item(n);
        add_comment_bytes(&mut out, &item)?;
    }
    Ok(Text::from_vec(out))
}

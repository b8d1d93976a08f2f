//! The units of a file.

ghost use Rattle.std.specs.Prelude.{◌≡◌, IfOk};
ghost use Rattle.bib_store.specs.Readings.{OfReading};
ghost use Rattle.merge_spec.specs.Units.{first_space, spaced_of};
ghost use Rattle.bib_units.specs.Comments.{comments_of};
ghost use Rattle.bib_units.specs.UnitsSeen.{AreUnits};

use crate::of_item::{add_item, add_text};
use crate::spaces::split_front;
use crate::unit_view::UnitView;
use bib_store::{Database, ItemList};
use bib_text::Text;
use std::alloc::{AllocError, Global};

/// The units of a file, in order, and the white space before the first, as slices of the open file and of its comments.
#[derive(Drop)]
pub struct FileUnits<'a> {
    pub space: &'a [u8],
    pub units: Vec<UnitView<'a>>,
}

/// The units of an open file, of which these are the comments, each with the text after it. It takes memory for each unit, and time
/// in the number of items and in the lengths of keys and white space. It is refused only out of memory.
pub fn units_of<'a, L: ItemList>(
    alloc: Global,
    db: &'a Database<L>,
    comments: &'a Text,
) -> Result<FileUnits<'a>, AllocError>
    requires { OfReading db.now (λ r. comments.now ≡ comments_of r) }
    ensures space { IfOk result (λ found. OfReading db.now (λ r. found.space.now ≡ first_space r)) }
    ensures units { IfOk result (λ found. OfReading db.now (λ r. AreUnits r found.units.items (spaced_of r))) }
{
    db.opens();
    let mut units = Vec::with_capacity(alloc, db.item_count())?;
    let front = db.front();
    let (space, _) = split_front(front);
    add_text(&mut units, front)?;
    let mut rest = comments.as_slice();
    'items: for n in 0..db.item_count() {
        let item = db.item(n);
        rest = add_item(&mut units, n, &item, rest)?;
    }
    Ok(FileUnits { space, units })
}

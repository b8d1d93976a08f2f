//! Items that say the same.

ghost use Rattle.std.specs.Prelude.{◌≡◌, Some, slice_get, IfOk};
ghost use Rattle.bib_spec.specs.Bytes.{name_limit};
ghost use Rattle.bib_spec.specs.Tree.{IsTree};
ghost use Rattle.bib_spec.specs.Reading.{Item};
ghost use Rattle.bib_spec.specs.Texts.{months, macros_at};
ghost use Rattle.bib_scan.specs.View.{view_of};
ghost use Rattle.bib_definitions.specs.MacrosSeen.{macros_seen};
ghost use Rattle.bib_store.specs.Readings.{OfReading};
ghost use Rattle.merge_spec.specs.ThreeWay.{trees_agree};

use crate::definitions::definitions_agree;
use crate::entries::entries_agree;
use bib_scan::{ItemView, Kind};
use bib_store::{Database, ItemList, MacrosAt};
use std::alloc::{AllocError, Global};

/// Whether the two items say the same; only entries and definitions say anything.
fn views_agree(
    alloc: Global,
    a: &ItemView<'_>,
    macros_a: &MacrosAt<'_>,
    b: &ItemView<'_>,
    macros_b: &MacrosAt<'_>,
) -> Result<bool, AllocError>
    ensures { IfOk result (λ same. (ia ib : Item) → IsTree name_limit ia.tree → IsTree name_limit ib.tree → a.now ≡ view_of ia → b.now ≡ view_of ib
        → same ≡ trees_agree (macros_seen macros_a.now) ia.tree (macros_seen macros_b.now) ib.tree) }
{
    match (a.kind(), b.kind()) {
        (Kind::Entry, Kind::Entry) => {
            let same = entries_agree(alloc, a, macros_a, b, macros_b)?;
            Ok(same)
        }
        (Kind::Macro, Kind::Macro) => {
            let same = definitions_agree(alloc, a, macros_a, b, macros_b)?;
            Ok(same)
        }
        _ => Ok(false),
    }
}

/// Whether item `n` of one file says what item `m` of another says, each in its own file. Entries say the same if they have the
/// same type, and the same fields with the same texts, each once; definitions, if their values are the same, or have the same
/// raw text. Other items say nothing. It takes time and memory in the lengths of the two items and of their texts. It is
/// refused only out of memory.
pub fn items_agree<L: ItemList>(
    alloc: Global,
    a: &Database<L>,
    n: usize,
    b: &Database<L>,
    m: usize,
) -> Result<bool, AllocError>
    ensures { IfOk result (λ same. OfReading a.now (λ ra. OfReading b.now (λ rb. (ia ib : Item) → slice_get ra.items n ≡ Some ia → slice_get rb.items m ≡ Some ib
        → same ≡ trees_agree (macros_at months ra.items n) ia.tree (macros_at months rb.items m) ib.tree))) }
{
    if n >= a.item_count() || m >= b.item_count() {
        return Err(AllocError);
    }
    let same = views_agree(
        alloc,
        &a.item(n),
        &a.macros_at(n),
        &b.item(m),
        &b.macros_at(m),
    )?;
    Ok(same)
}

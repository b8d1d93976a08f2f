//! The text without what the file says already.

ghost use Rattle.std.specs.Prelude.{◌≡◌, ◌++◌, take, IfOk, OnOk};
ghost use Rattle.bib_spec.specs.Bytes.{name_limit};
ghost use Rattle.bib_spec.specs.Tree.{IsTree};
ghost use Rattle.bib_spec.specs.Reading.{Item, bytes_of};
ghost use Rattle.bib_spec.specs.Texts.{months, macros_at};
ghost use Rattle.bib_scan.specs.View.{view_of};
ghost use Rattle.bib_store.specs.Readings.{OfReading, IsItemGap};
ghost use Rattle.bib_paste.specs.News.{bytes_unless_known, news_of};

use crate::known::is_known;
use bib_scan::ItemView;
use bib_store::{Database, ItemList};
use bib_text::Text;
use bib_value::MacroTable;
use std::alloc::{AllocError, Global};

/// Adds the bytes of an item, unless it is known.
fn add_unless_known<M: MacroTable>(
    alloc: Global,
    out: &mut Vec<u8>,
    macros: &M,
    view: &ItemView<'_>,
) -> Result<(), AllocError>
    ensures { OnOk result ((i : Item) → IsTree name_limit i.tree → view.now ≡ view_of i
        → out.new.items ≡ out.old.items ++ bytes_unless_known (M.macros macros.now) i) }
{
    if !is_known(alloc, macros, view)? {
        out.extend_from_slice(view.body())?;
        out.extend_from_slice(view.trail())?;
    }
    Ok(())
}

/// The bytes of the text without what is known where macros stand for this.
fn news_among<M: MacroTable, L: ItemList>(
    alloc: Global,
    macros: &M,
    text: &Database<L>,
) -> Result<Text, AllocError>
    ensures { IfOk result (λ bytes. OfReading text.now (λ new. bytes ≡ bytes_of (news_of (M.macros macros.now) new))) }
{
    text.opens();
    let mut out = Vec::with_capacity(alloc, text.byte_count())?;
    out.extend_from_slice(text.front())?;
    'items: for n in 0..text.item_count() {
        add_unless_known(alloc, &mut out, macros, &text.item(n))?;
    }
    Ok(Text::from_vec(out))
}

/// The same gap between items, or the end of the file for a position behind it.
fn gap_at<L: ItemList>(db: &Database<L>, position: usize) -> usize
    ensures gap { IsItemGap db.now result }
    ensures same { OfReading db.now (λ r. take result r.items ≡ take position r.items) }
{
    db.opens();
    if position < db.item_count() {
        return position;
    }
    db.item_count()
}

/// The bytes of the text without the definitions that say what the file says before item `position`, each with the white space
/// behind it. A definition says so if its value is one text or number, and that is the text for which its macro stands there. It
/// takes time and memory in the length of the text, and a look-up for each of its definitions. The one refusal is want of memory.
/// (dialect)
pub fn news_of<L: ItemList, M: ItemList>(
    alloc: Global,
    db: &Database<L>,
    position: usize,
    text: &Database<M>,
) -> Result<Text, AllocError>
    ensures { IfOk result (λ bytes. OfReading db.now (λ r. OfReading text.now (λ new. bytes ≡ bytes_of (news_of (macros_at months r.items position) new)))) }
{
    db.opens();
    let macros = db.macros_at(gap_at(db, position));
    news_among(alloc, &macros, text)
}

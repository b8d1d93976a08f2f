//! Keys and macros that a text would bring into a file, and that are there.

ghost use Rattle.std.specs.Prelude.{◌≡◌};
ghost use Rattle.bib_spec.specs.Reading.{Item};
ghost use Rattle.bib_scan.specs.View.{view_of};
ghost use Rattle.bib_store.specs.Readings.{OfReading};
ghost use Rattle.insert_spec.specs.Insertion.{is_taken, is_key_taken, defines_taken, is_name_taken};

use crate::new_entries::is_held;
use bib_scan::{ItemView, Kind};
use bib_store::{Database, ItemList};

/// Whether the key is that of two entries of the text, or of an entry of the file, folded.
fn is_taken<L: ItemList, M: ItemList>(db: &Database<L>, text: &Database<M>, key: &[u8]) -> bool
    ensures { OfReading db.now (λ r. OfReading text.now (λ new. result ≡ is_taken new r key.now)) }
{
    text.holders(key) > 1 || is_held(db, key)
}

/// Whether an entry of the text has the key of another one there, or of an entry of the file, folded. It takes two look-ups
/// for each entry of the text.
pub(crate) fn is_key_taken<L: ItemList, M: ItemList>(db: &Database<L>, text: &Database<M>) -> bool
    ensures { OfReading db.now (λ r. OfReading text.now (λ new. result ≡ is_key_taken new r)) }
{
    text.opens();
    'entries: for n in 0..text.entry_count() {
        if is_taken(db, text, text.entry(n).key()) {
            return true;
        }
    }
    false
}

/// Whether the item defines a macro that the file defines, folded.
fn defines_taken<L: ItemList>(db: &Database<L>, view: &ItemView<'_>) -> bool
    ensures { OfReading db.now (λ r. (i : Item) → view.now ≡ view_of i → result ≡ defines_taken r i.tree) }
{
    match view.kind() {
        Kind::Macro => match view.fields().next() {
            Some(field) => db.definition_count(field.name) > 0,
            None => false,
        },
        Kind::Entry | Kind::Preamble | Kind::Comment => false,
    }
}

/// Whether the text defines a macro that the file defines, folded. It takes a look-up for each definition in the text.
pub(crate) fn is_name_taken<L: ItemList, M: ItemList>(db: &Database<L>, text: &Database<M>) -> bool
    ensures { OfReading db.now (λ r. OfReading text.now (λ new. result ≡ is_name_taken new r)) }
{
    text.opens();
    'items: for n in 0..text.item_count() {
        if defines_taken(db, &text.item(n)) {
            return true;
        }
    }
    false
}

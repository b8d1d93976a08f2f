//! Which items define each macro.

ghost use Rattle.std.specs.Prelude.{◌≡◌, ◌++◌, ◌∷◌, [], List, take, nat_lt, count_by, if◌then◌else◌, bytes_eq, IfOk, OnOk};
ghost use Rattle.std.specs.List.Sorted.{IsNonDecreasingBy};
ghost use Rattle.bib_spec.specs.Text.{Text, folded};
ghost use Rattle.bib_spec.specs.Reading.{Item};
ghost use Rattle.bib_scan.specs.View.{kind_of, view_of};
ghost use Rattle.bib_scan.specs.declared.view.Kind.TheVariants.{Macro};
ghost use Rattle.bib_definitions.specs.Definitions.{is_definition_of, definition_count};
ghost use Rattle.bib_store.specs.Readings.{OfReading};
ghost use Rattle.bib_uses.specs.Seen.{numbers_of, AreDefined};

use bib_scan::{ItemView, Kind};
use bib_store::{Database, ItemList};
use bib_text::{NAME_LIMIT, Seq};
use folded_map::FoldedMap;
use std::alloc::{AllocError, Global};

/// The numbers of the items that define each macro, in order.
pub(crate) type Defined = FoldedMap<Seq<usize>>;

/// How many of the numbers, if they don't fall, are below this one.
fn count_below(numbers: &[usize], n: usize) -> usize
    ensures { IsNonDecreasingBy (λ m. m) numbers.now → result ≡ count_by (λ m. nat_lt m n) numbers.now }
{
    numbers.partition_point(|m| *m < n)
}

/// How many items before item `n` define the macro. It takes time in the length of the name, and in the logarithm of the count of its
/// definitions.
pub(crate) fn defined_before(defined: &Defined, n: usize, name: &[u8]) -> usize
    ensures { (items : List Item) → AreDefined items defined.now → result ≡ definition_count name.now (take n items) }
{
    match defined.get(name) {
        Some(numbers) => count_below(numbers.as_slice(), n),
        None => 0,
    }
}

/// Adds the number to those of a name.
fn add_number(alloc: Global, defined: &mut Defined, name: &[u8], n: usize) -> Result<(), AllocError>
    ensures { OnOk result ((x : Text) → numbers_of defined.new x ≡ (if bytes_eq x (folded name.now) then numbers_of defined.old (folded name.now) ++ n ∷ [] else numbers_of defined.old x)) }
{
    // No item has a longer name.
    if name.len() > NAME_LIMIT {
        return Err(AllocError);
    }
    let mut numbers = match defined.remove(name) {
        Some(numbers) => numbers.into_vec(),
        None => Vec::new(alloc),
    };
    numbers.push(n)?;
    defined.insert(name, Seq::from_vec(numbers))?;
    Ok(())
}

/// Adds the number of a definition to those of the name that it defines: that of its only field.
fn add_definition(
    alloc: Global,
    defined: &mut Defined,
    item: &ItemView<'_>,
    n: usize,
) -> Result<(), AllocError>
    ensures { OnOk result ((i : Item) → item.now ≡ view_of i → kind_of i.tree ≡ Macro → (name : Text) → numbers_of defined.new (folded name) ≡ numbers_of defined.old (folded name) ++ (if is_definition_of name i.tree then n ∷ [] else [])) }
{
    if let Some(field) = item.fields().next() {
        add_number(alloc, defined, field.name, n)?;
    }
    Ok(())
}

/// Adds the number of an item to those of the name that it defines, if it defines one.
fn add_item(
    alloc: Global,
    defined: &mut Defined,
    item: &ItemView<'_>,
    n: usize,
) -> Result<(), AllocError>
    ensures { OnOk result ((i : Item) → item.now ≡ view_of i → (name : Text) → numbers_of defined.new (folded name) ≡ numbers_of defined.old (folded name) ++ (if is_definition_of name i.tree then n ∷ [] else [])) }
{
    match item.kind() {
        Kind::Macro => add_definition(alloc, defined, item, n),
        Kind::Entry | Kind::Preamble | Kind::Comment => Ok(()),
    }
}

/// Which items of the file define each macro. It takes time in the number of items and the lengths of the names, and memory for the
/// definitions.
pub(crate) fn defined_in<L: ItemList>(
    alloc: Global,
    db: &Database<L>,
) -> Result<Defined, AllocError>
    ensures { IfOk result (λ defined. OfReading db.now (λ r. AreDefined r.items defined)) }
{
    let mut defined = FoldedMap::new(alloc);
    'items: for n in 0..db.item_count() {
        add_item(alloc, &mut defined, &db.item(n), n)?;
    }
    Ok(defined)
}

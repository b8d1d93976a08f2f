//! The names of macros that are still to be defined.

ghost use Rattle.std.specs.Prelude.{◌≡◌, ℕ, Bool, List, true, false, IfOk, OnOk};
ghost use Rattle.bib_spec.specs.Bytes.{name_limit};
ghost use Rattle.bib_spec.specs.Text.{Text};
ghost use Rattle.bib_spec.specs.Tree.{IsPart, IsTree};
ghost use Rattle.bib_spec.specs.Reading.{Item, IsValueWithin};
ghost use Rattle.bib_scan.specs.PartView.{part_view};
ghost use Rattle.bib_scan.specs.ValueParts.{IsPartsOf};
ghost use Rattle.bib_scan.specs.View.{kind_of, view_of};
ghost use Rattle.bib_scan.specs.declared.view.Kind.TheVariants.{Macro};
ghost use Rattle.bib_value.specs.Raw.{OfValue};
ghost use Rattle.extract_spec.specs.Extract.{name_in, names_in, names_before, without_defined, stays};
ghost use Rattle.bib_extract.specs.Awaited.{Gains, GainsFrom, HasNames, HaveValues};

use bib_scan::{Fields, ItemView, Kind, Part, Parts, only_part, read_value};
use folded_map::FoldedMap;
use std::alloc::{AllocError, Global};

/// The names of macros, compared without regard to ASCII case.
pub(crate) type Names = FoldedMap<bool>;

/// Adds the name that a part uses, if it uses one.
fn add_name(names: &mut Names, part: Part<'_>) -> Result<(), AllocError>
    requires { IsPart name_limit (part_view part) }
    ensures { OnOk result (Gains (name_in (part_view part.entry)) names.old names.new) }
{
    match part {
        Part::Macro(name) => {
            names.insert(name, true)?;
            Ok(())
        }
        Part::Braced(_) | Part::Quoted(_) | Part::Digits(_) => Ok(()),
    }
}

/// The parts of a value.
fn parts_in(alloc: Global, value: &[u8]) -> Result<Parts, AllocError>
    requires { IsValueWithin name_limit value.now }
    ensures { IfOk result (λ parts. IsPartsOf value.now parts) }
{
    match read_value(alloc, value) {
        Ok(parts) => Ok(parts),
        // Every value is valid here, so only want of memory refuses it.
        Err(_) => Err(AllocError),
    }
}

/// Adds the names that a value uses. Most values have one part, and are not taken apart.
fn add_in_value(alloc: Global, names: &mut Names, value: &[u8]) -> Result<(), AllocError>
    requires { IsValueWithin name_limit value.now }
    ensures { OnOk result (OfValue value.now (λ v. Gains (names_in v) names.old names.new)) }
{
    if let Some(part) = only_part(value) {
        add_name(names, part)?;
        return Ok(());
    }
    let parts = parts_in(alloc, value)?;
    'parts: for n in 0..parts.len() {
        add_name(names, parts.part(value, n))?;
    }
    Ok(())
}

/// Adds the names that the fields use.
fn add_in_fields(alloc: Global, names: &mut Names, fields: Fields<'_>) -> Result<(), AllocError>
    requires { HaveValues fields }
    ensures { OnOk result (GainsFrom fields.entry names.old names.new) }
{
    let mut rest = fields;
    'fields: while let Some(field) = rest.next() {
        add_in_value(alloc, names, field.value)?;
    }
    Ok(())
}

/// Whether the item defines a name that is still to be defined.
fn is_awaited(item: &ItemView<'_>, names: &Names) -> bool
    ensures { (i : Item) (ns : List Text) → item.now ≡ view_of i → kind_of i.tree ≡ Macro → HasNames names.now ns → result ≡ stays (λ n. false) 0 ns i.tree }
{
    match item.fields().next() {
        Some(field) => names.get(field.name).is_some(),
        None => false,
    }
}

/// Whether the item is kept: it is a preamble, an entry that is kept, or the definition of a name that is still to be
/// defined.
pub(crate) fn stays(item: &ItemView<'_>, is_kept: bool, names: &Names) -> bool
    ensures { (i : Item) (keeps : ℕ → Bool) (n : ℕ) (ns : List Text) → item.now ≡ view_of i → keeps n ≡ is_kept → HasNames names.now ns
        → result ≡ stays keeps n ns i.tree }
{
    match item.kind() {
        Kind::Entry => is_kept,
        Kind::Preamble => true,
        Kind::Macro => is_awaited(item, names),
        Kind::Comment => false,
    }
}

/// Takes out the name that a definition defines: that of its only field.
fn remove_first(names: &mut Names, item: &ItemView<'_>)
    ensures { (i : Item) (ns : List Text) → item.now ≡ view_of i → kind_of i.tree ≡ Macro → HasNames names.old ns → HasNames names.new (without_defined i.tree ns) }
{
    if let Some(field) = item.fields().next() {
        names.remove(field.name);
    }
}

/// Takes out the name that the item defines, if it defines one.
fn remove_defined(names: &mut Names, item: &ItemView<'_>)
    ensures { (i : Item) (ns : List Text) → item.now ≡ view_of i → HasNames names.old ns → HasNames names.new (without_defined i.tree ns) }
{
    match item.kind() {
        Kind::Macro => remove_first(names, item),
        Kind::Entry | Kind::Preamble | Kind::Comment => {}
    }
}

/// Makes of the names that are to be defined before the next item those that are to be defined before this one, which is
/// kept.
pub(crate) fn go_before(
    alloc: Global,
    names: &mut Names,
    item: &ItemView<'_>,
) -> Result<(), AllocError>
    requires { HaveValues item.now.fields }
    ensures { OnOk result ((i : Item) (ns : List Text) → IsTree name_limit i.tree → item.now ≡ view_of i → HasNames names.old ns → HasNames names.new (names_before true i.tree ns)) }
{
    add_in_fields(alloc, names, item.fields())?;
    remove_defined(names, item);
    Ok(())
}

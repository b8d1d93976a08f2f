//! Which parts of three entries are in conflict.

ghost use Rattle.std.specs.Prelude.{◌≡◌, ◌++◌, [], ◌∷◌, map, filter, Some, slice_get, IfOk, OnOk, if◌then◌else◌};
ghost use Rattle.bib_spec.specs.Bytes.{name_limit};
ghost use Rattle.bib_spec.specs.Text.{folded};
ghost use Rattle.bib_spec.specs.Tree.{Entry, IsTree};
ghost use Rattle.bib_spec.specs.Reading.{Item};
ghost use Rattle.bib_spec.specs.Texts.{Macros, months, macros_at};
ghost use Rattle.bib_scan.specs.View.{field_seen, view_of};
ghost use Rattle.bib_definitions.specs.MacrosSeen.{macros_seen};
ghost use Rattle.bib_store.specs.Readings.{OfReading};
ghost use Rattle.merge_spec.specs.ThreeWay.{entry_with};
ghost use Rattle.merge_spec.specs.Conflicts.{Whole as WholePart, TheType, is_lacking, is_type_in_conflict, or_whole, parts_in_conflict, parts_of_entries};
ghost use Rattle.bib_sayings.specs.FieldTables.{names_of};
ghost use Rattle.bib_fields.specs.Versions.{IsVersion};
ghost use Rattle.bib_fields.specs.PartsSeen.{part_seen, told};

use crate::of_three::is_in_conflict;
use crate::version::{Version, version_of};
use bib_scan::{FieldView, ItemView};
use bib_store::{Database, ItemList, MacrosAt};
use bib_text::{Seq, Text, same_folded};
use std::alloc::{AllocError, Global};

/// A part of an entry that both sides changed.
#[derive(Debug, Drop)]
pub enum ChangedPart {
    /// The entry as a whole.
    Whole,
    /// Its type.
    TypeName,
    /// The field with this name, in lower case.
    Field(Text),
}

/// The name in lower case.
fn lower(alloc: Global, name: &[u8]) -> Result<Text, AllocError>
    ensures { IfOk result (λ lower. lower ≡ folded name.now) }
{
    let mut bytes = Vec::from_slice(alloc, name)?;
    bytes.make_ascii_lowercase();
    Ok(Seq::from_vec(bytes))
}

/// Adds the name of this field, if the field is in conflict.
fn add_field(
    alloc: Global,
    parts: &mut Vec<ChangedPart>,
    field: &FieldView<'_>,
    b: &Version<'_>,
    o: &Version<'_>,
    t: &Version<'_>,
) -> Result<(), AllocError>
    ensures { OnOk result ((mb mo mt : Macros) (eb eo et : Entry) → IsVersion b.now mb eb → IsVersion o.now mo eo → IsVersion t.now mt et
        → map part_seen parts.new.items ≡ map part_seen parts.old.items ++ told mb eb mo eo mt et (field.now.name.now ∷ [])) }
{
    if is_in_conflict(alloc, field.name, b, o, t)? {
        let lower = lower(alloc, field.name)?;
        parts.push(ChangedPart::Field(lower))?;
        return Ok(());
    }
    Ok(())
}

/// Adds the name of this field, if we lack the field and it is in conflict.
fn add_lacking(
    alloc: Global,
    parts: &mut Vec<ChangedPart>,
    field: &FieldView<'_>,
    b: &Version<'_>,
    o: &Version<'_>,
    t: &Version<'_>,
) -> Result<(), AllocError>
    ensures { OnOk result ((mb mo mt : Macros) (eb eo et : Entry) → IsVersion b.now mb eb → IsVersion o.now mo eo → IsVersion t.now mt et
        → map part_seen parts.new.items ≡ map part_seen parts.old.items ++ told mb eb mo eo mt et (filter (is_lacking eo.rows) (field.now.name.now ∷ []))) }
{
    if o.table.get(field.name).is_none() {
        add_field(alloc, parts, field, b, o, t)?;
        return Ok(());
    }
    Ok(())
}

/// Adds those of our fields that are in conflict.
fn add_ours(
    alloc: Global,
    parts: &mut Vec<ChangedPart>,
    fields: &[FieldView<'_>],
    b: &Version<'_>,
    o: &Version<'_>,
    t: &Version<'_>,
) -> Result<(), AllocError>
    ensures { OnOk result ((mb mo mt : Macros) (eb eo et : Entry) → IsVersion b.now mb eb → IsVersion o.now mo eo → IsVersion t.now mt et
        → map part_seen parts.new.items ≡ map part_seen parts.old.items ++ told mb eb mo eo mt et (names_of (map field_seen fields.now))) }
{
    'fields: for k in 0..fields.len() {
        add_field(alloc, parts, &fields[k], b, o, t)?;
    }
    Ok(())
}

/// Adds those of their fields that we lack and that are in conflict.
fn add_theirs(
    alloc: Global,
    parts: &mut Vec<ChangedPart>,
    fields: &[FieldView<'_>],
    b: &Version<'_>,
    o: &Version<'_>,
    t: &Version<'_>,
) -> Result<(), AllocError>
    ensures { OnOk result ((mb mo mt : Macros) (eb eo et : Entry) → IsVersion b.now mb eb → IsVersion o.now mo eo → IsVersion t.now mt et
        → map part_seen parts.new.items ≡ map part_seen parts.old.items ++ told mb eb mo eo mt et (filter (is_lacking eo.rows) (names_of (map field_seen fields.now)))) }
{
    'fields: for k in 0..fields.len() {
        add_lacking(alloc, parts, &fields[k], b, o, t)?;
    }
    Ok(())
}

/// Whether the type is in conflict.
fn is_type_in_conflict(b: &[u8], o: &[u8], t: &[u8]) -> bool
    ensures { result ≡ is_type_in_conflict b.now o.now t.now }
{
    !(same_folded(b, t) || same_folded(o, t) || same_folded(b, o))
}

/// The entry as a whole.
fn whole(alloc: Global) -> Result<Vec<ChangedPart>, AllocError>
    ensures { IfOk result (λ parts. map part_seen parts.items ≡ WholePart ∷ []) }
{
    let mut parts = Vec::new(alloc);
    parts.push(ChangedPart::Whole)?;
    Ok(parts)
}

/// The type, if it is in conflict.
fn type_in_conflict(
    alloc: Global,
    b: &[u8],
    o: &[u8],
    t: &[u8],
) -> Result<Vec<ChangedPart>, AllocError>
    ensures { IfOk result (λ parts. map part_seen parts.items ≡ (if is_type_in_conflict b.now o.now t.now then TheType ∷ [] else [])) }
{
    let mut parts = Vec::new(alloc);
    if is_type_in_conflict(b, o, t) {
        parts.push(ChangedPart::TypeName)?;
        return Ok(parts);
    }
    Ok(parts)
}

/// These parts, or the whole if there are none.
fn or_whole(parts: Vec<ChangedPart>) -> Result<Vec<ChangedPart>, AllocError>
    ensures { IfOk result (λ all. map part_seen all.items ≡ or_whole (map part_seen parts.items)) }
{
    let mut parts = parts;
    if parts.is_empty() {
        parts.push(ChangedPart::Whole)?;
        return Ok(parts);
    }
    Ok(parts)
}

/// The parts of three versions that are in conflict, or the whole.
fn parts_of(
    alloc: Global,
    b: &Version<'_>,
    o: &Version<'_>,
    t: &Version<'_>,
) -> Result<Vec<ChangedPart>, AllocError>
    ensures { IfOk result (λ parts. (mb mo mt : Macros) (eb eo et : Entry) → IsVersion b.now mb eb → IsVersion o.now mo eo → IsVersion t.now mt et
        → map part_seen parts.items ≡ parts_of_entries mb eb mo eo mt et) }
{
    let mut parts = type_in_conflict(alloc, b.type_name, o.type_name, t.type_name)?;
    add_ours(alloc, &mut parts, o.fields.as_slice(), b, o, t)?;
    add_theirs(alloc, &mut parts, t.fields.as_slice(), b, o, t)?;
    let all = or_whole(parts)?;
    Ok(all)
}

/// The parts of three items that are in conflict, each with its macros.
fn parts_of_views(
    alloc: Global,
    b: &ItemView<'_>,
    macros_b: MacrosAt<'_>,
    o: &ItemView<'_>,
    macros_o: MacrosAt<'_>,
    t: &ItemView<'_>,
    macros_t: MacrosAt<'_>,
) -> Result<Vec<ChangedPart>, AllocError>
    ensures { IfOk result (λ parts. (ib io it : Item) → IsTree name_limit ib.tree → IsTree name_limit io.tree → IsTree name_limit it.tree
        → b.now ≡ view_of ib → o.now ≡ view_of io → t.now ≡ view_of it → map part_seen parts.items
        ≡ parts_in_conflict (entry_with (macros_seen macros_b.entry) (Some ib.tree)) (entry_with (macros_seen macros_o.entry) (Some io.tree)) (entry_with (macros_seen macros_t.entry) (Some it.tree))) }
{
    let Some(base) = version_of(alloc, b, macros_b)? else {
        let first = whole(alloc)?;
        return Ok(first);
    };
    let Some(ours) = version_of(alloc, o, macros_o)? else {
        let second = whole(alloc)?;
        return Ok(second);
    };
    let Some(theirs) = version_of(alloc, t, macros_t)? else {
        let third = whole(alloc)?;
        return Ok(third);
    };
    let parts = parts_of(alloc, &base, &ours, &theirs)?;
    Ok(parts)
}

/// The parts of three items, each in its own file, that are in conflict: the type, then fields, ours in our order and then those
/// that only they have in theirs. It is the whole if one is no entry, or has a field twice, or if no part is in conflict. It takes
/// time and memory in the number of fields and in the lengths of the names and of the values that differ. It is refused only out
/// of memory.
pub fn parts_in_conflict<L: ItemList>(
    alloc: Global,
    base: &Database<L>,
    b: usize,
    ours: &Database<L>,
    o: usize,
    theirs: &Database<L>,
    t: usize,
) -> Result<Vec<ChangedPart>, AllocError>
    ensures { IfOk result (λ parts. OfReading base.now (λ rb. OfReading ours.now (λ ro. OfReading theirs.now (λ rt. (ib io it : Item)
        → slice_get rb.items b ≡ Some ib → slice_get ro.items o ≡ Some io → slice_get rt.items t ≡ Some it → map part_seen parts.items
        ≡ parts_in_conflict (entry_with (macros_at months rb.items b) (Some ib.tree)) (entry_with (macros_at months ro.items o) (Some io.tree)) (entry_with (macros_at months rt.items t) (Some it.tree)))))) }
{
    if b >= base.item_count() || o >= ours.item_count() || t >= theirs.item_count() {
        return Err(AllocError);
    }
    let parts = parts_of_views(
        alloc,
        &base.item(b),
        base.macros_at(b),
        &ours.item(o),
        ours.macros_at(o),
        &theirs.item(t),
        theirs.macros_at(t),
    )?;
    Ok(parts)
}

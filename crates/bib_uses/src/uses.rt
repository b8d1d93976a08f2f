//! The uses of macros in an entry.

ghost use Rattle.std.specs.Prelude.{◌≡◌, ◌++◌, map, IfOk, OnOk};
ghost use Rattle.bib_spec.specs.Bytes.{name_limit};
ghost use Rattle.bib_spec.specs.Text.{Text};
ghost use Rattle.bib_spec.specs.Tree.{Entry, IsEntry, EntryTree};
ghost use Rattle.bib_scan.specs.PartView.{part_view};
ghost use Rattle.bib_scan.specs.ValueParts.{IsPartsOf};
ghost use Rattle.bib_scan.specs.View.{view_of};
ghost use Rattle.bib_value.specs.Raw.{OfValue};
ghost use Rattle.extract_spec.specs.Extract.{name_in, names_in};
ghost use Rattle.bib_uses.specs.Uses.{use_in, uses_in};
ghost use Rattle.bib_uses.specs.Seen.{use_seen};

use bib_scan::{FieldView, ItemView, Part, Parts, only_part, read_value};
use std::alloc::{AllocError, Global};

/// A use of a macro: the name of the field in which it is, the value of that field, and the name of the macro.
#[derive(Clone, Copy, Debug)]
pub(crate) struct UseView<'a> {
    pub field: &'a [u8],
    pub value: &'a [u8],
    pub used: &'a [u8],
}

/// Adds the use that a part of a field is, if it is one.
fn add_in_part<'a>(
    uses: &mut Vec<UseView<'a>>,
    field: FieldView<'a>,
    part: Part<'a>,
) -> Result<(), AllocError>
    ensures { OnOk result (map use_seen uses.new.items ≡ map use_seen uses.old.items ++ map (use_in field.entry.name.now field.entry.value.now) (name_in (part_view part.entry))) }
{
    match part {
        Part::Macro(used) => {
            uses.push(UseView {
                field: field.name,
                value: field.value,
                used,
            })?;
            Ok(())
        }
        Part::Braced(_) | Part::Quoted(_) | Part::Digits(_) => Ok(()),
    }
}

/// The parts of a value.
fn parts_in(alloc: Global, value: &[u8]) -> Result<Parts, AllocError>
    ensures { IfOk result (λ parts. IsPartsOf value.now parts) }
{
    match read_value(alloc, value) {
        Ok(parts) => Ok(parts),
        // The value of an item can be read, so only want of memory refuses it.
        Err(_) => Err(AllocError),
    }
}

/// Adds the uses in a field. Most values have one part, and are not taken apart.
fn add_in_field<'a>(
    alloc: Global,
    uses: &mut Vec<UseView<'a>>,
    field: FieldView<'a>,
) -> Result<(), AllocError>
    ensures { OnOk result (OfValue field.entry.value.now (λ v. map use_seen uses.new.items ≡ map use_seen uses.old.items ++ map (use_in field.entry.name.now field.entry.value.now) (names_in v))) }
{
    if let Some(part) = only_part(field.value) {
        add_in_part(uses, field, part)?;
        return Ok(());
    }
    let parts = parts_in(alloc, field.value)?;
    'parts: for n in 0..parts.len() {
        add_in_part(uses, field, parts.part(field.value, n))?;
    }
    Ok(())
}

/// The uses in an entry, in order. It takes time and memory in the length of the entry.
pub(crate) fn uses_of<'a>(
    alloc: Global,
    entry: &ItemView<'a>,
) -> Result<Vec<UseView<'a>>, AllocError>
    ensures { IfOk result (λ uses. (e : Entry) (trail : Text) → IsEntry name_limit e → entry.now ≡ view_of (record { tree = EntryTree e; trail = trail }) → map use_seen uses.items ≡ uses_in e.rows) }
{
    let mut uses = Vec::new(alloc);
    let mut rest = entry.fields();
    'fields: while let Some(field) = rest.next() {
        add_in_field(alloc, &mut uses, field)?;
    }
    Ok(uses)
}

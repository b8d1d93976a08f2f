//! Macro definitions that say the same.

ghost use Rattle.std.specs.Prelude.{◌≡◌, IfOk};
ghost use Rattle.bib_spec.specs.Bytes.{name_limit};
ghost use Rattle.bib_spec.specs.Text.{Text};
ghost use Rattle.bib_spec.specs.Tree.{Definition, IsDefinition, DefinitionTree};
ghost use Rattle.bib_scan.specs.View.{field_seen, fields_of, view_of};
ghost use Rattle.std.specs.Prelude.{[], ◌∷◌};
ghost use Rattle.bib_definitions.specs.MacrosSeen.{macros_seen};
ghost use Rattle.merge_spec.specs.ThreeWay.{definitions_agree};

use crate::texts::raw_text_of;
use bib_scan::{FieldView, ItemView};
use bib_store::MacrosAt;
use std::alloc::{AllocError, Global};

/// Whether the two definitions with these fields have the same value, or values with the same raw text.
fn fields_agree(
    alloc: Global,
    a: FieldView<'_>,
    macros_a: &MacrosAt<'_>,
    b: FieldView<'_>,
    macros_b: &MacrosAt<'_>,
) -> Result<bool, AllocError>
    ensures { IfOk result (λ same. (da db : Definition) → IsDefinition name_limit da → IsDefinition name_limit db
        → fields_of (DefinitionTree da) ≡ field_seen a.entry ∷ [] → fields_of (DefinitionTree db) ≡ field_seen b.entry ∷ []
        → same ≡ definitions_agree (macros_seen macros_a.now) da (macros_seen macros_b.now) db) }
{
    if a.value == b.value {
        return Ok(true);
    }
    let one = raw_text_of(alloc, a.value, macros_a, Some(a.name))?;
    let other = raw_text_of(alloc, b.value, macros_b, Some(b.name))?;
    Ok(one.as_slice() == other.as_slice())
}

/// Whether the two definitions have the same value, or values with the same raw text.
pub(crate) fn definitions_agree(
    alloc: Global,
    a: &ItemView<'_>,
    macros_a: &MacrosAt<'_>,
    b: &ItemView<'_>,
    macros_b: &MacrosAt<'_>,
) -> Result<bool, AllocError>
    ensures { IfOk result (λ same. (da db : Definition) (ta tb : Text) → IsDefinition name_limit da → IsDefinition name_limit db
        → a.now ≡ view_of (record { tree = DefinitionTree da; trail = ta }) → b.now ≡ view_of (record { tree = DefinitionTree db; trail = tb })
        → same ≡ definitions_agree (macros_seen macros_a.now) da (macros_seen macros_b.now) db) }
{
    let Some(one) = a.fields().next() else {
        return Err(AllocError);
    };
    let Some(other) = b.fields().next() else {
        return Err(AllocError);
    };
    let same = fields_agree(alloc, one, macros_a, other, macros_b)?;
    Ok(same)
}

//! The definitions of a macro, and whether a month or a macro has a name.

ghost use Rattle.std.specs.Prelude.{◌≡◌, Some, IfOk, IfErr};
ghost use Rattle.std.specs.Option.{option_map};
ghost use Rattle.bib_spec.specs.Tree.{Definition};
ghost use Rattle.edit_spec.specs.Edits.{text_of_macro};
ghost use Rattle.bib_scan.specs.Layout.{start_of};
ghost use Rattle.bib_store.specs.Readings.{OfReading};
ghost use Rattle.bib_edit.specs.Definitions.{IsDefinedAt, IsDefinitionFault, IsDefinitionAt, IsDefinitionNumber, braced, name_token, value_token, is_given};
ghost use Rattle.bib_tokens.specs.PlacedParts.{token_seen};

use crate::fault::EditFault;
use bib_store::{Database, ItemList};
use bib_text::{Seq, Text};
use bib_tokens::Token;
use bib_value::{MacroTable, month};
use std::alloc::{AllocError, Global};

/// The number of the item that is the one definition of the macro. It looks it up in the tables, without a walk over
/// items.
pub(crate) fn lone_definition<L: ItemList>(
    db: &Database<L>,
    name: &[u8],
) -> Result<usize, EditFault>
    ensures lone { IfOk result (λ n. OfReading db.now (λ r. IsDefinedAt name.now r n)) }
    ensures refused { IfErr result (IsDefinitionFault db.now name.now) }
{
    if db.definition_count(name) > 1 {
        return Err(EditFault::Ambiguous);
    }
    match db.first_definition(name) {
        Some(n) => Ok(n),
        None => Err(EditFault::NotFound),
    }
}

/// The name in item `n`, which is a definition, with its place.
pub(crate) fn name_of<L: ItemList>(db: &Database<L>, n: usize) -> Option<Token<'_>>
    requires { IsDefinitionNumber db.now n }
    ensures { OfReading db.now (λ r. (d : Definition) → IsDefinitionAt r.items n d → option_map token_seen result ≡ Some (name_token (start_of r n) d)) }
{
    db.opens();
    let field = db.item(n).fields().next()?;
    Some(Token {
        place: db.item_place(n) + field.name_at,
        bytes: field.name,
    })
}

/// The value in item `n`, which is a definition, with its place.
pub(crate) fn value_of<L: ItemList>(db: &Database<L>, n: usize) -> Option<Token<'_>>
    requires { IsDefinitionNumber db.now n }
    ensures { OfReading db.now (λ r. (d : Definition) → IsDefinitionAt r.items n d → option_map token_seen result ≡ Some (value_token (start_of r n) d)) }
{
    db.opens();
    let field = db.item(n).fields().next()?;
    Some(Token {
        place: db.item_place(n) + field.value_at,
        bytes: field.value,
    })
}

/// The text of the macro at the end of the file, in braces.
pub(crate) fn braced_text<L: ItemList>(
    alloc: Global,
    db: &Database<L>,
    name: &[u8],
) -> Result<Text, AllocError>
    ensures { IfOk result (λ text. OfReading db.now (λ r. text ≡ braced (text_of_macro name.now r))) }
{
    let macros = db.macros_at(db.item_count());
    let mut text = Vec::from_slice(alloc, b"{")?;
    if let Some(said) = macros.text_of(name) {
        text.extend_from_slice(said)?;
    }
    text.extend_from_slice(b"}")?;
    Ok(Seq::from_vec(text))
}

/// Whether the name is a month's, or defined anywhere.
pub(crate) fn is_given<L: ItemList>(db: &Database<L>, name: &[u8]) -> bool
    ensures { OfReading db.now (λ r. result ≡ is_given name.now r.items) }
{
    if month(name).is_some() {
        return true;
    }
    db.first_definition(name).is_some()
}

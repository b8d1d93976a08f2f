//! Gives a text a name.

ghost use Rattle.std.specs.Prelude.{◌≡◌, ◌||◌, OnOk, IfOk, IfErr};
ghost use Rattle.bib_edit.specs.Planning.{IsAllowedEdit, ArePiecesOf, IsRefusal};
ghost use Rattle.bib_store.specs.Readings.{OfReading};
ghost use Rattle.bib_edit.specs.Definitions.{definition_text, is_given};
ghost use Rattle.bib_data.specs.declared.edit.Edit.TheVariants.{IntroduceMacro};

use crate::defining::is_given;
use crate::fault::EditFault;
use crate::pieces::insertion_of;
use crate::replacing::{is_result_too_long, replaced_after};
use bib_scan::{is_balanced, is_name, one_reading};
use bib_store::{Database, ItemList, Piece};
use bib_text::{Seq, Text};
use bib_tokens::{Sought, first_with, push_from};
use std::alloc::{AllocError, Global};

/// The pieces that define the macro as this text and replace each part that is the text, in braces or in quotes, by its
/// name, or the first reason against it. The definition comes before the first item with such a part. It looks at each
/// field at most once, except at those of that item, at which it looks twice. It takes time and memory in the length of
/// the items that it looks at.
pub(crate) fn introduce_macro<L: ItemList>(
    alloc: Global,
    db: &Database<L>,
    name: &[u8],
    text: &[u8],
) -> Result<Seq<Piece>, EditFault>
    ensures pieces { IfOk result (ArePiecesOf db.now (IntroduceMacro name.now text.now)) }
    ensures allowed { OnOk result (IsAllowedEdit db.now (IntroduceMacro name.now text.now)) }
    ensures refused { IfErr result (IsRefusal db.now (IntroduceMacro name.now text.now)) }
{
    db.opens();
    one_reading();
    if !is_name(name) {
        return Err(EditFault::BadName);
    }
    if !is_balanced(text) {
        return Err(EditFault::BadValue);
    }
    let sought = Sought::Holds(text);
    let watched = Sought::Uses(name);
    let first = match first_with(alloc, db, sought, watched)? {
        Some(first) => first,
        None => return Err(EditFault::NotFound),
    };
    let n = first.n;
    let mut tokens = Vec::new(alloc);
    let met = push_from(alloc, &mut tokens, db, n, sought, watched)?;
    if is_taken(db, name, first.met | met) {
        return Err(EditFault::NameInUse);
    }
    let definition = definition_text(alloc, name, text)?;
    if is_result_too_long(db, tokens.as_slice(), name, 0, definition.as_slice().len()) {
        return Err(EditFault::FileTooLong);
    }
    let insertion = insertion_of(alloc, db, n, definition);
    replaced_after(alloc, insertion, tokens.as_slice(), name)
}

/// Whether the name is in use, given whether a part uses it.
fn is_taken<L: ItemList>(db: &Database<L>, name: &[u8], is_used: bool) -> bool
    ensures { OfReading db.now (λ r. result ≡ (is_used || is_given name.now r.items)) }
{
    is_used || is_given(db, name)
}

/// A definition of the macro as this text, in a line of its own. (dialect)
fn definition_text(alloc: Global, name: &[u8], text: &[u8]) -> Result<Text, AllocError>
    ensures { IfOk result (λ line. line ≡ definition_text name.now text.now) }
{
    let mut line = Vec::new(alloc);
    line.extend_from_slice(b"@string{")?;
    line.extend_from_slice(name)?;
    line.extend_from_slice(b" = {")?;
    line.extend_from_slice(text)?;
    line.extend_from_slice(b"}}\n")?;
    Ok(Seq::from_vec(line))
}

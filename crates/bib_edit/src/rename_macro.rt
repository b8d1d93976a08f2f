//! Renames a macro.

ghost use Rattle.std.specs.Prelude.{◌≡◌, ◌&&◌, ◌∷◌, drop, OnOk, IfOk, IfErr};
ghost use Rattle.bib_spec.specs.Text.{is_name};
ghost use Rattle.bib_spec.specs.Tree.{Definition};
ghost use Rattle.part_spec.specs.Parts.{uses};
ghost use Rattle.bib_scan.specs.Layout.{start_of};
ghost use Rattle.bib_store.specs.Readings.{OfReading, IsItemGap};
ghost use Rattle.bib_edit.specs.Definitions.{IsDefinitionAt, IsDefinitionNumber, name_token, is_taken_before, is_taken_from};
ghost use Rattle.bib_tokens.specs.PlacedParts.{items_placed, tokens_of, tokens_seen};
ghost use Rattle.bib_edit.specs.declared.fault.EditFault.TheVariants.{Memory};
ghost use Rattle.bib_edit.specs.Planning.{IsAllowedEdit, ArePiecesOf, IsRefusal};
ghost use Rattle.bib_data.specs.declared.edit.Edit.TheVariants.{RenameMacro};

use crate::defining::{is_given, lone_definition, name_of};
use crate::fault::EditFault;
use crate::replacing::{is_result_too_long, push_replaced};
use bib_scan::{is_name, one_reading};
use bib_store::{Database, ItemList, Piece};
use bib_text::{Seq, same_folded};
use bib_tokens::{Sought, Token, is_met_before, push_from};
use std::alloc::Global;

/// The pieces that give the macro another name in its one definition and in each use from there on, its own definition
/// among them, or the first reason against it. A use before the definition means a month, or nothing, and is left. It
/// looks at each field at most once, and takes time and memory in the length of the items that it looks at.
pub(crate) fn rename_macro<L: ItemList>(
    alloc: Global,
    db: &Database<L>,
    from: &[u8],
    to: &[u8],
) -> Result<Seq<Piece>, EditFault>
    ensures pieces { IfOk result (ArePiecesOf db.now (RenameMacro from.now to.now)) }
    ensures allowed { OnOk result (IsAllowedEdit db.now (RenameMacro from.now to.now)) }
    ensures refused { IfErr result (IsRefusal db.now (RenameMacro from.now to.now)) }
{
    db.opens();
    one_reading();
    if !are_names(from, to) {
        return Err(EditFault::BadName);
    }
    let n = lone_definition(db, from)?;
    if is_taken_before(alloc, db, n, from, to)? {
        return Err(EditFault::NameInUse);
    }
    let names = names_from(alloc, db, n, from, to)?;
    if names.is_taken {
        return Err(EditFault::NameInUse);
    }
    if is_result_too_long(db, names.tokens.as_slice(), to, 0, 0) {
        return Err(EditFault::FileTooLong);
    }
    let mut pieces = Vec::new(alloc);
    push_replaced(alloc, &mut pieces, names.tokens.as_slice(), to)?;
    Ok(Seq::from_vec(pieces))
}

/// Whether both are valid names.
fn are_names(from: &[u8], to: &[u8]) -> bool
    ensures { result ≡ (is_name from.now && is_name to.now) }
{
    is_name(from) && is_name(to)
}

/// Whether the new name is a month's, or defined anywhere, or used before item `n`. A change of case alone is not a new
/// name.
fn is_taken_before<L: ItemList>(
    alloc: Global,
    db: &Database<L>,
    n: usize,
    from: &[u8],
    to: &[u8],
) -> Result<bool, EditFault>
    requires { IsItemGap db.now n }
    ensures taken { IfOk result (λ taken. OfReading db.now (λ r. taken ≡ is_taken_before n from.now to.now r.items)) }
    ensures only { IfErr result (λ fault. fault ≡ Memory) }
{
    if same_folded(to, from) {
        return Ok(false);
    }
    if is_given(db, to) {
        return Ok(true);
    }
    Ok(is_met_before(alloc, db, n, Sought::Uses(to))?)
}

/// The macro's name in its definition and in each use from there on, and whether the new name is used there.
#[derive(Drop)]
struct Names<'a> {
    tokens: Vec<Token<'a>>,
    is_taken: bool,
}

/// The macro's name in its definition, which is item `n`, and in each use from there on. It looks at each field at most
/// once.
fn names_from<'a, L: ItemList>(
    alloc: Global,
    db: &'a Database<L>,
    n: usize,
    from: &[u8],
    to: &[u8],
) -> Result<Names<'a>, EditFault>
    requires { IsDefinitionNumber db.now n }
    ensures tokens { IfOk result (λ names. OfReading db.now (λ r. (d : Definition) → IsDefinitionAt r.items n d → tokens_seen names.tokens.items ≡ name_token (start_of r n) d ∷ tokens_of (uses from.now) (items_placed (start_of r n) (drop n r.items)))) }
    ensures taken { IfOk result (λ names. OfReading db.now (λ r. names.is_taken ≡ is_taken_from n from.now to.now r.items)) }
    ensures only { IfErr result (λ fault. fault ≡ Memory) }
{
    let mut tokens = Vec::new(alloc);
    let Some(defined) = name_of(db, n) else {
        return Ok(Names {
            tokens,
            is_taken: false,
        });
    };
    tokens.push(defined)?;
    let (sought, watched) = (Sought::Uses(from), Sought::Uses(to));
    let met = push_from(alloc, &mut tokens, db, n, sought, watched)?;
    Ok(Names {
        tokens,
        is_taken: met && !same_folded(to, from),
    })
}

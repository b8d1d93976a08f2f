//! Gives fields another name.

ghost use Rattle.std.specs.Prelude.{◌≡◌, ◌≤◌, ◌<◌, ◌+◌, ◌^◌, ◌++◌, ◌&&◌, ◌||◌, [], ◌∷◌, Some, None, not, nat_lt, length, count_by, IfOk, IfErr, OnOk, false};
ghost use Rattle.std.specs.List.{list_any};
ghost use Rattle.bib_spec.specs.Text.{is_name, same};
ghost use Rattle.bib_spec.specs.Records.{crossref};
ghost use Rattle.bib_scan.specs.View.{field_seen};
ghost use Rattle.bib_scan.specs.Layout.{start_of};
ghost use Rattle.bib_store.specs.Readings.{OfReading, IsItemNumber};
ghost use Rattle.bib_tokens.specs.PlacedParts.{tokens_seen};
ghost use Rattle.bib_edit.specs.Addressing.{is_field};
ghost use Rattle.bib_edit.specs.FieldPieces.{OfItem};
ghost use Rattle.bib_edit.specs.Limits.{olds_len};
ghost use Rattle.bib_edit.specs.Replacing.{replaced};
ghost use Rattle.bib_edit.specs.RenamedFields.{has_either, fields_clash, item_clashes, own_fields, names_at, names_in, AreNamesPlaced, AreReplaceable, IsRenamingFault};
ghost use Rattle.bib_edit.specs.Numbers.{is_numbered};
ghost use Rattle.bib_edit.specs.Planning.{IsAllowedEdit, ArePiecesOf, IsRefusal};
ghost use Rattle.bib_data.specs.declared.edit.Edit.TheVariants.{RenameField};
ghost use Rattle.bib_edit.specs.declared.fault.EditFault.TheVariants.{Memory};

use crate::fault::EditFault;
use crate::replacing::{is_result_too_long, push_replaced};
use bib_scan::{FieldView, Fields, ItemView, Kind, is_name};
use bib_store::{Database, ItemList, Piece};
use bib_text::{Seq, same_folded};
use bib_tokens::Token;
use std::alloc::{AllocError, Global};

/// The pieces that give each field of the name `from` the name `to`, in every entry, or the first reason against it. It takes
/// time in the length of the file, and memory for the pieces.
pub(crate) fn rename_in_all<L: ItemList>(
    alloc: Global,
    db: &Database<L>,
    from: &[u8],
    to: &[u8],
) -> Result<Seq<Piece>, EditFault>
    ensures pieces { IfOk result (ArePiecesOf db.now (RenameField from.now to.now None)) }
    ensures allowed { OnOk result (IsAllowedEdit db.now (RenameField from.now to.now None)) }
    ensures refused { IfErr result (IsRefusal db.now (RenameField from.now to.now None)) }
{
    db.opens();
    if !are_renamable(from, to) {
        return Err(EditFault::BadName);
    }
    let found = found_in_all(alloc, db, from, to)?;
    renaming(alloc, db, found.names.as_slice(), found.clashes, to)
}

/// The pieces that give each field of the name `from` the name `to`, in the entry that the key names, or the first reason
/// against it. If several entries have the key, it looks at the first one: a missing field there is a reason that comes before
/// the repeated key. It takes time in the length of the entry, beside what finds it.
pub(crate) fn rename_in_entry<L: ItemList>(
    alloc: Global,
    db: &Database<L>,
    from: &[u8],
    to: &[u8],
    key: &[u8],
) -> Result<Seq<Piece>, EditFault>
    requires { is_numbered key.now ≡ false }
    ensures pieces { IfOk result (ArePiecesOf db.now (RenameField from.now to.now (Some key.now))) }
    ensures allowed { OnOk result (IsAllowedEdit db.now (RenameField from.now to.now (Some key.now))) }
    ensures refused { IfErr result (IsRefusal db.now (RenameField from.now to.now (Some key.now))) }
{
    db.opens();
    if !are_renamable(from, to) {
        return Err(EditFault::BadName);
    }
    let held = match db.holders_of(key) {
        Some(held) => held,
        None => return Err(EditFault::NotFound),
    };
    let n = db.entry_item(held.first);
    let found = found_in_item(alloc, db, n, from, to)?;
    let is_ambiguous = are_two(found.clashes, held.count);
    renaming(alloc, db, found.names.as_slice(), is_ambiguous, to)
}

/// Whether two are meant where the edit means one: the entry would have two fields of the new name, or several entries have the
/// key.
fn are_two(clashes: bool, holders: usize) -> bool
    ensures { result ≡ (clashes || nat_lt 1 holders) }
{
    clashes || holders > 1
}

/// Whether both are valid names, and neither is `crossref`.
pub(crate) fn are_renamable(from: &[u8], to: &[u8]) -> bool
    ensures { result ≡ ((not (same from.now crossref) && not (same to.now crossref)) && (is_name from.now && is_name to.now)) }
{
    are_no_crossrefs(from, to) && are_names(from, to)
}

/// Whether neither is `crossref`.
fn are_no_crossrefs(from: &[u8], to: &[u8]) -> bool
    ensures { result ≡ (not (same from.now crossref) && not (same to.now crossref)) }
{
    !same_folded(from, b"crossref") && !same_folded(to, b"crossref")
}

/// Whether both are valid names.
fn are_names(from: &[u8], to: &[u8]) -> bool
    ensures { result ≡ (is_name from.now && is_name to.now) }
{
    is_name(from) && is_name(to)
}

/// The names that get other bytes, each with its place, and whether an entry would then have two fields of the new name.
#[derive(Drop)]
pub(crate) struct Found<'a> {
    pub(crate) names: Vec<Token<'a>>,
    pub(crate) clashes: bool,
}

/// What is found in the file.
fn found_in_all<'a, L: ItemList>(
    alloc: Global,
    db: &'a Database<L>,
    from: &[u8],
    to: &[u8],
) -> Result<Found<'a>, EditFault>
    ensures names { IfOk result (λ found. OfReading db.now (λ r. tokens_seen found.names.items ≡ names_in (start_of r 0) from.now r.items)) }
    ensures clashes { IfOk result (λ found. OfReading db.now (λ r. found.clashes ≡ list_any (item_clashes from.now to.now) r.items)) }
    ensures only { IfErr result (λ fault. fault ≡ Memory) }
{
    db.opens();
    let mut names = Vec::new(alloc);
    let mut clashes = false;
    let mut at = db.item_place(0);
    'items: for n in 0..db.item_count() {
        let view = db.item(n);
        let here = push_in_item(&mut names, at, &view, from, to)?;
        clashes |= here;
        at += view.body().len() + view.trail().len();
    }
    Ok(Found { names, clashes })
}

/// What is found in item `n`.
pub(crate) fn found_in_item<'a, L: ItemList>(
    alloc: Global,
    db: &'a Database<L>,
    n: usize,
    from: &[u8],
    to: &[u8],
) -> Result<Found<'a>, EditFault>
    requires { IsItemNumber db.now n }
    ensures names { IfOk result (λ found. OfItem db.now n (λ start view. tokens_seen found.names.items ≡ names_at start from.now (own_fields view))) }
    ensures clashes { IfOk result (λ found. OfItem db.now n (λ start view. found.clashes ≡ fields_clash from.now to.now (own_fields view))) }
    ensures only { IfErr result (λ fault. fault ≡ Memory) }
{
    db.opens();
    let mut names = Vec::new(alloc);
    let start = db.item_place(n);
    let view = db.item(n);
    let clashes = push_in_item(&mut names, start, &view, from, to)?;
    Ok(Found { names, clashes })
}

/// Adds the names `from` of an entry's fields, and says whether the entry would then have two fields of the name `to`. Other
/// items have no such fields. The item begins at this place.
fn push_in_item<'a>(
    names: &mut Vec<Token<'a>>,
    start: usize,
    view: &ItemView<'a>,
    from: &[u8],
    to: &[u8],
) -> Result<bool, AllocError>
    requires { AreNamesPlaced start view.now.fields }
    ensures names { OnOk result (tokens_seen names.new.items ≡ tokens_seen names.old.items ++ names_at start from.now (own_fields view.now)) }
    ensures clashes { IfOk result (λ clashes. clashes ≡ fields_clash from.now to.now (own_fields view.now)) }
{
    if !has_own(view, from) {
        return Ok(false);
    }
    push_names(names, start, view.fields(), from)?;
    Ok(either_count(view, from, to) > 1)
}

/// Whether the item is an entry and has a field of this name.
fn has_own(view: &ItemView<'_>, name: &[u8]) -> bool
    ensures { result ≡ list_any (is_field name.now) (own_fields view.now) }
{
    match view.kind() {
        Kind::Entry => view.fields().any(|f| same_folded(f.name, name)),
        Kind::Macro | Kind::Preamble | Kind::Comment => false,
    }
}

/// Whether the field has one of the two names.
fn has_either(field: FieldView<'_>, from: &[u8], to: &[u8]) -> bool
    ensures { result ≡ has_either from.now to.now (field_seen field.entry) }
{
    same_folded(field.name, from) || same_folded(field.name, to)
}

/// How many of the fields have one of the two names.
fn either_count(view: &ItemView<'_>, from: &[u8], to: &[u8]) -> usize
    ensures { result ≡ count_by (has_either from.now to.now) view.now.fields }
{
    view.fields().filter(|f| has_either(*f, from, to)).count()
}

/// Adds the names `from` of these fields. Their item begins at this place.
fn push_names<'a>(
    names: &mut Vec<Token<'a>>,
    start: usize,
    fields: Fields<'a>,
    from: &[u8],
) -> Result<(), AllocError>
    requires { AreNamesPlaced start fields }
    ensures { OnOk result (tokens_seen names.new.items ≡ tokens_seen names.old.items ++ names_at start from.now fields.entry) }
{
    let mut rest = fields;
    'fields: while let Some(field) = rest.next() {
        push_name(names, start, field, from)?;
    }
    Ok(())
}

/// Adds the name of the field if it is `from`. The field's item begins at this place.
fn push_name<'a>(
    names: &mut Vec<Token<'a>>,
    start: usize,
    field: FieldView<'a>,
    from: &[u8],
) -> Result<(), AllocError>
    requires { start + field.name_at < 2 ^ 64 }
    ensures { OnOk result (tokens_seen names.new.items ≡ tokens_seen names.old.items ++ names_at start from.now (field_seen field.entry ∷ [])) }
{
    if !same_folded(field.name, from) {
        return Ok(());
    }
    names.push(Token {
        place: start + field.name_at,
        bytes: field.name,
    })?;
    Ok(())
}

/// The pieces that put the new name in the place of each of these, or the first reason against it: there are none of these, the
/// edit is ambiguous, or the file would be too long.
pub(crate) fn renaming<L: ItemList>(
    alloc: Global,
    db: &Database<L>,
    names: &[Token<'_>],
    is_ambiguous: bool,
    to: &[u8],
) -> Result<Seq<Piece>, EditFault>
    requires { olds_len (replaced to.now (tokens_seen names.now)) ≤ length db.now }
    ensures pieces { IfOk result (λ pieces. pieces ≡ replaced to.now (tokens_seen names.now)) }
    ensures allowed { OnOk result (AreReplaceable db.now to.now (tokens_seen names.now) is_ambiguous) }
    ensures refused { IfErr result (IsRenamingFault db.now to.now (tokens_seen names.now) is_ambiguous) }
{
    if names.is_empty() {
        return Err(EditFault::NotFound);
    }
    if is_ambiguous {
        return Err(EditFault::Ambiguous);
    }
    if is_result_too_long(db, names, to, 0, 0) {
        return Err(EditFault::FileTooLong);
    }
    let mut pieces = Vec::new(alloc);
    push_replaced(alloc, &mut pieces, names, to)?;
    Ok(Seq::from_vec(pieces))
}

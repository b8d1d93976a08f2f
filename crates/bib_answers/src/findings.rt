//! What is found in one item.

ghost use Rattle.std.specs.Prelude.{◌≡◌, ◌+◌, ◌∷◌, ℕ, true, List, [], if◌then◌else◌, OnOk};
ghost use Rattle.std.specs.Option.{option_copied};
ghost use Rattle.std.specs.Str.{is_utf8};
ghost use Rattle.bib_spec.specs.Bytes.{name_limit};
ghost use Rattle.bib_spec.specs.Text.{Text};
ghost use Rattle.bib_spec.specs.Reading.{Item, IsValueWithin};
ghost use Rattle.bib_spec.specs.Records.{entries_of, target};
ghost use Rattle.bib_spec.specs.Tree.{IsTree, Macro};
ghost use Rattle.bib_scan.specs.PartView.{part_view};
ghost use Rattle.bib_scan.specs.ValueParts.{IsPartsOf};
ghost use Rattle.bib_scan.specs.View.{field_seen, view_of};
ghost use Rattle.bib_value.specs.Raw.{OfValue};
ghost use Rattle.bib_store.specs.Readings.{OfReading, IsItemNumber, IsEntryNumber};
ghost use Rattle.bib_answers.specs.Check.{Assigned, defined_in, entries_before};
ghost use Rattle.bib_answers.specs.Fields.{Views, IsKeyOf, AreFieldsOf, AreSound};
ghost use Rattle.bib_answers.specs.Lint.{use_findings, value_findings, name_findings, entry_field_findings, is_defined_before, redefines, definition_findings, first_findings, field_findings, grandparent, order_findings, nested_findings, target_findings, has_empty_parents, empty_findings, crossref_findings, crossrefs_of, repeated_findings, unusual_findings, encoding_findings, found, key_findings, findings_in_body, trail_findings, findings_on};
ghost use Rattle.bib_answers.specs.FindingLines.{with_findings};
ghost use Rattle.bib_answers.specs.Plain.{IsPlain, ArePlain, IsPlainHead};
ghost use Rattle.bib_answers.specs.Recurring.{AreTold};
ghost use Rattle.bib_answers.specs.Seen.{HaveSeen};

use crate::finding_lines::FindingLines;
use crate::gap_findings::add_gap_findings;
use crate::kinds::is_same_kind;
use crate::numbered::NumberedItem;
use crate::reporting::{defined_in, is_own, is_repeated};
use crate::seen_names::SeenNames;
use crate::text_findings::{add_own_findings, is_ascii, is_utf8};
use crate::warnings::Warning;
use bib_scan::{FieldView, ItemView, Kind, Part, Parts, is_key, only_part, read_value};
use bib_store::{Database, Paged};
use bib_text::same_folded;
use bib_value::MacroTable;
use std::alloc::{AllocError, Global};

/// Adds the findings on this item, in its body and in its trail, to lines that were begun at the item's place. It takes time in
/// the item's length. `names` lends its memory for the names of the fields.
pub fn add_item_findings<'a>(
    alloc: Global,
    lines: &mut FindingLines<'_>,
    db: &Database<Paged>,
    it: NumberedItem<'_, 'a>,
    empty_parents: bool,
    names: &mut SeenNames<'a>,
) -> Result<(), AllocError>
    requires item { IsItemNumber db.now it.n }
    requires parents { OfReading db.now (λ r. empty_parents ≡ has_empty_parents (entries_of r)) }
    requires seen { OfReading db.now (λ r. Views r it.n it.view.now) }
    requires entries { OfReading db.now (λ r. it.entries ≡ entries_before r it.n) }
    ensures { OnOk result (OfReading db.now (λ r. lines.new ≡ with_findings lines.old (findings_on r it.entry.n))) }
{
    add_body_findings(alloc, lines, db, it, empty_parents, names)?;
    add_trail_findings(lines, it.view)
}

/// Adds the findings in the body of this item.
fn add_body_findings<'a>(
    alloc: Global,
    lines: &mut FindingLines<'_>,
    db: &Database<Paged>,
    it: NumberedItem<'_, 'a>,
    empty_parents: bool,
    names: &mut SeenNames<'a>,
) -> Result<(), AllocError>
    requires item { IsItemNumber db.now it.n }
    requires parents { OfReading db.now (λ r. empty_parents ≡ has_empty_parents (entries_of r)) }
    requires seen { OfReading db.now (λ r. Views r it.n it.view.now) }
    requires entries { OfReading db.now (λ r. it.entries ≡ entries_before r it.n) }
    ensures { OnOk result (OfReading db.now (λ r. lines.new ≡ with_findings lines.old (findings_in_body r it.entry.n))) }
{
    db.opens();
    let item = it.view;
    let entries = it.entries;
    let macros = db.macros_at(it.n);
    if !is_same_kind(item.kind(), Kind::Entry) {
        let it = WithFacts {
            view: item,
            redefines: redefines(db, it.n, item),
            crossref: Crossref::none(),
            ascii: false,
        };
        return add_field_findings(alloc, lines, &macros, it, names);
    }
    let ascii = is_ascii(item.body());
    let repeated = is_repeated(db, entries, item.key());
    add_key_findings(lines, item, repeated, ascii)?;
    let it = WithFacts {
        view: item,
        redefines: false,
        crossref: crossref_of(db, entries, item.key(), empty_parents),
        ascii,
    };
    add_field_findings(alloc, lines, &macros, it, names)
}

// ---- definitions

/// Whether item `n`, which is seen so, defines a macro that an earlier item defines.
fn redefines(db: &Database<Paged>, n: usize, item: &ItemView<'_>) -> bool
    ensures { OfReading db.now (λ r. (seen : Item) → IsTree name_limit seen.tree → item.now ≡ view_of seen → result ≡ redefines r.items n seen.tree) }
{
    if !is_same_kind(item.kind(), Kind::Macro) {
        return false;
    }
    match item.fields().next() {
        Some(field) => is_defined_before(db, n, field.name),
        None => false,
    }
}

/// Whether one of the items before item `n` defines the macro.
fn is_defined_before(db: &Database<Paged>, n: usize, name: &[u8]) -> bool
    ensures { OfReading db.now (λ r. result ≡ is_defined_before r.items n name.now) }
{
    match db.first_definition(name) {
        Some(first) => first < n,
        None => false,
    }
}

// ---- trails

/// Adds the findings in the trail of this item.
fn add_trail_findings(lines: &mut FindingLines<'_>, item: &ItemView<'_>) -> Result<(), AllocError>
    ensures { OnOk result ((seen : Item) → item.now ≡ view_of seen → lines.new ≡ with_findings lines.old (trail_findings seen)) }
{
    let is_comment = is_same_kind(item.kind(), Kind::Comment);
    add_gap_findings(lines, is_comment, item.body().len(), item.trail())
}

// ---- keys

/// Adds what is found in the key and the type of this entry: an earlier entry has the key, no edit could write it, and one of the
/// two is not UTF-8. If the entry is known to be ASCII, the two are not read for that.
fn add_key_findings(
    lines: &mut FindingLines<'_>,
    entry: &ItemView<'_>,
    repeated: bool,
    ascii: bool,
) -> Result<(), AllocError>
    requires { ascii ≡ true → IsPlainHead entry.now }
    ensures { OnOk result (lines.new ≡ with_findings lines.old (key_findings entry.now.key_at entry.now.type_name repeated entry.now.key)) }
{
    let at = entry.key_at();
    add_repeated(lines, at, repeated, entry.key())?;
    add_unusual(lines, at, entry.key())?;
    add_encoding(lines, entry, ascii)
}

/// Adds that the type or the key of this entry is not UTF-8.
fn add_encoding(
    lines: &mut FindingLines<'_>,
    entry: &ItemView<'_>,
    ascii: bool,
) -> Result<(), AllocError>
    requires { ascii ≡ true → IsPlainHead entry.now }
    ensures { OnOk result (lines.new ≡ with_findings lines.old (encoding_findings entry.now.key_at entry.now.type_name entry.now.key)) }
{
    if ascii {
        return Ok(());
    }
    let at = entry.key_at();
    add_not_utf8(lines, Warning::TypeNotUtf8, at, entry.type_name())?;
    add_not_utf8(lines, Warning::KeyNotUtf8, at, entry.key())
}

/// Adds a finding of this kind if the bytes are not UTF-8.
fn add_not_utf8(
    lines: &mut FindingLines<'_>,
    kind: Warning,
    at: usize,
    bytes: &[u8],
) -> Result<(), AllocError>
    ensures { OnOk result (lines.new ≡ with_findings lines.old (if is_utf8 bytes.now then [] else found kind at bytes.now)) }
{
    if is_utf8(bytes) {
        return Ok(());
    }
    lines.add(kind, at, bytes)
}

fn add_repeated(
    lines: &mut FindingLines<'_>,
    at: usize,
    repeated: bool,
    key: &[u8],
) -> Result<(), AllocError>
    ensures { OnOk result (lines.new ≡ with_findings lines.old (repeated_findings at repeated key.now)) }
{
    if repeated {
        return lines.add(Warning::RepeatedKey, at, key);
    }
    Ok(())
}

fn add_unusual(lines: &mut FindingLines<'_>, at: usize, key: &[u8]) -> Result<(), AllocError>
    ensures { OnOk result (lines.new ≡ with_findings lines.old (unusual_findings at key.now)) }
{
    if key.is_empty() {
        return lines.add(Warning::NoKey, at, key);
    }
    if is_key(key) {
        return Ok(());
    }
    lines.add(Warning::OddKey, at, key)
}

// ---- crossrefs

/// The crossref of entry `n`: its text, its target, and the parent of the target; the entry's key, and whether BibTeX finds a
/// parent for an empty crossref.
#[derive(Clone, Copy)]
pub struct Crossref<'a> {
    empty_parents: bool,
    key: &'a [u8],
    n: usize,
    text: Option<&'a [u8]>,
    target: Option<usize>,
    grandparent: Option<usize>,
}

impl<'a> Crossref<'a> {
    ghost use Rattle.std.specs.Prelude.{◌≡◌, None};

    /// No crossref, of an item that is no entry.
    fn none() -> Self
        ensures { result.text ≡ None }
    {
        Crossref {
            empty_parents: false,
            key: b"",
            n: 0,
            text: None,
            target: None,
            grandparent: None,
        }
    }
}

/// The crossref of entry `n`, which has this key. Most entries have none, and for them no entry is sought.
fn crossref_of<'a>(
    db: &'a Database<Paged>,
    n: usize,
    key: &'a [u8],
    empty_parents: bool,
) -> Crossref<'a>
    requires number { IsEntryNumber db.now n }
    requires key { OfReading db.now (λ r. IsKeyOf r n key.now) }
    requires parents { OfReading db.now (λ r. empty_parents ≡ has_empty_parents (entries_of r)) }
    ensures { OfReading db.now (λ r. (at : ℕ) → crossref_findings result.empty_parents result.key.now result.n (option_copied result.text) result.target result.grandparent at ≡ crossrefs_of (entries_of r) n at) }
{
    let Some(text) = db.crossref_text(n) else {
        return Crossref::none();
    };
    let target = db.target(n);
    Crossref {
        empty_parents,
        key,
        n,
        text: Some(text),
        target,
        grandparent: grandparent(db, n, target),
    }
}

/// The parent of the parent of entry `n`, which has this target, unless it is entry `n` itself.
fn grandparent(db: &Database<Paged>, n: usize, found: Option<usize>) -> Option<usize>
    requires { OfReading db.now (λ r. found ≡ target (entries_of r) n) }
    ensures { OfReading db.now (λ r. result ≡ grandparent (entries_of r) n) }
{
    let parent = found?;
    if parent == n {
        return None;
    }
    let grandparent = db.parent(parent)?;
    if grandparent == n {
        return None;
    }
    Some(grandparent)
}

/// Adds what is wrong with a crossref whose value is at this place.
fn add_crossref(
    lines: &mut FindingLines<'_>,
    at: usize,
    crossref: Crossref<'_>,
) -> Result<(), AllocError>
    ensures { OnOk result (lines.new ≡ with_findings lines.old (crossref_findings crossref.entry.empty_parents crossref.entry.key.now crossref.entry.n (option_copied crossref.entry.text) crossref.entry.target crossref.entry.grandparent at)) }
{
    match crossref.text {
        None => Ok(()),
        Some([]) => add_empty(lines, at, crossref),
        Some(text) => add_target(lines, at, crossref, text),
    }
}

/// Adds that the crossref is empty and that an entry has no key, if that is so.
fn add_empty(
    lines: &mut FindingLines<'_>,
    at: usize,
    crossref: Crossref<'_>,
) -> Result<(), AllocError>
    ensures { OnOk result (lines.new ≡ with_findings lines.old (empty_findings crossref.entry.empty_parents crossref.entry.key.now at)) }
{
    if crossref.empty_parents {
        return lines.add(Warning::EmptyCrossref, at, crossref.key);
    }
    Ok(())
}

fn add_target(
    lines: &mut FindingLines<'_>,
    at: usize,
    crossref: Crossref<'_>,
    text: &[u8],
) -> Result<(), AllocError>
    ensures { OnOk result (lines.new ≡ with_findings lines.old (target_findings at crossref.entry.n text.now crossref.entry.target crossref.entry.grandparent)) }
{
    match crossref.target {
        None => lines.add(Warning::MissingParent, at, text),
        Some(m) if m == crossref.n => lines.add(Warning::OwnParent, at, text),
        Some(m) => {
            add_order(lines, at, crossref.n, text, m)?;
            add_nested(lines, at, text, crossref.grandparent)
        }
    }
}

fn add_order(
    lines: &mut FindingLines<'_>,
    at: usize,
    n: usize,
    text: &[u8],
    m: usize,
) -> Result<(), AllocError>
    ensures { OnOk result (lines.new ≡ with_findings lines.old (order_findings at n text.now m)) }
{
    if m < n {
        return lines.add(Warning::EarlyParent, at, text);
    }
    Ok(())
}

fn add_nested(
    lines: &mut FindingLines<'_>,
    at: usize,
    text: &[u8],
    grandparent: Option<usize>,
) -> Result<(), AllocError>
    ensures { OnOk result (lines.new ≡ with_findings lines.old (nested_findings at text.now grandparent)) }
{
    match grandparent {
        None => Ok(()),
        Some(_) => lines.add(Warning::NestedParent, at, text),
    }
}

// ---- fields

/// What is seen of an item, whether it defines a macro again, and its crossref if it is an entry; and whether it is known to be
/// ASCII, so that its fields are not read for that.
#[derive(Clone, Copy)]
pub struct WithFacts<'v, 'a, 'c> {
    view: &'v ItemView<'a>,
    redefines: bool,
    crossref: Crossref<'c>,
    ascii: bool,
}

/// Adds what is found in an item's fields: for each field, that an earlier one has its name, or else what is found in the first
/// field of its name; and the macros that are used wrongly.
fn add_field_findings<'a, M: MacroTable>(
    alloc: Global,
    lines: &mut FindingLines<'_>,
    macros: &M,
    it: WithFacts<'_, 'a, '_>,
    earlier: &mut SeenNames<'a>,
) -> Result<(), AllocError>
    requires sound { AreSound it.view.now.fields }
    requires plain { it.ascii ≡ true → ArePlain it.view.now.fields }
    ensures { OnOk result ((values : List Assigned) → AreFieldsOf values it.entry.view.now.fields
        → lines.new ≡ with_findings lines.old (field_findings (defined_in it.entry.view.now.kind) (M.macros macros.now)
        (first_findings it.entry.view.now.kind (M.macros macros.now) it.entry.redefines (crossref_findings it.entry.crossref.empty_parents it.entry.crossref.key.now it.entry.crossref.n (option_copied it.entry.crossref.text) it.entry.crossref.target it.entry.crossref.grandparent)) [] it.entry.view.now.fields values)) }
{
    let item = it.view;
    earlier.clear();
    let mut fields = item.fields();
    'fields: while let Some(field) = fields.next() {
        earlier.fill_filter(item)?;
        add_name(alloc, lines, macros, earlier, field, it)?;
        let value = PlacedValue {
            at: field.value_at,
            own: defined_in(item.kind(), field.name),
            bytes: field.value,
        };
        add_uses(alloc, lines, macros, value)?;
        earlier.add(field.name)?;
    }
    Ok(())
}

/// Adds that an earlier field has this name; or else what is found in the first field of this name.
fn add_name<M: MacroTable>(
    alloc: Global,
    lines: &mut FindingLines<'_>,
    macros: &M,
    earlier: &SeenNames<'_>,
    field: FieldView<'_>,
    it: WithFacts<'_, '_, '_>,
) -> Result<(), AllocError>
    requires value { IsValueWithin name_limit field.value.now }
    requires plain { it.ascii ≡ true → IsPlain (field_seen field) }
    ensures { OnOk result ((names rest : List Text) → HaveSeen earlier.now names → AreTold earlier.now.filter names (field.entry.name.now ∷ rest)
        → OfValue field.entry.value.now (λ v. lines.new ≡ with_findings lines.old (name_findings (first_findings it.entry.view.now.kind (M.macros macros.now) it.entry.redefines (crossref_findings it.entry.crossref.empty_parents it.entry.crossref.key.now it.entry.crossref.n (option_copied it.entry.crossref.text) it.entry.crossref.target it.entry.crossref.grandparent)) names (field_seen field.entry) v))) }
{
    if earlier.has(field.name) {
        return lines.add(Warning::RepeatedField, field.name_at, field.name);
    }
    add_first(alloc, lines, macros, field, it)
}

/// Adds what is found in the first field of a name.
fn add_first<M: MacroTable>(
    alloc: Global,
    lines: &mut FindingLines<'_>,
    macros: &M,
    field: FieldView<'_>,
    it: WithFacts<'_, '_, '_>,
) -> Result<(), AllocError>
    requires value { IsValueWithin name_limit field.value.now }
    requires plain { it.ascii ≡ true → IsPlain (field_seen field) }
    ensures { OnOk result (OfValue field.entry.value.now (λ v. lines.new ≡ with_findings lines.old (first_findings it.entry.view.now.kind (M.macros macros.now) it.entry.redefines (crossref_findings it.entry.crossref.empty_parents it.entry.crossref.key.now it.entry.crossref.n (option_copied it.entry.crossref.text) it.entry.crossref.target it.entry.crossref.grandparent) (field_seen field.entry) v))) }
{
    match it.view.kind() {
        Kind::Entry => add_entry_field(alloc, lines, macros, field, it.crossref, it.ascii),
        Kind::Macro => add_definition(lines, field, it.redefines),
        Kind::Preamble | Kind::Comment => Ok(()),
    }
}

/// Adds what is found in the first field of a name of an entry that has this crossref. If the entry is known to be ASCII, the
/// field is not read for that.
fn add_entry_field<M: MacroTable>(
    alloc: Global,
    lines: &mut FindingLines<'_>,
    macros: &M,
    field: FieldView<'_>,
    crossref: Crossref<'_>,
    ascii: bool,
) -> Result<(), AllocError>
    requires value { IsValueWithin name_limit field.value.now }
    requires plain { ascii ≡ true → IsPlain (field_seen field) }
    ensures { OnOk result (OfValue field.entry.value.now (λ v. lines.new ≡ with_findings lines.old (entry_field_findings (M.macros macros.now) (crossref_findings crossref.entry.empty_parents crossref.entry.key.now crossref.entry.n (option_copied crossref.entry.text) crossref.entry.target crossref.entry.grandparent) (field_seen field.entry) v))) }
{
    if same_folded(field.name, b"crossref") {
        return add_crossref(lines, field.value_at, crossref);
    }
    add_own_findings(alloc, lines, macros, field, ascii)
}

/// Adds that the field of a definition defines a macro again, if it does.
fn add_definition(
    lines: &mut FindingLines<'_>,
    field: FieldView<'_>,
    redefines: bool,
) -> Result<(), AllocError>
    ensures { OnOk result (lines.new ≡ with_findings lines.old (definition_findings redefines (field_seen field.entry))) }
{
    if redefines {
        return lines.add(Warning::RepeatedMacro, field.name_at, field.name);
    }
    Ok(())
}

// ---- uses

/// A value: its place in its item, the name of the macro that it defines, if it defines one, and its bytes.
#[derive(Clone, Copy)]
struct PlacedValue<'a> {
    at: usize,
    own: Option<&'a [u8]>,
    bytes: &'a [u8],
}

/// Adds the macros that are used wrongly in a value. Most values have one part, and are not taken apart.
fn add_uses<M: MacroTable>(
    alloc: Global,
    lines: &mut FindingLines<'_>,
    macros: &M,
    value: PlacedValue<'_>,
) -> Result<(), AllocError>
    requires { IsValueWithin name_limit value.bytes.now }
    ensures { OnOk result (OfValue value.entry.bytes.now (λ v. lines.new ≡ with_findings lines.old (value_findings (option_copied value.entry.own) (M.macros macros.now) value.entry.at v))) }
{
    if let Some(part) = only_part(value.bytes) {
        return add_use(lines, macros, value, 0, part);
    }
    add_each_use(alloc, lines, macros, value)
}

/// The same, of a value that is taken apart.
fn add_each_use<M: MacroTable>(
    alloc: Global,
    lines: &mut FindingLines<'_>,
    macros: &M,
    value: PlacedValue<'_>,
) -> Result<(), AllocError>
    requires { IsValueWithin name_limit value.bytes.now }
    ensures { OnOk result (OfValue value.entry.bytes.now (λ v. lines.new ≡ with_findings lines.old (value_findings (option_copied value.entry.own) (M.macros macros.now) value.entry.at v))) }
{
    match read_value(alloc, value.bytes) {
        Ok(parts) => add_part_uses(lines, macros, value, &parts),
        Err(fault) if fault.is_memory() => Err(AllocError),
        Err(_) => unreachable!(),
    }
}

/// The same, of a value whose parts these are.
fn add_part_uses<M: MacroTable>(
    lines: &mut FindingLines<'_>,
    macros: &M,
    value: PlacedValue<'_>,
    parts: &Parts,
) -> Result<(), AllocError>
    requires { IsPartsOf value.bytes.now parts.now }
    ensures { OnOk result (OfValue value.entry.bytes.now (λ v. lines.new ≡ with_findings lines.old (value_findings (option_copied value.entry.own) (M.macros macros.now) value.entry.at v))) }
{
    'uses: for n in 0..parts.len() {
        add_use(
            lines,
            macros,
            value,
            parts.place(n),
            parts.part(value.bytes, n),
        )?;
    }
    Ok(())
}

/// Adds a wrong use of a macro in a part `more` bytes after the value's place. Most parts are no names, and call nothing.
#[inline(always)]
fn add_use<M: MacroTable>(
    lines: &mut FindingLines<'_>,
    macros: &M,
    value: PlacedValue<'_>,
    more: usize,
    part: Part<'_>,
) -> Result<(), AllocError>
    ensures { OnOk result (lines.new ≡ with_findings lines.old (use_findings (option_copied value.entry.own) (M.macros macros.now) (value.entry.at + more) (part_view part.entry))) }
{
    let Part::Macro(name) = part else {
        return Ok(());
    };
    add_macro_use(lines, macros, value, more, name)
}

/// Adds a wrong use of the macro with this name, `more` bytes after the value's place.
fn add_macro_use<M: MacroTable>(
    lines: &mut FindingLines<'_>,
    macros: &M,
    value: PlacedValue<'_>,
    more: usize,
    name: &[u8],
) -> Result<(), AllocError>
    ensures { OnOk result (lines.new ≡ with_findings lines.old (use_findings (option_copied value.entry.own) (M.macros macros.now) (value.entry.at + more) (Macro name.entry.now))) }
{
    if is_own(name, value.own) {
        return lines.add_after(Warning::OwnMacro, value.at, more, name);
    }
    if macros.text_of(name).is_none() {
        return lines.add_after(Warning::UndefinedMacro, value.at, more, name);
    }
    Ok(())
}

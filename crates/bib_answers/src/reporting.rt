//! What is wrong with one item, a line each.

ghost use Rattle.std.specs.Prelude.{◌≡◌, ◌++◌, ◌∷◌, List, [], OnOk};
ghost use Rattle.std.specs.Option.{option_copied};
ghost use Rattle.bib_spec.specs.Bytes.{name_limit};
ghost use Rattle.bib_spec.specs.Text.{Text, folded};
ghost use Rattle.bib_spec.specs.Reading.{IsValueWithin};
ghost use Rattle.bib_spec.specs.Records.{entries_of, is_repeated};
ghost use Rattle.bib_spec.specs.Tree.{Macro};
ghost use Rattle.bib_scan.specs.PartView.{part_view};
ghost use Rattle.bib_scan.specs.ValueParts.{IsPartsOf};
ghost use Rattle.bib_value.specs.Macros.{is_own};
ghost use Rattle.bib_value.specs.Raw.{OfValue};
ghost use Rattle.bib_store.specs.Readings.{OfReading, IsItemNumber};
ghost use Rattle.bib_answers.specs.Check.{Assigned, report, report_both, use_report, use_reports, defined_in, extra_report, field_reports, repeated_report, target_report, crossref_report, entries_before, reports_on};
ghost use Rattle.bib_answers.specs.Fields.{Views, IsKeyOf, AreFieldsOf, AreSound};
ghost use Rattle.bib_answers.specs.Recurring.{AreTold};
ghost use Rattle.bib_answers.specs.Seen.{HaveSeen};

use crate::kinds::is_same_kind;
use crate::lines::add_all;
use crate::numbered::NumberedItem;
use crate::seen_names::SeenNames;
use bib_scan::{ItemView, Kind, Part, Parts, only_part, read_value};
use bib_store::{Database, Paged};
use bib_text::same_folded;
use bib_value::MacroTable;
use std::alloc::{AllocError, Global};

/// Adds the reports on this item. It takes time in the item's length. `names` lends its memory for the names of the fields.
pub fn add_item_reports<'a>(
    alloc: Global,
    out: &mut Vec<u8>,
    db: &Database<Paged>,
    it: NumberedItem<'_, 'a>,
    names: &mut SeenNames<'a>,
) -> Result<(), AllocError>
    requires item { IsItemNumber db.now it.n }
    requires seen { OfReading db.now (λ r. Views r it.n it.view.now) }
    requires entries { OfReading db.now (λ r. it.entries ≡ entries_before r it.n) }
    ensures { OnOk result (OfReading db.now (λ r. out.new.items ≡ out.old.items ++ reports_on r it.entry.n)) }
{
    db.opens();
    let item = it.view;
    let entries = it.entries;
    let macros = db.macros_at(it.n);
    if !is_same_kind(item.kind(), Kind::Entry) {
        add_field_reports(alloc, out, item, &macros, names)?;
        return Ok(());
    }
    add_repeated(out, is_repeated(db, entries, item.key()), item.key())?;
    add_field_reports(alloc, out, item, &macros, names)?;
    add_crossref(
        out,
        item.key(),
        entries,
        db.crossref_text(entries),
        db.target(entries),
    )?;
    Ok(())
}

// ---- fields

/// Adds the reports on an item's fields: for each field, that an earlier one has its name, and on the macros that it uses.
fn add_field_reports<'a, M: MacroTable>(
    alloc: Global,
    out: &mut Vec<u8>,
    item: &ItemView<'a>,
    macros: &M,
    earlier: &mut SeenNames<'a>,
) -> Result<(), AllocError>
    requires { AreSound item.now.fields }
    ensures { OnOk result ((values : List Assigned) → AreFieldsOf values item.now.fields
        → out.new.items ≡ out.old.items ++ field_reports (defined_in item.now.kind) (M.macros macros.now) item.now.key [] values) }
{
    earlier.clear();
    let mut fields = item.fields();
    'fields: while let Some(field) = fields.next() {
        earlier.fill_filter(item)?;
        add_extra(out, earlier, item.key(), field.name)?;
        add_uses(
            alloc,
            out,
            macros,
            defined_in(item.kind(), field.name),
            field.value,
        )?;
        earlier.add(field.name)?;
    }
    Ok(())
}

/// The macro that a field of this name defines, in an item of this kind.
pub(crate) fn defined_in(kind: Kind, name: &[u8]) -> Option<&[u8]>
    ensures { option_copied result ≡ defined_in kind name.now }
{
    match kind {
        Kind::Macro => Some(name),
        Kind::Entry | Kind::Preamble | Kind::Comment => None,
    }
}

/// Adds a report if an earlier field has this name.
fn add_extra(
    out: &mut Vec<u8>,
    earlier: &SeenNames<'_>,
    key: &[u8],
    name: &[u8],
) -> Result<(), AllocError>
    ensures { OnOk result ((names rest : List Text) → HaveSeen earlier.now names → AreTold earlier.now.filter names (name.now ∷ rest) → out.new.items ≡ out.old.items ++ extra_report key.now names name.now) }
{
    if earlier.has(name) {
        return add_report_both(out, b"extra field", key, name);
    }
    Ok(())
}

// ---- uses

/// Adds the reports on the macros that a value uses. Most values have one part and are not taken apart, so that only reports
/// take memory.
fn add_uses<M: MacroTable>(
    alloc: Global,
    out: &mut Vec<u8>,
    macros: &M,
    own: Option<&[u8]>,
    value: &[u8],
) -> Result<(), AllocError>
    requires { IsValueWithin name_limit value.now }
    ensures { OnOk result (OfValue value.now (λ v. out.new.items ≡ out.old.items ++ use_reports (option_copied own.entry) (M.macros macros.now) v)) }
{
    if let Some(part) = only_part(value) {
        add_use(out, part, macros, own)?;
        return Ok(());
    }
    add_each_use(alloc, out, macros, own, value)
}

/// The same, of a value that is taken apart.
fn add_each_use<M: MacroTable>(
    alloc: Global,
    out: &mut Vec<u8>,
    macros: &M,
    own: Option<&[u8]>,
    value: &[u8],
) -> Result<(), AllocError>
    requires { IsValueWithin name_limit value.now }
    ensures { OnOk result (OfValue value.now (λ v. out.new.items ≡ out.old.items ++ use_reports (option_copied own.entry) (M.macros macros.now) v)) }
{
    match read_value(alloc, value) {
        Ok(parts) => add_part_uses(out, macros, own, value, &parts),
        Err(fault) if fault.is_memory() => Err(AllocError),
        Err(_) => unreachable!(),
    }
}

/// The same, of a value whose parts these are.
fn add_part_uses<M: MacroTable>(
    out: &mut Vec<u8>,
    macros: &M,
    own: Option<&[u8]>,
    value: &[u8],
    parts: &Parts,
) -> Result<(), AllocError>
    requires { IsPartsOf value.now parts.now }
    ensures { OnOk result (OfValue value.now (λ v. out.new.items ≡ out.old.items ++ use_reports (option_copied own.entry) (M.macros macros.now) v)) }
{
    'uses: for n in 0..parts.len() {
        add_use(out, parts.part(value, n), macros, own)?;
    }
    Ok(())
}

/// Adds the report on a part. Most parts are no names, and call nothing.
#[inline(always)]
fn add_use<M: MacroTable>(
    out: &mut Vec<u8>,
    part: Part<'_>,
    macros: &M,
    own: Option<&[u8]>,
) -> Result<(), AllocError>
    ensures { OnOk result (out.new.items ≡ out.old.items ++ use_report (option_copied own.entry) (M.macros macros.now) (part_view part.entry)) }
{
    let Part::Macro(name) = part else {
        return Ok(());
    };
    add_macro_use(out, name, macros, own)
}

/// Adds the report on a part that is this name.
fn add_macro_use<M: MacroTable>(
    out: &mut Vec<u8>,
    name: &[u8],
    macros: &M,
    own: Option<&[u8]>,
) -> Result<(), AllocError>
    ensures { OnOk result (out.new.items ≡ out.old.items ++ use_report (option_copied own.entry) (M.macros macros.now) (Macro name.entry.now)) }
{
    if is_own(name, own) {
        return add_report(out, b"own macro", name);
    }
    if macros.text_of(name).is_none() {
        return add_report(out, b"undefined macro", name);
    }
    Ok(())
}

/// Whether this is the name of the macro that is being defined.
pub(crate) fn is_own(name: &[u8], own: Option<&[u8]>) -> bool
    ensures { result ≡ is_own (option_copied own.entry) (folded name.now) }
{
    match own {
        Some(own) => same_folded(name, own),
        None => false,
    }
}

// ---- entries

/// Whether an entry before entry `number`, whose key this is, has the same key, folded. The caller has the key, so that the entry
/// is not looked up again.
pub(crate) fn is_repeated(db: &Database<Paged>, number: usize, key: &[u8]) -> bool
    requires { OfReading db.now (λ r. IsKeyOf r number key.now) }
    ensures { OfReading db.now (λ r. result ≡ is_repeated (entries_of r) number) }
{
    if db.are_keys_apart() {
        return false;
    }
    match db.find(key) {
        Ok(first) => first < number,
        Err(_) => false,
    }
}

fn add_repeated(out: &mut Vec<u8>, repeated: bool, key: &[u8]) -> Result<(), AllocError>
    ensures { OnOk result (out.new.items ≡ out.old.items ++ repeated_report repeated key.now) }
{
    if repeated {
        return add_report(out, b"repeated entry", key);
    }
    Ok(())
}

/// Adds the report on the crossref of entry `n`, which has this text and this target.
fn add_crossref(
    out: &mut Vec<u8>,
    key: &[u8],
    n: usize,
    text: Option<&[u8]>,
    target: Option<usize>,
) -> Result<(), AllocError>
    ensures { OnOk result (out.new.items ≡ out.old.items ++ crossref_report key.now n (option_copied text.entry) target) }
{
    match text {
        None => Ok(()),
        Some([]) => Ok(()),
        Some(text) => add_target(out, key, n, text, target),
    }
}

fn add_target(
    out: &mut Vec<u8>,
    key: &[u8],
    n: usize,
    text: &[u8],
    target: Option<usize>,
) -> Result<(), AllocError>
    ensures { OnOk result (out.new.items ≡ out.old.items ++ target_report key.now n text.now target) }
{
    match target {
        None => add_report_both(out, b"missing crossref", key, text),
        Some(m) if m == n => add_report(out, b"self crossref", key),
        Some(m) if m < n => add_report(out, b"parent before", key),
        Some(_) => Ok(()),
    }
}

// ---- lines

fn add_report(out: &mut Vec<u8>, said: &[u8], name: &[u8]) -> Result<(), AllocError>
    ensures { OnOk result (out.new.items ≡ out.old.items ++ report said.now name.now) }
{
    add_all(out, &[said, b" ", name, b"\n"])
}

fn add_report_both(
    out: &mut Vec<u8>,
    said: &[u8],
    key: &[u8],
    name: &[u8],
) -> Result<(), AllocError>
    ensures { OnOk result (out.new.items ≡ out.old.items ++ report_both said.now key.now name.now) }
{
    add_all(out, &[said, b" ", key, b" ", name, b"\n"])
}

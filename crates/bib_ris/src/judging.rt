//! The fields of an entry judged one after another: whether RIS drops them. Texts are made only of fields of which RIS may
//! have no line.

ghost use Rattle.std.specs.Prelude.{◌≡◌, ◌++◌, [], List, true, if◌then◌else◌, map, IfOk, IfSome, OnOk};
ghost use Rattle.std.specs.List.{AllZip};
ghost use Rattle.std.specs.Option.{option_map_or};
ghost use Rattle.bib_spec.specs.Text.{folded};
ghost use Rattle.bib_spec.specs.Tree.{Row};
ghost use Rattle.bib_spec.specs.Texts.{raw_text, field_text};
ghost use Rattle.bib_spec.specs.Records.{RecordField, entries_of, expanded, field_of, fields_at, missing, parent, with_inherited, IsDepth};
ghost use Rattle.bib_spec.specs.Lineages.{lineage};
ghost use Rattle.bib_value.specs.Raw.{OfValue};
ghost use Rattle.bib_definitions.specs.MacrosSeen.{macros_seen};
ghost use Rattle.bib_store.specs.Gathering.{with_field, with_fields, IsFieldOf};
ghost use Rattle.bib_store.specs.Readings.{OfReading, IsEntryNumber};
ghost use Rattle.ris_format.specs.Kinds.{kind_of_entry};
ghost use Rattle.ris_format.specs.Mapping.{field, is_dropped};
ghost use Rattle.bib_ris.specs.Dropped.{dropped_line, dropped_lines};
ghost use Rattle.bib_ris.specs.Judging.{is_passed, IsJudged};

use crate::dropping::add_name;
use crate::free_key::is_among;
use crate::texts::{field_text_of, lent_text};
use bib_scan::Fields;
use bib_store::{Database, ItemList, MacrosAt};
use bib_text::{Seq, Text, same_folded};
use ris_format::{drops, is_always_written};
use std::alloc::{AllocError, Global};

/// Most entries have fewer names than this that are not passed over. Each field's name is compared with all of them.
const FEW: usize = 16;

/// The text with its letters in lower case.
fn lower(alloc: Global, text: &[u8]) -> Result<Text, AllocError>
    ensures { IfOk result (λ lower. lower ≡ folded text.now) }
{
    let mut bytes = Vec::from_slice(alloc, text)?;
    bytes.make_ascii_lowercase();
    Ok(Seq::from_vec(bytes))
}

/// Whether a field of this name is passed over: RIS always has a line of it, it is `crossref`, or its name was seen.
fn is_passed(seen: &[Text], name: &[u8]) -> bool
    ensures { result ≡ is_passed seen.now name.now }
{
    is_always_written(name) || same_folded(name, b"crossref") || is_among(name, seen)
}

/// Whether RIS drops a field with this name and value from a record of this type.
fn drops_value(
    alloc: Global,
    kind_name: &[u8],
    name: &[u8],
    value: &[u8],
    macros: &MacrosAt<'_>,
) -> Result<bool, AllocError>
    ensures { IfOk result (λ b. OfValue value.now (λ v. b ≡ is_dropped (kind_of_entry kind_name.now) (field name.now (field_text (raw_text (macros_seen macros.now) v))))) }
{
    if let Some(text) = lent_text(value, macros) {
        return drops(alloc, kind_name, name, text);
    }
    let text = field_text_of(alloc, value, macros)?;
    let is_dropped = drops(alloc, kind_name, name, text.as_slice())?;
    Ok(is_dropped)
}

/// Adds a line for the field if RIS drops it.
fn add_dropped(
    alloc: Global,
    lines: &mut Vec<u8>,
    kind_name: &[u8],
    key: &[u8],
    name: &[u8],
    value: &[u8],
    macros: &MacrosAt<'_>,
) -> Result<(), AllocError>
    ensures { OnOk result (OfValue value.now (λ v. lines.new.items ≡ lines.old.items ++ (if is_dropped (kind_of_entry kind_name.now) (field name.now (field_text (raw_text (macros_seen macros.now) v))) then dropped_line key.now name.now else []))) }
{
    if drops_value(alloc, kind_name, name, value, macros)? {
        add_name(lines, key, name)?;
    }
    Ok(())
}

/// Judges a field, unless it is passed over: adds a line if RIS drops it, and its name to those that were seen.
fn judge(
    alloc: Global,
    lines: &mut Vec<u8>,
    seen: &mut Vec<Text>,
    kind_name: &[u8],
    key: &[u8],
    name: &[u8],
    value: &[u8],
    macros: &MacrosAt<'_>,
) -> Result<(), AllocError>
    ensures { OnOk result (OfValue value.now (λ v. (all : List RecordField) → IsJudged kind_name.now key.now all seen.old.items lines.old.items
        → IsJudged kind_name.now key.now (with_field all (record { name = name.now; raw = raw_text (macros_seen macros.now) v })) seen.new.items lines.new.items)) }
{
    if is_passed(seen.as_slice(), name) {
        return Ok(());
    }
    let name = lower(alloc, name)?;
    add_dropped(alloc, lines, kind_name, key, name.as_slice(), value, macros)?;
    seen.push(name)?;
    Ok(())
}

/// Judges these fields in their order, and says whether it judged all: it stops if many names were seen.
#[tactic(auto, using(crate::proofs::JudgedFields::judging_all))]
fn judge_all(
    alloc: Global,
    lines: &mut Vec<u8>,
    seen: &mut Vec<Text>,
    kind_name: &[u8],
    key: &[u8],
    fields: Fields<'_>,
    macros: &MacrosAt<'_>,
) -> Result<bool, AllocError>
    ensures { IfOk result (λ all_judged. all_judged ≡ true → (rows : List Row) → AllZip IsFieldOf fields.entry rows → (all : List RecordField) → IsJudged kind_name.now key.now all seen.old.items lines.old.items
        → IsJudged kind_name.now key.now (with_fields all (map (field_of (macros_seen macros.now)) rows)) seen.new.items lines.new.items) }
{
    'fields: for field in fields {
        if seen.len() >= FEW {
            return Ok(false);
        }
        judge(
            alloc,
            lines,
            seen,
            kind_name,
            key,
            field.name,
            field.value,
            macros,
        )?;
    }
    Ok(true)
}

/// Judges the own fields of entry `n` that are missing, and says whether it judged all.
fn judge_entry<L: ItemList>(
    alloc: Global,
    lines: &mut Vec<u8>,
    seen: &mut Vec<Text>,
    kind_name: &[u8],
    key: &[u8],
    db: &Database<L>,
    n: usize,
) -> Result<bool, AllocError>
    requires { IsEntryNumber db.now n }
    ensures { IfOk result (λ all_judged. all_judged ≡ true → OfReading db.now (λ r. (all : List RecordField) → IsJudged kind_name.now key.now all seen.old.items lines.old.items
        → IsJudged kind_name.now key.now (all ++ missing all (fields_at (entries_of r) n)) seen.new.items lines.new.items)) }
{
    let fields = db.entry(n).fields();
    let macros = db.macros_at(db.entry_item(n));
    let all_judged = judge_all(alloc, lines, seen, kind_name, key, fields, &macros)?;
    Ok(all_judged)
}

/// Judges what entry `n` inherits at this depth, and says whether it judged all. A parent that comes again gives nothing
/// more.
fn judge_inherited<L: ItemList>(
    alloc: Global,
    lines: &mut Vec<u8>,
    seen: &mut Vec<Text>,
    kind_name: &[u8],
    key: &[u8],
    db: &Database<L>,
    n: usize,
    depth: u8,
) -> Result<bool, AllocError>
    requires { IsEntryNumber db.now n }
    ensures { IfOk result (λ all_judged. all_judged ≡ true → OfReading db.now (λ r. (all : List RecordField) → IsJudged kind_name.now key.now all seen.old.items lines.old.items
        → IsJudged kind_name.now key.now (with_inherited (entries_of r) all (lineage (parent (entries_of r)) depth n)) seen.new.items lines.new.items)) }
{
    let mut heir = n;
    'along: for _ in 0..depth {
        let Some(parent) = db.parent(heir) else {
            return Ok(true);
        };
        if !judge_entry(alloc, lines, seen, kind_name, key, db, parent)? {
            return Ok(false);
        }
        heir = parent;
    }
    Ok(true)
}

/// A line for each field that RIS leaves out of entry `n`, with what it inherits at this depth; none if the entry has many
/// names of fields that may be left out. It takes time in the lengths of the entries that it reads, and memory for the
/// lines and for one text.
pub(crate) fn lines_judged<L: ItemList>(
    alloc: Global,
    db: &Database<L>,
    n: usize,
    depth: u8,
) -> Result<Option<Vec<u8>>, AllocError>
    requires number { IsEntryNumber db.now n }
    requires depth { IsDepth depth }
    ensures { IfOk result (λ found. IfSome found (λ lines. OfReading db.now (λ r. lines.items ≡ option_map_or dropped_lines (expanded depth (entries_of r) n) []))) }
{
    let entry = db.entry(n);
    let kind_name = lower(alloc, entry.type_name())?;
    let kind_name = kind_name.as_slice();
    let key = entry.key();
    let mut lines = Vec::new(alloc);
    let mut seen = Vec::new(alloc);
    if !judge_entry(alloc, &mut lines, &mut seen, kind_name, key, db, n)? {
        return Ok(None);
    }
    if !judge_inherited(alloc, &mut lines, &mut seen, kind_name, key, db, n, depth)? {
        return Ok(None);
    }
    Ok(Some(lines))
}

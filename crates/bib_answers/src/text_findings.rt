//! What is found in the text of a field.

ghost use Rattle.std.specs.Prelude.{◌≡◌, ◌<◌, true, [], IsTrue, IfOk, IfSome, OnOk};
ghost use Rattle.std.specs.List.{count_by};
ghost use Rattle.std.specs.Str.{is_utf8};
ghost use Rattle.bib_spec.specs.Bytes.{name_limit};
ghost use Rattle.bib_spec.specs.Reading.{IsValueWithin};
ghost use Rattle.bib_spec.specs.Texts.{Macros, raw_text, field_text};
ghost use Rattle.bib_scan.specs.PartView.{part_view};
ghost use Rattle.bib_scan.specs.ValueParts.{IsPartsOf};
ghost use Rattle.bib_scan.specs.View.{Field, field_seen};
ghost use Rattle.bib_value.specs.Raw.{OfValue};
ghost use Rattle.bib_persons.specs.Persons.{has_names, refused_names};
ghost use Rattle.bib_answers.specs.Lint.{is_use, has_uses, refused_findings, field_encoding_findings, text_findings, own_findings};
ghost use Rattle.bib_answers.specs.FindingLines.{with_findings};
ghost use Rattle.bib_answers.specs.Plain.{is_other, IsPlain};

use crate::finding_lines::FindingLines;
use crate::warnings::Warning;
use bib_persons::{has_few_commas, has_names, refused_names};
use bib_scan::{FieldView, Part, Parts, only_part, read_value};
use bib_text::Text;
use bib_value::{MacroTable, field_text, raw_text};
use std::alloc::{AllocError, Global};
use std::str;

/// Adds what is found in the text of a field of an entry whose value uses no macro. It takes time in the value's length. Most values
/// are plain, and are not taken apart. If the field is known to be ASCII, it is not read for that.
pub fn add_own_findings<M: MacroTable>(
    alloc: Global,
    lines: &mut FindingLines<'_>,
    macros: &M,
    field: FieldView<'_>,
    ascii: bool,
) -> Result<(), AllocError>
    requires value { IsValueWithin name_limit field.value.now }
    requires plain { ascii ≡ true → IsPlain (field_seen field) }
    ensures { OnOk result (OfValue field.entry.value.now (λ v. lines.new ≡ with_findings lines.old (own_findings (M.macros macros.now) (field_seen field.entry) v))) }
{
    if is_plain(field.name, field.value, ascii) {
        return Ok(());
    }
    let uses = has_uses(alloc, field.value)?;
    if uses {
        return Ok(());
    }
    let text = value_text(alloc, macros, field.value)?;
    add_findings_in(alloc, lines, field, text.as_slice(), ascii)
}

/// Whether a value uses a macro.
fn has_uses(alloc: Global, value: &[u8]) -> Result<bool, AllocError>
    requires { IsValueWithin name_limit value.now }
    ensures { IfOk result (λ uses. OfValue value.now (λ v. uses ≡ has_uses v)) }
{
    if let Some(part) = only_part(value) {
        return Ok(is_use(part));
    }
    match read_value(alloc, value) {
        Ok(parts) => Ok(has_use_among(value, &parts)),
        Err(fault) if fault.is_memory() => Err(AllocError),
        Err(_) => unreachable!(),
    }
}

/// Whether one of these parts of a value is a use of a macro.
fn has_use_among(value: &[u8], parts: &Parts) -> bool
    requires { IsPartsOf value.now parts.now }
    ensures { OfValue value.now (λ v. result ≡ has_uses v) }
{
    'uses: for n in 0..parts.len() {
        if is_use(parts.part(value, n)) {
            return true;
        }
    }
    false
}

/// Whether the part is a use of a macro.
fn is_use(part: Part<'_>) -> bool
    ensures { result ≡ is_use (part_view part.entry) }
{
    match part {
        Part::Macro(_) => true,
        _ => false,
    }
}

/// Adds what is found in a field with this text. If the two are known to be ASCII, they are not read for that.
fn add_findings_in(
    alloc: Global,
    lines: &mut FindingLines<'_>,
    field: FieldView<'_>,
    text: &[u8],
    ascii: bool,
) -> Result<(), AllocError>
    requires { ascii ≡ true → (count_by is_other field.name.now ≡ 0) × (count_by is_other text.now ≡ 0) }
    ensures { OnOk result (lines.new ≡ with_findings lines.old (text_findings (field_seen field.entry) text.now)) }
{
    if has_names(field.name) {
        add_refused_in(alloc, lines, field.value_at, text)?;
    }
    add_field_encoding(lines, field, text, ascii)
}

/// Adds that the name or the text of a field is not UTF-8. If the two are known to be ASCII, they are not read for that.
fn add_field_encoding(
    lines: &mut FindingLines<'_>,
    field: FieldView<'_>,
    text: &[u8],
    ascii: bool,
) -> Result<(), AllocError>
    requires { ascii ≡ true → (count_by is_other field.name.now ≡ 0) × (count_by is_other text.now ≡ 0) }
    ensures { OnOk result (lines.new ≡ with_findings lines.old (field_encoding_findings (field_seen field.entry) text.now)) }
{
    if ascii {
        return Ok(());
    }
    if is_utf8(field.name) && is_utf8(text) {
        return Ok(());
    }
    lines.add(Warning::FieldNotUtf8, field.value_at, field.name)
}

/// Whether the bytes are UTF-8.
pub fn is_utf8(bytes: &[u8]) -> bool
    ensures { result ≡ is_utf8 bytes.now }
{
    match str::from_utf8(bytes) {
        Ok(_) => true,
        Err(_) => false,
    }
}

/// Whether each byte is ASCII.
pub fn is_ascii(text: &[u8]) -> bool
    ensures { IsTrue result → count_by is_other text.now ≡ 0 }
{
    greatest(text).is_ascii()
}

/// The greatest of the bytes, or 0 if there are none. The processor compares many bytes at once.
fn greatest(text: &[u8]) -> u8
    ensures { result < 128 → count_by is_other text.now ≡ 0 }
{
    let mut greatest: u8 = 0;
    'bytes: for byte in text {
        greatest = greatest.max(*byte);
    }
    greatest
}

/// Whether nothing can be found in the text of a field with this name and these bytes of its value, whatever macros say: name and
/// value are ASCII, and if it is a list of names, it has few commas. What a value says without a macro is in its bytes. If the two
/// are known to be ASCII, they are not read for that.
fn is_plain(name: &[u8], value: &[u8], ascii: bool) -> bool
    requires { ascii ≡ true → (count_by is_other name.now ≡ 0) × (count_by is_other value.now ≡ 0) }
    ensures { IsTrue result → (field : Field) (macros : Macros) → field.name ≡ name.now → OfValue value.now (λ v. own_findings macros field v ≡ []) }
{
    if !are_ascii(name, value, ascii) {
        return false;
    }
    if has_names(name) {
        return has_few_commas(value);
    }
    true
}

/// Whether each byte of both is ASCII, which may be known.
fn are_ascii(name: &[u8], value: &[u8], known: bool) -> bool
    requires { known ≡ true → (count_by is_other name.now ≡ 0) × (count_by is_other value.now ≡ 0) }
    ensures { IsTrue result → (count_by is_other name.now ≡ 0) × (count_by is_other value.now ≡ 0) }
{
    if known {
        return true;
    }
    if !is_ascii(name) {
        return false;
    }
    is_ascii(value)
}

/// Adds the names of a list with this text that `names` refuses.
fn add_refused_in(
    alloc: Global,
    lines: &mut FindingLines<'_>,
    at: usize,
    text: &[u8],
) -> Result<(), AllocError>
    ensures { OnOk result (lines.new ≡ with_findings lines.old (refused_findings at text.now)) }
{
    let names = refused_names(alloc, text)?;
    'names: for name in names.as_slice() {
        lines.add(Warning::ManyCommas, at, name)?;
    }
    Ok(())
}

/// The field text of a value. No raw text of a file that is open is too long, so the one refusal is want of memory. Most values
/// are one text, of which nothing is copied before white space is made one space.
fn value_text<M: MacroTable>(alloc: Global, macros: &M, value: &[u8]) -> Result<Text, AllocError>
    requires { IsValueWithin name_limit value.now }
    ensures { IfOk result (λ text. OfValue value.now (λ v. text ≡ field_text (raw_text (M.macros macros.now) v))) }
{
    if let Some(text) = only_text(value) {
        return spaced(alloc, text);
    }
    let Ok(parts) = read_value(alloc, value) else {
        return Err(AllocError);
    };
    let Ok(raw) = raw_text(alloc, &parts, value, macros, None) else {
        return Err(AllocError);
    };
    spaced(alloc, raw.as_slice())
}

/// The raw text of a value that is one braced or quoted text, whatever macros say.
fn only_text(value: &[u8]) -> Option<&[u8]>
    ensures { IfSome result (λ text. (macros : Macros) → OfValue value.now (λ v. text.now ≡ raw_text macros v)) }
{
    match only_part(value)? {
        Part::Braced(text) => Some(text),
        Part::Quoted(text) => Some(text),
        Part::Digits(_) | Part::Macro(_) => None,
    }
}

/// The field text of a raw text.
fn spaced(alloc: Global, raw: &[u8]) -> Result<Text, AllocError>
    ensures { IfOk result (λ text. text ≡ field_text raw.now) }
{
    match field_text(alloc, raw) {
        Ok(text) => Ok(text),
        Err(_) => Err(AllocError),
    }
}

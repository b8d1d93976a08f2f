//! The text of an entry.

ghost use Rattle.std.specs.Prelude.{◌≡◌, ◌≢◌, ◌++◌, ◌∷◌, [], true, false, IfOk, IfErr, OnOk};
ghost use Rattle.std.specs.Option.{option_copied};
ghost use Rattle.std.specs.Str.{is_utf8};
ghost use Rattle.json.specs.Token.{key, string};
ghost use Rattle.json.specs.Tree.{json_tokens, members_tokens};
ghost use Rattle.entry_json.specs.EntryJson.{parent_json, fields_json, file_json, entry_in_file, json_line, json_line_in, is_any_utf8, are_fields_utf8, is_told_utf8, is_told_utf8_in};
ghost use Rattle.entry_json.specs.declared.fault.JsonFault.TheVariants.{Memory};

use crate::fault::JsonFault;
use bib_data::Record;
use bib_text::Text;
use json::Writer;
use std::str;

/// The bytes as characters.
pub(crate) fn utf8(bytes: &[u8]) -> Result<&str, JsonFault>
    ensures text { IfOk result (λ text. (is_utf8 bytes.now ≡ true) × (text.now ≡ bytes.now)) }
    ensures fault { IfErr result (λ fault. (fault ≢ Memory) × (is_utf8 bytes.now ≡ false)) }
{
    match str::from_utf8(bytes) {
        Ok(text) => Ok(text),
        Err(_) => Err(JsonFault::NotUtf8),
    }
}

/// Writes a string.
pub(crate) fn write_string(writer: &mut Writer, text: &[u8]) -> Result<(), JsonFault>
    ensures before { writer.new.before ≡ writer.old.before }
    ensures text { OnOk result (writer.new.tokens ≡ writer.old.tokens ++ string text.now ∷ []) }
    ensures utf8 { OnOk result (is_utf8 text.now ≡ true) }
    ensures fault { IfErr result (λ fault. fault ≢ Memory → is_utf8 text.now ≡ false) }
{
    let text = utf8(text)?;
    writer.string(text)?;
    Ok(())
}

/// Writes a member of an object: its name, and its value, which is a string.
pub(crate) fn write_member(writer: &mut Writer, name: &str, text: &[u8]) -> Result<(), JsonFault>
    ensures before { writer.new.before ≡ writer.old.before }
    ensures text { OnOk result (writer.new.tokens ≡ (writer.old.tokens ++ key name.now ∷ []) ++ string text.now ∷ []) }
    ensures utf8 { OnOk result (is_utf8 text.now ≡ true) }
    ensures fault { IfErr result (λ fault. fault ≢ Memory → is_utf8 text.now ≡ false) }
{
    writer.key(name)?;
    write_string(writer, text)
}

/// Writes the key of a parent, or null.
pub(crate) fn write_parent(writer: &mut Writer, parent: Option<&[u8]>) -> Result<(), JsonFault>
    ensures before { writer.new.before ≡ writer.old.before }
    ensures text { OnOk result (writer.new.tokens ≡ writer.old.tokens ++ json_tokens (parent_json (option_copied parent.entry))) }
    ensures utf8 { OnOk result (is_any_utf8 (option_copied parent.entry) ≡ true) }
    ensures fault { IfErr result (λ fault. fault ≢ Memory → is_any_utf8 (option_copied parent.entry) ≡ false) }
{
    match parent {
        Some(key) => write_string(writer, key),
        None => {
            writer.null()?;
            Ok(())
        }
    }
}

/// Writes a field.
fn write_field(writer: &mut Writer, field: &(Text, Text)) -> Result<(), JsonFault>
    ensures before { writer.new.before ≡ writer.old.before }
    ensures text { OnOk result (writer.new.tokens ≡ (writer.old.tokens ++ key field.now.0 ∷ []) ++ string field.now.1 ∷ []) }
    ensures utf8 { OnOk result (are_fields_utf8 (field.now ∷ []) ≡ true) }
    ensures fault { IfErr result (λ fault. fault ≢ Memory → are_fields_utf8 (field.now ∷ []) ≡ false) }
{
    let name = utf8(field.0.as_slice())?;
    write_member(writer, name, field.1.as_slice())
}

/// Writes fields, and the end of the object that has them.
fn write_fields(writer: &mut Writer, fields: &[(Text, Text)]) -> Result<(), JsonFault>
    ensures before { writer.new.before ≡ writer.old.before }
    ensures text { OnOk result (writer.new.tokens ≡ writer.old.tokens ++ members_tokens (fields_json fields.now)) }
    ensures utf8 { OnOk result (are_fields_utf8 fields.now ≡ true) }
    ensures fault { IfErr result (λ fault. fault ≢ Memory → are_fields_utf8 fields.now ≡ false) }
{
    'fields: for field in fields {
        write_field(writer, field)?;
    }
    writer.end_object()?;
    Ok(())
}

/// Writes the name of a file, if there is one, and the end of the object that has it.
pub(crate) fn write_file(writer: &mut Writer, file: Option<&[u8]>) -> Result<(), JsonFault>
    ensures before { writer.new.before ≡ writer.old.before }
    ensures text { OnOk result (writer.new.tokens ≡ writer.old.tokens ++ members_tokens (file_json (option_copied file.entry))) }
    ensures utf8 { OnOk result (is_any_utf8 (option_copied file.entry) ≡ true) }
    ensures fault { IfErr result (λ fault. fault ≢ Memory → is_any_utf8 (option_copied file.entry) ≡ false) }
{
    if let Some(name) = file {
        write_member(writer, "file", name)?;
    }
    writer.end_object()?;
    Ok(())
}

/// Writes an entry, and the name of its file if there is one.
fn write_entry(
    writer: &mut Writer,
    rec: &Record,
    parent: Option<&[u8]>,
    file: Option<&[u8]>,
) -> Result<(), JsonFault>
    ensures before { writer.new.before ≡ writer.old.before }
    ensures text { OnOk result (writer.new.tokens ≡ writer.old.tokens ++ json_tokens (entry_in_file (rec.now, option_copied parent.entry) (option_copied file.entry))) }
    ensures utf8 { OnOk result (is_told_utf8_in (rec.now, option_copied parent.entry) (option_copied file.entry) ≡ true) }
    ensures fault { IfErr result (λ fault. fault ≢ Memory → is_told_utf8_in (rec.now, option_copied parent.entry) (option_copied file.entry) ≡ false) }
{
    writer.begin_object()?;
    write_member(writer, "type", rec.kind_name.as_slice())?;
    write_member(writer, "key", rec.key.as_slice())?;
    writer.key("parent")?;
    write_parent(writer, parent)?;
    writer.key("fields")?;
    writer.begin_object()?;
    write_fields(writer, rec.fields.as_slice())?;
    write_file(writer, file)?;
    Ok(())
}

/// The text, and after it the line of an entry with this record, whose parent has this key. It takes time linear in the
/// record's length, and memory for the line. It is refused if a text of the entry is not UTF-8, or if memory runs out.
pub fn add_line(text: Vec<u8>, rec: &Record, parent: Option<&[u8]>) -> Result<Vec<u8>, JsonFault>
    ensures line { IfOk result (λ lines. lines.items ≡ text.items ++ json_line (rec.now, option_copied parent.entry)) }
    ensures utf8 { OnOk result (is_told_utf8 (rec.now, option_copied parent.entry) ≡ true) }
    ensures fault { IfErr result (λ fault. fault ≢ Memory → is_told_utf8 (rec.now, option_copied parent.entry) ≡ false) }
{
    add_line_in(text, rec, parent, None)
}

/// The text, and after it the line of an entry with this record, whose parent has this key, with the name of its file at the end
/// if there is one. It takes time and memory, and is refused, as `add_line`; also if the name is not UTF-8.
pub fn add_line_in(
    text: Vec<u8>,
    rec: &Record,
    parent: Option<&[u8]>,
    file: Option<&[u8]>,
) -> Result<Vec<u8>, JsonFault>
    ensures line { IfOk result (λ lines. lines.items ≡ text.items ++ json_line_in (rec.now, option_copied parent.entry) (option_copied file.entry)) }
    ensures utf8 { OnOk result (is_told_utf8_in (rec.now, option_copied parent.entry) (option_copied file.entry) ≡ true) }
    ensures fault { IfErr result (λ fault. fault ≢ Memory → is_told_utf8_in (rec.now, option_copied parent.entry) (option_copied file.entry) ≡ false) }
{
    let mut writer = Writer::new(text);
    write_entry(&mut writer, rec, parent, file)?;
    let mut lines = writer.into_inner();
    lines.extend_from_slice(b"\n")?;
    Ok(lines)
}

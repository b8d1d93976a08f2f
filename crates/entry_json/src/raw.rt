//! The text of an entry whose fields are as they are written.

ghost use Rattle.std.specs.Prelude.{◌≡◌, ◌≢◌, ◌++◌, ◌∷◌, [], true, false, IfOk, IfErr, OnOk, codes, map};
ghost use Rattle.std.specs.List.{list_all};
ghost use Rattle.std.specs.Option.{option_copied};
ghost use Rattle.std.specs.Str.{is_utf8};
ghost use Rattle.std.specs.Fmt.{decimal};
ghost use Rattle.json.specs.Token.{key, string, number};
ghost use Rattle.json.specs.Tree.{json_tokens, members_tokens};
ghost use Rattle.bib_spec.specs.Text.{folded};
ghost use Rattle.entry_json.specs.EntryJson.{file_json, is_any_utf8};
ghost use Rattle.entry_json.specs.RawJson.{written_seen, entry_seen, written_json, all_written_json, inherited_json, standing_json, raw_json, raw_line, is_written_utf8, is_raw_utf8};
ghost use Rattle.entry_json.specs.declared.fault.JsonFault.TheVariants.{Memory};

use crate::fault::JsonFault;
use crate::writing::{utf8, write_file, write_member, write_parent, write_string};
use json::Writer;
use std::alloc::Global;

/// A field as it is written: its name, the bytes of its value, and the key of the entry from which it is inherited, if it is.
#[derive(Clone, Copy)]
pub struct WrittenField<'a> {
    pub name: &'a [u8],
    pub value: &'a [u8],
    pub from: Option<&'a [u8]>,
}

/// Where an entry stands: the number of its item, counted from 0, and the line and the column of its at-sign, counted from 1.
#[derive(Clone, Copy)]
pub struct Standing {
    pub item: usize,
    pub line: usize,
    pub column: usize,
}

/// An entry as it is written: its type, its key, the key of its parent, if it has one, and where it stands.
#[derive(Clone, Copy)]
pub struct RawEntry<'a> {
    pub kind: &'a [u8],
    pub key: &'a [u8],
    pub parent: Option<&'a [u8]>,
    pub standing: Standing,
}

/// Writes the key of the entry from which a field is inherited, or false.
fn write_inherited(writer: &mut Writer, from: Option<&[u8]>) -> Result<(), JsonFault>
    ensures before { writer.new.before ≡ writer.old.before }
    ensures text { OnOk result (writer.new.tokens ≡ writer.old.tokens ++ json_tokens (inherited_json (option_copied from.entry))) }
    ensures utf8 { OnOk result (is_any_utf8 (option_copied from.entry) ≡ true) }
    ensures fault { IfErr result (λ fault. fault ≢ Memory → is_any_utf8 (option_copied from.entry) ≡ false) }
{
    match from {
        Some(key) => write_string(writer, key),
        None => {
            writer.boolean(false)?;
            Ok(())
        }
    }
}

/// Writes the value of a field's member.
fn write_written(writer: &mut Writer, field: &WrittenField<'_>) -> Result<(), JsonFault>
    ensures before { writer.new.before ≡ writer.old.before }
    ensures text { OnOk result (writer.new.tokens ≡ writer.old.tokens ++ json_tokens (written_json (written_seen field.now))) }
    ensures utf8 { OnOk result (is_written_utf8 (written_seen field.now) ≡ true) }
    ensures fault { IfErr result (λ fault. fault ≢ Memory → is_written_utf8 (written_seen field.now) ≡ false) }
{
    writer.begin_object()?;
    write_member(writer, "name", field.name)?;
    write_member(writer, "value", field.value)?;
    writer.key("inherited")?;
    write_inherited(writer, field.from)?;
    writer.end_object()?;
    Ok(())
}

/// Writes a field, as a member with its name in lower case.
fn write_field(
    alloc: Global,
    writer: &mut Writer,
    field: &WrittenField<'_>,
) -> Result<(), JsonFault>
    ensures before { writer.new.before ≡ writer.old.before }
    ensures text { OnOk result (writer.new.tokens ≡ (writer.old.tokens ++ key (folded field.now.name.now) ∷ []) ++ json_tokens (written_json (written_seen field.now))) }
    ensures utf8 { OnOk result (is_written_utf8 (written_seen field.now) ≡ true) }
    ensures fault { IfErr result (λ fault. fault ≢ Memory → is_written_utf8 (written_seen field.now) ≡ false) }
{
    let name = utf8(field.name)?.to_ascii_lowercase(alloc)?;
    writer.key(name.as_str())?;
    write_written(writer, field)
}

/// Writes fields, and the end of the object that has them.
fn write_fields(
    alloc: Global,
    writer: &mut Writer,
    fields: &[WrittenField<'_>],
) -> Result<(), JsonFault>
    ensures before { writer.new.before ≡ writer.old.before }
    ensures text { OnOk result (writer.new.tokens ≡ writer.old.tokens ++ members_tokens (all_written_json (map written_seen fields.now))) }
    ensures utf8 { OnOk result (list_all is_written_utf8 (map written_seen fields.now) ≡ true) }
    ensures fault { IfErr result (λ fault. fault ≢ Memory → list_all is_written_utf8 (map written_seen fields.now) ≡ false) }
{
    'fields: for field in fields {
        write_field(alloc, writer, field)?;
    }
    writer.end_object()?;
    Ok(())
}

/// Writes the type of an entry, in lower case.
fn write_type(alloc: Global, writer: &mut Writer, kind: &[u8]) -> Result<(), JsonFault>
    ensures before { writer.new.before ≡ writer.old.before }
    ensures text { OnOk result (writer.new.tokens ≡ (writer.old.tokens ++ key (codes "type") ∷ []) ++ string (folded kind.now) ∷ []) }
    ensures utf8 { OnOk result (is_utf8 kind.now ≡ true) }
    ensures fault { IfErr result (λ fault. fault ≢ Memory → is_utf8 kind.now ≡ false) }
{
    let kind = utf8(kind)?.to_ascii_lowercase(alloc)?;
    writer.key("type")?;
    writer.string(kind.as_str())?;
    Ok(())
}

/// Writes a member of an object: its name, and its value, which is a number.
fn write_number(writer: &mut Writer, name: &str, n: usize) -> Result<(), JsonFault>
    ensures before { writer.new.before ≡ writer.old.before }
    ensures text { OnOk result (writer.new.tokens ≡ (writer.old.tokens ++ key name.now ∷ []) ++ number (decimal n) ∷ []) }
    ensures fault { IfErr result (λ fault. fault ≡ Memory) }
{
    writer.key(name)?;
    writer.u64(n as u64)?;
    Ok(())
}

/// Writes where an entry stands, the name of its file if there is one, and the end of the object that has them.
fn write_standing(
    writer: &mut Writer,
    standing: Standing,
    file: Option<&[u8]>,
) -> Result<(), JsonFault>
    ensures before { writer.new.before ≡ writer.old.before }
    ensures text { OnOk result (writer.new.tokens ≡ writer.old.tokens ++ members_tokens (standing_json standing (file_json (option_copied file.entry)))) }
    ensures utf8 { OnOk result (is_any_utf8 (option_copied file.entry) ≡ true) }
    ensures fault { IfErr result (λ fault. fault ≢ Memory → is_any_utf8 (option_copied file.entry) ≡ false) }
{
    write_number(writer, "item", standing.item)?;
    write_number(writer, "line", standing.line)?;
    write_number(writer, "column", standing.column)?;
    write_file(writer, file)?;
    Ok(())
}

/// Writes an entry, and the name of its file if there is one.
fn write_raw(
    alloc: Global,
    writer: &mut Writer,
    entry: RawEntry<'_>,
    fields: &[WrittenField<'_>],
    file: Option<&[u8]>,
) -> Result<(), JsonFault>
    ensures before { writer.new.before ≡ writer.old.before }
    ensures text { OnOk result (writer.new.tokens ≡ writer.old.tokens ++ json_tokens (raw_json (entry_seen entry.entry fields.now) (option_copied file.entry))) }
    ensures utf8 { OnOk result (is_raw_utf8 (entry_seen entry.entry fields.now) (option_copied file.entry) ≡ true) }
    ensures fault { IfErr result (λ fault. fault ≢ Memory → is_raw_utf8 (entry_seen entry.entry fields.now) (option_copied file.entry) ≡ false) }
{
    writer.begin_object()?;
    write_type(alloc, writer, entry.kind)?;
    write_member(writer, "key", entry.key)?;
    writer.key("parent")?;
    write_parent(writer, entry.parent)?;
    writer.key("fields")?;
    writer.begin_object()?;
    write_fields(alloc, writer, fields)?;
    write_standing(writer, entry.standing, file)?;
    Ok(())
}

/// The text, and after it the line of an entry with these fields, with the name of its file at the end if there is one. It takes
/// time linear in the line's length, and memory for the line. It is refused if the name of the file or a text of the entry is not
/// UTF-8, or if memory runs out.
pub fn add_raw_line(
    alloc: Global,
    text: Vec<u8>,
    entry: RawEntry<'_>,
    fields: &[WrittenField<'_>],
    file: Option<&[u8]>,
) -> Result<Vec<u8>, JsonFault>
    ensures line { IfOk result (λ lines. lines.items ≡ text.items ++ raw_line (entry_seen entry.entry fields.now) (option_copied file.entry)) }
    ensures utf8 { OnOk result (is_raw_utf8 (entry_seen entry.entry fields.now) (option_copied file.entry) ≡ true) }
    ensures fault { IfErr result (λ fault. fault ≢ Memory → is_raw_utf8 (entry_seen entry.entry fields.now) (option_copied file.entry) ≡ false) }
{
    let mut writer = Writer::new(text);
    write_raw(alloc, &mut writer, entry, fields, file)?;
    let mut lines = writer.into_inner();
    lines.extend_from_slice(b"\n")?;
    Ok(lines)
}

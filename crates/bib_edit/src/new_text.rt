//! The text of entries to be added.

ghost use Rattle.std.specs.Prelude.{◌≡◌, ◌++◌, IfOk, OnOk};
ghost use Rattle.bib_edit.specs.NewEntries.{field_line, lines_of, line_before_close, entry_text};
ghost use Rattle.bib_edit.specs.ManyEntries.{entries_text};

use bib_data::NewEntry;
use bib_text::{Seq, Text};
use std::alloc::{AllocError, Global};

/// Puts the comma, the name and the value of a field into a line of its own.
fn push_line(text: &mut Vec<u8>, name: &[u8], value: &[u8]) -> Result<(), AllocError>
    ensures { OnOk result (text.new.items ≡ text.old.items ++ field_line (name.now, value.now)) }
{
    text.extend_from_slice(b",\n  ")?;
    text.extend_from_slice(name)?;
    text.extend_from_slice(b" = ")?;
    text.extend_from_slice(value)?;
    Ok(())
}

/// Puts each field into a line of its own.
fn push_lines(text: &mut Vec<u8>, fields: &[(Text, Text)]) -> Result<(), AllocError>
    ensures { OnOk result (text.new.items ≡ text.old.items ++ lines_of fields.now) }
{
    for field in fields {
        push_line(text, field.0.as_slice(), field.1.as_slice())?;
    }
    Ok(())
}

/// The line's end before the close, if there are fields.
fn line_before_close(fields: &[(Text, Text)]) -> &'static [u8]
    ensures { result.now ≡ line_before_close fields.now }
{
    if fields.is_empty() {
        return b"";
    }
    b"\n"
}

/// Puts the entry as it is written, with the line's end after it. (dialect)
fn push_entry(text: &mut Vec<u8>, entry: &NewEntry) -> Result<(), AllocError>
    ensures { OnOk result (text.new.items ≡ text.old.items ++ entry_text entry.now) }
{
    text.extend_from_slice(b"@")?;
    text.extend_from_slice(entry.kind_name.as_slice())?;
    text.extend_from_slice(b"{")?;
    text.extend_from_slice(entry.key.as_slice())?;
    push_lines(text, entry.fields.as_slice())?;
    text.extend_from_slice(line_before_close(entry.fields.as_slice()))?;
    text.extend_from_slice(b"}\n")?;
    Ok(())
}

/// The entries as they are written, one after another.
pub(crate) fn entries_text(alloc: Global, entries: &[NewEntry]) -> Result<Text, AllocError>
    ensures { IfOk result (λ text. text ≡ entries_text entries.now) }
{
    let mut text = Vec::new(alloc);
    'entries: for entry in entries {
        push_entry(&mut text, entry)?;
    }
    Ok(Seq::from_vec(text))
}

//! Labels of steps.

ghost use Rattle.std.specs.Prelude.{◌≡◌, ◌↔◌, IsTrue, IfOk};
ghost use Rattle.std.specs.List.{list_all};
ghost use Rattle.history_spec.specs.Steps.{is_label_byte, is_label, label_of, IsLabel};

use bib_text::{Text, copied};
use std::alloc::{AllocError, Global};
use std::marker::Model;

/// The longest label, in bytes. (dialect)
pub const LABEL_LIMIT: usize = 255;

/// Whether a label may have this byte: any byte except the control bytes of ASCII.
fn is_label_byte(b: u8) -> bool
    ensures { result ≡ is_label_byte b }
{
    b >= b' ' && b != 0x7F
}

/// Whether a label may have all these bytes.
fn are_label_bytes(text: &[u8]) -> bool
    ensures { result ≡ list_all is_label_byte text.now }
{
    text.iter().all(|b| is_label_byte(*b))
}

/// Whether the text can be the label of a step: it has at most 255 bytes, and none of them is a control byte of ASCII. The
/// text may be empty. It takes no memory.
pub fn is_label(text: &[u8]) -> bool
    ensures value { result ≡ is_label text.now }
    ensures label { IsTrue result ↔ IsLabel text.now }
{
    text.len() <= LABEL_LIMIT && are_label_bytes(text)
}

/// The label of a step: a text for which `is_label` is true.
#[derive(Debug, Drop)]
pub struct Label {
    text: Text,
}

impl Model for Label {
    ghost use Rattle.bib_spec.specs.Text.{Text as LabelText};
    ghost use Rattle.history_spec.specs.Steps.{IsLabel};

    ghost Value = { LabelText };

    ghost view = { λ l. l.text };

    ghost invariant = { λ l. IsLabel l.text };
}

impl Label {
    /// The text as a label, if it is one.
    pub fn read(alloc: Global, text: &[u8]) -> Result<Option<Label>, AllocError>
        ensures { IfOk result (λ label. label ≡ label_of text.now) }
    {
        if !is_label(text) {
            return Ok(None);
        }
        let text = copied(alloc, text)?;
        Ok(Some(Label { text }))
    }

    /// The bytes of the label.
    pub fn as_slice(&self) -> &[u8]
        ensures value { result.now ≡ self.now }
        ensures label { IsLabel self.now }
    {
        self.text.as_slice()
    }
}

//! The label that words make.

ghost use Rattle.std.specs.Prelude.{◌≡◌, ◌++◌, ◌∷◌, map, IfOk, OnOk};
ghost use Rattle.bib_spec.specs.Bytes.{space};
ghost use Rattle.history_spec.specs.Steps.{label_limit};
ghost use Rattle.bib_script.specs.Words.{spaced, continues, kept_len, shown_byte, label_of_words};

use bib_data::{LABEL_LIMIT, Label};
use bib_text::Text;
use std::alloc::{AllocError, Global};

/// The words as a label: with a space between each two and in the place of each control byte, and no longer than a label
/// can be.
pub(crate) fn label_of_words(alloc: Global, words: &[Text]) -> Result<Label, AllocError>
    ensures { IfOk result (λ label. label ≡ label_of_words words.now) }
{
    let mut text = spaced(alloc, words)?;
    let len = kept_len(text.as_slice());
    text.truncate(len);
    let shown = shown(alloc, text.as_slice())?;
    match Label::read(alloc, shown.as_slice())? {
        Some(label) => Ok(label),
        None => unreachable!(),
    }
}

/// The words with a space between each two.
fn spaced(alloc: Global, words: &[Text]) -> Result<Vec<u8>, AllocError>
    ensures { IfOk result (λ text. text.items ≡ spaced words.now) }
{
    let mut text = Vec::new(alloc);
    let [first, others @ ..] = words else {
        return Ok(text);
    };
    text.extend_from_slice(first.as_slice())?;
    'word: for word in others {
        add_word(&mut text, word.as_slice())?;
    }
    Ok(text)
}

/// Adds a space and the word.
fn add_word(text: &mut Vec<u8>, word: &[u8]) -> Result<(), AllocError>
    ensures { OnOk result (text.new.items ≡ text.old.items ++ space ∷ word.now) }
{
    text.push(b' ')?;
    text.extend_from_slice(word)?;
    Ok(())
}

/// How much of the text a label can hold without cutting a character of UTF-8.
fn kept_len(text: &[u8]) -> usize
    ensures { result ≡ kept_len label_limit text.now }
{
    let mut len = LABEL_LIMIT;
    'back: while len > 0 && continues(text.get(len).copied().unwrap_or(0)) {
        len -= 1;
    }
    len
}

/// Whether the byte continues a character of UTF-8.
fn continues(b: u8) -> bool
    ensures { result ≡ continues b }
{
    (0x80..0xC0).contains(&b)
}

/// The text with a space for each control byte.
fn shown(alloc: Global, text: &[u8]) -> Result<Vec<u8>, AllocError>
    ensures { IfOk result (λ shown. shown.items ≡ map shown_byte text.now) }
{
    let mut shown = Vec::new(alloc);
    'byte: for b in text {
        shown.push(shown_byte(*b))?;
    }
    Ok(shown)
}

/// The byte as a label shows it.
fn shown_byte(b: u8) -> u8
    ensures { result ≡ shown_byte b }
{
    if b >= b' ' && b != 0x7F { b } else { b' ' }
}

//! Field texts: each run of white space made one space.

ghost use Rattle.std.specs.Prelude.{◌≡◌, true, IsTrue, IfOk, IfErr};
ghost use Rattle.bib_spec.specs.Text.{is_space};
ghost use Rattle.bib_spec.specs.Texts.{field_text};
ghost use Rattle.bib_value.specs.Spacing.{can_go_on, neat};
ghost use Rattle.bib_value.specs.declared.fault.ValueFault.TheVariants.{Memory};

use crate::fault::ValueFault;
use bib_text::{Seq, Text, copied};
use std::alloc::Global;

/// Whether the byte is white space.
#[tactic(auto, unfolding(bib_spec::specs::Text::is_space))]
fn is_space(byte: u8) -> bool
    ensures { result ≡ is_space byte }
{
    matches!(byte, b' ' | b'\t' | b'\n' | b'\r')
}

/// Whether a neat text can continue with this byte; if `apart` is true, only with a word. It has no branch.
#[tactic(auto, unfolding(bib_spec::specs::Text::is_space))]
fn can_go_on(apart: bool, byte: u8) -> bool
    ensures { result ≡ can_go_on apart byte }
{
    let is_other = (byte == b'\t') | (byte == b'\n') | (byte == b'\r');
    !is_other & !(apart & (byte == b' '))
}

/// Whether the text is words with one space between each two, and none at its ends: such a text is its own field text. It
/// takes no memory. It compares each byte only with the byte before it, so that many bytes are tested at a time.
pub fn is_neat(text: &[u8]) -> bool
    ensures neat { result ≡ neat true text.now }
    ensures own { IsTrue result → field_text text.now ≡ text.now }
{
    if text.is_empty() {
        return false;
    }
    let mut is_so_far = can_go_on(true, text[0]);
    'bytes: for n in 1..text.len() {
        is_so_far = is_so_far & can_go_on(text[n - 1] == b' ', text[n]);
    }
    is_so_far & (text[text.len() - 1] != b' ')
}

/// The text with each run of white space made one space, and no space at the ends. It takes memory for the text, and time
/// linear in its length. (btxhak; dialect)
pub fn field_text(alloc: Global, bytes: &[u8]) -> Result<Text, ValueFault>
    ensures text { IfOk result (λ text. text ≡ field_text bytes.now) }
    ensures only { IfErr result (λ fault. fault ≡ Memory) }
{
    // most texts are their own field texts
    if is_neat(bytes) {
        return Ok(copied(alloc, bytes)?);
    }
    spaced(alloc, bytes)
}

/// The field text of any text, word by word.
fn spaced(alloc: Global, bytes: &[u8]) -> Result<Text, ValueFault>
    ensures text { IfOk result (λ text. text ≡ field_text bytes.now) }
    ensures only { IfErr result (λ fault. fault ≡ Memory) }
{
    let mut text = Vec::with_capacity(alloc, bytes.len())?;
    let mut apart = false;
    for byte in bytes {
        if is_space(*byte) {
            apart = true;
        } else {
            if apart && !text.is_empty() {
                text.push(b' ')?;
            }
            apart = false;
            text.push(*byte)?;
        }
    }
    Ok(Seq::from_vec(text))
}

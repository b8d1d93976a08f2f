//! The texts that the last call gave.

ghost use Rattle.std.specs.Prelude.{◌≡◌};
ghost use Rattle.std.specs.Option.{option_copied};
ghost use Rattle.bib_c.specs.Texts.{text_given, IsLength, IsCopy};

use bib_answers::Answer;
use bib_text::Text;

/// The output.
const OUTPUT: u32 = 0;

/// The message.
const MESSAGE: u32 = 1;

/// The new file.
const FILE: u32 = 2;

/// The new journal.
const JOURNAL: u32 = 3;

/// The text with this number, if there is one.
fn text_given(answer: &Answer, which: u32) -> Option<&[u8]>
    ensures { option_copied result ≡ text_given which answer.now }
{
    match which {
        OUTPUT => Some(answer.output.as_slice()),
        MESSAGE => Some(answer.outcome.message.as_slice()),
        FILE => lent(&answer.outcome.file),
        JOURNAL => lent(&answer.outcome.journal),
        _ => None,
    }
}

/// A text, if it is there.
fn lent(text: &Option<Text>) -> Option<&[u8]>
    ensures { option_copied result ≡ text.now }
{
    match text {
        Some(text) => Some(text.as_slice()),
        None => None,
    }
}

/// Whether there is a text with this number, and then its length.
pub fn len_given(answer: &Answer, which: u32, len: &mut usize) -> bool
    ensures { IsLength (text_given which answer.now) result len.new }
{
    match text_given(answer, which) {
        Some(text) => {
            *len = text.len();
            true
        }
        None => {
            *len = 0;
            false
        }
    }
}

/// Copies the text with this number, if there is one and it has this length. It says whether it did.
pub fn copy_given(answer: &Answer, which: u32, to: &mut [u8]) -> bool
    ensures { IsCopy (text_given which answer.now) result to.old to.new }
{
    match text_given(answer, which) {
        Some(text) => copy_whole(text, to),
        None => false,
    }
}

/// Copies a text if it has this length.
fn copy_whole(text: &[u8], to: &mut [u8]) -> bool
    ensures { IsCopy (Some text.now) result to.old to.new }
{
    if text.len() != to.len() {
        return false;
    }
    to.copy_from_slice(text);
    true
}

//! Values that continue over several lines.

ghost use Rattle.std.specs.Prelude.{◌≡◌, [], ◌∷◌, IfOk};
ghost use Rattle.ris_text.specs.Trees.{joined};
ghost use Rattle.ris_text.specs.Code.{continuation, after_continuation};

use crate::lines::Lines;
use bib_text::{Seq, Text};
use std::alloc::{AllocError, Global};

/// Adds a text to a value, with a space between them if neither is empty.
fn join(value: &mut Vec<u8>, text: &[u8]) -> Result<(), AllocError>
    ensures { IfOk result (λ _. value.new.items ≡ joined value.old.items (text.now ∷ [])) }
{
    if value.is_empty() || text.is_empty() {
        return value.extend_from_slice(text);
    }
    value.push(b' ')?;
    value.extend_from_slice(text)
}

/// The value with the lines without a tag at the front, which continue it; and the lines after them.
pub(crate) fn continued<'a>(
    alloc: Global,
    value: &[u8],
    lines: Lines<'a>,
) -> Result<(Text, Lines<'a>), AllocError>
    ensures value { IfOk result (λ r. r.0 ≡ joined value.now (continuation lines.entry)) }
    ensures after { IfOk result (λ r. r.1 ≡ after_continuation lines.entry) }
{
    let mut whole = value.to_vec(alloc)?;
    let mut rest = lines;
    'line: while rest.continues() {
        let Some((line, after)) = rest.first() else {
            unreachable!()
        };
        join(&mut whole, line.text)?;
        rest = after;
    }
    Ok((Seq::from_vec(whole), rest))
}

//! Plain texts: tests, copies, and texts joined.

ghost use Rattle.std.specs.Prelude.{◌≡◌, ◌≤◌, IfOk, length, map};
ghost use Rattle.std.specs.List.{slice_range, join_by};
ghost use Rattle.bib_text.specs.Trimming.{trimmed};
ghost use Rattle.bib_names.specs.Label.{balances};
ghost use Rattle.ris_format.specs.Lines.{has_bytes};
ghost use Rattle.ris_format.specs.People.{with_comma, in_braces};

use bib_scan::is_balanced;
use bib_text::{Seq, Text, trimmed};
use std::alloc::{AllocError, Global};

/// The text between two places, without white space at its ends.
pub(crate) fn piece_between(text: &[u8], start: usize, end: usize) -> &[u8]
    requires ordered { start ≤ end }
    requires within { end ≤ length text.now }
    ensures { result.now ≡ trimmed (slice_range text.now start end) }
{
    trimmed(&text[start..end])
}

/// Whether the text has a byte.
pub(crate) fn has_bytes(text: &[u8]) -> bool
    ensures { result ≡ has_bytes text.now }
{
    match text {
        [] => false,
        [_, ..] => true,
    }
}

/// Whether the braces of the text balance.
pub(crate) fn balances(text: &[u8]) -> bool
    ensures { result ≡ balances text.now }
{
    is_balanced(text)
}

/// A copy of the text, with room for braces around it.
pub(crate) fn copy_with_room(alloc: Global, text: &[u8]) -> Result<Text, AllocError>
    ensures { IfOk result (λ t. t ≡ text.now) }
{
    let mut out = Vec::with_capacity(alloc, text.len() + 2)?;
    out.extend_from_slice(text)?;
    Ok(Seq::from_vec(out))
}

/// The two texts with a comma and a space between them.
pub(crate) fn with_comma(alloc: Global, text: &[u8], more: &[u8]) -> Result<Text, AllocError>
    ensures { IfOk result (λ t. t ≡ with_comma text.now more.now) }
{
    let len = text.len().saturating_add(more.len()).saturating_add(2);
    let mut out = Vec::with_capacity(alloc, len)?;
    out.extend_from_slice(text)?;
    out.extend_from_slice(b", ")?;
    out.extend_from_slice(more)?;
    Ok(Seq::from_vec(out))
}

/// The text in braces. It takes memory only if the text has no room for them.
pub(crate) fn in_braces(text: Text) -> Result<Text, AllocError>
    ensures { IfOk result (λ t. t ≡ in_braces text) }
{
    let mut bytes = text.into_vec();
    bytes.insert(0, b'{')?;
    bytes.push(b'}')?;
    Ok(Seq::from_vec(bytes))
}

/// The texts, with this text between each two.
pub(crate) fn join(alloc: Global, between: &[u8], texts: &[&[u8]]) -> Result<Text, AllocError>
    ensures { IfOk result (λ t. t ≡ join_by (λ x. x) between.now (map (λ x. x.now) texts.now)) }
{
    let [first, rest @ ..] = texts else {
        return Ok(Seq::empty(alloc));
    };
    let mut out = Vec::from_slice(alloc, first)?;
    for text in rest {
        out.extend_from_slice(between)?;
        out.extend_from_slice(text)?;
    }
    Ok(Seq::from_vec(out))
}

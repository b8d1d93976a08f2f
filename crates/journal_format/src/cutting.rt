//! Cutting a text at a byte.

ghost use Rattle.std.specs.Prelude.{◌≡◌, ◌≤◌, ◌==◌, not, length, IfSome, IfNone};
ghost use Rattle.std.specs.List.{prefix_len};
ghost use Rattle.journal_format.specs.Wrong.{IsCut, IsFreeOf};

/// The number of bytes before the first byte equal to `byte`; without one, the length of the text.
fn len_before(byte: u8, text: &[u8]) -> usize
    ensures len { result ≡ prefix_len (λ b. not (b == byte)) text.now }
    ensures within { result ≤ length text.now }
{
    text.iter().take_while(|b| **b != byte).count()
}

/// The text before the first such byte, and the text after it.
pub(crate) fn cut(byte: u8, text: &[u8]) -> Option<(&[u8], &[u8])>
    ensures found { IfSome result (λ parts. IsCut byte text.now parts.0.now parts.1.now) }
    ensures none { IfNone result (IsFreeOf byte text.now) }
{
    let (before, rest) = text.split_at(len_before(byte, text));
    match rest {
        [_byte, after @ ..] => Some((before, after)),
        [] => None,
    }
}

//! What a style keeps of a text of an entry.

ghost use Rattle.std.specs.Prelude.{◌≡◌, ◌≤◌, ◌==◌, not, length, take};
ghost use Rattle.std.specs.List.{prefix_len};
ghost use Rattle.bib_spec.specs.Bytes.{delete};
ghost use Rattle.bibtex_labels.specs.Order.{kept};

/// The most bytes that a style keeps of a text of an entry.
pub(crate) const KEPT_LIMIT: usize = 500;

/// How many bytes there are before the first DEL.
fn before_delete(text: &[u8]) -> usize
    ensures len { result ≡ prefix_len (λ b. not (b == delete)) text.now }
    ensures within { result ≤ length text.now }
{
    text.iter().take_while(|b| **b != 0x7f).count()
}

/// The first bytes of a text, so many of them.
pub(crate) fn first_bytes(text: &[u8], count: usize) -> &[u8]
    ensures { result.now ≡ take count text.now }
{
    if count < text.len() {
        text.split_at(count).0
    } else {
        text
    }
}

/// What a style keeps of a text of an entry.
pub(crate) fn kept(text: &[u8]) -> &[u8]
    ensures { result.now ≡ kept text.now }
{
    let text = first_bytes(text, KEPT_LIMIT);
    text.split_at(before_delete(text)).0
}

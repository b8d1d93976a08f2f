//! Texts without white space at their ends.

ghost use Rattle.std.specs.Prelude.{◌≡◌, ◌≤◌, length};
ghost use Rattle.std.specs.List.{prefix_len};
ghost use Rattle.bib_spec.specs.Text.{is_space, after_run};
ghost use Rattle.bib_text.specs.Trimming.{before_run, trimmed};

/// Whether the byte is white space: a space, a tab, a line feed or a carriage return. (dialect)
#[tactic(auto, unfolding(bib_spec::specs::Text::is_space))]
pub fn is_space(byte: u8) -> bool
    ensures { result ≡ is_space byte }
{
    matches!(byte, b' ' | b'\t' | b'\n' | b'\r')
}

/// The number of bytes of white space at the front of the text.
fn space_len(text: &[u8]) -> usize
    ensures len { result ≡ prefix_len is_space text.now }
    ensures within { result ≤ length text.now }
{
    text.iter().take_while(|b| is_space(**b)).count()
}

/// The text after the white space at its front.
fn after_space(text: &[u8]) -> &[u8]
    ensures { result.now ≡ after_run is_space text.now }
{
    text.split_at(space_len(text)).1
}

/// The text before the white space at its end.
fn before_space(text: &[u8]) -> &[u8]
    ensures { result.now ≡ before_run is_space text.now }
{
    let mut end = text.len();
    while end > 0 && is_space(text[end - 1]) {
        end -= 1;
    }
    &text[..end]
}

/// The text without the white space at its ends. It takes time in the length of that white space, and no memory.
pub fn trimmed(text: &[u8]) -> &[u8]
    ensures { result.now ≡ trimmed text.now }
{
    before_space(after_space(text))
}

//! Classes of bytes, plain tests of texts, and names without the separators and commas at their ends.

ghost use Rattle.std.specs.Prelude.{◌≡◌, ◌||◌, ◌==◌};
ghost use Rattle.std.specs.List.{list_all};
ghost use Rattle.bib_spec.specs.Text.{is_space};
ghost use Rattle.bib_names.specs.Marks.{is_separator, is_dropped_at_end, goes_on};
ghost use Rattle.bib_names.specs.Name.{without_end};

use bib_text::is_space;

/// Whether the byte separates words. (btxhak 5.4)
pub(crate) fn is_separator(byte: u8) -> bool
    ensures { result ≡ is_separator byte }
{
    is_space(byte) || byte == b'~' || byte == b'-'
}

/// Whether the byte is dropped at the end of a name.
fn is_dropped_at_end(byte: u8) -> bool
    ensures { result ≡ is_dropped_at_end byte }
{
    is_separator(byte) || byte == b','
}

/// Whether the byte continues the character before it. (dialect)
pub(crate) fn goes_on(byte: u8) -> bool
    ensures { result ≡ goes_on byte }
{
    byte >= 0x80 && byte < 0xc0
}

/// Whether the text is white space alone.
pub(crate) fn is_blank(text: &[u8]) -> bool
    ensures { result ≡ list_all is_space text.now }
{
    text.iter().all(|b| is_space(*b))
}

/// The text of a name without the separators and commas at its end.
pub(crate) fn without_end(text: &[u8]) -> &[u8]
    ensures { result.now ≡ without_end text.now }
{
    let mut end = text.len();
    while end > 0 && is_dropped_at_end(text[end - 1]) {
        end -= 1;
    }
    &text[..end]
}

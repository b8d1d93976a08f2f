//! The commas of a name, and its end.

ghost use Rattle.std.specs.Prelude.{◌≡◌, ◌<◌, ◌≤◌, ◌==◌, ◌||◌, [], IfSome, IfNone, true, length};
ghost use Rattle.bib_names.specs.Marks.{is_dropped_at_end};
ghost use Rattle.bib_names.specs.Places.{is_level};
ghost use Rattle.bib_names.specs.Name.{is_comma, without_end};
ghost use Rattle.bib_names.specs.FirstComma.{commas_from, IsFirstComma};

use crate::braces::Braces;
use bib_text::is_space;

/// Whether the byte is dropped at the end of a name.
fn is_dropped_at_end(byte: u8) -> bool
    ensures { result ≡ is_dropped_at_end byte }
{
    is_space(byte) || byte == b'~' || byte == b'-' || byte == b','
}

/// The text of a name without the separators and commas at its end.
pub(crate) fn without_end(text: &[u8]) -> &[u8]
    ensures { result.now ≡ without_end text.now }
{
    let mut end = text.len();
    while end > 0 && is_dropped_at_end(text[end - 1]) {
        end -= 1;
    }
    &text[..end]
}

/// Whether a comma is at the place, at depth 0.
fn is_comma(text: &[u8], place: usize, braces: Braces) -> bool
    requires within { place < length text.now }
    requires braces { (braces.opened == braces.closed) ≡ is_level text.now place }
    ensures { result ≡ is_comma text.now place }
{
    braces.are_level() && text[place] == b','
}

/// The first comma at depth 0 from a place of depth 0 on.
pub(crate) fn comma_from(text: &[u8], start: usize) -> Option<usize>
    requires within { start ≤ length text.now }
    requires level { is_level text.now start ≡ true }
    ensures found { IfSome result (IsFirstComma text.now start) }
    ensures none { IfNone result (commas_from text.now start ≡ []) }
{
    let mut braces = Braces::none();
    for place in start..text.len() {
        if is_comma(text, place, braces) {
            return Some(place);
        }
        braces = braces.and(text[place]);
    }
    None
}

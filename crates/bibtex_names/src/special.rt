//! Special characters.

ghost use Rattle.std.specs.Prelude.{◌≡◌, ◌<◌, ◌==◌, ◌&&◌, length, IfSome, IfNone, true, false};
ghost use Rattle.bib_names.specs.Places.{is_level};
ghost use Rattle.bib_names.specs.Special.{is_opening, begins_special, next_level};
ghost use Rattle.bib_names.specs.Scanning.{IsGroupEnd, IsSpecial};

use crate::braces::Braces;

/// The end of the group that begins at a place of depth 0.
fn group_end(text: &[u8], place: usize) -> Option<usize>
    requires within { place < length text.now }
    requires level { is_level text.now place ≡ true }
    ensures found { IfSome result (IsGroupEnd text.now place) }
    ensures none { IfNone result (is_level text.now (next_level text.now place) ≡ false) }
{
    let mut braces = Braces::none();
    for last in place..text.len() {
        braces = braces.and(text[last]);
        if braces.are_level() {
            return Some(last + 1);
        }
    }
    None
}

/// Whether an opening brace is at the place, and a backslash after it.
fn is_opening(text: &[u8], place: usize) -> bool
    requires { place < length text.now }
    ensures { result ≡ is_opening text.now place }
{
    text[place] == b'{' && text.len() - place > 1 && text[place + 1] == b'\\'
}

/// Whether an opening brace is at the place, at depth 0, and a backslash after it.
fn is_level_opening(text: &[u8], place: usize, braces: Braces) -> bool
    requires within { place < length text.now }
    requires braces { (braces.opened == braces.closed) ≡ is_level text.now place }
    ensures { result ≡ (is_level text.now place && is_opening text.now place) }
{
    braces.are_level() && is_opening(text, place)
}

/// The end of the special character that begins at the place, if one does.
pub(crate) fn special_end(text: &[u8], place: usize, braces: Braces) -> Option<usize>
    requires within { place < length text.now }
    requires braces { (braces.opened == braces.closed) ≡ is_level text.now place }
    ensures found { IfSome result (IsSpecial text.now place) }
    ensures none { IfNone result (begins_special text.now place ≡ false) }
{
    if is_level_opening(text, place, braces) {
        group_end(text, place)
    } else {
        None
    }
}

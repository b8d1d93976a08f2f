//! How BibTeX counts characters of what a group has printed.

ghost use Rattle.std.specs.Prelude.{◌≡◌, ◌≤◌, ◌<◌, ◌+◌, ◌^◌, ◌==◌, length};
ghost use Rattle.bibtex_names.specs.Counting.{char_len, depth_after, three};

use crate::braces::Braces;
use crate::letters::{group_len, opens_special};

/// A count of characters: whether there are as many as are wanted, and whether it stopped inside braces.
#[derive(Clone, Copy, Debug, PartialEq, Eq)]
pub(crate) struct Count {
    pub is_enough: bool,
    pub is_open: bool,
}

/// How many bytes the first character has.
fn char_len(text: &[u8], depth: usize) -> usize
    requires { 0 < length text.now }
    ensures len { result ≡ char_len depth text.now }
    ensures within { result ≤ length text.now }
    ensures some { 0 < result }
{
    if depth == 0 && opens_special(text) {
        group_len(text)
    } else {
        1
    }
}

/// The depth after these bytes.
fn depth_after(depth: usize, bytes: &[u8]) -> usize
    requires { depth + length bytes.now < 2 ^ 64 }
    ensures after { result ≡ depth_after depth bytes.now }
    ensures within { result ≤ depth + length bytes.now }
{
    let braces = Braces::none().over(bytes);
    braces.depth_from(depth)
}

/// Whether three characters are in the text, for a count that begins inside braces if the one before it stopped there.
pub(crate) fn three(text: &[u8], is_open: bool) -> Count
    ensures { result ≡ three is_open text.now }
{
    let mut depth = usize::from(is_open);
    let mut rest = text;
    let mut wanted = 3usize;
    while wanted > 0 && !rest.is_empty() {
        let (character, after) = rest.split_at(char_len(rest, depth));
        depth = depth_after(depth, character);
        rest = after;
        wanted -= 1;
    }
    Count {
        is_enough: wanted == 0,
        is_open: depth > 0,
    }
}

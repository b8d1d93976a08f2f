//! The pieces of a text: its special characters, and its other bytes one by one.

ghost use Rattle.std.specs.Prelude.{◌≡◌, ◌<◌, ◌≤◌, ◌+◌, ◌^◌, ◌∷◌, ◌++◌, [], length, map, IfSome, IfNone};
ghost use Rattle.std.specs.List.{prefix_len};
ghost use Rattle.bib_names.specs.Template.{is_no_brace};
ghost use Rattle.bibtex_labels.specs.Pieces.{depth_after, inside_len, begins_special, pieces, single, is_character};

use std::marker::Model;

/// How many braces are open after a byte.
pub(crate) fn depth_after(depth: usize, byte: u8) -> usize
    requires { depth + 1 < 2 ^ 64 }
    ensures depth { result ≡ depth_after depth byte }
    ensures within { result ≤ depth + 1 }
{
    match byte {
        b'{' => depth + 1,
        b'}' => depth.saturating_sub(1),
        _ => depth,
    }
}

/// How many bytes there are up to the brace that closes the one before the text.
fn inside_len(text: &[u8]) -> usize
    ensures len { result ≡ inside_len 1 text.now }
    ensures within { result ≤ length text.now }
{
    let mut depth = 1;
    for len in 0..text.len() {
        if depth == 0 {
            return len;
        }
        depth = depth_after(depth, text[len]);
    }
    text.len()
}

/// Whether a special character begins with the byte, which has this text after it.
fn begins_special(depth: usize, byte: u8, after: &[u8]) -> bool
    ensures { result ≡ begins_special depth byte after.now }
{
    depth == 0 && byte == b'{' && after.first() == Some(&b'\\')
}

/// How many bytes there are before the first brace.
fn plain_len(text: &[u8]) -> usize
    ensures len { result ≡ prefix_len is_no_brace text.now }
    ensures within { result ≤ length text.now }
{
    text.iter()
        .take_while(|b| **b != b'{' && **b != b'}')
        .count()
}

/// The pieces of a text that are still to come, from the front. They take no memory.
#[derive(Drop)]
pub(crate) struct Pieces<'a> {
    text: &'a [u8],
    depth: usize,
}

impl<'a> Model for Pieces<'a> {
    ghost use Rattle.std.specs.Prelude.{ℕ, List, ◌<◌, ◌+◌, ◌^◌, length};
    ghost use Rattle.bibtex_labels.specs.Pieces.{pieces_from};

    ghost Value = { List (List ℕ) };

    ghost view = { λ p. pieces_from p.depth 0 p.text.now };

    ghost invariant = { λ p. p.depth + length p.text.now < 2 ^ 64 };
}

impl<'a> Pieces<'a> {
    /// The pieces of a text.
    pub fn of(text: &'a [u8]) -> Self
        ensures { result ≡ pieces text.now }
    {
        Pieces { text, depth: 0 }
    }

    /// The first of them, and those after it.
    pub fn next(self) -> Option<(&'a [u8], Pieces<'a>)>
        ensures some { IfSome result (λ r. self.entry ≡ r.0.now ∷ r.1) }
        ensures none { IfNone result (self.entry ≡ []) }
    {
        let (text, depth) = (self.text, self.depth);
        let (byte, after) = text.split_first()?;
        if begins_special(depth, *byte, after) {
            let (piece, text) = text.split_at(1 + inside_len(after));
            return Some((piece, Pieces { text, depth: 0 }));
        }
        let (piece, text) = text.split_at(1);
        let depth = depth_after(depth, *byte);
        Some((piece, Pieces { text, depth }))
    }

    /// The bytes before the next brace, and the pieces after them.
    pub fn split_plain(self) -> (&'a [u8], Pieces<'a>)
        ensures { self.entry ≡ map single result.0.now ++ result.1 }
    {
        let (text, depth) = (self.text, self.depth);
        let (plain, text) = text.split_at(plain_len(text));
        (plain, Pieces { text, depth })
    }
}

/// Whether the piece is a text character.
pub(crate) fn is_character(piece: &[u8]) -> bool
    ensures { result ≡ is_character piece.now }
{
    !(piece == b"{".as_slice() || piece == b"}".as_slice())
}

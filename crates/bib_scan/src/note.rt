//! Notes that the reader takes of items, so that heads and rows need not be read again.

ghost use Rattle.std.specs.Prelude.{◌≡◌, ◌≤◌, ◌<◌, ◌^◌, IfSome};
ghost use Rattle.bib_spec.specs.Bytes.{name_limit};
ghost use Rattle.bib_scan.specs.NotesLeft.{place_left, note_from};

use crate::fields::{FieldView, split_row};
use crate::spans::text_from;

/// What is noted of an entry while the text is read: the number of bytes left from its key on, the length of the key, and
/// the number of bytes left from the comma of the first row named `crossref` on, which is 0 if there is no such row.
#[derive(Clone, Copy)]
pub(crate) struct EntryHead {
    pub key_left: usize,
    pub key_len: usize,
    pub crossref_left: usize,
}

/// The note of an entry: the place of its key in its body, in bytes from 0; the key's length; and the place of the comma of
/// its first row named `crossref`, or 0 if there is none. For other items all three are 0.
#[derive(Clone, Copy, Debug, PartialEq, Eq)]
pub struct Note {
    pub(crate) key_at: u32,
    pub(crate) crossref_at: u32,
    pub(crate) key_len: u8,
}

impl Note {
    ghost use Rattle.std.specs.Option.{option_map};
    ghost use Rattle.bib_spec.specs.Tree.{Tree, IsTree, tree_bytes};
    ghost use Rattle.bib_scan.specs.View.{field_seen};
    ghost use Rattle.bib_scan.specs.Note.{crossref_field, note_of};

    /// The note of an item at the front of a text of `total` bytes, from what was noted of it if it is an entry.
    pub(crate) fn of(total: usize, head: Option<EntryHead>) -> Self
        requires short { total < 2 ^ 32 }
        requires key { IfSome head (λ h. h.key_left ≤ total) }
        requires crossref { IfSome head (λ h. h.crossref_left ≤ total) }
        requires key_len { IfSome head (λ h. h.key_len ≤ name_limit) }
        ensures { result ≡ note_from total head }
    {
        match head {
            Some(head) => Note {
                key_at: (total - head.key_left) as u32,
                crossref_at: place_left(total, head.crossref_left) as u32,
                key_len: head.key_len as u8,
            },
            None => Note {
                key_at: 0,
                crossref_at: 0,
                key_len: 0,
            },
        }
    }

    /// The first row named `crossref`, in any case, of the entry with this body and this note. It takes time linear in the
    /// row's length.
    pub fn crossref(self, body: &[u8]) -> Option<FieldView<'_>>
        ensures { (tree : Tree) → IsTree name_limit tree → tree_bytes tree ≡ body.now → self ≡ note_of tree → option_map field_seen result ≡ crossref_field tree }
    {
        let at = self.crossref_at as usize;
        if at == 0 || at > body.len() {
            return None;
        }
        match split_row(body.len(), text_from(body, at)) {
            Ok((field, _)) => Some(field),
            Err(_) => None,
        }
    }
}

/// The place in a text of `total` bytes from which `left` bytes are left; 0 if `left` is 0.
fn place_left(total: usize, left: usize) -> usize
    requires { left ≤ total }
    ensures place { result ≡ place_left total left }
    ensures within { result ≤ total }
{
    if left == 0 { 0 } else { total - left }
}

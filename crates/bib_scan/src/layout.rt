//! The places of the front and the items in a file.

ghost use Rattle.std.specs.Prelude.{◌≡◌};

use crate::note::Note;
use crate::spans::text_from;
use crate::view::ItemView;
use bib_text::Seq;
use std::marker::Model;

/// Where the body of an item lies: its first byte, and the first byte after it.
#[derive(Clone, Copy, Debug, PartialEq, Eq)]
pub(crate) struct Span {
    pub start: u32,
    pub end: u32,
}

impl Span {
    ghost use Rattle.std.specs.Prelude.{◌≡◌, ◌≤◌, ◌<◌, ◌-◌, ◌^◌};
    ghost use Rattle.bib_scan.specs.LeftToRight.{span};

    /// The span of a body in a text of `total` bytes, if `from` bytes are left at the body's first byte and `after` bytes
    /// after it.
    pub fn of_left(total: usize, from: usize, after: usize) -> Self
        requires short { total < 2 ^ 32 }
        requires from { from ≤ total }
        requires after { after ≤ total }
        ensures { result ≡ span (total - from) (total - after) }
    {
        Span {
            start: (total - from) as u32,
            end: (total - after) as u32,
        }
    }
}

/// Where the front and the items of a file lie: places in bytes, from 0. Each view of it is a slice of the bytes that were
/// read, and takes constant time. It also has the note of each item.
#[derive(Drop)]
pub struct Layout {
    front_len: usize,
    items: Vec<Span>,
    notes: Vec<Note>,
}

impl Model for Layout {
    ghost use Rattle.bib_scan.specs.Layout.{Places};

    ghost Value = { Places };

    ghost view = { λ l. record { front_len = l.front_len; items = l.items.items; notes = l.notes.items } };
}

impl Layout {
    ghost use Rattle.std.specs.Prelude.{◌≡◌, ◌<◌, length, slice_get, Some};
    ghost use Rattle.bib_spec.specs.Tree.{tree_bytes};
    ghost use Rattle.bib_spec.specs.Reading.{Reading, Item, Reads};
    ghost use Rattle.bib_scan.specs.Layout.{places_of, placed, trail_end, IsLayoutOf};
    ghost use Rattle.bib_scan.specs.View.{view_of};

    /// The layout of a file with a front of `front_len` bytes, and with item bodies at these spans and these notes.
    pub(crate) fn new(front_len: usize, items: Vec<Span>, notes: Vec<Note>) -> Self
        ensures { result ≡ placed front_len items.items notes.items }
    {
        Layout {
            front_len,
            items,
            notes,
        }
    }

    /// The number of items in the file.
    pub fn len(&self) -> usize
        ensures count { result ≡ length self.now.items }
        ensures items { (db : Reading) → self.now ≡ places_of db → result ≡ length db.items }
    {
        self.items.len()
    }

    /// The text before the first item.
    pub fn front<'a>(&self, bytes: &'a [u8]) -> &'a [u8]
        requires { IsLayoutOf bytes.now self.now }
        ensures { (db : Reading) → Reads bytes.now db → result.now ≡ db.front }
    {
        bytes.split_at(self.front_len).0
    }

    /// The body of item n, from its at-sign to its closing delimiter; the body of a comment is its head alone. It takes
    /// constant time.
    pub fn body<'a>(&self, bytes: &'a [u8], n: usize) -> &'a [u8]
        requires layout { IsLayoutOf bytes.now self.now }
        requires n_in_range { n < length self.now.items }
        ensures { (db : Reading) (i : Item) → Reads bytes.now db → slice_get db.items n ≡ Some i → result.now ≡ tree_bytes i.tree }
    {
        let body = self.items[n];
        text_from(bytes, body.start as usize)
            .split_at((body.end - body.start) as usize)
            .0
    }

    /// Item n, as slices of the file. It reads the head of the item's body, in time linear in the head's length.
    pub fn item<'a>(&'a self, bytes: &'a [u8], n: usize) -> ItemView<'a>
        requires layout { IsLayoutOf bytes.now self.now }
        requires n_in_range { n < length self.now.items }
        ensures { (db : Reading) (i : Item) → Reads bytes.now db → slice_get db.items n ≡ Some i → result ≡ view_of i }
    {
        ItemView::of(self.body(bytes, n), self.trail(bytes, n))
    }

    /// Where the trail of item n ends.
    fn trail_end(&self, bytes: &[u8], n: usize) -> usize
        requires { n < length self.now.items }
        ensures { result ≡ trail_end bytes.now self.now n }
    {
        match self.items.get(n + 1) {
            Some(next) => next.start as usize,
            None => bytes.len(),
        }
    }

    /// The trail of item n, up to the next item or to the end of the file. It takes constant time.
    pub fn trail<'a>(&self, bytes: &'a [u8], n: usize) -> &'a [u8]
        requires layout { IsLayoutOf bytes.now self.now }
        requires n_in_range { n < length self.now.items }
        ensures { (db : Reading) (i : Item) → Reads bytes.now db → slice_get db.items n ≡ Some i → result.now ≡ i.trail }
    {
        let body = self.items[n];
        let end = self.trail_end(bytes, n);
        let start = body.end as usize;
        text_from(bytes, start).split_at(end - start).0
    }

    /// The notes of the items, in order. The memory of the places is freed.
    pub fn into_notes(self) -> Seq<Note>
        ensures { result ≡ self.notes }
    {
        Seq::from_vec(self.notes)
    }
}

//! How many bytes a splice has to read: the number that `last_scan` tells.

ghost use Rattle.std.specs.Prelude.{◌≡◌, ◌≤◌, ◌+◌, length};
ghost use Rattle.bib_spec.specs.Bytes.{file_limit};
ghost use Rattle.bib_store.specs.Stored.{file_of};

use crate::touching::touched;
use crate::window::Window;
use bib_data::Piece;
use bib_items::ItemList;
use std::alloc::{AllocError, Global};

/// Neighbouring items that pieces touch: the bytes from place `start` of the old file up to place `end`, where item `next`
/// begins. In the new file they begin at `begun`.
#[derive(Clone, Copy)]
struct Stretch {
    start: usize,
    end: usize,
    next: usize,
    begun: usize,
}

/// The windows of a splice. A window is the new text of neighbouring items that its pieces touch.
#[derive(Drop)]
pub(crate) struct Scan {
    // how many bytes the windows so far have together
    sum: usize,
    // where these begin and end in the new file, but for one that begins the file
    edges: Vec<usize>,
    // how many new bytes the pieces so far have, and how many bytes they replace
    added: usize,
    removed: usize,
}

impl Scan {
    /// The windows that these pieces make. It takes time in the number of pieces and, for each, in the logarithm of the count
    /// of pages.
    pub(crate) fn of<L: ItemList>(
        alloc: Global,
        front: &[u8],
        items: &L,
        file_len: usize,
        pieces: &[Piece],
    ) -> Result<Scan, AllocError>
        requires len { file_len ≡ length (file_of front.now (L.items items.now)) }
        requires short { file_len ≤ file_limit }
    {
        let mut scan = Scan {
            sum: 0,
            edges: Vec::new(alloc),
            added: 0,
            removed: 0,
        };
        let mut open = None;
        'pieces: for k in 0..pieces.len() {
            let piece = &pieces[k];
            open = match widened(items, open, piece) {
                Some(stretch) => Some(stretch),
                None => {
                    let window = touched(front, items, file_len, &pieces[k..k + 1]);
                    let end = front.len().saturating_add(items.start(window.to));
                    Some(scan.opened(open, window, end)?)
                }
            };
            scan.count(piece);
        }
        scan.close(open)?;
        Ok(scan)
    }

    /// The stretch of a window that ends at `end`, joined to the one before if that touches it. Otherwise that one is closed.
    fn opened(
        &mut self,
        before: Option<Stretch>,
        window: Window,
        end: usize,
    ) -> Result<Stretch, AllocError> {
        if let Some(last) = before {
            if window.place <= last.end {
                return Ok(Stretch {
                    end: last.end.max(end),
                    next: last.next.max(window.to),
                    ..last
                });
            }
        }
        self.close(before)?;
        Ok(Stretch {
            start: window.place,
            end,
            next: window.to,
            begun: self.moved(window.place),
        })
    }

    /// Counts the window of a stretch whose pieces are all counted.
    fn close(&mut self, stretch: Option<Stretch>) -> Result<(), AllocError> {
        if let Some(stretch) = stretch {
            let end = self.moved(stretch.end);
            self.sum = self.sum.saturating_add(end.saturating_sub(stretch.begun));
            if stretch.start > 0 {
                self.edges.push(stretch.begun)?;
            }
            self.edges.push(end)?;
        }
        Ok(())
    }

    /// Counts a piece.
    fn count(&mut self, piece: &Piece) {
        self.added = self.added.saturating_add(piece.new.as_slice().len());
        self.removed = self.removed.saturating_add(piece.old.as_slice().len());
    }

    /// The place in the new file of a place in the old one that is after the pieces so far.
    fn moved(&self, place: usize) -> usize {
        place
            .saturating_add(self.added)
            .saturating_sub(self.removed)
    }

    /// How many bytes had to be read for the new file, which has this front and these items: those of the windows, if each can
    /// be read by itself, or else those of the file. A window can if an item begins where it begins and where it ends, since
    /// no item looks past its trail.
    pub(crate) fn bytes<L: ItemList>(&self, front: &[u8], items: &L, file_len: usize) -> usize
        requires len { file_len ≡ length (file_of front.now (L.items items.now)) }
        requires short { file_len ≤ file_limit }
    {
        for place in &self.edges {
            if !is_between(front, items, file_len, *place) {
                return file_len;
            }
        }
        self.sum
    }
}

/// The stretch with what the piece touches, if that is no more than the stretch and the item after it. This is quick, and is
/// what most pieces touch if there are many.
fn widened<L: ItemList>(items: &L, stretch: Option<Stretch>, piece: &Piece) -> Option<Stretch> {
    let stretch = stretch?;
    let start = piece.place as usize;
    let end = start.saturating_add(piece.old.as_slice().len());
    if stretch.start < start && end <= stretch.end {
        return Some(stretch);
    }
    if start <= stretch.end || stretch.next >= items.count() {
        return None;
    }
    let (body, trail) = items.texts(stretch.next);
    let item_end = stretch
        .end
        .saturating_add(body.len())
        .saturating_add(trail.len());
    if end > item_end || start > item_end {
        return None;
    }
    Some(Stretch {
        end: item_end,
        next: stretch.next.saturating_add(1),
        ..stretch
    })
}

/// Whether an item begins at this place of the file, or the file ends there.
fn is_between<L: ItemList>(front: &[u8], items: &L, file_len: usize, place: usize) -> bool
    requires len { file_len ≡ length (file_of front.now (L.items items.now)) }
    requires short { file_len ≤ file_limit }
{
    if place >= file_len {
        return true;
    }
    if place < front.len() {
        return false;
    }
    let at = place - front.len();
    items.start(items.item_at(at)) == at
}

//! Which items pieces touch.

ghost use Rattle.std.specs.Prelude.{◌≡◌, ◌+◌, ◌≤◌, ◌<◌, length, IsTrue};
ghost use Rattle.std.specs.List.{flat_map};
ghost use Rattle.bib_spec.specs.Bytes.{file_limit};
ghost use Rattle.bib_items.specs.Items.{kept_bytes};
ghost use Rattle.bib_store.specs.Stored.{file_of};
ghost use Rattle.bib_store.specs.Windows.{IsWindow, bytes_before};

use crate::window::Window;
use bib_data::Piece;
use bib_items::ItemList;

/// The item that has the byte before this place of the file, or the item count if the file ends before that byte. The front
/// has `front_len` bytes.
fn holder<L: ItemList>(front_len: usize, file_len: usize, items: &L, place: usize) -> usize
    requires len { file_len ≡ front_len + length (flat_map kept_bytes (L.items items.now)) }
    requires short { file_len ≤ file_limit }
    ensures { result ≤ length (L.items items.now) }
{
    if place <= front_len {
        return 0;
    }
    if file_len < place {
        return items.count();
    }
    items.item_at(place - front_len - 1)
}

/// How many items begin before this place of the file.
fn begun_before<L: ItemList>(front_len: usize, file_len: usize, items: &L, place: usize) -> usize
    requires len { file_len ≡ front_len + length (flat_map kept_bytes (L.items items.now)) }
    requires short { file_len ≤ file_limit }
    ensures { result ≤ length (L.items items.now) }
{
    if place <= front_len {
        return 0;
    }
    items.count().min(holder(front_len, file_len, items, place).saturating_add(1))
}

/// Whether item `n`, which begins at `start`, does not end before `end`.
fn ends_within<L: ItemList>(items: &L, n: usize, start: usize, end: usize) -> bool
    requires { n ≤ length (L.items items.now) }
    ensures { IsTrue result → n < length (L.items items.now) }
{
    if n >= items.count() {
        return false;
    }
    let (body, trail) = items.texts(n);
    end <= start.saturating_add(body.len()).saturating_add(trail.len())
}

/// The window from the first item that the first piece touches to the last item that the last piece touches. A piece
/// touches what has the byte before the piece, or a byte that it replaces: the front, an item's body or its trail. If the
/// pieces fit no file, it is some window.
pub(crate) fn touched<L: ItemList>(
    front: &[u8],
    items: &L,
    file_len: usize,
    pieces: &[Piece],
) -> Window
    requires len { file_len ≡ length (file_of front.now (L.items items.now)) }
    requires short { file_len ≤ file_limit }
    ensures window { IsWindow (L.items items.now) result }
    ensures place { result.place ≡ length (bytes_before result front.now (L.items items.now)) }
{
    let (Some(first), Some(last)) = (pieces.first(), pieces.last()) else {
        return Window {
            from: 0,
            to: 0,
            with_front: true,
            place: 0,
        };
    };
    let place = first.place as usize;
    let end = (last.place as usize).saturating_add(last.old.as_slice().len());
    if place <= front.len() {
        return Window {
            from: 0,
            to: begun_before(front.len(), file_len, items, end),
            with_front: true,
            place: 0,
        };
    }
    let from = holder(front.len(), file_len, items, place);
    let start = front.len() + items.start(from);
    let to = if ends_within(items, from, start, end) {
        from.saturating_add(1)
    } else {
        begun_before(front.len(), file_len, items, end)
    };
    Window {
        from,
        to: from.max(to),
        with_front: false,
        place: start,
    }
}

/// The window without what its pieces may touch only by its end: the front, or else the first item.
pub(crate) fn without_first<L: ItemList>(
    front: &[u8],
    items: &L,
    file_len: usize,
    window: Window,
) -> Window
    requires window { IsWindow (L.items items.now) window }
    requires len { file_len ≡ length (file_of front.now (L.items items.now)) }
    requires short { file_len ≤ file_limit }
    ensures window { IsWindow (L.items items.now) result }
    ensures place { result.place ≡ length (bytes_before result front.now (L.items items.now)) }
{
    let from = if window.with_front {
        0
    } else {
        window.to.min(window.from.saturating_add(1))
    };
    Window {
        from,
        to: window.to,
        with_front: false,
        place: front.len() + items.start(from),
    }
}

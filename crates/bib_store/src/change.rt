//! What replaces a window of a file.

ghost use Rattle.std.specs.Prelude.{◌≡◌, ◌≤◌, ◌⊎◌, true, false, [], length, None, IfOk, IfErr};
ghost use Rattle.std.specs.Option.{IfSome, unwrap_or};
ghost use Rattle.bib_spec.specs.Bytes.{file_limit};
ghost use Rattle.bib_spec.specs.Text.{Text as Bytes};
ghost use Rattle.bib_spec.specs.Reading.{Reading, Reads, HasReading};
ghost use Rattle.bib_scan.specs.Layout.{IsLayoutOf};
ghost use Rattle.bib_store.specs.Runs.{LieIn};
ghost use Rattle.bib_store.specs.Stored.{file_of};
ghost use Rattle.bib_store.specs.Windows.{IsWindow, IsWhole, IsChange, Serve, front_after, bytes_before};
ghost use Rattle.bib_items.specs.declared.fault.StoreFault.TheVariants.{Memory, BadSplice};

use crate::touching::without_first;
use crate::window::{Window, text_of};
use bib_data::Piece;
use bib_items::{ItemList, StoreFault};
use bib_pieces::{apply, fits};
use bib_scan::{FILE_LIMIT, Layout, Note, read};
use bib_text::{Seq, Text, copied};
use std::alloc::{AllocError, Global};

/// A window, the text that replaces it, the places of that text's items, and the length of the file afterwards.
#[derive(Drop)]
pub(crate) struct Change {
    pub(crate) window: Window,
    pub(crate) file_len: usize,
    pub(crate) text: Text,
    pub(crate) layout: Layout,
}

/// The items of a change that are in the list, before those of its window.
#[derive(Drop)]
pub(crate) struct PutItems {
    pub(crate) window: Window,
    pub(crate) file_len: usize,
    pub(crate) count: usize,
    pub(crate) notes: Seq<Note>,
}

/// The layout of the text, if it can be part of a file: it can be read, and it either begins with an item or begins the
/// file.
fn read_part(alloc: Global, text: &[u8], with_front: bool) -> Result<Option<Layout>, StoreFault>
    ensures layout { IfOk result (λ part. IfSome part (IsLayoutOf text.now)) }
    ensures begins { IfOk result (λ part. IfSome part (λ layout. with_front ≡ false → (db : Reading) → Reads text.now db → db.front ≡ [])) }
    ensures none { IfOk result (λ part. part ≡ None → with_front ≡ true → length text.now ≤ file_limit → HasReading text.now → ⊥) }
    ensures only { IfErr result (λ fault. fault ≡ Memory) }
{
    match read(alloc, text) {
        Ok(layout) => {
            if with_front || layout.front(text).is_empty() {
                return Ok(Some(layout));
            }
            Ok(None)
        }
        Err(fault) => {
            if fault.is_memory() {
                return Err(StoreFault::Memory);
            }
            Ok(None)
        }
    }
}

/// The change that the pieces make in this window, or none if they don't serve there: they reach out of the window or don't
/// fit, what they make of it is no part of a file, or the file would be too long. Pieces that don't serve in a window of
/// the whole file serve in none.
pub(crate) fn change_of<L: ItemList>(
    alloc: Global,
    front: &[u8],
    items: &L,
    file_len: usize,
    window: Window,
    pieces: &[Piece],
) -> Result<Option<Change>, StoreFault>
    requires window { IsWindow (L.items items.now) window }
    requires place { window.place ≡ length (bytes_before window front.now (L.items items.now)) }
    requires len { file_len ≡ length (file_of front.now (L.items items.now)) }
    requires short { file_len ≤ file_limit }
    ensures change { IfOk result (λ change. IfSome change (IsChange pieces.now front.now (L.items items.now))) }
    ensures lie { IfOk result (λ change. IfSome change (LieIn pieces.now front.now (L.items items.now))) }
    ensures none { IfOk result (λ change. change ≡ None → IsWhole (L.items items.now) window → Serve pieces.now (file_of front.now (L.items items.now)) → ⊥) }
    ensures only { IfErr result (λ fault. fault ≡ Memory) }
{
    let old = text_of(alloc, front, items, window)?;
    if !fits(pieces, window.place, &old) {
        return Ok(None);
    }
    let text = apply(alloc, &old, window.place, pieces)?;
    let file_len = file_len - old.len() + text.len();
    if file_len > FILE_LIMIT {
        return Ok(None);
    }
    match read_part(alloc, &text, window.with_front)? {
        Some(layout) => Ok(Some(Change {
            window,
            file_len,
            text: Seq::from_vec(text),
            layout,
        })),
        None => Ok(None),
    }
}

/// The change that the pieces make in this window, which holds what they touch, or none if they don't serve there. What the
/// first piece touches only by its end is unchanged, if the rest can be read without it.
pub(crate) fn change_near<L: ItemList>(
    alloc: Global,
    front: &[u8],
    items: &L,
    file_len: usize,
    window: Window,
    pieces: &[Piece],
) -> Result<Option<Change>, StoreFault>
    requires window { IsWindow (L.items items.now) window }
    requires place { window.place ≡ length (bytes_before window front.now (L.items items.now)) }
    requires len { file_len ≡ length (file_of front.now (L.items items.now)) }
    requires short { file_len ≤ file_limit }
    ensures change { IfOk result (λ change. IfSome change (IsChange pieces.now front.now (L.items items.now))) }
    ensures lie { IfOk result (λ change. IfSome change (LieIn pieces.now front.now (L.items items.now))) }
    ensures only { IfErr result (λ fault. fault ≡ Memory) }
{
    let shorter = without_first(front, items, file_len, window);
    if begin_from(pieces, shorter.place) {
        let change = change_of(alloc, front, items, file_len, shorter, pieces)?;
        if change.is_some() {
            return Ok(change);
        }
    }
    change_of(alloc, front, items, file_len, window, pieces)
}

/// Whether the first piece begins at this place or after it.
fn begin_from(pieces: &[Piece], place: usize) -> bool {
    match pieces.first() {
        Some(first) => place <= first.place as usize,
        None => false,
    }
}

/// The window with the front, if the window begins the file and the front is empty: the new text may then begin with a
/// front.
fn with_empty_front(front: &[u8], window: Window) -> Option<Window>
    ensures empty { IfSome result (λ w. front.now ≡ []) }
    ensures begins { IfSome result (λ w. window.from ≡ 0) }
    ensures window { IfSome result (λ w. w ≡ record window { with_front = true }) }
{
    if window.with_front || window.from > 0 || !front.is_empty() {
        return None;
    }
    Some(Window {
        with_front: true,
        ..window
    })
}

/// The change that the pieces make in this window, which holds what they touch, or in the whole file if they don't serve
/// there.
pub(crate) fn find_change<L: ItemList>(
    alloc: Global,
    front: &[u8],
    items: &L,
    file_len: usize,
    window: Window,
    pieces: &[Piece],
) -> Result<Change, StoreFault>
    requires window { IsWindow (L.items items.now) window }
    requires place { window.place ≡ length (bytes_before window front.now (L.items items.now)) }
    requires len { file_len ≡ length (file_of front.now (L.items items.now)) }
    requires short { file_len ≤ file_limit }
    ensures change { IfOk result (IsChange pieces.now front.now (L.items items.now)) }
    ensures refused { IfErr result (λ fault. fault ≡ BadSplice → Serve pieces.now (file_of front.now (L.items items.now)) → ⊥) }
    ensures only { IfErr result (λ fault. (fault ≡ BadSplice) ⊎ (fault ≡ Memory)) }
{
    if let Some(change) = change_near(alloc, front, items, file_len, window, pieces)? {
        return Ok(change);
    }
    if let Some(begun) = with_empty_front(front, window) {
        if let Some(change) = change_of(alloc, front, items, file_len, begun, pieces)? {
            return Ok(change);
        }
    }
    let whole = Window {
        from: 0,
        to: items.count(),
        with_front: true,
        place: 0,
    };
    match change_of(alloc, front, items, file_len, whole, pieces)? {
        Some(change) => Ok(change),
        None => Err(StoreFault::BadSplice),
    }
}

/// The front that the file has afterwards, in memory of its own, if the change has one.
pub(crate) fn new_front(alloc: Global, change: &Change) -> Result<Option<Text>, AllocError>
    requires { IsLayoutOf change.now.text change.now.layout }
    ensures { IfOk result (λ after. (front : Bytes) (inner : Reading) → Reads change.now.text inner → unwrap_or after front ≡ front_after change.now.window.with_front front inner.front) }
{
    if !change.window.with_front {
        return Ok(None);
    }
    let front = change.layout.front(change.text.as_slice());
    Ok(Some(copied(alloc, front)?))
}

/// How long the front is afterwards.
pub(crate) fn front_len(front: &[u8], new: &Option<Text>) -> usize
    ensures { result ≡ length (unwrap_or new.now front.now) }
{
    match new {
        Some(new) => new.as_slice().len(),
        None => front.len(),
    }
}

/// Puts the new front, if there is one, in place of the old one.
pub(crate) fn put_front(front: &mut Text, new: Option<Text>)
    ensures { front.new ≡ unwrap_or new front.old }
{
    if let Some(new) = new {
        *front = new;
    }
}

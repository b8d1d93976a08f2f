//! A window on a file.

ghost use Rattle.std.specs.Prelude.{◌≡◌, IfOk};
ghost use Rattle.bib_store.specs.Windows.{IsWindow, front_within, bytes_within};

use bib_items::ItemList;
use std::alloc::{AllocError, Global};

/// Neighbouring items, from one number up to another, and whether the front before them is in the window too. The window
/// begins at this place of the file.
#[derive(Clone, Copy, Debug)]
pub(crate) struct Window {
    pub(crate) from: usize,
    pub(crate) to: usize,
    pub(crate) with_front: bool,
    pub(crate) place: usize,
}

/// The front, if it is in the window.
fn front_of(front: &[u8], window: Window) -> &[u8]
    ensures { result.now ≡ front_within window.with_front front.now }
{
    if window.with_front {
        return front;
    }
    b""
}

/// The bytes in the window.
pub(crate) fn text_of<L: ItemList>(
    alloc: Global,
    front: &[u8],
    items: &L,
    window: Window,
) -> Result<Vec<u8>, AllocError>
    requires { IsWindow (L.items items.now) window }
    ensures { IfOk result (λ text. text.items ≡ bytes_within window front.now (L.items items.now)) }
{
    let mut text = Vec::new(alloc);
    text.extend_from_slice(front_of(front, window))?;
    items.append_bytes(window.from, window.to, &mut text)?;
    Ok(text)
}

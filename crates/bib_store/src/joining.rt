//! The bytes of items that are kept.

ghost use Rattle.std.specs.Prelude.{◌≡◌, ◌≤◌, length, IfOk};
ghost use Rattle.bib_spec.specs.Bytes.{file_limit};
ghost use Rattle.bib_store.specs.Stored.{file_of};

use bib_items::ItemList;
use std::alloc::{AllocError, Global};

/// The front and the items after it, in memory for their bytes alone.
pub(crate) fn join<L: ItemList>(
    alloc: Global,
    front: &[u8],
    items: &L,
) -> Result<Vec<u8>, AllocError>
    requires { length (file_of front.now (L.items items.now)) ≤ file_limit }
    ensures { IfOk result (λ file. file.items ≡ file_of front.now (L.items items.now)) }
{
    let count = items.count();
    let mut file = Vec::with_capacity(alloc, front.len() + items.start(count))?;
    file.extend_from_slice(front)?;
    items.append_bytes(0, count, &mut file)?;
    Ok(file)
}

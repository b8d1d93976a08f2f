//! Worked examples over an open file.

ghost use Rattle.std.specs.Prelude.{◌≡◌, []};

use crate::rows::{Stop, told};
use bib_store::{Database, Flat, ItemList, Paged};
use std::alloc::Global;
use std::test::Fail;

/// An example: a file, and what an open file must give.
pub trait Example {
    fn name(&self) -> &str;

    fn file(&self) -> &[u8];

    /// Whether the open file gives what the example says.
    fn comes_out<L: ItemList>(&self, alloc: Global, db: &mut Database<L>) -> Result<bool, Stop>;
}

/// Whether the example holds if its file is kept in this list.
fn holds_in<E: Example, L: ItemList>(alloc: Global, example: &E, items: L) -> Result<bool, Stop>
    requires { L.items items ≡ [] }
{
    let mut db = Database::open_bytes(alloc, example.file(), items)?;
    example.comes_out(alloc, &mut db)
}

fn holds<E: Example>(alloc: Global, example: &E) -> Result<bool, Stop> {
    Ok(holds_in(alloc, example, Flat::new(alloc))? && holds_in(alloc, example, Paged::new(alloc))?)
}

/// Fails with the name of the first example that does not hold with its file in a plain list, or with it in pages.
pub fn all_hold<E: Example>(alloc: Global, examples: &[E]) -> Result<(), Fail> {
    for example in examples {
        told(example.name(), holds(alloc, example))?;
    }
    Ok(())
}

//! Lists of items.

use bib_store::{Flat, ItemList};
use std::test::Fail;

#[test]
fn a_list_keeps_what_is_put_in(rt: HostRuntime) -> Result<(), Fail> {
    let mut list = Flat::new(rt.alloc());
    list.insert(0, b"@a{b}", b"x")?;
    list.replace(0, b"@a{c}", b"")?;
    assert_eq!(rt; list.count(), 1);
    assert_eq!(rt; list.body(0), b"@a{c}".as_slice());
    assert_eq!(rt; list.trail(0), b"".as_slice());
    Ok(())
}

//! Which items a search for parts passes over.

use bib_items::{ItemList, Paged, Sought, StoreFault};
use std::alloc::Global;
use std::test::Fail;

/// A list of 200 items in pages of 32 and more. Item 150 alone uses a macro, in its second field.
fn list(alloc: Global) -> Result<Paged, StoreFault> {
    let mut paged = Paged::new(alloc);
    for n in 0..200_usize {
        let body: &[u8] = if n == 150 {
            b"@misc{a, title = {T}, month = \"3~\" # jan}"
        } else {
            b"@misc{a, title = {T}, year = 1999}"
        };
        paged.insert(paged.count(), body, b"\n")?;
    }
    Ok(paged)
}

/// Where a search for these parts begins to look.
fn begins(paged: &Paged, sought: Sought<'_>, other: Sought<'_>) -> usize {
    paged.next_with(0, sought, other)
}

#[test]
fn a_search_looks_at_the_bytes_of_items(rt: HostRuntime) -> Result<(), Fail> {
    let paged = list(rt.alloc())?;
    let none = Sought::Nothing;
    assert_eq!(rt; begins(&paged, none, none), 200);
    assert_eq!(rt; begins(&paged, Sought::Uses(b"feb"), none), 200);
    assert_eq!(rt; begins(&paged, Sought::Uses(b"JAN"), none), 150);
    assert_eq!(rt;
        begins(&paged, Sought::Holds(b"3~"), Sought::Uses(b"feb")),
        150
    );
    assert_eq!(rt; begins(&paged, Sought::Uses(b"title"), none), 0);
    Ok(())
}

#[test]
fn a_search_passes_over_pages_without_what_it_seeks(rt: HostRuntime) -> Result<(), Fail> {
    let mut paged = list(rt.alloc())?;
    let none = Sought::Nothing;
    paged.note_parts();
    assert_eq!(rt; begins(&paged, none, none), 200);
    assert_eq!(rt; begins(&paged, Sought::Uses(b"title"), none), 200);
    assert_eq!(rt; begins(&paged, Sought::Uses(b"JAN"), none), 150);
    assert_eq!(rt; begins(&paged, none, Sought::Uses(b"jan")), 150);
    assert_eq!(rt;
        begins(&paged, Sought::Holds(b"3~"), Sought::Uses(b"feb")),
        150
    );
    assert_eq!(rt; begins(&paged, Sought::Holds(b"1999"), none), 200);
    assert_eq!(rt; begins(&paged, Sought::Holds(b"T"), none), 0);
    if paged.count() == 200 {
        assert_eq!(rt; paged.next_with(140, Sought::Uses(b"jan"), none), 150);
        assert_eq!(rt; paged.next_with(160, Sought::Uses(b"jan"), none), 200);
    }
    Ok(())
}

#[test]
fn an_item_that_comes_is_found(rt: HostRuntime) -> Result<(), Fail> {
    let mut paged = list(rt.alloc())?;
    let none = Sought::Nothing;
    paged.note_parts();
    if paged.count() > 40 {
        paged.replace(40, b"@string{x = feb}", b"")?;
    }
    assert_eq!(rt; begins(&paged, Sought::Uses(b"feb"), none), 40);
    paged.insert(0, b"@preamble{\"p\" # mar}", b"")?;
    assert_eq!(rt; begins(&paged, Sought::Uses(b"mar"), none), 0);
    Ok(())
}

//! Edits of a list in pages, beside the plain list of the same items.

use bib_items::{Flat, ItemList, Paged, StoreFault};
use std::test::Fail;

/// A number that looks random, below `limit`.
fn next(state: &mut u64, limit: usize) -> usize {
    *state = state
        .wrapping_mul(6364136223846793005)
        .wrapping_add(1442695040888963407);
    if limit == 0 {
        return 0;
    }
    (*state >> 33) as usize % limit
}

/// A body of a length that differs from item to item.
fn body(text: &[u8], n: usize) -> &[u8] {
    text.split_at(n % (text.len() + 1)).0
}

/// Whether both lists have the same items in the same order.
fn is_same(paged: &Paged, flat: &Flat) -> bool {
    if paged.count() != flat.count() {
        return false;
    }
    for n in 0..flat.count() {
        if n >= paged.count() || paged.body(n) != flat.body(n) || paged.trail(n) != flat.trail(n) {
            return false;
        }
    }
    true
}

/// Whether each page has 1 to 64 items, and all together as many as the list.
fn is_paged(paged: &Paged) -> bool {
    let mut sum: usize = 0;
    for p in 0..paged.page_count() {
        let len = paged.page_len(p);
        if len == 0 || len > 64 {
            return false;
        }
        sum = sum.saturating_add(len);
    }
    sum == paged.count()
}

/// Inserts `count` items into both lists, at positions that look random.
fn fill(
    paged: &mut Paged,
    flat: &mut Flat,
    state: &mut u64,
    count: usize,
) -> Result<(), StoreFault> {
    for _ in 0..count {
        let at = next(state, flat.count().saturating_add(1));
        let text = body(b"@misc{a,title={A title}}", next(state, 25));
        if at <= paged.count() && at <= flat.count() {
            paged.insert(at, text, b"\n\n")?;
            flat.insert(at, text, b"\n\n")?;
        }
    }
    Ok(())
}

/// Replaces `count` items of both lists, and removes `count`.
fn thin(
    paged: &mut Paged,
    flat: &mut Flat,
    state: &mut u64,
    count: usize,
) -> Result<(), StoreFault> {
    for _ in 0..count {
        let at = next(state, flat.count());
        if at < paged.count() && at < flat.count() {
            paged.replace(at, b"@misc{b}", b" ")?;
            flat.replace(at, b"@misc{b}", b" ")?;
        }
        let at = next(state, flat.count());
        if at < paged.count() && at < flat.count() {
            paged.remove(at);
            flat.remove(at);
        }
    }
    Ok(())
}

#[test]
fn edits_of_pages_are_those_of_the_plain_list(rt: HostRuntime) -> Result<(), Fail> {
    let mut paged = Paged::new(rt.alloc());
    let mut flat = Flat::new(rt.alloc());
    let mut state = 7;
    fill(&mut paged, &mut flat, &mut state, 1500)?;
    assert!(rt; is_same(&paged, &flat));
    assert!(rt; is_paged(&paged));
    assert!(rt; paged.page_count() > 23);
    thin(&mut paged, &mut flat, &mut state, 1000)?;
    assert!(rt; is_same(&paged, &flat));
    assert!(rt; is_paged(&paged));
    thin(&mut paged, &mut flat, &mut state, 600)?;
    assert_eq!(rt; paged.count(), 0);
    assert_eq!(rt; paged.page_count(), 0);
    Ok(())
}

#[test]
fn a_full_page_becomes_two_and_an_empty_one_goes(rt: HostRuntime) -> Result<(), Fail> {
    let mut paged = Paged::new(rt.alloc());
    for _ in 0..65_usize {
        paged.insert(paged.count(), b"@misc{a}", b"")?;
    }
    assert_eq!(rt; paged.page_count(), 2);
    if paged.page_count() == 2 {
        assert_eq!(rt; paged.page_len(0), 32);
        assert_eq!(rt; paged.page_len(1), 33);
    }
    for _ in 0..32_usize {
        if paged.count() > 0 {
            paged.remove(0);
        }
    }
    assert_eq!(rt; paged.page_count(), 1);
    if paged.page_count() == 1 {
        assert_eq!(rt; paged.page_len(0), 33);
    }
    Ok(())
}

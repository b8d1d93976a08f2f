//! Ids by their texts, in an order that changes.

use bib_index::KeyIndex;
use bib_order::Order;
use std::alloc::{AllocError, Global};
use std::test::Fail;

/// What is done to an index.
#[derive(Drop)]
enum Step<'a> {
    /// An id gets a text.
    Add(usize, &'a [u8]),
    /// An id that has a text gets another.
    Rekey(usize, &'a [u8], &'a [u8]),
    /// An id loses its text.
    Remove(usize, &'a [u8]),
}

fn perform(order: &Order, index: &mut KeyIndex, step: &Step<'_>) -> Result<(), AllocError> {
    match step {
        Step::Add(id, text) => {
            if text.len() <= 255 {
                index.add(order, text, *id)?;
            }
        }
        Step::Rekey(id, old, new) => {
            if new.len() <= 255 {
                index.rekey(order, old, new, *id)?;
            }
        }
        Step::Remove(id, text) => index.remove(text, *id),
    }
    Ok(())
}

/// The ids 2, 1, 0 in this order.
fn backward(alloc: Global) -> Result<Order, AllocError> {
    let mut order = Order::new(alloc);
    order.insert(0)?;
    order.insert(0)?;
    order.insert(0)?;
    Ok(order)
}

/// The ids that have the text once these steps are done: none where the first or their count are others.
fn holders_after(alloc: Global, steps: &[Step<'_>], text: &[u8]) -> Result<Vec<usize>, AllocError> {
    let order = backward(alloc)?;
    let mut index = KeyIndex::new(alloc);
    for step in steps {
        perform(&order, &mut index, step)?;
    }
    let holders = index.holders(text);
    if index.first(text) != holders.first().copied() || index.count(text) != holders.len() {
        return Ok(Vec::new(alloc));
    }
    holders.to_vec(alloc)
}

#[test]
fn ids_stand_in_the_order(rt: HostRuntime) -> Result<(), Fail> {
    let steps = [
        Step::Add(0, b"Knuth"),
        Step::Add(2, b"KNUTH"),
        Step::Add(1, b"knuth"),
        Step::Add(7, b"knuth"),
    ];
    let holders = holders_after(rt.alloc(), &steps, b"knuth")?;
    assert!(rt; holders.as_slice() == [2, 1, 0].as_slice());
    let holders = holders_after(rt.alloc(), &steps, b"lamport")?;
    assert!(rt; holders.is_empty());
    Ok(())
}

#[test]
fn an_id_goes_and_the_next_is_first(rt: HostRuntime) -> Result<(), Fail> {
    let steps = [
        Step::Add(0, b"a"),
        Step::Add(2, b"A"),
        Step::Remove(2, b"a"),
        Step::Remove(1, b"b"),
    ];
    let holders = holders_after(rt.alloc(), &steps, b"a")?;
    assert!(rt; holders.as_slice() == [0].as_slice());
    Ok(())
}

#[test]
fn an_id_gets_another_text(rt: HostRuntime) -> Result<(), Fail> {
    let steps = [
        Step::Add(2, b"a"),
        Step::Add(0, b"b"),
        Step::Rekey(2, b"A", b"B"),
        Step::Rekey(0, b"b", b"B"),
    ];
    let holders = holders_after(rt.alloc(), &steps, b"b")?;
    assert!(rt; holders.as_slice() == [2, 0].as_slice());
    let holders = holders_after(rt.alloc(), &steps, b"a")?;
    assert!(rt; holders.is_empty());
    Ok(())
}

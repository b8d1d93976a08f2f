//! Ids of a list that changes.

use bib_order::Order;
use std::alloc::{AllocError, Global};
use std::test::Fail;

/// What is done to an order.
#[derive(Drop)]
enum Step {
    /// This many ids come, each after all others.
    Append(usize),
    /// This many ids come, each into the middle.
    Mix(usize),
    /// An id comes before the one with this number.
    Put(usize),
    /// The id with this number goes.
    Take(usize),
}

/// Inserts an id before id `n`, or at the end, if the order has `n` ids or more.
fn put(order: &mut Order, n: usize) -> Result<(), AllocError> {
    if n <= order.count() {
        order.insert(n)?;
    }
    Ok(())
}

fn perform(order: &mut Order, step: &Step) -> Result<(), AllocError> {
    match step {
        Step::Append(count) => {
            for _ in 0..*count {
                put(order, order.count())?;
            }
        }
        Step::Mix(count) => {
            for _ in 0..*count {
                put(order, order.count() / 2)?;
            }
        }
        Step::Put(n) => put(order, *n)?,
        Step::Take(n) => {
            if *n < order.count() {
                order.remove(*n);
            }
        }
    }
    Ok(())
}

/// The ids of the order, if each is found where it stands.
fn ids_of(alloc: Global, order: &Order) -> Result<Vec<usize>, AllocError> {
    let mut ids = Vec::new(alloc);
    for n in 0..order.count() {
        let id = order.id_at(n);
        if order.position_of(id) == Some(n) {
            ids.push(id)?;
        }
    }
    Ok(ids)
}

/// The ids once these steps are done.
fn ids_after(alloc: Global, steps: &[Step]) -> Result<Vec<usize>, AllocError> {
    let mut order = Order::new(alloc);
    for step in steps {
        perform(&mut order, step)?;
    }
    ids_of(alloc, &order)
}

#[test]
fn an_id_stays_with_its_member(rt: HostRuntime) -> Result<(), Fail> {
    let alloc = rt.alloc();
    let plain = ids_after(alloc, &[Step::Append(3)])?;
    assert!(rt; plain.as_slice() == [0, 1, 2].as_slice());
    let without = ids_after(alloc, &[Step::Append(4), Step::Take(1)])?;
    assert!(rt; without.as_slice() == [0, 2, 3].as_slice());
    let with = ids_after(alloc, &[Step::Append(3), Step::Put(1)])?;
    assert!(rt; with.as_slice() == [0, 3, 1, 2].as_slice());
    Ok(())
}

#[test]
fn an_id_is_free_again_once_it_goes(rt: HostRuntime) -> Result<(), Fail> {
    let alloc = rt.alloc();
    let last = ids_after(alloc, &[Step::Append(3), Step::Take(2), Step::Append(1)])?;
    assert!(rt; last.as_slice() == [0, 1, 2].as_slice());
    let steps = [Step::Append(3), Step::Put(1), Step::Take(2), Step::Put(0)];
    let other = ids_after(alloc, &steps)?;
    assert!(rt; other.as_slice() == [1, 0, 3, 2].as_slice());
    Ok(())
}

#[test]
fn ids_are_found_in_all_pages(rt: HostRuntime) -> Result<(), Fail> {
    let steps = [Step::Append(600), Step::Mix(1400), Step::Take(1000)];
    let ids = ids_after(rt.alloc(), &steps)?;
    assert_eq!(rt; ids.len(), 1999);
    Ok(())
}

/// How many of each third id of a mixed order stand before a number.
fn thirds_before(alloc: Global, n: usize) -> Result<usize, AllocError> {
    let mut order = Order::new(alloc);
    perform(&mut order, &Step::Mix(300))?;
    let mut thirds = Vec::new(alloc);
    for (n, id) in ids_of(alloc, &order)?.iter().enumerate() {
        if n % 3 == 0 {
            thirds.push(*id)?;
        }
    }
    Ok(order.count_before(&thirds, n))
}

#[test]
fn holders_are_counted_before_a_number(rt: HostRuntime) -> Result<(), Fail> {
    assert_eq!(rt; thirds_before(rt.alloc(), 0)?, 0);
    assert_eq!(rt; thirds_before(rt.alloc(), 1)?, 1);
    assert_eq!(rt; thirds_before(rt.alloc(), 150)?, 50);
    assert_eq!(rt; thirds_before(rt.alloc(), 1000)?, 100);
    Ok(())
}

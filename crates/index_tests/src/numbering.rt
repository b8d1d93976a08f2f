//! Numbers of items that come and go.

use bib_numbers::Numbers;
use std::alloc::{AllocError, Global};
use std::test::Fail;

/// What is done to numbers.
#[derive(Copy, Clone)]
enum Step {
    /// An item of their kind comes.
    Insert(usize),
    /// An item of their kind goes.
    Remove(usize),
    /// An item of another kind comes.
    MakeWay(usize),
    /// An item of another kind goes.
    Close(usize),
}

/// The numbers in a list of one piece.
fn perform_plainly(list: &mut Vec<usize>, step: Step) -> Result<(), AllocError> {
    match step {
        Step::Insert(n) => {
            let k = list.partition_point(|m| *m < n);
            shift_plainly(list, k, 1);
            list.insert(k.min(list.len()), n)?;
        }
        Step::Remove(n) => {
            if let Ok(k) = list.binary_search(&n) {
                if k < list.len() {
                    list.remove(k);
                }
                shift_plainly(list, k, usize::MAX);
            }
        }
        Step::MakeWay(n) => {
            let k = list.partition_point(|m| *m < n);
            shift_plainly(list, k, 1);
        }
        Step::Close(n) => {
            if let Err(k) = list.binary_search(&n) {
                shift_plainly(list, k, usize::MAX);
            }
        }
    }
    Ok(())
}

fn shift_plainly(list: &mut Vec<usize>, from: usize, step: usize) {
    for k in from..list.len() {
        list[k] = list[k].wrapping_add(step);
    }
}

fn perform(numbers: &mut Numbers, step: Step) -> Result<(), AllocError> {
    match step {
        Step::Insert(n) => numbers.insert(n)?,
        Step::Remove(n) => {
            if numbers.position(n).is_some() {
                numbers.remove(n);
            }
        }
        Step::MakeWay(n) => numbers.make_way(n),
        Step::Close(n) => {
            if numbers.position(n).is_none() {
                numbers.close(n);
            }
        }
    }
    Ok(())
}

/// Whether both have the same numbers, found by their places and by themselves.
fn are_the_same(numbers: &Numbers, list: &[usize]) -> bool {
    if numbers.count() != list.len() {
        return false;
    }
    for k in 0..numbers.count() {
        if k >= list.len() || numbers.get(k) != list[k] || numbers.position(list[k]) != Some(k) {
            return false;
        }
    }
    true
}

/// A step on numbers up to `most`, by chance.
fn chosen(chance: u64, most: usize) -> Step {
    let n = (chance >> 33) as usize % most.max(1);
    match chance >> 20 & 7 {
        0 | 1 => Step::Insert(n),
        2 | 3 => Step::Remove(n),
        4 => Step::MakeWay(n),
        5 => Step::Close(n.saturating_add(most)),
        6 => Step::Insert(most),
        _ => Step::MakeWay(n),
    }
}

/// Of twice `count` items, every other one is of the kind; then `steps` items come and go at random.
fn follow(alloc: Global, count: usize, steps: usize) -> Result<bool, AllocError> {
    let mut numbers = Numbers::new(alloc);
    let mut list = Vec::new(alloc);
    for k in 0..count {
        numbers.insert(k.saturating_mul(2))?;
        list.push(k.saturating_mul(2))?;
    }
    if !are_the_same(&numbers, &list) {
        return Ok(false);
    }
    let mut chance: u64 = 1;
    for _ in 0..steps {
        chance = chance
            .wrapping_mul(6364136223846793005)
            .wrapping_add(1442695040888963407);
        let step = chosen(chance, count.saturating_mul(2));
        perform(&mut numbers, step)?;
        perform_plainly(&mut list, step)?;
    }
    Ok(are_the_same(&numbers, &list))
}

#[test]
fn numbers_follow_items_that_come_and_go(rt: HostRuntime) -> Result<(), Fail> {
    assert!(rt; follow(rt.alloc(), 3, 40)?);
    assert!(rt; follow(rt.alloc(), 1200, 2000)?);
    Ok(())
}

/// How many numbers are left when all that there are go, first to last and last to first by turns.
fn emptied(alloc: Global, count: usize) -> Result<usize, AllocError> {
    let mut numbers = Numbers::new(alloc);
    for k in 0..count {
        numbers.insert(k)?;
    }
    for k in 0..count {
        if numbers.count() == 0 {
            return Ok(count);
        }
        let n = if k % 2 == 0 { 0 } else { numbers.count() - 1 };
        numbers.remove(numbers.get(n));
    }
    Ok(numbers.count())
}

#[test]
fn all_numbers_go(rt: HostRuntime) -> Result<(), Fail> {
    assert!(rt; emptied(rt.alloc(), 1100)? == 0);
    Ok(())
}

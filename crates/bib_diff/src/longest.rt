//! A longest list of numbers in one order.

use std::alloc::{AllocError, Global};

/// How many halves a list of numbers has, at most.
const HALVES: usize = 64;

/// Whether the number at this position is below `n`.
fn is_below(numbers: &[usize], position: usize, n: usize) -> bool {
    match numbers.get(position) {
        Some(number) => *number < n,
        None => false,
    }
}

/// How many of the numbers, which ascend, are below `n`.
fn below(numbers: &[usize], n: usize) -> usize {
    let mut low = 0;
    let mut high = numbers.len();
    for _ in 0..HALVES {
        if low >= high {
            return low;
        }
        let mid = low + (high - low) / 2;
        if is_below(numbers, mid, n) {
            low = mid + 1;
        } else {
            high = mid;
        }
    }
    low
}

/// Which of the numbers are in a longest list of them that ascends, in n log n steps. A position without a number is in none.
pub(crate) fn longest(alloc: Global, numbers: &[Option<usize>]) -> Result<Vec<bool>, AllocError> {
    // of the lists of each length, the one with the least last number: that number, and its position
    let mut lasts: Vec<usize> = Vec::new(alloc);
    let mut places: Vec<usize> = Vec::new(alloc);
    // the position before each in its list
    let mut before: Vec<Option<usize>> = Vec::new(alloc);
    for position in 0..numbers.len() {
        let mut link = None;
        if let Some(n) = numbers[position] {
            let len = below(lasts.as_slice(), n);
            if len > 0 {
                link = places.get(len - 1).copied();
            }
            if len < lasts.len() && len < places.len() {
                lasts[len] = n;
                places[len] = position;
            } else {
                lasts.push(n)?;
                places.push(position)?;
            }
        }
        before.push(link)?;
    }
    let mut chosen = vec![in alloc; false; numbers.len()]?;
    let mut next = places.last().copied();
    for _ in 0..numbers.len() {
        let Some(position) = next else {
            return Ok(chosen);
        };
        if position < chosen.len() {
            chosen[position] = true;
        }
        next = before.get(position).copied().flatten();
    }
    Ok(chosen)
}

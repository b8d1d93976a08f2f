//! The order of the units of a merge.

use crate::pairing::Row;
use std::alloc::{AllocError, Global};

/// The place among the ends of chains at which this number goes on: the first whose number is not smaller.
fn end_for(ends: &[(usize, usize)], number: usize) -> usize {
    let mut low = 0;
    let mut high = ends.len();
    'search: for _ in 0..64 {
        if low >= high {
            return low;
        }
        let middle = low + (high - low) / 2;
        match ends.get(middle) {
            Some((other, _)) => {
                if *other < number {
                    low = middle + 1;
                } else {
                    high = middle;
                }
            }
            None => return low,
        }
    }
    low
}

/// Which of these numbers are in a longest list of them that ascends.
fn ascending(alloc: Global, numbers: &[usize]) -> Result<Vec<bool>, AllocError> {
    // of the chains of each length, the smallest number at an end, and its position
    let mut ends: Vec<(usize, usize)> = Vec::new(alloc);
    // the position before each in its chain
    let mut before: Vec<Option<usize>> = Vec::new(alloc);
    'numbers: for n in 0..numbers.len() {
        let at = end_for(ends.as_slice(), numbers[n]);
        let last = match ends.get(at.saturating_sub(1)) {
            Some((_, position)) => Some(*position),
            None => None,
        };
        before.push(if at == 0 { None } else { last })?;
        if at < ends.len() {
            ends[at] = (numbers[n], n);
        } else {
            ends.push((numbers[n], n))?;
        }
    }
    let mut marks = vec![in alloc; false; numbers.len()]?;
    let mut next = match ends.as_slice().last() {
        Some((_, position)) => Some(*position),
        None => None,
    };
    'chain: for _ in 0..numbers.len() {
        let Some(n) = next else {
            return Ok(marks);
        };
        if n < marks.len() {
            marks[n] = true;
        }
        next = match before.get(n) {
            Some(position) => *position,
            None => None,
        };
    }
    Ok(marks)
}

/// Which rows a side has moved: of those that it and the common file have, those that are in no longest list that both have in
/// one order.
pub(crate) fn moved_rows(
    alloc: Global,
    rows: &[Row],
    side: &[u32],
) -> Result<Vec<bool>, AllocError> {
    let mut numbers = Vec::new(alloc);
    let mut both = Vec::new(alloc);
    'side: for k in 0..side.len() {
        let at = side[k] as usize;
        if let Some(row) = rows.get(at) {
            if let Some(n) = row.base() {
                numbers.push(n)?;
                both.push(at)?;
            }
        }
    }
    let stays = ascending(alloc, numbers.as_slice())?;
    let mut moved = vec![in alloc; false; rows.len()]?;
    'both: for k in 0..both.len() {
        let stay = match stays.get(k) {
            Some(stay) => *stay,
            None => true,
        };
        if !stay && both[k] < moved.len() {
            moved[both[k]] = true;
        }
    }
    Ok(moved)
}

/// Rows in an order, each with the row after it.
#[derive(Drop)]
struct Chain {
    // the row after each; that after the number of rows is the first
    next: Vec<Option<usize>>,
    is_in: Vec<bool>,
}

impl Chain {
    /// No rows of this many.
    fn none(alloc: Global, count: usize) -> Result<Self, AllocError> {
        Ok(Chain {
            next: vec![in alloc; None; count.saturating_add(1)]?,
            is_in: vec![in alloc; false; count]?,
        })
    }

    /// The row after this one.
    fn after(&self, row: usize) -> Option<usize> {
        match self.next.get(row) {
            Some(next) => *next,
            None => None,
        }
    }

    /// Whether the row is in the order.
    fn has(&self, row: usize) -> bool {
        match self.is_in.get(row) {
            Some(is_in) => *is_in,
            None => false,
        }
    }

    /// Puts the row after another one.
    fn put(&mut self, row: usize, anchor: usize) {
        if row < self.next.len() && anchor < self.next.len() && row < self.is_in.len() {
            self.next[row] = self.next[anchor];
            self.next[anchor] = Some(row);
            self.is_in[row] = true;
        }
    }

    /// The last of the rows after this one that only our file has.
    fn past_ours(&self, rows: &[Row], row: usize) -> usize {
        let mut at = row;
        'ours: for _ in 0..rows.len() {
            let Some(next) = self.after(at) else {
                return at;
            };
            match rows.get(next) {
                Some(found) => {
                    if found.theirs().is_some() {
                        return at;
                    }
                }
                None => return at,
            }
            at = next;
        }
        at
    }

    /// The rows in their order.
    fn rows(&self, alloc: Global, count: usize) -> Result<Vec<usize>, AllocError> {
        let mut out = Vec::new(alloc);
        let mut at = count;
        'rows: for _ in 0..count {
            let Some(next) = self.after(at) else {
                return Ok(out);
            };
            out.push(next)?;
            at = next;
        }
        Ok(out)
    }
}

/// Whether number `n` is marked.
pub(crate) fn is_marked(marks: &[bool], n: usize) -> bool {
    match marks.get(n) {
        Some(mark) => *mark,
        None => false,
    }
}

/// The kept rows in the order of the merge: ours, without those that they have moved and we have not; then, in their order, each
/// that is not there yet, behind the one before it and behind what only we have there.
pub(crate) fn order(
    alloc: Global,
    rows: &[Row],
    kept: &[bool],
    ours: &[u32],
    theirs: &[u32],
) -> Result<Vec<usize>, AllocError> {
    let moved_by_us = moved_rows(alloc, rows, ours)?;
    let moved_by_them = moved_rows(alloc, rows, theirs)?;
    let mut chain = Chain::none(alloc, rows.len())?;
    let mut last = rows.len();
    'ours: for k in 0..ours.len() {
        let row = ours[k] as usize;
        let goes = is_marked(moved_by_them.as_slice(), row)
            && !is_marked(moved_by_us.as_slice(), row);
        if is_marked(kept, row) && !goes {
            chain.put(row, last);
            last = row;
        }
    }
    let mut anchor = rows.len();
    'theirs: for k in 0..theirs.len() {
        let row = theirs[k] as usize;
        if is_marked(kept, row) {
            if !chain.has(row) {
                let last = chain.past_ours(rows, anchor);
                chain.put(row, last);
            }
            anchor = row;
        }
    }
    chain.rows(alloc, rows.len())
}

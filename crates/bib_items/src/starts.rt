//! Where the pages begin.

ghost use Rattle.std.specs.Prelude.{◌≤◌, List};
ghost use Rattle.bib_items.specs.declared.list.Item.{Item};
ghost use Rattle.bib_items.specs.Starts.{AreStarts, BeginsWith};

use crate::page::Page;
use crate::places::PAGE_LIMIT;

/// Where a page begins: how many items the pages before it have, and how many bytes.
#[derive(Clone, Copy)]
pub(crate) struct PageStart {
    pub item: usize,
    pub byte: usize,
}

/// How many pages are tried before all starts are searched.
const NEAR: usize = 4;

/// The last page with a known start that begins no later than item `n`. It is found in a few steps if nearly all pages before
/// it are full, since no page before item `n` can have more items. Only time depends on it.
fn last_begun(starts: &[PageStart], n: usize) -> usize {
    let least = n / PAGE_LIMIT;
    'near: for p in least..least.saturating_add(NEAR) {
        let Some(next) = starts.get(p + 1) else {
            return search(starts, n);
        };
        if n < next.item {
            return p;
        }
    }
    search(starts, n)
}

/// The same, by a search in all starts.
fn search(starts: &[PageStart], n: usize) -> usize {
    starts
        .partition_point(|start| start.item <= n)
        .saturating_sub(1)
}

/// A page that begins no later than item `n`, and its start: the last such page with a known start. Only time depends on
/// which page it is.
pub(crate) fn near_item(starts: &[PageStart], n: usize) -> (usize, PageStart)
    ensures begins { (pages : List (List Item)) → AreStarts pages starts.now → BeginsWith pages result.0 result.1 }
    ensures before { result.1.item ≤ n }
{
    let p = last_begun(starts, n);
    if p < starts.len() {
        let start = starts[p];
        if start.item <= n {
            return (p, start);
        }
    }
    (0, PageStart { item: 0, byte: 0 })
}

/// A page that begins no later than the byte at `place`, and its start: the last such page with a known start. Only time
/// depends on which page it is.
pub(crate) fn near_byte(starts: &[PageStart], place: usize) -> (usize, PageStart)
    ensures begins { (pages : List (List Item)) → AreStarts pages starts.now → BeginsWith pages result.0 result.1 }
    ensures before { result.1.byte ≤ place }
{
    let p = starts
        .partition_point(|start| start.byte <= place)
        .saturating_sub(1);
    if p < starts.len() {
        let start = starts[p];
        if start.byte <= place {
            return (p, start);
        }
    }
    (0, PageStart { item: 0, byte: 0 })
}

/// Records where the pages begin, from the last known start up to the first page that begins after `place`, as far as there
/// is memory for it.
pub(crate) fn take_down(pages: &[Page], starts: &mut Vec<PageStart>, place: usize)
    requires { AreStarts pages.now starts.old.items }
    ensures { AreStarts pages.now starts.new.items }
{
    let mut start = match starts.pop() {
        Some(last) => last,
        None => PageStart { item: 0, byte: 0 },
    };
    'pass: for p in starts.len()..pages.len() {
        if starts.push(start).is_err() || place < start.byte {
            return;
        }
        let page = &pages[p];
        let (Some(item), Some(byte)) = (
            start.item.checked_add(page.len()),
            start.byte.checked_add(page.byte_len()),
        ) else {
            return;
        };
        start = PageStart { item, byte };
    }
}

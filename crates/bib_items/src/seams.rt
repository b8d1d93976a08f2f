//! Pages that come and go whole.

ghost use Rattle.std.specs.Prelude.{◌≡◌, ◌+◌, ◌≤◌, ◌<◌, ◌++◌, length, take, drop, OnOk, OnErr, IfOk};
ghost use Rattle.bib_pages.specs.Pages.{joined};
ghost use Rattle.bib_items.specs.Items.{without_range};
ghost use Rattle.bib_items.specs.Pages.{ArePages, IsPaged, IsSeam};
ghost use Rattle.bib_items.specs.Starts.{AreStarts};

use crate::page::Page;
use crate::places::{locate, part, take_away};
use crate::starts::PageStart;
use std::alloc::{AllocError, Global};

/// How many pages have the first `n` items. A page with some of these items and some others is cut in two first.
fn seam(alloc: Global, pages: &mut Vec<Page>, count: usize, n: usize) -> Result<usize, AllocError>
    requires paged { IsPaged pages.old.items count }
    requires within { n ≤ count }
    ensures seam { IfOk result (λ p. IsSeam pages.new.items n p) }
    ensures same { joined pages.new.items ≡ joined pages.old.items }
    ensures pages { ArePages pages.new.items }
{
    if n == count {
        return Ok(pages.len());
    }
    let (p, k) = locate(pages, &[], n);
    if k == 0 {
        return Ok(p);
    }
    part(alloc, pages, p, k)?;
    Ok(p + 1)
}

/// Inserts pages before page `p`, or at the end.
fn put_pages(pages: &mut Vec<Page>, p: usize, new: Vec<Page>) -> Result<(), AllocError>
    requires { p ≤ length pages.old.items }
    ensures ok { OnOk result (pages.new.items ≡ take p pages.old.items ++ (new.items ++ drop p pages.old.items)) }
    ensures err { OnErr result (pages.new.items ≡ pages.old.items) }
{
    let mut new = new;
    let added = new.len();
    pages.append(&mut new)?;
    pages[p..].rotate_right(added);
    Ok(())
}

/// Removes the pages from number `p` up to `q`. It asks for no memory.
fn take_pages(pages: &mut Vec<Page>, p: usize, q: usize)
    requires ordered { p ≤ q }
    requires within { q ≤ length pages.old.items }
    ensures { pages.new.items ≡ take p pages.old.items ++ drop q pages.old.items }
{
    let gone = q - p;
    pages[p..].rotate_left(gone);
    let left = pages.len() - gone;
    pages.truncate(left);
}

/// Inserts new pages before item `n`, or at the end. It takes a few steps for each page.
pub(crate) fn put_all(
    alloc: Global,
    pages: &mut Vec<Page>,
    count: usize,
    n: usize,
    new: Vec<Page>,
) -> Result<(), AllocError>
    requires paged { IsPaged pages.old.items count }
    requires within { n ≤ count }
    requires new { ArePages new.items }
    ensures ok { OnOk result (joined pages.new.items ≡ take n (joined pages.old.items) ++ (joined new.items ++ drop n (joined pages.old.items))) }
    ensures err { OnErr result (joined pages.new.items ≡ joined pages.old.items) }
    ensures pages { ArePages pages.new.items }
{
    let p = seam(alloc, pages, count, n)?;
    put_pages(pages, p, new)
}

/// The page up to which the pages from number `p` on have at most `most` items together, and how many items these pages
/// have.
fn whole_pages(pages: &[Page], p: usize, most: usize) -> (usize, usize)
    requires { p ≤ length pages.now }
    ensures ordered { p ≤ result.0 }
    ensures within { result.0 ≤ length pages.now }
    ensures most { result.1 ≤ most }
    ensures items { length (joined (take p pages.now)) + result.1 ≡ length (joined (take result.0 pages.now)) }
{
    let mut items = 0;
    'pass: for q in p..pages.len() {
        let len = pages[q].len();
        if most - items < len {
            return (q, items);
        }
        items += len;
    }
    (pages.len(), items)
}

/// Removes whole pages from item `n` on that have at most `most` items together. If no whole page can go, it removes item
/// `n` alone. It returns how many items it removed, and asks for no memory.
fn take_some(pages: &mut Vec<Page>, starts: &mut Vec<PageStart>, n: usize, most: usize) -> usize
    requires some { 0 < most }
    requires within { n + most ≤ length (joined pages.old.items) }
    requires pages { ArePages pages.old.items }
    requires starts { AreStarts pages.old.items starts.old.items }
    ensures some { 0 < result }
    ensures most { result ≤ most }
    ensures list { joined pages.new.items ≡ without_range n (n + result) (joined pages.old.items) }
    ensures pages { ArePages pages.new.items }
    ensures starts { AreStarts pages.new.items starts.new.items }
{
    let (p, k) = locate(pages, starts, n);
    if k == 0 {
        let (q, items) = whole_pages(pages, p, most);
        if items > 0 {
            starts.truncate(p);
            take_pages(pages, p, q);
            return items;
        }
    }
    take_away(pages, starts, n);
    1
}

/// Removes the items from number `from` up to `to`. It takes a few steps for each page that goes, and asks for no memory.
/// It is then known where the pages before them begin.
pub(crate) fn take_range(pages: &mut Vec<Page>, starts: &mut Vec<PageStart>, from: usize, to: usize)
    requires ordered { from ≤ to }
    requires within { to ≤ length (joined pages.old.items) }
    requires pages { ArePages pages.old.items }
    requires starts { AreStarts pages.old.items starts.old.items }
    ensures list { joined pages.new.items ≡ without_range from to (joined pages.old.items) }
    ensures pages { ArePages pages.new.items }
    ensures starts { AreStarts pages.new.items starts.new.items }
{
    let mut left = to - from;
    'out: while left > 0 {
        left -= take_some(pages, starts, from, left);
    }
}

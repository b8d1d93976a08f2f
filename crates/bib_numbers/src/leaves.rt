//! The pages of a list of numbers: in which page each number is, and how numbers come, go and move.

ghost use Rattle.std.specs.Prelude.{◌≡◌, ◌+◌, ◌≤◌, ◌<◌, ◌++◌, ℕ, [], ◌∷◌, length, insert, remove, set, OnOk, OnErr, IfOk, IsTrue};
ghost use Rattle.bib_pages.specs.Pages.{joined, page_at, IsOnWay, IsPlace, IsGap, parted_at};
ghost use Rattle.bib_numbers.specs.Numbers.{Ascend, rank_in};
ghost use Rattle.bib_numbers.specs.Moves.{plus, starts, shifted, AreFilled, IsKept};

use crate::leaf::Leaf;
use crate::starts::near;
use std::alloc::{AllocError, Global};

/// How many numbers a page has at most.
pub(crate) const LEAF_LIMIT: usize = 512;

/// How many numbers stay in a full page that is cut in two.
const HALF: usize = 256;

/// The page that has number `k`, and the number's place in that page. It takes steps in the logarithm of the number of
/// pages.
pub(crate) fn locate(leaves: &[Leaf], firsts: &[usize], k: usize) -> (usize, usize)
    requires within { k < length (joined leaves.now) }
    requires firsts { firsts.now ≡ starts 0 leaves.now }
    ensures { IsPlace leaves.now k result.0 result.1 }
{
    let (p, left) = near(firsts, k);
    locate_from(leaves, k, p, left)
}

/// The page that has number `k`, and the number's place in that page, sought from page `first` on: `left` numbers are
/// between the start of that page and number `k`.
fn locate_from(leaves: &[Leaf], k: usize, first: usize, left: usize) -> (usize, usize)
    requires within { k < length (joined leaves.now) }
    requires way { IsOnWay leaves.now first k left }
    ensures { IsPlace leaves.now k result.0 result.1 }
{
    let mut left = left;
    'pass: for p in first..leaves.len() {
        let len = leaves[p].len();
        if left < len {
            return (p, left);
        }
        left -= len;
    }
    (0, 0)
}

/// Whether all numbers are below `n`. They ascend, so that the last one tells.
fn are_below(leaves: &[Leaf], n: usize) -> bool
    requires { AreFilled leaves.now }
    ensures { IsTrue result → Ascend (joined leaves.now) → length (joined leaves.now) ≡ rank_in n (joined leaves.now) }
{
    match leaves.last() {
        Some(leaf) => leaf.ends_below(n),
        None => true,
    }
}

/// How many of the numbers are below `n`: at once if all are, else in steps in the logarithm of their count.
#[inline]
pub(crate) fn count_below(leaves: &[Leaf], firsts: &[usize], count: usize, n: usize) -> usize
    requires { IsKept leaves.now firsts.now count }
    ensures within { result ≤ length (joined leaves.now) }
    ensures counted { Ascend (joined leaves.now) → result ≡ rank_in n (joined leaves.now) }
{
    if are_below(leaves, n) {
        return count;
    }
    count_searched(leaves, firsts, count, n)
}

/// How many of the numbers are below `n`, in steps in the logarithm of their count.
fn count_searched(leaves: &[Leaf], firsts: &[usize], count: usize, n: usize) -> usize
    requires { IsKept leaves.now firsts.now count }
    ensures within { result ≤ length (joined leaves.now) }
    ensures counted { Ascend (joined leaves.now) → result ≡ rank_in n (joined leaves.now) }
{
    let p = leaves.partition_point(|leaf| leaf.ends_below(n));
    if p == leaves.len() {
        return count;
    }
    firsts[p] + leaves[p].count_below(n)
}

/// Cuts page `p` in two, which is full.
fn part(
    alloc: Global,
    leaves: &mut Vec<Leaf>,
    firsts: &mut Vec<usize>,
    p: usize,
) -> Result<(), AllocError>
    requires page { p < length leaves.old.items }
    requires long { 256 ≤ length (page_at leaves.old.items p) }
    requires each { length firsts.old.items ≡ length leaves.old.items }
    ensures ok { OnOk result (leaves.new.items ≡ parted_at 256 p leaves.old.items) }
    ensures err { OnErr result (leaves.new.items ≡ leaves.old.items) }
    ensures each { length firsts.new.items ≡ length leaves.new.items }
{
    firsts.reserve(1)?;
    let second = leaves[p].tail(alloc, HALF)?;
    leaves.insert(p + 1, second)?;
    leaves[p].truncate(HALF);
    firsts.push(0)?;
    Ok(())
}

/// The page and the place at which a number is inserted before number `k` of page `p`. A full page is cut in two first.
fn room(
    alloc: Global,
    leaves: &mut Vec<Leaf>,
    firsts: &mut Vec<usize>,
    p: usize,
    k: usize,
) -> Result<(usize, usize), AllocError>
    requires page { p < length leaves.old.items }
    requires within { k ≤ length (page_at leaves.old.items p) }
    requires each { length firsts.old.items ≡ length leaves.old.items }
    requires filled { AreFilled leaves.old.items }
    ensures room { IfOk result (λ r. (n : ℕ) → IsGap leaves.old.items n p k → IsGap leaves.new.items n r.0 r.1) }
    ensures same { joined leaves.new.items ≡ joined leaves.old.items }
    ensures each { length firsts.new.items ≡ length leaves.new.items }
    ensures filled { AreFilled leaves.new.items }
{
    if leaves[p].len() < LEAF_LIMIT {
        return Ok((p, k));
    }
    part(alloc, leaves, firsts, p)?;
    if k <= HALF {
        Ok((p, k))
    } else {
        Ok((p + 1, k - HALF))
    }
}

/// Inserts a number into a page that has room.
fn put_in(leaves: &mut Vec<Leaf>, p: usize, k: usize, n: usize) -> Result<(), AllocError>
    requires page { p < length leaves.old.items }
    requires within { k ≤ length (page_at leaves.old.items p) }
    ensures ok { OnOk result (leaves.new.items ≡ set leaves.old.items p (insert (page_at leaves.old.items p) k n)) }
    ensures err { OnErr result (leaves.new.items ≡ leaves.old.items) }
{
    let leaf = &mut leaves[p];
    leaf.insert(k, n)
}

/// Inserts a number before number `k`.
pub(crate) fn put(
    alloc: Global,
    leaves: &mut Vec<Leaf>,
    firsts: &mut Vec<usize>,
    k: usize,
    n: usize,
) -> Result<(), AllocError>
    requires within { k < length (joined leaves.old.items) }
    requires firsts { firsts.old.items ≡ starts 0 leaves.old.items }
    requires filled { AreFilled leaves.old.items }
    ensures ok { OnOk result (joined leaves.new.items ≡ insert (joined leaves.old.items) k n) }
    ensures err { OnErr result (joined leaves.new.items ≡ joined leaves.old.items) }
    ensures each { length firsts.new.items ≡ length leaves.new.items }
    ensures filled { AreFilled leaves.new.items }
{
    let (p, j) = locate(leaves, firsts, k);
    let (p, j) = room(alloc, leaves, firsts, p, j)?;
    put_in(leaves, p, j, n)
}

/// Whether there is a last page, and it is not full.
fn has_room(leaves: &[Leaf]) -> bool
    ensures { IsTrue result → 0 < length leaves.now }
{
    match leaves.last() {
        Some(leaf) => leaf.len() < LEAF_LIMIT,
        None => false,
    }
}

/// Adds a page with one number. The pages before it have `count` numbers.
fn add_leaf(
    alloc: Global,
    leaves: &mut Vec<Leaf>,
    firsts: &mut Vec<usize>,
    count: usize,
    n: usize,
) -> Result<(), AllocError>
    ensures ok { OnOk result (leaves.new.items ≡ leaves.old.items ++ (n ∷ []) ∷ []) }
    ensures firsts { OnOk result (firsts.new.items ≡ firsts.old.items ++ count ∷ []) }
    ensures err { OnErr result (leaves.new.items ≡ leaves.old.items) }
    ensures firsts_err { OnErr result (firsts.new.items ≡ firsts.old.items) }
{
    let mut leaf = Leaf::new(alloc);
    leaf.insert(0, n)?;
    leaves.reserve(1)?;
    firsts.push(count)?;
    leaves.push(leaf)?;
    Ok(())
}

/// Adds a number after all others. There are `count` of them.
pub(crate) fn put_last(
    alloc: Global,
    leaves: &mut Vec<Leaf>,
    firsts: &mut Vec<usize>,
    count: usize,
    n: usize,
) -> Result<(), AllocError>
    requires { IsKept leaves.old.items firsts.old.items count }
    ensures ok { OnOk result (joined leaves.new.items ≡ joined leaves.old.items ++ n ∷ []) }
    ensures err { OnErr result (joined leaves.new.items ≡ joined leaves.old.items) }
    ensures firsts { firsts.new.items ≡ starts 0 leaves.new.items }
    ensures filled { AreFilled leaves.new.items }
{
    if !has_room(leaves) {
        return add_leaf(alloc, leaves, firsts, count, n);
    }
    let last = leaves.len() - 1;
    let k = leaves[last].len();
    put_in(leaves, last, k, n)
}

/// Removes number `k`, and its page too if the page has no other number. It asks for no memory.
pub(crate) fn take_away(leaves: &mut Vec<Leaf>, firsts: &mut Vec<usize>, k: usize)
    requires within { k < length (joined leaves.old.items) }
    requires firsts { firsts.old.items ≡ starts 0 leaves.old.items }
    requires filled { AreFilled leaves.old.items }
    ensures list { joined leaves.new.items ≡ remove (joined leaves.old.items) k }
    ensures each { length firsts.new.items ≡ length leaves.new.items }
    ensures filled { AreFilled leaves.new.items }
{
    let (p, j) = locate(leaves, firsts, k);
    if leaves[p].len() == 1 {
        leaves.remove(p);
        firsts.remove(p);
    } else {
        let leaf = &mut leaves[p];
        leaf.remove(j);
    }
}

/// Moves the numbers from place `k` of page `p` on by a step. It takes one step for each page after page `p`.
pub(crate) fn shift_from(leaves: &mut [Leaf], p: usize, k: usize, step: usize)
    requires page { p < length leaves.old }
    requires within { k ≤ length (page_at leaves.old p) }
    ensures { leaves.new ≡ shifted (plus step) p k leaves.old }
{
    let leaf = &mut leaves[p];
    leaf.shift_from(k, step);
    'pass: for q in p + 1..leaves.len() {
        let leaf = &mut leaves[q];
        leaf.shift(step);
    }
}

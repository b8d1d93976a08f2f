//! How many numbers come before each page.

ghost use Rattle.std.specs.Prelude.{◌≡◌, ◌<◌, ◌^◌, List, ℕ, length};
ghost use Rattle.bib_pages.specs.Pages.{joined, IsOnWay};
ghost use Rattle.bib_numbers.specs.Moves.{starts};

use crate::leaf::Leaf;
use crate::leaves::LEAF_LIMIT;

/// The last page that begins no later than place `k`: found at once if the pages before it are full. Only time depends on
/// it.
fn last_begun(firsts: &[usize], k: usize) -> usize {
    let full = k / LEAF_LIMIT;
    if full < firsts.len() && firsts[full] == k - k % LEAF_LIMIT {
        return full;
    }
    firsts
        .partition_point(|first| *first <= k)
        .saturating_sub(1)
}

/// A page that begins no later than place `k`, and how many numbers are between its start and place `k`. It is the last
/// such page; only time depends on that.
#[tactic(auto, using(crate::proofs::FilledPages::way_start, crate::proofs::FilledPages::way_near))]
pub(crate) fn near(firsts: &[usize], k: usize) -> (usize, usize)
    ensures { (pages : List (List ℕ)) → firsts.now ≡ starts 0 pages → IsOnWay pages result.0 k result.1 }
{
    let p = last_begun(firsts, k);
    if p < firsts.len() {
        let first = firsts[p];
        if first <= k {
            return (p, k - first);
        }
    }
    (0, k)
}

/// Counts again the numbers before each page.
pub(crate) fn count_anew(leaves: &[Leaf], firsts: &mut [usize])
    requires each { length firsts.old ≡ length leaves.now }
    requires fits { length (joined leaves.now) < 2 ^ 64 }
    ensures { firsts.new ≡ starts 0 leaves.now }
{
    let mut first = 0;
    'pass: for p in 0..leaves.len() {
        firsts[p] = first;
        first += leaves[p].len();
    }
}

//! Replacing items of a list in place.

ghost use Rattle.std.specs.Prelude.{◌≡◌, ◌+◌, ◌-◌, ◌≤◌, ◌++◌, List, length, take, drop, vec_len, vec_capacity};

/// Rotates the items from a position on: the first `count` of them come last.
fn turn<T>(items: &mut Vec<T>, from: usize, count: usize)
    requires { from + count ≤ vec_len items.old }
    ensures items { items.new.items ≡ take from items.old.items ++ (drop count (drop from items.old.items) ++ take count (drop from items.old.items)) }
    ensures len { vec_len items.new ≡ vec_len items.old }
    ensures capacity { vec_capacity items.new ≡ vec_capacity items.old }
{
    items[from..].rotate_left(count);
}

/// Exchanges the items from a position on for as many others.
fn exchange<T>(items: &mut Vec<T>, from: usize, others: &mut Vec<T>)
    requires { from + vec_len others.old ≤ vec_len items.old }
    ensures items { items.new.items ≡ take from items.old.items ++ (others.old.items ++ drop (from + vec_len others.old) items.old.items) }
    ensures len { vec_len items.new ≡ vec_len items.old }
    ensures capacity { vec_capacity items.new ≡ vec_capacity items.old }
{
    let to = from + others.len();
    items[from..to].swap_with_slice(others.as_mut_slice());
}

/// Puts the last `count` items in place of those from one position up to another. It moves the items after these as memory.
pub(crate) fn bring<T: Drop>(items: &mut Vec<T>, from: usize, to: usize, count: usize)
    requires ordered { from ≤ to }
    requires inside { to + count ≤ vec_len items.old }
    ensures items { (old new : List T) → items.old.items ≡ old ++ new → length new ≡ count → items.new.items ≡ take from old ++ (new ++ drop to old) }
    ensures len { vec_len items.new + (to - from) ≡ vec_len items.old }
    ensures capacity { vec_capacity items.new ≡ vec_capacity items.old }
{
    turn(items, from, to - from);
    let len = items.len() - (to - from);
    items.truncate(len);
    turn(items, from, len - from - count);
}

/// Puts new items in place of those from one position up to another. There is room for them, so it asks for no memory. It
/// moves the items after them as memory.
pub fn replace<T: Drop>(items: &mut Vec<T>, from: usize, to: usize, new: Vec<T>)
    requires ordered { from ≤ to }
    requires inside { to ≤ vec_len items.old }
    requires room { vec_len items.old + vec_len new ≤ vec_capacity items.old }
    ensures items { items.new.items ≡ take from items.old.items ++ (new.items ++ drop to items.old.items) }
    ensures len { vec_len items.new + (to - from) ≡ vec_len items.old + vec_len new }
    ensures capacity { vec_capacity items.old ≤ vec_capacity items.new }
{
    let mut new = new;
    let count = new.len();
    if count == to - from {
        return exchange(items, from, &mut new);
    }
    if items.append(&mut new).is_err() {
        unreachable!()
    }
    bring(items, from, to, count);
}

//! Where the last line begins.

ghost use Rattle.std.specs.Prelude.{◌≡◌, ◌+◌, ◌++◌, ◌<◌, ◌≤◌, ◌^◌, ◌&&◌, List, ℕ, ⊤, true, not, length, drop, MatchOption};
ghost use Rattle.std.specs.List.{flat_map};
ghost use Rattle.bib_spec.specs.Texts.{is_empty};
ghost use Rattle.bib_spec.specs.Reading.{Item, item_bytes, bytes_of};
ghost use Rattle.bib_scan.specs.View.{view_of};
ghost use Rattle.bib_store.specs.Readings.{OfReading, IsItemNumber};
ghost use Rattle.bibtex_spec.specs.Plain.{is_line_end, is_in_last_line};
ghost use Rattle.bibtex_plain.specs.Walking.{IsLineOf, IsLineFrom, IsLastFrom};

use bib_scan::ItemView;
use bib_store::{Database, Paged};

/// Whether the byte ends a line. (bibtex 47)
fn is_line_end(byte: u8) -> bool
    ensures { result ≡ is_line_end byte }
{
    byte == b'\r' || byte == b'\n'
}

/// Whether a line ends with byte `k` of the chunk, and the file does not end there, too.
fn ends_line(chunk: &[u8], k: usize, is_end: bool) -> bool
    requires { k < length chunk.now }
    ensures { (more : List ℕ) → is_end ≡ is_empty more → is_in_last_line (drop (k + 1) chunk.now ++ more) ≡ true → not result ≡ is_in_last_line (drop k chunk.now ++ more) }
{
    is_line_end(chunk[k]) && !(is_end && k + 1 == chunk.len())
}

/// Where the last line begins in a chunk of the file, in bytes from 0, if it begins there. No line ends after the chunk, except with
/// the last byte of the file. `is_end` says whether the file ends with the chunk.
fn chunk_line(chunk: &[u8], is_end: bool) -> Option<usize>
    ensures within { MatchOption result ⊤ (λ k. k ≤ length chunk.now) }
    ensures line { (more : List ℕ) → is_end ≡ is_empty more → is_in_last_line more ≡ true → IsLineOf (chunk.now ++ more) result }
{
    let mut k = chunk.len();
    'bytes: while k > 0 {
        if ends_line(chunk, k - 1, is_end) {
            return Some(k);
        }
        k -= 1;
    }
    None
}

/// Whether the file ends before this trail: the trail is empty, and the file ends with it.
fn ends_before(trail: &[u8], is_end: bool) -> bool
    ensures { result ≡ (is_end && is_empty trail.now) }
{
    is_end && trail.is_empty()
}

/// The same of an item. It takes time in the number of bytes from there on.
fn item_line(item: &ItemView<'_>, is_end: bool) -> Option<usize>
    requires small { length item.now.body + length item.now.trail < 2 ^ 64 }
    ensures within { MatchOption result ⊤ (λ k. k ≤ length item.now.body + length item.now.trail) }
    ensures line { (i : Item) (more : List ℕ) → item.now ≡ view_of i → is_end ≡ is_empty more → is_in_last_line more ≡ true → IsLineOf (item_bytes i ++ more) result }
{
    let (body, trail) = (item.body(), item.trail());
    if let Some(k) = chunk_line(trail, is_end) {
        return Some(body.len() + k);
    }
    chunk_line(body, ends_before(trail, is_end))
}

/// Where the last line begins, if it begins in item `n` of so many.
fn line_in(db: &Database<Paged>, n: usize, count: usize) -> Option<usize>
    requires number { IsItemNumber db.now n }
    requires count { OfReading db.now (λ r. count ≡ length r.items) }
    ensures { OfReading db.now (λ r. is_in_last_line (flat_map item_bytes (drop (n + 1) r.items)) ≡ true → IsLineFrom r n result) }
{
    db.opens();
    let item = db.item(n);
    match item_line(&item, n + 1 == count) {
        Some(k) => Some(db.item_place(n) + k),
        None => None,
    }
}

/// Where the last line begins. It takes time in the length of that line.
pub(crate) fn last_line(db: &Database<Paged>) -> usize
    ensures { OfReading db.now (λ r. IsLastFrom result 0 (bytes_of r)) }
{
    db.opens();
    let count = db.item_count();
    let mut n = count;
    'items: while n > 0 {
        n -= 1;
        if let Some(place) = line_in(db, n, count) {
            return place;
        }
    }
    match chunk_line(db.front(), count == 0) {
        Some(place) => place,
        None => 0,
    }
}

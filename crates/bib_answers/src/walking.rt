//! Positions in an open file, whose bytes are those of its front and its items.

ghost use Rattle.std.specs.Prelude.{◌≡◌, ◌⊎◌, ◌+◌, ◌-◌, ◌<◌, ◌≤◌, ◌^◌, true, false, List, ℕ, length, fold, min};
ghost use Rattle.bib_spec.specs.Bytes.{file_limit};
ghost use Rattle.bib_store.specs.Readings.{OfReading, IsItemNumber};
ghost use Rattle.bib_answers.specs.Positions.{position, position_after, position_of, IsKnown};
ghost use Rattle.bib_answers.specs.Walking.{IsSpot, clip, stretch};

use crate::positions::{Known, Position, known_before, moved};
use bib_store::{Database, Paged};

/// The number of an item of an open file and the place at which it begins; or how many items there are, and the end of the file.
#[derive(Clone, Copy, Debug)]
pub struct Spot {
    pub n: usize,
    pub place: usize,
}

/// The bytes of a chunk from one place of it up to another, as far as it has such places.
fn clipped(chunk: &[u8], from: usize, to: usize) -> &[u8]
    ensures { result.now ≡ clip from to chunk.now }
{
    let len = chunk.len();
    let first = from.min(len);
    let last = to.min(len);
    let rest = chunk.split_at(first).1;
    rest.split_at(last.saturating_sub(first)).0
}

/// The position after what a chunk that begins at `place` has of the bytes from `start` up to `end`, if the position after what
/// comes before is `at`.
fn past_chunk(at: Position, chunk: &[u8], place: usize, start: usize, end: usize) -> Position
    requires before { (before : List ℕ) × (length before ≤ 2 ^ 32) × (at ≡ fold position_after (position 1 1) before) }
    requires short { length chunk.now ≤ file_limit }
    ensures { result ≡ fold position_after at (clip (start - place) (end - place) chunk.now) }
{
    let first = start.saturating_sub(place);
    let last = end.saturating_sub(place);
    moved(at, clipped(chunk, first, last))
}

/// Where a walk to this place begins: at item `n`, or at the first item if item `n` begins later.
fn spot_before(db: &Database<Paged>, n: usize, place: usize) -> Spot
    ensures spot { OfReading db.now (λ r. IsSpot r result) }
    ensures first { OfReading db.now (λ r. (end : ℕ) → min result.place end - place ≡ min (length r.front) end - place) }
{
    if n < db.item_count() {
        let at = db.item_place(n);
        if at <= place {
            return Spot { n, place: at };
        }
    }
    Spot {
        n: 0,
        place: db.front().len(),
    }
}

/// The position after what the item at this spot has of the bytes from `start` up to `end`, if the position after what comes
/// before is `at`; and the spot of the next item.
fn past_item(
    db: &Database<Paged>,
    at: Position,
    spot: Spot,
    start: usize,
    end: usize,
) -> (Position, Spot)
    requires number { IsItemNumber db.now spot.n }
    requires small { spot.n + 1 < 2 ^ 64 }
    requires spot { OfReading db.now (λ r. IsSpot r spot) }
    requires before { (before : List ℕ) × (length before ≤ 2 ^ 31) × (at ≡ fold position_after (position 1 1) before) }
    ensures at { (from : Position) → at ≡ fold position_after from (stretch start (min spot.place end) db.now) → result.0 ≡ fold position_after from (stretch start (min result.1.place end) db.now) }
    ensures n { result.1.n ≡ spot.n + 1 }
    ensures spot { OfReading db.now (λ r. IsSpot r result.1) }
{
    db.opens();
    let item = db.item(spot.n);
    let (body, trail) = (item.body(), item.trail());
    let behind = spot.place + body.len();
    let at = past_chunk(at, body, spot.place, start, end);
    let at = past_chunk(at, trail, behind, start, end);
    let next = Spot {
        n: spot.n + 1,
        place: behind + trail.len(),
    };
    (at, next)
}

/// Whether a walk up to `end` goes on at this spot of a file of so many items.
fn goes_on(spot: Spot, count: usize, end: usize) -> bool
    ensures on { result ≡ true → (spot.n < count) × (spot.place < end) }
    ensures over { result ≡ false → (count ≤ spot.n) ⊎ (end ≤ spot.place) }
{
    if spot.n >= count {
        return false;
    }
    spot.place < end
}

/// The position of the place `end`, if `from` is the position of an earlier place `start`; and the number of the last item on the
/// way. The walk begins at item `n`, if that does not begin after `start`. It takes time in the number of bytes between the two
/// places, and a step for each item.
fn moved_over(
    db: &Database<Paged>,
    n: usize,
    from: Position,
    start: usize,
    end: usize,
) -> (Position, usize)
    requires within { end ≤ length db.now }
    requires before { (before : List ℕ) × (length before ≤ file_limit) × (from ≡ fold position_after (position 1 1) before) }
    ensures { result.0 ≡ fold position_after from (stretch start end db.now) }
{
    db.opens();
    let count = db.item_count();
    let mut at = past_chunk(from, db.front(), 0, start, end);
    let mut spot = spot_before(db, n, start);
    let mut last = spot.n;
    'items: while goes_on(spot, count, end) {
        last = spot.n;
        let (now, next) = past_item(db, at, spot, start, end);
        at = now;
        spot = next;
    }
    (at, last)
}

/// This place of a file, or the end of the file if the place is after it, with its position, and the number of the last item on the
/// way from the known place. The file is open, perhaps with others: its bytes are those from `span.0` up to `span.1`. It takes time
/// in the number of bytes from the known place to this one, and a step for each item from item `n` on. If this place is before the
/// known one, it is counted from the beginning of the file.
pub fn known_in(
    db: &Database<Paged>,
    n: usize,
    span: (usize, usize),
    known: Known,
    place: usize,
) -> (Known, usize)
    requires order { span.0 ≤ span.1 }
    requires within { span.1 ≤ length db.now }
    requires known { IsKnown (stretch span.0 span.1 db.now) known }
    ensures known { IsKnown (stretch span.0 span.1 db.now) result.0 }
    ensures at { result.0.at ≡ position_of (stretch span.0 span.1 db.now) place }
{
    db.opens();
    let (first, last) = span;
    let end = place.min(last - first);
    let from = known_before(known, end);
    let (at, n) = moved_over(db, n, from.at, first + from.place, first + end);
    (Known { place: end, at }, n)
}

//! The places where the pieces of a step end in the present text.

ghost use Rattle.std.specs.Prelude.{◌≡◌, ◌+◌, ◌-◌, ◌<◌, ◌≤◌, ◌++◌, length, map, take, drop, vec_len, vec_capacity};
ghost use Rattle.bib_spec.specs.Bytes.{file_limit};
ghost use Rattle.bib_spec.specs.Pieces.{EndBy, reversed, reversed_from};
ghost use Rattle.history_spec.specs.Composing.{ends_of};
ghost use Rattle.bib_steps.specs.Amending.{AreSomeEnds, CanMove, WereEnds, ends_from, moved, next_end};

use crate::replacing::bring;
use crate::spans::{end_before, end_of};
use bib_data::Piece;

/// Where a piece ends in the text that the pieces make. Those before it end at `end` in the text before, and at `new_end` in the
/// text that they make.
pub(crate) fn end_after(piece: &Piece, end: u64, new_end: u64) -> u64
    requires { next_end end new_end piece.now ≤ file_limit }
    ensures { result ≡ next_end end new_end piece.now }
{
    new_end + piece.place.saturating_sub(end) + piece.new.as_slice().len() as u64
}

/// Adds the ends of these pieces. Those before them end at `end` in the text before, and at `new_end` in the text that they
/// make. There is room, so it asks for no memory.
fn add_ends(ends: &mut Vec<u64>, pieces: &[Piece], end: u64, new_end: u64)
    requires room { vec_len ends.old + length pieces.now ≤ vec_capacity ends.old }
    requires short { EndBy file_limit pieces.now }
    requires short_ends { EndBy file_limit (reversed_from end new_end pieces.now) }
    ensures items { ends.new.items ≡ ends.old.items ++ ends_from end new_end pieces.now }
    ensures len { vec_len ends.new ≡ vec_len ends.old + length pieces.now }
    ensures capacity { vec_capacity ends.old ≤ vec_capacity ends.new }
{
    let mut end = end;
    let mut new_end = new_end;
    for piece in pieces {
        new_end = end_after(piece, end, new_end);
        end = piece.place + piece.old.as_slice().len() as u64;
        if ends.push(new_end).is_err() {
            unreachable!()
        }
    }
}

/// Makes the ends those of these pieces, whatever they were. There is room, so it asks for no memory.
pub fn renew_ends(ends: &mut Vec<u64>, pieces: &[Piece])
    requires room { length pieces.now ≤ vec_capacity ends.old }
    requires short { EndBy file_limit pieces.now }
    requires short_ends { EndBy file_limit (reversed pieces.now) }
    ensures { ends.new.items ≡ ends_of pieces.now }
{
    ends.clear();
    add_ends(ends, pieces, 0, 0);
}

/// Puts the ends of `count` pieces, from a position on, in place of the ends from there up to another position. There is room,
/// so it asks for no memory.
fn place_ends(ends: &mut Vec<u64>, pieces: &[Piece], from: usize, to: usize, count: usize)
    requires ordered { from ≤ to }
    requires inside { to ≤ vec_len ends.old }
    requires within { from + count ≤ length pieces.now }
    requires room { vec_len ends.old + count ≤ vec_capacity ends.old }
    requires front { take from ends.old.items ≡ take from (ends_of pieces.now) }
    requires short { EndBy file_limit pieces.now }
    requires short_ends { EndBy file_limit (reversed pieces.now) }
    ensures front { take (from + count) ends.new.items ≡ take (from + count) (ends_of pieces.now) }
    ensures rest { drop (from + count) ends.new.items ≡ drop to ends.old.items }
    ensures len { vec_len ends.new + (to - from) ≡ vec_len ends.old + count }
    ensures capacity { vec_capacity ends.old ≤ vec_capacity ends.new }
{
    let (front, rest) = pieces.split_at(from);
    let (new, _) = rest.split_at(count);
    let end = end_of(front);
    let new_end = end_before(ends, from);
    add_ends(ends, new, end, new_end);
    bring(ends, from, to, count);
}

/// Moves all places as a place moves from `old` to `new`.
fn move_places(places: &mut [u64], old: u64, new: u64)
    requires { CanMove old new places.old }
    ensures { places.new ≡ map (moved old new) places.old }
{
    if old == new {
        return;
    }
    'all: for i in 0..places.len() {
        places[i] = places[i] - old + new;
    }
}

/// Moves the places from one position up to another in the same way.
fn move_between(places: &mut Vec<u64>, from: usize, to: usize, old: u64, new: u64)
    requires ordered { from ≤ to }
    requires inside { to ≤ vec_len places.old }
    requires moves { CanMove old new (take (to - from) (drop from places.old.items)) }
    ensures items { places.new.items ≡ take from places.old.items ++ (map (moved old new) (take (to - from) (drop from places.old.items)) ++ drop to places.old.items) }
    ensures len { vec_len places.new ≡ vec_len places.old }
    ensures capacity { vec_capacity places.new ≡ vec_capacity places.old }
{
    move_places(&mut places[from..to], old, new);
}

/// Moves the ends of the pieces from one position up to another, since what is before these pieces has changed. All ends move
/// as the first one does.
fn move_ends(ends: &mut Vec<u64>, pieces: &[Piece], from: usize, until: usize)
    requires ordered { from ≤ until }
    requires within { until ≤ length pieces.now }
    requires inside { until ≤ vec_len ends.old }
    requires front { take from ends.old.items ≡ take from (ends_of pieces.now) }
    requires moves { AreSomeEnds (take (until - from) (drop from pieces.now)) (take (until - from) (drop from ends.old.items)) }
    requires short { EndBy file_limit pieces.now }
    requires short_ends { EndBy file_limit (reversed pieces.now) }
    ensures items { ends.new.items ≡ take until (ends_of pieces.now) ++ drop until ends.old.items }
    ensures len { vec_len ends.new ≡ vec_len ends.old }
    ensures capacity { vec_capacity ends.new ≡ vec_capacity ends.old }
{
    if from == until {
        return;
    }
    let (front, _) = pieces.split_at(from);
    let end = end_of(front);
    let new_end = end_before(ends, from);
    let old = ends[from];
    let new = end_after(&pieces[from], end, new_end);
    move_between(ends, from, until, old, new);
}

/// Makes the ends up to `until` those of these pieces. The first `from` ends are right. Then come `count` new pieces, in place
/// of others whose ends are those from `from` up to `to`. After the new pieces the ends have only moved. There is room, so it
/// asks for no memory.
pub(crate) fn put_ends(
    ends: &mut Vec<u64>,
    pieces: &[Piece],
    from: usize,
    to: usize,
    until: usize,
    count: usize,
)
    requires ordered { from ≤ to }
    requires counted { from + count ≤ until }
    requires within { until ≤ length pieces.now }
    requires inside { to + (until - (from + count)) ≤ vec_len ends.old }
    requires room { vec_len ends.old + count ≤ vec_capacity ends.old }
    requires front { take from ends.old.items ≡ take from (ends_of pieces.now) }
    requires moves { AreSomeEnds (take (until - (from + count)) (drop (from + count) pieces.now)) (take (until - (from + count)) (drop to ends.old.items)) }
    requires short { EndBy file_limit pieces.now }
    requires short_ends { EndBy file_limit (reversed pieces.now) }
    ensures items { ends.new.items ≡ take until (ends_of pieces.now) ++ drop (to + (until - (from + count))) ends.old.items }
    ensures len { vec_len ends.new + (to - from) ≡ vec_len ends.old + count }
    ensures capacity { vec_capacity ends.old ≤ vec_capacity ends.new }
{
    place_ends(ends, pieces, from, to, count);
    move_ends(ends, pieces, from + count, until);
}

/// Makes the end at one position that of the piece there. The ends before it are right.
fn renew_end(ends: &mut Vec<u64>, pieces: &[Piece], position: usize)
    requires inside { position < length pieces.now }
    requires ends_inside { position < vec_len ends.old }
    requires front { take position ends.old.items ≡ take position (ends_of pieces.now) }
    requires short { EndBy file_limit pieces.now }
    requires short_ends { EndBy file_limit (reversed pieces.now) }
    ensures front { take (position + 1) ends.new.items ≡ take (position + 1) (ends_of pieces.now) }
    ensures rest { drop (position + 1) ends.new.items ≡ drop (position + 1) ends.old.items }
    ensures len { vec_len ends.new ≡ vec_len ends.old }
{
    let (front, _) = pieces.split_at(position);
    let end = end_of(front);
    let new_end = end_before(ends, position);
    ends[position] = end_after(&pieces[position], end, new_end);
}

/// Makes the ends those of these pieces, after the piece at this position has changed. It asks for no memory. It moves the ends
/// after that position by one number.
pub fn renew_ends_after(ends: &mut Vec<u64>, pieces: &[Piece], position: usize)
    requires inside { position < length pieces.now }
    requires ends { WereEnds position pieces.now ends.old.items }
    requires short { EndBy file_limit pieces.now }
    requires short_ends { EndBy file_limit (reversed pieces.now) }
    ensures { ends.new.items ≡ ends_of pieces.now }
{
    renew_end(ends, pieces, position);
    move_ends(ends, pieces, position + 1, pieces.len());
}

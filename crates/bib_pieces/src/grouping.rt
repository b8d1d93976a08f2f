//! Groups of members: of pieces back and on whose bytes touch, directly or through others.

ghost use Rattle.std.specs.Prelude.{◌≡◌, ◌+◌, ◌-◌, ◌<◌, ◌≤◌, true, false, nat_le, ◌∷◌, ◌++◌, length, take, drop, IfOk};
ghost use Rattle.bib_spec.specs.Bytes.{file_limit};
ghost use Rattle.bib_spec.specs.Pieces.{end_of, EndBy};
ghost use Rattle.history_spec.specs.Composing.{in_order, groups};

use crate::ordering::{is_back_first, place_of_first};
use bib_data::Piece;
use std::alloc::{AllocError, Global};

/// A group of members: where it begins, the bytes that it covers, and how many of its members lead back and how many on.
#[derive(Drop)]
pub struct Group {
    pub place: u64,
    pub covered: Vec<u8>,
    pub backs: usize,
    pub ons: usize,
}

/// Whether the piece begins no later than the bytes covered from `place` on end. If so, those of its old bytes that are not
/// covered yet are appended to them.
fn joins(covered: &mut Vec<u8>, place: u64, piece: &Piece) -> Result<bool, AllocError>
    requires covered { place + length covered.old.items ≤ file_limit }
    requires piece { end_of piece.now ≤ file_limit }
    ensures joined { IfOk result (λ joined. joined ≡ nat_le piece.now.place (place + length covered.old.items)) }
    ensures more { IfOk result (λ joined. joined ≡ true
        → covered.new.items ≡ covered.old.items ++ drop (place + length covered.old.items - piece.now.place) piece.now.old) }
    ensures same { IfOk result (λ joined. joined ≡ false → covered.new.items ≡ covered.old.items) }
{
    let end = place + covered.len() as u64;
    if piece.place > end {
        return Ok(false);
    }
    let known = (end - piece.place) as usize;
    let old = piece.old.as_slice();
    covered.extend_from_slice(&old[known.min(old.len())..])?;
    Ok(true)
}

/// The first group of the members. There is at least one member.
pub fn first_group(alloc: Global, backs: &[Piece], ons: &[Piece]) -> Result<Group, AllocError>
    requires some { 0 < length backs.now + length ons.now }
    requires backs { EndBy file_limit backs.now }
    requires ons { EndBy file_limit ons.now }
    ensures backs { IfOk result (λ g. g.backs ≤ length backs.now) }
    ensures ons { IfOk result (λ g. g.ons ≤ length ons.now) }
    ensures short { IfOk result (λ g. g.place + length g.covered.items ≤ file_limit) }
    ensures groups { IfOk result (λ g. groups (in_order backs.now ons.now)
        ≡ record { place = g.place; covered = g.covered.items; backs = take g.backs backs.now; ons = take g.ons ons.now }
        ∷ groups (in_order (drop g.backs backs.now) (drop g.ons ons.now))) }
{
    let place = place_of_first(backs, ons);
    let mut covered = Vec::new(alloc);
    let mut i: usize = 0;
    let mut j: usize = 0;
    'members: while i < backs.len() || j < ons.len() {
        if is_back_first(&backs[i..], &ons[j..]) {
            if !joins(&mut covered, place, &backs[i])? {
                return Ok(Group {
                    place,
                    covered,
                    backs: i,
                    ons: j,
                });
            }
            i += 1;
        } else {
            if !joins(&mut covered, place, &ons[j])? {
                return Ok(Group {
                    place,
                    covered,
                    backs: i,
                    ons: j,
                });
            }
            j += 1;
        }
    }
    Ok(Group {
        place,
        covered,
        backs: i,
        ons: j,
    })
}

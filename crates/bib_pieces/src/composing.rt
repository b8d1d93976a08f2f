//! Two edits in turn as one.

ghost use Rattle.std.specs.Prelude.{◌≡◌, IfOk};
ghost use Rattle.history_spec.specs.Composing.{IsComposableAt, composed_at};

use crate::applying::apply;
use crate::grouping::first_group;
use crate::reversing::reverse_from;
use bib_data::Piece;
use bib_text::Seq;
use std::alloc::{AllocError, Global};

/// The pieces of two edits in turn, as those of one edit, for pieces that come after others: these end at `from` in the text
/// before the first edit, and at `middle_from` in the text between the two edits. The pieces of `first` fit some text, and
/// those of `second` fit the text that `first` makes; neither text is longer than a file. In the text between the two edits,
/// each piece of `first` covers its new bytes, and each piece of `second` its old bytes. Pieces whose closed ranges share a
/// point, even if only through other pieces, make one piece that covers them all. It takes memory and time in the number of
/// the pieces given and their bytes.
pub fn compose_at(
    alloc: Global,
    from: u64,
    middle_from: u64,
    first: &[Piece],
    second: &[Piece],
) -> Result<Seq<Piece>, AllocError>
    requires { IsComposableAt from middle_from first.now second.now }
    ensures { IfOk result (λ pieces. pieces ≡ composed_at from middle_from first.now second.now) }
{
    let back = reverse_from(alloc, first, from, middle_from)?;
    let mut pieces = Vec::new(alloc);
    let mut backs = back.as_slice();
    let mut ons = second;
    let mut end = from;
    let mut middle_end = middle_from;
    'groups: while !backs.is_empty() || !ons.is_empty() {
        let group = first_group(alloc, backs, ons)?;
        let covered = group.covered.as_slice();
        let (members_back, next_backs) = backs.split_at(group.backs);
        let (members_on, next_ons) = ons.split_at(group.ons);
        let old = apply(alloc, covered, group.place as usize, members_back)?;
        let new = apply(alloc, covered, group.place as usize, members_on)?;
        let place = end + (group.place - middle_end);
        end = place + old.len() as u64;
        middle_end = group.place + covered.len() as u64;
        backs = next_backs;
        ons = next_ons;
        pieces.push(Piece {
            place,
            old: Seq::from_vec(old),
            new: Seq::from_vec(new),
        })?;
    }
    Ok(Seq::from_vec(pieces))
}

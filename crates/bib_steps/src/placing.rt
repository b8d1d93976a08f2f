//! Changing the pieces of a step in place.

ghost use Rattle.std.specs.Prelude.{◌≡◌, ◌+◌, ◌-◌, ◌≤◌, ◌++◌, length, take, drop, vec_len, vec_capacity};
ghost use Rattle.bib_spec.specs.Bytes.{file_limit};
ghost use Rattle.bib_spec.specs.Pieces.{EndBy, reversed};
ghost use Rattle.history_spec.specs.Composing.{ends_of};
ghost use Rattle.bib_steps.specs.Amending.{AreWithin, IsBefore, count_in, added_count, amended, replaced_by};

use crate::amendment::{Amendment, Replacement};
use crate::ends::put_ends;
use crate::replacing::replace;
use bib_data::Piece;

/// Changes pieces before a position, and the ends up to it. There is room for the new ones. It returns the position that the
/// piece from there has then.
fn put_before(
    pieces: &mut Vec<Piece>,
    ends: &mut Vec<u64>,
    change: Option<Replacement>,
    position: usize,
) -> usize
    requires before { IsBefore position change }
    requires inside { position ≤ length pieces.old.items }
    requires ends_inside { position ≤ length ends.old.items }
    requires front { take position ends.old.items ≡ take position (ends_of pieces.old.items) }
    requires room { vec_len pieces.old + count_in change ≤ vec_capacity pieces.old }
    requires ends_room { vec_len ends.old + count_in change ≤ vec_capacity ends.old }
    requires short { EndBy file_limit (replaced_by change pieces.old.items) }
    requires short_ends { EndBy file_limit (reversed (replaced_by change pieces.old.items)) }
    ensures pieces { pieces.new.items ≡ replaced_by change pieces.old.items }
    ensures inside { result ≤ length pieces.new.items }
    ensures others { drop result pieces.new.items ≡ drop position pieces.old.items }
    ensures ends { ends.new.items ≡ take result (ends_of pieces.new.items) ++ drop position ends.old.items }
    ensures len { vec_len ends.new ≤ vec_len ends.old + count_in change }
    ensures capacity { vec_capacity ends.old ≤ vec_capacity ends.new }
{
    let Some(first) = change else {
        return position;
    };
    let from = first.from;
    let to = first.to;
    let new = first.pieces.into_vec();
    let count = new.len();
    let now = from + count + (position - to);
    replace(pieces, from, to, new);
    put_ends(ends, pieces.as_slice(), from, to, now, count);
    now
}

/// Changes the pieces of a step and their ends as an edit does. There is room for both, so it asks for no memory. It moves the
/// pieces after the new ones as memory, and their ends by one number.
pub fn put(pieces: &mut Vec<Piece>, ends: &mut Vec<u64>, change: Amendment)
    requires within { AreWithin (length pieces.old.items) change }
    requires ends { ends.old.items ≡ ends_of pieces.old.items }
    requires room { vec_len pieces.old + added_count change ≤ vec_capacity pieces.old }
    requires ends_room { vec_len pieces.old + added_count change ≤ vec_capacity ends.old }
    requires short { EndBy file_limit (amended change pieces.old.items) }
    requires short_ends { EndBy file_limit (reversed (amended change pieces.old.items)) }
    ensures pieces { pieces.new.items ≡ amended change pieces.old.items }
    ensures ends { ends.new.items ≡ ends_of pieces.new.items }
{
    let last = change.last;
    let position = last.from;
    let cut = last.to - last.from;
    let new = last.pieces.into_vec();
    let count = new.len();
    replace(pieces, position, last.to, new);
    let from = put_before(pieces, ends, change.others, position);
    let len = pieces.len();
    put_ends(ends, pieces.as_slice(), from, from + cut, len, count);
}

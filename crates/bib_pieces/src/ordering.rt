//! Which member comes first.

ghost use Rattle.std.specs.Prelude.{◌≡◌, ◌+◌, ◌<◌, length};
ghost use Rattle.history_spec.specs.Composing.{in_order, back_is_first, first_place};

use bib_data::Piece;

/// Whether the first member, by place, is a piece back.
pub fn is_back_first(backs: &[Piece], ons: &[Piece]) -> bool
    ensures { result ≡ back_is_first backs.now ons.now }
{
    match (backs.first(), ons.first()) {
        (Some(back), Some(on)) => back.place <= on.place,
        (Some(_), None) => true,
        (None, _) => false,
    }
}

/// The place of the first member. There is at least one.
pub fn place_of_first(backs: &[Piece], ons: &[Piece]) -> u64
    requires { 0 < length backs.now + length ons.now }
    ensures { result ≡ first_place (in_order backs.now ons.now) }
{
    if is_back_first(backs, ons) {
        let first = &backs[0];
        return first.place;
    }
    let first = &ons[0];
    first.place
}

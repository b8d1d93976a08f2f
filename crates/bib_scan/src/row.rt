//! Rows: a name, an equals sign and a value.

ghost use Rattle.std.specs.Prelude.{◌<◌, ◌≤◌, IfOk, length};
ghost use Rattle.bib_spec.specs.Bytes.{name_limit};
ghost use Rattle.bib_scan.specs.LeftToRight.{read_assignment, read_row};
ghost use Rattle.bib_scan.specs.Code.{Gives};
ghost use Rattle.bib_scan.specs.AssignedView.{assigned_view};

use crate::fault::Stop;
use crate::spans::past_space;
use crate::value::{past_equals, split_name, split_value};

/// A name and a value's bytes, and the number of bytes left in the text from the value on.
#[derive(Clone, Copy)]
pub(crate) struct Assigned<'a> {
    pub name: &'a [u8],
    pub value: &'a [u8],
    pub value_left: usize,
}

/// An assignment, and the text after it and its white space.
#[inline(always)]
#[tactic(auto, unfolding(crate::specs::LeftToRight::read_assignment))]
pub(crate) fn split_assignment(text: &[u8]) -> Result<(Assigned<'_>, &[u8]), Stop<'_>>
    ensures read { Gives (λ x. (assigned_view x.0, x.1.now)) result (read_assignment name_limit text.now) }
    ensures shorter { IfOk result (λ x. length x.1.now < length text.now) }
    ensures within { IfOk result (λ x. x.0.value_left ≤ length text.now) }
{
    let (name, rest) = split_name(text)?;
    let inside = past_space(past_equals(past_space(rest))?);
    let (value, rest) = split_value(inside)?;
    let assigned = Assigned {
        name,
        value,
        value_left: inside.len(),
    };
    Ok((assigned, past_space(rest)))
}

/// The text after a row, given the text after its comma.
#[tactic(auto, unfolding(crate::specs::LeftToRight::read_row))]
pub(crate) fn past_row(text: &[u8]) -> Result<&[u8], Stop<'_>>
    ensures read { Gives (λ x. x.now) result (read_row name_limit text.now) }
    ensures shorter { IfOk result (λ x. length x.now < length text.now) }
{
    let (_, rest) = split_assignment(past_space(text))?;
    Ok(rest)
}

//! Numbers that are moved by a step.

ghost use Rattle.std.specs.Prelude.{◌≡◌, ◌≤◌, length};
ghost use Rattle.bib_numbers.specs.Moves.{plus, moved_from};

/// Adds a step to the numbers from place `from` on, modulo 2^64.
pub(crate) fn move_from(numbers: &mut [usize], from: usize, step: usize)
    requires { from ≤ length numbers.old }
    ensures { numbers.new ≡ moved_from (plus step) from numbers.old }
{
    'pass: for i in from..numbers.len() {
        numbers[i] = step.wrapping_add(numbers[i]);
    }
}

//! Steps that stay in the text of a journal.

ghost use Rattle.std.specs.Prelude.{ℕ, List, ◌≡◌, ◌<◌, ◌+◌, ◌^◌, ◌++◌, length, Some, slice_get, IfOk, IfErr, OnOk};
ghost use Rattle.std.specs.List.{flat_map};
ghost use Rattle.history_spec.specs.Steps.{Step as UndoStep, step_text};
ghost use Rattle.journal_format.specs.Wrong.{AreWrongSteps};
ghost use Rattle.journal_format.specs.Faults.{StopsWhere};
ghost use Rattle.journal_format.specs.Packed.{BeginsWithSteps, ArePacked};

use crate::fault::Stop;
use crate::step::Step;
use crate::steps::split_step;
use crate::version::Version;
use crate::writing::put_step;
use std::alloc::{AllocError, Global};
use std::marker::Model;

/// Steps in the text of a journal, with the place where each begins. A step is read from the text when it is asked for, so that
/// many small steps take little more memory than their text.
#[derive(Debug, Drop)]
pub struct PackedSteps<'a> {
    version: Version,
    text: &'a [u8],
    places: Vec<u32>,
}

impl<'a> Model for PackedSteps<'a> {
    ghost use Rattle.std.specs.Prelude.{List, length};
    ghost use Rattle.history_spec.specs.Steps.{Step as UndoStep};
    ghost use Rattle.journal_format.specs.Packed.{steps_in, ArePacked};

    ghost Value = { List UndoStep };

    ghost view = { λ s. steps_in s.version (length s.places.items) s.text.now };

    ghost invariant = { λ s. ArePacked s.version s.text.now s.places.items (steps_in s.version (length s.places.items) s.text.now) };
}

impl<'a> PackedSteps<'a> {
    /// How many steps there are.
    pub fn len(&self) -> usize
        ensures count { result ≡ length self.now }
        ensures small { result < 2 ^ 63 }
    {
        self.places.as_slice().len()
    }

    /// Step `n`, counted from 0. It takes time and memory for this step alone.
    pub fn read(&self, alloc: Global, n: usize) -> Result<Step, AllocError>
        requires { n < length self.now }
        ensures { IfOk result (λ step. slice_get self.now n ≡ Some step) }
    {
        let text = self.text.split_at(self.places.as_slice()[n] as usize).1;
        match split_step(alloc, self.version, text) {
            Ok((step, _)) => Ok(step),
            Err(Stop::Memory) => Err(AllocError),
            Err(Stop::Wrong(_)) => unreachable!(),
        }
    }

    /// At least how many bytes their texts in version 2 have, for which room is made at once.
    pub(crate) fn room(&self) -> usize {
        match self.version {
            Version::First => self.text.len().saturating_add(self.places.len()),
            Version::Second => self.text.len(),
        }
    }

    /// Writes the steps one by one.
    fn put_each(&self, alloc: Global, out: &mut Vec<u8>) -> Result<(), AllocError>
        ensures { OnOk result (out.new.items ≡ out.old.items ++ flat_map step_text self.now) }
    {
        'step: for n in 0..self.len() {
            let step = self.read(alloc, n)?;
            put_step(out, &step)?;
        }
        Ok(())
    }

    /// Writes the steps. Their text in version 2 is the text that they stay in.
    pub(crate) fn put(&self, alloc: Global, out: &mut Vec<u8>) -> Result<(), AllocError>
        ensures { OnOk result (out.new.items ≡ out.old.items ++ flat_map step_text self.now) }
    {
        match self.version {
            Version::First => self.put_each(alloc, out),
            Version::Second => Ok(out.extend_from_slice(self.text)?),
        }
    }
}

/// Steps whose text this is, and which begin at these places.
pub(crate) fn packed(version: Version, text: &[u8], places: Vec<u32>) -> PackedSteps<'_>
    requires { (steps : List UndoStep) × ArePacked version text.now places.items steps }
    ensures { (steps : List UndoStep) → ArePacked version text.now places.items steps → result ≡ steps }
{
    PackedSteps {
        version,
        text,
        places,
    }
}

/// Where the first `count` steps begin, and the text after them; or why reading stops, however many steps should follow them.
pub(crate) fn split_places(
    alloc: Global,
    version: Version,
    count: u64,
    text: &[u8],
) -> Result<(Vec<u32>, &[u8]), Stop>
    requires { length text.now < 4294967296 }
    ensures read { IfOk result (λ x. BeginsWithSteps version count text.now x.0.items x.1.now) }
    ensures wrong { IfErr result (StopsWhere (λ left. (more : ℕ) → AreWrongSteps version (count + more) text.now left)) }
{
    let mut places = Vec::new(alloc);
    let mut rest = text;
    'step: for _n in 0..count {
        let (_step, after) = split_step(alloc, version, rest)?;
        places.push((text.len() - rest.len()) as u32)?;
        rest = after;
    }
    Ok((places, rest))
}

//! The step that is open.

ghost use Rattle.std.specs.Prelude.{◌≡◌, ◌↔◌, IsTrue};
ghost use Rattle.bib_journal.specs.OpenSteps.{next_label, after_edit};
ghost use Rattle.bib_journal.specs.declared.open_step.OpenStep.TheVariants.{NoStep, LastStep};

use bib_text::{Seq, Text};
use std::alloc::Global;
use std::mem::replace;

/// The step that is open, to which the next edit goes.
#[derive(Debug, Drop)]
pub(crate) enum OpenStep {
    /// None is open: the next edit is a step by itself.
    NoStep,
    /// One with this label, which has no edit yet.
    NewStep(Text),
    /// The last step of the past, which has edits.
    LastStep,
}

impl OpenStep {
    /// Whether no step is open.
    pub(crate) fn is_none(&self) -> bool
        ensures { IsTrue result ↔ (self.now ≡ NoStep) }
    {
        matches!(self, OpenStep::NoStep)
    }

    /// Whether the last step of the past is open.
    pub(crate) fn is_last(&self) -> bool
        ensures { IsTrue result ↔ (self.now ≡ LastStep) }
    {
        matches!(self, OpenStep::LastStep)
    }
}

/// The label of the step that the next edit begins; empty, if it begins none that was opened.
pub(crate) fn next_label(current: &OpenStep) -> &[u8]
    ensures { result.now ≡ next_label current.now }
{
    match current {
        OpenStep::NewStep(label) => label.as_slice(),
        _ => &[],
    }
}

/// The same, once that edit is made: a step that was opened is the last of the past then. It asks for no memory.
pub(crate) fn take_label(alloc: Global, current: &mut OpenStep) -> Text
    ensures label { result ≡ next_label current.old }
    ensures current { current.new ≡ after_edit current.old }
{
    match replace(current, OpenStep::LastStep) {
        OpenStep::NewStep(label) => label,
        OpenStep::LastStep => Seq::empty(alloc),
        OpenStep::NoStep => {
            *current = OpenStep::NoStep;
            Seq::empty(alloc)
        }
    }
}

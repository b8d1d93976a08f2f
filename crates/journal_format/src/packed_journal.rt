//! The contents of a journal, with steps that stay in its text.

use crate::packed_steps::PackedSteps;
use std::marker::Model;

/// The contents of a journal, as `Journal` has them, with steps that stay in the journal's text.
#[derive(Debug, Drop)]
pub struct PackedJournal<'a> {
    pub digest: &'a [u8],
    pub past: PackedSteps<'a>,
    pub future: PackedSteps<'a>,
}

impl<'a> Model for PackedJournal<'a> {
    ghost use Rattle.journal_format.specs.Contents.{Contents};

    ghost Value = { Contents };

    ghost view = { λ j. record { digest = j.digest.now; past = j.past; future = j.future } };
}

//! The contents of a journal.

use crate::step::Step;
use bib_text::{Seq, Text};
use std::marker::Model;

/// The contents of a journal: the digest of the present file, the past steps from the oldest, and the future steps from the
/// next to be redone.
#[derive(Debug, Drop)]
pub struct Journal {
    pub digest: Text,
    pub past: Seq<Step>,
    pub future: Seq<Step>,
}

impl Model for Journal {
    ghost use Rattle.journal_format.specs.Contents.{Contents};

    ghost Value = { Contents };

    ghost view = { λ j. record { digest = j.digest; past = j.past; future = j.future } };
}

//! How often texts are in a list.

ghost use Rattle.std.specs.Prelude.{◌≡◌, ◌<◌, ◌+◌, ◌^◌, ℕ, List, IfOk, OnOk, if◌then◌else◌};
ghost use Rattle.std.specs.Str.{bytes_eq};
ghost use Rattle.bib_names.specs.Label.{count_of};
ghost use Rattle.bib_names.specs.Counts.{times};

use bib_text::Text;
use std::alloc::{AllocError, Global};
use std::collections::HashMap;

/// How often each text was counted.
#[derive(Drop)]
pub(crate) struct Tally<'a> {
    counts: HashMap<&'a [u8], usize>,
}

impl<'a> Tally<'a> {
    /// No text was counted.
    pub fn none(alloc: Global) -> Self
        ensures { (text : List ℕ) → times result.counts text ≡ 0 }
    {
        Tally {
            counts: HashMap::new(alloc),
        }
    }

    /// How often the text was counted.
    pub fn count(&self, text: &[u8]) -> usize
        ensures { result ≡ times self.now.counts text.now }
    {
        match self.counts.get(text) {
            Some(count) => *count,
            None => 0,
        }
    }

    /// How often the text was counted; then it is counted once more.
    pub fn add(&mut self, text: &'a [u8]) -> Result<usize, AllocError>
        requires { times self.old.counts text.now + 1 < 2 ^ 64 }
        ensures before { IfOk result (λ count. count ≡ times self.old.counts text.now) }
        ensures added { OnOk result ((other : List ℕ) → times self.new.counts other ≡ times self.old.counts other + (if bytes_eq other text.now then 1 else 0)) }
    {
        let before = self.count(text);
        self.counts.insert(text, before + 1)?;
        Ok(before)
    }

    /// How often each text is among these.
    pub fn of(alloc: Global, texts: &'a [Text]) -> Result<Self, AllocError>
        ensures { IfOk result (λ tally. (text : List ℕ) → times tally.counts text ≡ count_of text texts.now) }
    {
        let mut tally = Tally::none(alloc);
        for text in texts {
            tally.add(text.as_slice())?;
        }
        Ok(tally)
    }
}

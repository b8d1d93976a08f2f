//! What a group has printed so far.

ghost use Rattle.std.specs.Prelude.{◌≡◌, ◌++◌, ◌∷◌, [], true, OnOk};
ghost use Rattle.bib_names.specs.Special.{is_plain};
ghost use Rattle.bib_names.specs.Printing.{is_short};

use crate::braces::Braces;
use crate::special::char_count;
use std::alloc::{AllocError, Global};
use std::marker::Model;

/// An output that has at least this many text characters is not short. (dialect)
const ENOUGH: usize = 3;

/// What a group has printed so far. Each byte between two words at depth 0 is a text character, whatever follows it, so
/// an output with three such bytes is not short.
#[derive(Drop)]
pub(crate) struct Output {
    bytes: Vec<u8>,
    braces: Braces,
    joints: usize,
}

impl Model for Output {
    ghost use Rattle.bib_spec.specs.Text.{Text};
    ghost use Rattle.bib_names.specs.Outputs.{IsOutput};

    ghost Value = { Text };

    ghost view = { λ o. o.bytes.items };

    ghost invariant = { λ o. IsOutput o.bytes.items o.braces.opened o.braces.closed o.joints };
}

impl Output {
    /// The output of no words.
    #[tactic(auto, using(crate::proofs::OutputLemmas::no_output))]
    pub fn none(alloc: Global) -> Self
        ensures { result ≡ [] }
    {
        Output {
            bytes: Vec::new(alloc),
            braces: Braces::none(),
            joints: 0,
        }
    }

    /// Adds a text.
    pub fn push_text(&mut self, text: &[u8]) -> Result<(), AllocError>
        ensures { OnOk result (self.new ≡ self.old ++ text.now) }
    {
        self.bytes.extend_from_slice(text)?;
        self.braces = self.braces.over(text);
        Ok(())
    }

    /// Adds a byte between two words.
    pub fn push_joint(&mut self, joint: u8) -> Result<(), AllocError>
        requires { is_plain joint ≡ true }
        ensures { OnOk result (self.new ≡ self.old ++ joint ∷ []) }
    {
        self.bytes.push(joint)?;
        if self.joints < ENOUGH && self.braces.are_level() {
            self.joints += 1;
        }
        Ok(())
    }

    /// Whether it has fewer than three text characters. If the words balance, all calls together read the bytes of the
    /// output three times at most, however many words there are.
    #[tactic(auto, using(crate::proofs::OutputLemmas::known_long))]
    pub fn is_short(&self) -> bool
        ensures { result ≡ is_short self.now }
    {
        self.joints < ENOUGH && char_count(self.bytes.as_slice(), ENOUGH) < ENOUGH
    }

    /// Its bytes.
    pub fn into_vec(self) -> Vec<u8>
        ensures { result.items ≡ self }
    {
        self.bytes
    }
}

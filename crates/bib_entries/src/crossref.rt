//! The crossref text of an entry, as a table keeps it.

ghost use Rattle.std.specs.Prelude.{◌≡◌, None, IfOk};
ghost use Rattle.std.specs.Option.{option_copied};

use bib_text::Text;
use folded_map::{SHORT_LEN, ShortText};
use std::alloc::{AllocError, Global};
use std::marker::Model;

/// How a text is kept.
#[derive(Drop)]
enum Held {
    Nothing,
    Short(ShortText),
    // in a box, so that a `Held` with a short text is small
    Long(Box<Text>),
}

/// A text or none, in 24 bytes. A text of at most 22 bytes takes no memory of its own.
#[derive(Drop)]
pub(crate) struct Crossref {
    held: Held,
}

impl Model for Crossref {
    ghost use Rattle.std.specs.Prelude.{Option};
    ghost use Rattle.bib_spec.specs.Text.{Text};
    ghost use Rattle.bib_entries.specs.Crossref.{text_of};

    ghost Value = { Option Text };

    ghost view = { λ c. text_of c.held };
}

impl Crossref {
    /// No text.
    pub(crate) fn none() -> Self
        ensures { result ≡ None }
    {
        Crossref {
            held: Held::Nothing,
        }
    }

    /// The text, if there is one.
    pub(crate) fn of(alloc: Global, text: Option<Text>) -> Result<Self, AllocError>
        ensures { IfOk result (λ crossref. crossref ≡ text) }
    {
        let held = match text {
            None => Held::Nothing,
            Some(text) if text.as_slice().len() <= SHORT_LEN => {
                Held::Short(ShortText::of(text.as_slice()))
            }
            Some(text) => Held::Long(Box::new(alloc, text)?),
        };
        Ok(Crossref { held })
    }

    /// The text, if there is one.
    pub(crate) fn as_slice(&self) -> Option<&[u8]>
        ensures { option_copied result ≡ self.now }
    {
        match &self.held {
            Held::Nothing => None,
            Held::Short(text) => Some(text.as_slice()),
            Held::Long(text) => Some(text.as_slice()),
        }
    }
}

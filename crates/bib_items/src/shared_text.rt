//! A text with several owners.

ghost use Rattle.std.specs.Prelude.{◌≡◌, [], length, IfOk};

use std::alloc::{AllocError, Global};
use std::marker::Model;
use std::sync::Arc;

/// A text with several owners, none of whom changes it. Its memory is given back with the last owner.
#[derive(Drop)]
pub(crate) struct SharedText {
    text: Option<Arc<Vec<u8>, Global>>,
}

impl Model for SharedText {
    ghost use Rattle.std.specs.Prelude.{[]};
    ghost use Rattle.std.specs.Arc.{arc_value};
    ghost use Rattle.std.specs.Option.{option_map_or};
    ghost use Rattle.bib_spec.specs.Text.{Text};
    ghost use Rattle.bib_items.specs.SharedTexts.{bytes_in};

    ghost Value = { Text };

    ghost view = { λ t. option_map_or (λ shared. bytes_in (arc_value shared)) t.text [] };
}

impl SharedText {
    /// The empty text. It takes no memory.
    pub(crate) fn empty() -> Self
        ensures { result ≡ [] }
    {
        SharedText { text: None }
    }

    /// This text. Its bytes stay where they are.
    pub(crate) fn of(alloc: Global, text: Vec<u8>) -> Result<SharedText, AllocError>
        ensures { IfOk result (λ shared. shared ≡ text.items) }
    {
        match Arc::new(alloc, text) {
            Ok(text) => Ok(SharedText { text: Some(text) }),
            Err(_) => Err(AllocError),
        }
    }

    /// One more owner.
    pub(crate) fn share(&self) -> Result<SharedText, AllocError>
        ensures { IfOk result (λ shared. shared ≡ self.now) }
    {
        match &self.text {
            Some(text) => Ok(SharedText {
                text: Some(Arc::try_clone(text)?),
            }),
            None => Ok(SharedText { text: None }),
        }
    }

    /// How many bytes it has.
    pub(crate) fn len(&self) -> usize
        ensures { result ≡ length self.now }
    {
        self.as_slice().len()
    }

    /// The bytes.
    pub(crate) fn as_slice(&self) -> &[u8]
        ensures { result.now ≡ self.now }
    {
        match &self.text {
            Some(text) => text.as_ref().as_slice(),
            None => &[],
        }
    }
}

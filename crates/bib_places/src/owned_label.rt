//! Labels that own their texts.

ghost use Rattle.std.specs.Prelude.{◌≡◌, IfOk};
ghost use Rattle.bib_units.specs.Labels.{label_seen};
ghost use Rattle.bib_places.specs.OwnedLabels.{owned_seen};

use bib_text::{Text, copied};
use bib_units::Label;
use std::alloc::{AllocError, Global};

/// A copy of the label of a unit: the key of an entry, the name of a macro definition, or the bytes of any other unit.
#[derive(Debug, Drop)]
pub enum OwnedLabel {
    Entry(Text),
    Macro(Text),
    Bytes(Text),
}

impl OwnedLabel {
    /// A copy of this label.
    pub fn of(alloc: Global, label: Label<'_>) -> Result<Self, AllocError>
        ensures { IfOk result (λ owned. owned_seen owned ≡ label_seen label.entry) }
    {
        match label {
            Label::Entry(key) => Ok(OwnedLabel::Entry(copied(alloc, key)?)),
            Label::Macro(name) => Ok(OwnedLabel::Macro(copied(alloc, name)?)),
            Label::Bytes(bytes) => Ok(OwnedLabel::Bytes(copied(alloc, bytes)?)),
        }
    }

    /// The label, as slices of this copy.
    pub fn as_label(&self) -> Label<'_>
        ensures { label_seen result ≡ owned_seen self.now }
    {
        match self {
            OwnedLabel::Entry(key) => Label::Entry(key.as_slice()),
            OwnedLabel::Macro(name) => Label::Macro(name.as_slice()),
            OwnedLabel::Bytes(bytes) => Label::Bytes(bytes.as_slice()),
        }
    }
}

//! The parts that an edit of macros seeks.

ghost use Rattle.std.specs.Prelude.{◌≡◌};
ghost use Rattle.bib_scan.specs.PartView.{part_view};
ghost use Rattle.part_spec.specs.Parts.{uses, holds};
ghost use Rattle.bib_items.specs.Seeking.{test_of};

use bib_scan::Part;
use bib_text::same_folded;

/// Which parts are sought.
#[derive(Clone, Copy, Debug)]
pub enum Sought<'a> {
    /// None.
    Nothing,
    /// The uses of this macro.
    Uses(&'a [u8]),
    /// This text, in braces or in quotes.
    Holds(&'a [u8]),
}

impl<'a> Sought<'a> {
    /// Whether the part is one of those.
    pub fn is_met(self, part: Part<'_>) -> bool
        ensures { result ≡ test_of self.entry (part_view part.entry) }
    {
        match self {
            Sought::Nothing => false,
            Sought::Uses(name) => is_use(name, part),
            Sought::Holds(text) => is_text(text, part),
        }
    }
}

/// Whether the part is the macro's name.
fn is_use(name: &[u8], part: Part<'_>) -> bool
    ensures { result ≡ uses name.now (part_view part.entry) }
{
    match part {
        Part::Macro(used) => same_folded(used, name),
        Part::Braced(_) | Part::Quoted(_) | Part::Digits(_) => false,
    }
}

/// Whether the part is the text, in braces or in quotes.
fn is_text(text: &[u8], part: Part<'_>) -> bool
    ensures { result ≡ holds text.now (part_view part.entry) }
{
    match part {
        Part::Braced(held) => held == text,
        Part::Quoted(held) => held == text,
        Part::Digits(_) | Part::Macro(_) => false,
    }
}

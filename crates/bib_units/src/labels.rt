//! What tells units apart.

ghost use Rattle.std.specs.Prelude.{◌≡◌};
ghost use Rattle.merge_spec.specs.Units.{same_label};
ghost use Rattle.bib_units.specs.Labels.{label_seen};

use bib_text::same_folded;

/// What tells a unit from others: the key of an entry, the name of a macro definition, or the bytes of any other unit.
#[derive(Clone, Copy, Debug, PartialEq, Eq)]
pub enum Label<'a> {
    Entry(&'a [u8]),
    Macro(&'a [u8]),
    Bytes(&'a [u8]),
}

/// Whether two units have the same label. The case of keys and of names of macros does not count.
pub fn is_same(a: Label<'_>, b: Label<'_>) -> bool
    ensures { result ≡ same_label (label_seen a.entry) (label_seen b.entry) }
{
    match (a, b) {
        (Label::Entry(a), Label::Entry(b)) => same_folded(a, b),
        (Label::Macro(a), Label::Macro(b)) => same_folded(a, b),
        (Label::Bytes(a), Label::Bytes(b)) => a == b,
        _ => false,
    }
}

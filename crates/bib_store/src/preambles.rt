//! What a preamble says.

ghost use Rattle.std.specs.Prelude.{◌≡◌};
ghost use Rattle.bib_spec.specs.Tree.{Preamble, PreambleTree, value_bytes};
ghost use Rattle.bib_spec.specs.Text.{Text as Bytes};
ghost use Rattle.bib_scan.specs.View.{view_of};

use bib_scan::ItemView;

/// The bytes of a preamble's value.
pub(crate) fn preamble_value<'a>(preamble: &ItemView<'a>) -> &'a [u8]
    ensures { (p : Preamble) (trail : Bytes) → preamble.now ≡ view_of (record { tree = PreambleTree p; trail = trail }) → result.now ≡ value_bytes p.value }
{
    match preamble.fields().next() {
        Some(field) => field.value,
        None => b"",
    }
}

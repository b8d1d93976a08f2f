//! Two edits in turn as one.

ghost use Rattle.std.specs.Prelude.{◌≡◌, IfOk, IfErr};
ghost use Rattle.bib_spec.specs.Text.{Text};
ghost use Rattle.bib_spec.specs.Pieces.{Fit, applied};
ghost use Rattle.bib_items.specs.declared.fault.StoreFault.TheVariants.{Memory};
ghost use Rattle.history_spec.specs.Composing.{IsComposable, IsComposableAt, composed, composed_at};

use bib_data::Piece;
use bib_items::StoreFault;
use bib_text::Seq;
use std::alloc::Global;

/// The pieces of two edits in turn, as those of one edit. The pieces of `first` fit some text, and those of `second` fit
/// the text that `first` makes; neither text is longer than a file. In the text between the two edits, each piece of
/// `first` covers its new bytes, and each piece of `second` its old bytes. Pieces whose closed ranges share a point, even
/// if only through other pieces, make one piece that covers them all. It takes memory and time in the number of the pieces
/// and their bytes.
pub fn compose(alloc: Global, first: &[Piece], second: &[Piece]) -> Result<Seq<Piece>, StoreFault>
    requires composable { IsComposable first.now second.now }
    ensures value { IfOk result (λ pieces. pieces ≡ composed first.now second.now) }
    ensures fit { IfOk result (λ pieces. (text : Text) → Fit first.now text → Fit second.now (applied first.now text) → Fit pieces text) }
    ensures lead { IfOk result (λ pieces. (text : Text) → Fit first.now text → Fit second.now (applied first.now text)
        → applied pieces text ≡ applied second.now (applied first.now text)) }
    ensures only { IfErr result (λ fault. fault ≡ Memory) }
{
    compose_at(alloc, 0, 0, first, second)
}

/// What `compose` gives, for pieces that come after others: these end at `from` in the text before the first edit, and at
/// `middle_from` in the text between the two edits. It takes memory and time in the number of the pieces given and their
/// bytes.
pub fn compose_at(
    alloc: Global,
    from: u64,
    middle_from: u64,
    first: &[Piece],
    second: &[Piece],
) -> Result<Seq<Piece>, StoreFault>
    requires composable { IsComposableAt from middle_from first.now second.now }
    ensures value { IfOk result (λ pieces. pieces ≡ composed_at from middle_from first.now second.now) }
    ensures only { IfErr result (λ fault. fault ≡ Memory) }
{
    Ok(bib_pieces::compose_at(alloc, from, middle_from, first, second)?)
}

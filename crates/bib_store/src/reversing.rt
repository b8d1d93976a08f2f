//! The way back.

ghost use Rattle.std.specs.Prelude.{◌≡◌, ◌<◌, ◌≤◌, length, sum_by, All, IfOk, IfErr};
ghost use Rattle.bib_spec.specs.Bytes.{file_limit};
ghost use Rattle.bib_spec.specs.Text.{Text};
ghost use Rattle.bib_spec.specs.Pieces.{Fit, IsAscending, applied, reversed};
ghost use Rattle.bib_pieces.specs.Reversing.{new_bytes_limit};
ghost use Rattle.bib_items.specs.declared.fault.StoreFault.TheVariants.{Memory};

use bib_data::Piece;
use bib_items::StoreFault;
use bib_pieces::reverse_from;
use bib_text::Seq;
use std::alloc::Global;

/// The pieces that lead back from the text that these pieces make: old and new bytes exchanged, at the places of that
/// text. The pieces ascend without overlap, begin within the longest file (16,777,216 bytes), and have fewer than
/// 4,294,967,296 new bytes together. It takes memory for a copy of all their bytes, and time in their number.
pub fn reverse(alloc: Global, pieces: &[Piece]) -> Result<Seq<Piece>, StoreFault>
    requires ascending { IsAscending pieces.now }
    requires places { All (λ p. p.place ≤ file_limit) pieces.now }
    requires new_bytes { sum_by (λ p. length p.new) pieces.now < new_bytes_limit }
    ensures value { IfOk result (λ back. back ≡ reversed pieces.now) }
    ensures fit { IfOk result (λ back. (text : Text) → Fit pieces.now text → Fit back (applied pieces.now text)) }
    ensures back { IfOk result (λ back. (text : Text) → Fit pieces.now text → applied back (applied pieces.now text) ≡ text) }
    ensures only { IfErr result (λ fault. fault ≡ Memory) }
{
    Ok(reverse_from(alloc, pieces, 0, 0)?)
}

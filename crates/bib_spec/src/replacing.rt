//! Laws of pieces, and of texts in chunks.

ghost use Rattle.bib_spec.specs.Pieces.{reversed_pieces_fit, reversed_pieces_lead_back, reversed_twice, chunks_fit, chunks_lead, pieces_are_chunks, kept_between, IsMovedAndBack, two_entries, first_moved_after};

/// The reversed pieces fit the new text and lead back to the old; an example shows them byte for byte.
pub fn reversed_pieces_are_the_way_back()
    ensures fit { reversed_pieces_fit }
    ensures back { reversed_pieces_lead_back }
    ensures twice { reversed_twice }
    ensures example { IsMovedAndBack two_entries first_moved_after }
{}

/// The pieces of chunks fit the old text of the chunks, and lead to their new text.
pub fn pieces_of_chunks_lead_from_old_to_new()
    ensures fit { chunks_fit }
    ensures new { chunks_lead }
{}

/// Pieces change no byte that they do not cover.
pub fn bytes_outside_pieces_are_kept()
    ensures chunks { pieces_are_chunks }
    ensures between { kept_between }
{}

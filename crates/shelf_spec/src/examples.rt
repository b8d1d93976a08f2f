//! What the definitions say of small files.

ghost use Rattle.shelf_spec.specs.Examples.{EarlierMacroIsSeen, LaterMacroIsUnseen, SeamPartsFiles};

/// A use sees the macros of earlier files. No command is made of the bytes of two files.
pub fn a_shelf_has_a_seam()
    ensures earlier { EarlierMacroIsSeen }
    ensures later { LaterMacroIsUnseen }
    ensures parted { SeamPartsFiles }
{}

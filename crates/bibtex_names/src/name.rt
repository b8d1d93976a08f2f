//! The parts of a name.

ghost use Rattle.std.specs.Prelude.{◌≡◌, ◌≢◌, Ok, Err, IfOk, IfErr};
ghost use Rattle.bib_names.specs.declared.fault.NameFault.TheVariants.{Memory};
ghost use Rattle.bibtex_names.specs.NamesInLists.{parts_in};

use crate::name_cut::parts_of;
use crate::word::Word;
use bib_names::NameFault;
use bib_scan::is_balanced;
use bib_text::Seq;
use std::alloc::Global;

/// The parts of a name: the words of First, von, Last and Jr, each in the name's order.
#[derive(Debug, Drop)]
pub struct Name<'a> {
    pub first: Seq<Word<'a>>,
    pub von: Seq<Word<'a>>,
    pub last: Seq<Word<'a>>,
    pub jr: Seq<Word<'a>>,
}

/// The parts of a name as BibTeX takes it apart: `First von Last`, `von Last, First` or `von Last, Jr, First`, where further commas
/// part words of First. The time is linear in the name's length.
///
/// A name whose braces do not balance is refused as 22. Another name is refused as 21 if it has no word before its first comma, where
/// BibTeX reads what it did not write. All other names are refused only for want of memory.
pub fn split_name(alloc: Global, text: &[u8]) -> Result<Name<'_>, NameFault>
    ensures parts { IfOk result (λ name. parts_in text.now ≡ Ok name) }
    ensures fault { IfErr result (λ fault. fault ≢ Memory → parts_in text.now ≡ Err fault) }
{
    if !is_balanced(text) {
        return Err(NameFault::UnbalancedName);
    }
    match parts_of(alloc, text)? {
        Some(name) => Ok(name),
        None => Err(NameFault::TooManyCommas),
    }
}

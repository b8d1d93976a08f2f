//! The parts of a name.

ghost use Rattle.std.specs.Prelude.{◌≡◌, ◌↔◌, ◌<◌, ◌≤◌, Err, IfOk, IfErr, OnOk, Some, length};
ghost use Rattle.bib_spec.specs.Text.{IsBalanced};
ghost use Rattle.bib_names.specs.Name.{commas, without_end, parts_of};

use crate::fault::NameFault;
use crate::name_cut::name_cut;
use crate::word::Word;
use bib_scan::is_balanced;
use bib_text::Seq;
use std::alloc::Global;

/// The parts of a name: the words of First, von, Last and Jr, each in the name's order. (btxhak 5.4)
#[derive(Debug, Drop)]
pub struct Name<'a> {
    pub first: Seq<Word<'a>>,
    pub von: Seq<Word<'a>>,
    pub last: Seq<Word<'a>>,
    pub jr: Seq<Word<'a>>,
}

/// The parts of a name (btxhak 5.4), each a list of words: `First von Last`, `von Last, First` or
/// `von Last, Jr, First`, where a von word is one whose case is lower. The time is linear in the name's length.
///
/// A name whose braces do not balance is refused as 22. Another name is refused as 21 if it has more than two commas at
/// depth 0, not counting those at its end. All other names are refused only for want of memory.
pub fn split_name(alloc: Global, text: &[u8]) -> Result<Name<'_>, NameFault>
    ensures parts { IfOk result (λ name. parts_of text.now ≡ Some name) }
    ensures balanced { OnOk result (IsBalanced text.now) }
    ensures few { OnOk result (length (commas (without_end text.now)) ≤ 2) }
    ensures memory { IsBalanced text.now → length (commas (without_end text.now)) ≤ 2 → IfErr result (λ fault. fault ≡ NameFault.Memory) }
    ensures unbalanced { (result ≡ Err NameFault.UnbalancedName) ↔ ¬ IsBalanced text.now }
    ensures commas { (result ≡ Err NameFault.TooManyCommas) ↔ (IsBalanced text.now × (2 < length (commas (without_end text.now)))) }
{
    if !is_balanced(text) {
        return Err(NameFault::UnbalancedName);
    }
    match name_cut(alloc, text)? {
        Some(cut) => Ok(cut.into_name(alloc)?),
        None => Err(NameFault::TooManyCommas),
    }
}

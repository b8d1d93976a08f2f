//! Quick looks for a word in an item's bytes, which spare taking the item apart.

ghost use Rattle.std.specs.Prelude.{◌≡◌, ◌++◌, ◌<◌, length, true};
ghost use Rattle.memchr.specs.Find.{IsFirstByte, is_byte2};
ghost use Rattle.bib_spec.specs.Text.{Text as Bytes, same};
ghost use Rattle.bib_items.specs.Glancing.{LacksWord};

use bib_text::same_folded;
use memchr::arch::all::packedpair::{DefaultFrequencyRank, HeuristicFrequencyRank, Pair};
use memchr::{memchr, memchr2};

/// How common a byte is where letters are sought in both cases: a capital is as common as its small letter.
#[derive(Clone, Copy, Debug)]
struct FoldedRank;

impl HeuristicFrequencyRank for FoldedRank {
    fn rank(&self, byte: u8) -> u8 {
        DefaultFrequencyRank.rank(byte.to_ascii_lowercase())
    }
}

/// The number of the word's byte that is rarest in most texts. Only time depends on it.
pub(crate) fn rarest(word: &[u8]) -> usize
    ensures { 0 < length word.now → result < length word.now }
{
    match Pair::with_ranker(word, FoldedRank) {
        Some(pair) => pair.index1() as usize,
        None => 0,
    }
}

/// Whether the text begins with the word, in any case.
#[inline(always)]
fn begins_with(text: &[u8], word: &[u8]) -> bool
    ensures { (name rest : Bytes) → text.now ≡ name ++ rest → same name word.now ≡ true → result ≡ true }
{
    text.len() >= word.len() && same_folded(text.split_at(word.len()).0, word)
}

/// The first place of either byte.
#[inline(always)]
fn find_either(low: u8, high: u8, text: &[u8]) -> Option<usize>
    ensures { IsFirstByte (is_byte2 low high) text.now result }
{
    if low == high {
        return memchr(low, text);
    }
    memchr2(low, high, text)
}

/// Whether the word is nowhere in the text, in any case. It looks for the word's byte number `rare` first, and takes no
/// memory. The time is in the length of the text, times that of the word if all bytes are alike. It is inlined, since it takes
/// fewer steps where the word is known.
#[inline(always)]
pub fn lacks_word(text: &[u8], word: &[u8], rare: usize) -> bool
    requires { rare < length word.now }
    ensures { result ≡ true → LacksWord text.now word.now }
{
    if text.len() < rare {
        return true;
    }
    let low = word[rare].to_ascii_lowercase();
    let high = low.to_ascii_uppercase();
    let mut at = rare;
    'search: while let Some(found) = find_either(low, high, text.split_at(at).1) {
        let place = at + found;
        if begins_with(text.split_at(place - rare).1, word) {
            return false;
        }
        at = place + 1;
    }
    true
}

//! Words that cross as one text and the length of each.

ghost use Rattle.std.specs.Prelude.{◌≡◌, IfOk};
ghost use Rattle.bib_c.specs.Words.{words_of};

use bib_text::{Seq, Text, copied};
use std::alloc::{AllocError, Global};

/// The words that a text consists of, each of the length that is named for it: a copy of each. There are none if the text is too
/// short for them.
pub fn words_of(alloc: Global, text: &[u8], lens: &[usize]) -> Result<Option<Seq<Text>>, AllocError>
    ensures { IfOk result (λ words. words ≡ words_of text.now lens.now) }
{
    let mut words = Vec::new(alloc);
    let mut rest = text;
    'word: for len in lens {
        if *len > rest.len() {
            return Ok(None);
        }
        let (word, more) = rest.split_at(*len);
        words.push(copied(alloc, word)?)?;
        rest = more;
    }
    Ok(Some(Seq::from_vec(words)))
}

//! A name cut into its parts, with the words after its first comma not read yet.

ghost use Rattle.std.specs.Prelude.{◌≡◌, ◌≤◌, IfOk, OnErr, length, vec_len};
ghost use Rattle.bib_names.specs.Words.{words_of};
ghost use Rattle.bib_names.specs.Name.{commas, von_end, von_start, hyphened_start, cut_at, without_comma, with_commas, without_end, parts_of_bare, parts_of};

use crate::name::Name;
use crate::pieces::{Piece, comma_from, no_piece, pieces_after};
use crate::text::without_end;
use crate::word::{Word, words};
use bib_text::Seq;
use std::alloc::{AllocError, Global};
use std::marker::Model;

/// How many words there are up to the last von word, if the final word is left out.
fn von_end(words: &[Word<'_>]) -> usize
    ensures end { result ≡ von_end words.now }
    ensures within { result ≤ length words.now }
{
    let mut end = words.len().saturating_sub(1);
    while end > 0 && !words[end - 1].is_von() {
        end -= 1;
    }
    end
}

/// How many words are before the first von word.
fn von_start(words: &[Word<'_>]) -> usize
    ensures start { result ≡ von_start words.now }
    ensures within { result ≤ length words.now }
{
    words.iter().take_while(|word| !word.is_von()).count()
}

/// How many words are before the last word that no hyphen joins to the one before it.
fn hyphened_start(words: &[Word<'_>]) -> usize
    ensures start { result ≡ hyphened_start words.now }
    ensures within { result ≤ length words.now }
{
    let mut end = words.len();
    while end > 0 && !words[end - 1].is_free() {
        end -= 1;
    }
    end.saturating_sub(1)
}

/// A name with the words before its first comma, or with all words if it has no comma. Among them von begins at `start`
/// and Last at `end`. The words after a comma are not found yet. A contract sees the parts of the name.
#[derive(Drop)]
pub(crate) struct NameCut<'a> {
    words: Vec<Word<'a>>,
    start: usize,
    end: usize,
    jr: Piece<'a>,
    first: Piece<'a>,
}

impl<'a> Model for NameCut<'a> {
    ghost use Rattle.std.specs.Prelude.{◌≤◌, ◌++◌, length, take, drop};
    ghost use Rattle.bib_names.specs.Words.{words_of};
    ghost use Rattle.bib_names.specs.declared.name.Name.{Name as Parts};

    ghost Value = { Parts };

    ghost view = { λ c. record { first = take c.start c.words.items ++ words_of c.first; von = drop c.start (take c.end c.words.items); last = drop c.end c.words.items; jr = words_of c.jr } };

    ghost invariant = { λ c. (c.start ≤ c.end) × (c.end ≤ length c.words.items) };
}

impl<'a> NameCut<'a> {
    /// The words of von.
    pub fn von(&self) -> &[Word<'a>]
        ensures { result.now ≡ self.now.von }
    {
        let words = self.words.as_slice();
        words.split_at(self.end).0.split_at(self.start).1
    }

    /// The words of Last.
    pub fn last(&self) -> &[Word<'a>]
        ensures { result.now ≡ self.now.last }
    {
        let words = self.words.as_slice();
        words.split_at(self.end).1
    }

    /// The name, with the words of all parts.
    pub fn into_name(self, alloc: Global) -> Result<Name<'a>, AllocError>
        ensures { IfOk result (λ name. name ≡ self.entry) }
    {
        let mut rest = self.first.words(alloc)?;
        let jr = self.jr.words(alloc)?;
        let mut first = self.words;
        let last = first.split_off(self.end)?;
        let von = first.split_off(self.start)?;
        first.append(&mut rest)?;
        Ok(Name {
            first: Seq::from_vec(first),
            von: Seq::from_vec(von),
            last: Seq::from_vec(last),
            jr: Seq::from_vec(jr),
        })
    }
}

/// The name without a comma whose von is the words from `start` up to `end`.
fn cut_at(words: Vec<Word<'_>>, start: usize, end: usize) -> NameCut<'_>
    requires ordered { start ≤ end }
    requires within { end ≤ vec_len words }
    ensures { result ≡ cut_at start end words.entry.items }
{
    NameCut {
        words,
        start,
        end,
        jr: no_piece(),
        first: no_piece(),
    }
}

/// The name without a comma that has these words.
fn without_comma(words: Vec<Word<'_>>) -> NameCut<'_>
    ensures { result ≡ without_comma words.entry.items }
{
    let end = von_end(words.as_slice());
    if end == 0 {
        let start = hyphened_start(words.as_slice());
        return cut_at(words, start, start);
    }
    let start = von_start(words.as_slice());
    cut_at(words, start, end)
}

/// The name that has these words before its first comma, and these pieces of Jr and of First.
fn with_commas<'a>(words: Vec<Word<'a>>, jr: Piece<'a>, first: Piece<'a>) -> NameCut<'a>
    ensures { result ≡ with_commas words.entry.items (words_of jr.entry) (words_of first.entry) }
{
    let end = von_end(words.as_slice());
    NameCut {
        words,
        start: 0,
        end,
        jr,
        first,
    }
}

/// The name that ends with no separator and no comma; none if it has more than two commas.
fn bare_cut(alloc: Global, bare: &[u8]) -> Result<Option<NameCut<'_>>, AllocError>
    ensures parts { IfOk result (λ cut. cut ≡ parts_of_bare bare.now) }
    ensures few { OnErr result (length (commas bare.now) ≤ 2) }
{
    let Some(one) = comma_from(bare, 0) else {
        return Ok(Some(without_comma(words(alloc, bare, 0)?)));
    };
    let Some((jr, first)) = pieces_after(bare, one) else {
        return Ok(None);
    };
    Ok(Some(with_commas(words(alloc, &bare[..one], 0)?, jr, first)))
}

/// A name whose braces balance, cut into its parts; none if it has more than two commas.
pub(crate) fn name_cut(alloc: Global, text: &[u8]) -> Result<Option<NameCut<'_>>, AllocError>
    ensures parts { IfOk result (λ cut. cut ≡ parts_of text.now) }
    ensures few { OnErr result (length (commas (without_end text.now)) ≤ 2) }
{
    bare_cut(alloc, without_end(text))
}

//! A name cut into its parts.

ghost use Rattle.std.specs.Prelude.{◌≡◌, ◌≤◌, IfOk, length, vec_len};
ghost use Rattle.bib_names.specs.FirstComma.{IsFirstComma};
ghost use Rattle.bib_names.specs.Name.{commas};
ghost use Rattle.bibtex_names.specs.Name.{von_end, von_start, hyphened_start, cut_at, without_comma, with_commas, parts_by, parts_of};

use crate::name::Name;
use crate::pieces::{comma_from, without_end};
use crate::word::{Word, words};
use bib_text::Seq;
use std::alloc::{AllocError, Global};

/// How many words there are up to the last von word, if the final word is left out.
fn von_end(words: &[Word<'_>]) -> usize
    ensures end { result ≡ von_end words.now }
    ensures within { result ≤ length words.now }
{
    let mut end = words.len().saturating_sub(1);
    while end > 0 && !words[end - 1].is_von() {
        end -= 1;
    }
    end
}

/// How many words are before the first von word.
fn von_start(words: &[Word<'_>]) -> usize
    ensures start { result ≡ von_start words.now }
    ensures within { result ≤ length words.now }
{
    words.iter().take_while(|word| !word.is_von()).count()
}

/// How many words are before the last word that no hyphen joins to the one before it.
fn hyphened_start(words: &[Word<'_>]) -> usize
    ensures start { result ≡ hyphened_start words.now }
    ensures within { result ≤ length words.now }
{
    let mut end = words.len();
    while end > 0 && !words[end - 1].is_free() {
        end -= 1;
    }
    end.saturating_sub(1)
}

/// The name without a comma whose von is the words from `start` up to `end`.
fn cut_at(
    alloc: Global,
    words: Vec<Word<'_>>,
    start: usize,
    end: usize,
) -> Result<Name<'_>, AllocError>
    requires ordered { start ≤ end }
    requires within { end ≤ vec_len words }
    ensures { IfOk result (λ name. name ≡ cut_at start end words.entry.items) }
{
    let mut first = words;
    let last = first.split_off(end)?;
    let von = first.split_off(start)?;
    Ok(Name {
        first: Seq::from_vec(first),
        von: Seq::from_vec(von),
        last: Seq::from_vec(last),
        jr: Seq::empty(alloc),
    })
}

/// The name without a comma that has these words.
fn without_comma(alloc: Global, words: Vec<Word<'_>>) -> Result<Name<'_>, AllocError>
    ensures { IfOk result (λ name. name ≡ without_comma words.entry.items) }
{
    let end = von_end(words.as_slice());
    if end == 0 {
        let start = hyphened_start(words.as_slice());
        return cut_at(alloc, words, start, start);
    }
    let start = von_start(words.as_slice());
    cut_at(alloc, words, start, end)
}

/// The name that has these words before its first comma, and these of Jr and of First; none if there is no word before the comma.
fn with_commas<'a>(
    words: Vec<Word<'a>>,
    jr: Vec<Word<'a>>,
    first: Vec<Word<'a>>,
) -> Result<Option<Name<'a>>, AllocError>
    ensures { IfOk result (λ name. name ≡ with_commas words.entry.items jr.entry.items first.entry.items) }
{
    if words.is_empty() {
        return Ok(None);
    }
    let end = von_end(words.as_slice());
    let mut von = words;
    let last = von.split_off(end)?;
    Ok(Some(Name {
        first: Seq::from_vec(first),
        von: Seq::from_vec(von),
        last: Seq::from_vec(last),
        jr: Seq::from_vec(jr),
    }))
}

/// The name whose first comma is at this place.
fn cut_at_commas(alloc: Global, bare: &[u8], one: usize) -> Result<Option<Name<'_>>, AllocError>
    requires { IsFirstComma bare.now 0 one }
    ensures { IfOk result (λ name. name ≡ parts_by bare.now (commas bare.now)) }
{
    let before = words(alloc, &bare[..one])?;
    let Some(two) = comma_from(bare, one + 1) else {
        return with_commas(before, Vec::new(alloc), words(alloc, &bare[one + 1..])?);
    };
    let jr = words(alloc, &bare[one + 1..two])?;
    with_commas(before, jr, words(alloc, &bare[two + 1..])?)
}

/// The parts of a name, if it has parts.
pub(crate) fn parts_of(alloc: Global, text: &[u8]) -> Result<Option<Name<'_>>, AllocError>
    ensures { IfOk result (λ name. name ≡ parts_of text.now) }
{
    let bare = without_end(text);
    match comma_from(bare, 0) {
        Some(one) => cut_at_commas(alloc, bare, one),
        None => Ok(Some(without_comma(alloc, words(alloc, bare)?)?)),
    }
}

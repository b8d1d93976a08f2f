//! Lines and their words.

ghost use Rattle.std.specs.Prelude.{◌≡◌, ◌≤◌, ◌<◌, ◌==◌, ◌∷◌, not, length, map, IfOk};
ghost use Rattle.std.specs.List.{prefix_len};
ghost use Rattle.bib_spec.specs.Bytes.{tab, line_feed};
ghost use Rattle.bib_script.specs.Parting.{words_of, without_return, lines_of};

use bib_text::Seq;
use std::alloc::{AllocError, Global};

/// How many bytes are before the first line feed, or before the end if there is none.
fn line_len(text: &[u8]) -> usize
    ensures len { result ≡ prefix_len (λ b. not (b == line_feed)) text.now }
    ensures within { result ≤ length text.now }
{
    text.iter().take_while(|b| **b != b'\n').count()
}

/// How many bytes are before the first tab, or before the end if there is none.
fn word_len(line: &[u8]) -> usize
    ensures len { result ≡ prefix_len (λ b. not (b == tab)) line.now }
    ensures within { result ≤ length line.now }
{
    line.iter().take_while(|b| **b != b'\t').count()
}

/// The words of a line, separated by tabs.
pub(crate) fn words_of(alloc: Global, line: &[u8]) -> Result<Seq<&[u8]>, AllocError>
    ensures { IfOk result (λ words. map (λ w. w.now) words ≡ words_of line.now) }
{
    let mut words = Vec::new(alloc);
    let mut rest = line;
    'part: loop {
        let (word, after) = rest.split_at(word_len(rest));
        words.push(word)?;
        match after {
            [_tab, next @ ..] => rest = next,
            [] => return Ok(Seq::from_vec(words)),
        }
    }
}

/// A line without the carriage return at its end.
fn without_return(line: &[u8]) -> &[u8]
    ensures { result.now ≡ without_return line.now }
{
    match line {
        [front @ .., last] if *last == b'\r' => front,
        _ => line,
    }
}

/// The first line of a text that is not empty, and the text after its line feed.
pub(crate) fn split_line(text: &[u8]) -> (&[u8], &[u8])
    requires { 0 < length text.now }
    ensures lines { lines_of text.now ≡ result.0.now ∷ lines_of result.1.now }
    ensures shorter { length result.1.now < length text.now }
{
    let (line, after) = text.split_at(line_len(text));
    match after {
        [_end, next @ ..] => (without_return(line), next),
        [] => (line, after),
    }
}

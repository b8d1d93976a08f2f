//! The keys that an aux file cites, and the aux files that it names.

ghost use Rattle.std.specs.Prelude.{◌≡◌, ◌++◌, IfOk, OnOk, bytes_eq};
ghost use Rattle.std.specs.List.{list_any};
ghost use Rattle.bib_spec.specs.Texts.{is_empty};
ghost use Rattle.aux_text.specs.Citations.{words_of, all_words, star, with_cited, keys_in, inputs_in};

use crate::lines::{argument, lines_of, parts_of};
use bib_text::{Seq, Text, copied};
use std::alloc::{AllocError, Global};

/// How a line of citations begins.
pub(crate) const CITATION: &[u8] = b"\\citation{";
/// How a line that names a further aux file begins.
const INPUT: &[u8] = b"\\@input{";

/// What an aux file says: the keys that it cites, in order, or `*` alone if one of them is `*`; and the names of the further
/// aux files, in order.
#[derive(Debug, Drop)]
pub struct Aux {
    pub keys: Seq<Text>,
    pub inputs: Seq<Text>,
}

impl Aux {
    /// Reads the text of an aux file. A line counts if it is, whole, `\citation{..}` or `\@input{..}` without white space or a
    /// brace in the argument; white space at the line's end does not count. Its words are between commas. All other lines are
    /// passed over. It takes time in the length of the text, and memory for the words. It is refused only out of memory.
    /// (dialect)
    pub fn read(alloc: Global, text: &[u8]) -> Result<Aux, AllocError>
        ensures keys { IfOk result (λ aux. aux.keys ≡ keys_in text.now) }
        ensures inputs { IfOk result (λ aux. aux.inputs ≡ inputs_in text.now) }
    {
        let cited = all_words(alloc, CITATION, text)?;
        let keys = with_cited(alloc, Vec::new(alloc), cited)?;
        let inputs = all_words(alloc, INPUT, text)?;
        Ok(Aux {
            keys: Seq::from_vec(keys),
            inputs: Seq::from_vec(inputs),
        })
    }
}

/// These keys, and after them the keys that are cited. If `*` is cited, all entries are, and `*` stands alone. It is refused
/// only out of memory.
pub fn with_cited(alloc: Global, keys: Vec<Text>, cited: Vec<Text>) -> Result<Vec<Text>, AllocError>
    ensures { IfOk result (λ all. all.items ≡ with_cited keys.items cited.items) }
{
    if has_star(cited.as_slice()) {
        let mut all = Vec::with_capacity(alloc, 1)?;
        all.push(copied(alloc, b"*")?)?;
        return Ok(all);
    }
    let (mut all, mut more) = (keys, cited);
    all.append(&mut more)?;
    Ok(all)
}

/// Whether one of the keys is `*`.
fn has_star(keys: &[Text]) -> bool
    ensures { result ≡ list_any (bytes_eq star) keys.now }
{
    keys.iter().any(|key| key.as_slice() == b"*".as_slice())
}

/// The words of all lines with this beginning, in order.
fn all_words(alloc: Global, start: &[u8], text: &[u8]) -> Result<Vec<Text>, AllocError>
    ensures { IfOk result (λ words. words.items ≡ all_words start.now text.now) }
{
    let lines = lines_of(alloc, text)?;
    let mut words = Vec::new(alloc);
    'lines: for line in &lines {
        if let Some(argument) = argument(start, line) {
            add_words(alloc, &mut words, argument)?;
        }
    }
    Ok(words)
}

/// Adds the words of an argument.
fn add_words(alloc: Global, words: &mut Vec<Text>, argument: &[u8]) -> Result<(), AllocError>
    ensures { OnOk result (words.new.items ≡ words.old.items ++ words_of argument.now) }
{
    let parts = parts_of(alloc, argument)?;
    'words: for word in &parts {
        if !word.is_empty() {
            words.push(copied(alloc, word)?)?;
        }
    }
    Ok(())
}

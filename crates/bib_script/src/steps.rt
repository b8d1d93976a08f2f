//! One edit by its words.

ghost use Rattle.std.specs.Prelude.{◌≡◌, map, All, IfOk, IfSome};
ghost use Rattle.bib_data.specs.Depths.{AsksWithDepth};
ghost use Rattle.bib_script.specs.Words.{step_of, asked_by_words};

use crate::labels::label_of_words;
use crate::verbs::edit_asked;
use bib_data::{Label, Request};
use bib_text::{Seq, Text};
use std::alloc::{AllocError, Global};

/// Reads the words of one edit, as a line of a script has them, except that a word may have any bytes. They ask for a
/// step of that edit, with the words as its label. The begin and the end of a step are no edit. (dialect)
pub fn read_words(alloc: Global, words: &[Text]) -> Result<Option<Seq<Request>>, AllocError>
    ensures said { IfOk result (λ asked. asked ≡ asked_by_words words.now) }
    ensures depths { IfOk result (λ asked. IfSome asked (All AsksWithDepth)) }
{
    let slices = slices(alloc, words)?;
    match edit_asked(alloc, slices.as_slice())? {
        Some(edit) => {
            let label = label_of_words(alloc, words)?;
            Ok(Some(step_of(alloc, label, edit)?))
        }
        None => Ok(None),
    }
}

/// A step of the one edit that is asked for, with this label.
fn step_of(alloc: Global, label: Label, edit: Request) -> Result<Seq<Request>, AllocError>
    ensures { IfOk result (λ requests. requests ≡ step_of label edit) }
{
    let mut requests = Vec::new(alloc);
    requests.push(Request::Begin(label))?;
    requests.push(edit)?;
    requests.push(Request::End)?;
    Ok(Seq::from_vec(requests))
}

/// The words as slices.
fn slices(alloc: Global, words: &[Text]) -> Result<Vec<&[u8]>, AllocError>
    ensures { IfOk result (λ slices. map (λ w. w.now) slices.items ≡ words.now) }
{
    let mut slices = Vec::new(alloc);
    'word: for word in words {
        slices.push(word.as_slice())?;
    }
    Ok(slices)
}

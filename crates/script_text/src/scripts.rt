//! The text of a script.

ghost use Rattle.std.specs.Prelude.{◌≡◌, true, None, IfOk, IfSome};
ghost use Rattle.script_text.specs.Saying.{Says};

use crate::comparing::are_same;
use crate::writing::written;
use bib_data::Request;
use bib_script::{Script, read_script};
use bib_text::{Seq, Text};
use std::alloc::{AllocError, Global};

/// Whether what was read is these requests, and nothing that can't be read.
fn is_all(said: &Script, requests: &[Request]) -> bool
    ensures { result ≡ true → (said.now.requests ≡ requests.now) × (said.now.bad_line ≡ None) }
{
    said.bad_line.is_none() && are_same(said.requests.as_slice(), requests)
}

/// The script that says these requests, a line each: the edits of fields, and those by which entries come, go, move and get other
/// keys. Nothing, if a line can't say one of them: another request, or a word with a tab or a line feed.
pub fn script_text(alloc: Global, requests: &[Request]) -> Result<Option<Text>, AllocError>
    ensures { IfOk result (λ o. IfSome o (Says requests.now)) }
{
    let text = written(alloc, requests)?;
    let said = read_script(alloc, text.as_slice())?;
    if is_all(&said, requests) {
        Ok(Some(Seq::from_vec(text)))
    } else {
        Ok(None)
    }
}

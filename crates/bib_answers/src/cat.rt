//! `cat`: the file's bytes.

ghost use Rattle.std.specs.Prelude.{IfOk};
ghost use Rattle.bib_answers.specs.Cat.{IsCatAnswer};

use crate::answers::{Answer, done, unread};
use bib_scan::read;
use bib_text::Text;
use std::alloc::{AllocError, Global};

/// The file again, or why it is not valid.
pub fn answer_cat(alloc: Global, file: Vec<u8>) -> Result<Answer, AllocError>
    ensures { IfOk result (IsCatAnswer file.items) }
{
    match read(alloc, file.as_slice()) {
        Ok(_) => Ok(done(alloc, Text::from_vec(file))),
        Err(fault) => unread(alloc, fault),
    }
}

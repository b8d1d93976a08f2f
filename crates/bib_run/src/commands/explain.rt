//! `explain`: what a fault means.

ghost use Rattle.std.specs.Prelude.{◌≡◌, ◌++◌, [], IfOk, OnOk};
ghost use Rattle.fault_pages.specs.Heads.{head_of};
ghost use Rattle.bib_answers.specs.Outcome.{answer_of};
ghost use Rattle.bib_run.specs.Explaining.{head_lines, no_such_fault_line, IsExplainAnswer};

use bib_answers::{Answer, done, refused};
use bib_text::{Text, copied};
use fault_pages::{Page, page_of};
use std::alloc::{AllocError, Global};

/// The page on the fault that this word names, or that the word names no fault.
pub fn answer_explain(alloc: Global, word: &[u8]) -> Result<Answer, AllocError>
    ensures { IfOk result (IsExplainAnswer word.now) }
{
    match page_of(word) {
        Some(page) => Ok(done(alloc, text_of(alloc, page)?)),
        None => no_such_fault(alloc),
    }
}

/// The page: the fault's number and name, and the text about it.
fn text_of(alloc: Global, page: Page) -> Result<Text, AllocError>
    ensures { IfOk result (λ text. text ≡ head_lines (head_of page) ++ page.text.now) }
{
    let mut text = Vec::new(alloc);
    add_head(&mut text, page.number, page.name)?;
    text.extend_from_slice(page.text)?;
    Ok(Text::from_vec(text))
}

fn add_head(text: &mut Vec<u8>, number: &[u8], name: &[u8]) -> Result<(), AllocError>
    ensures { OnOk result (text.new.items ≡ text.old.items ++ head_lines (number.now, name.now)) }
{
    text.extend_from_slice(number)?;
    text.extend_from_slice(b" ")?;
    text.extend_from_slice(name)?;
    text.extend_from_slice(b"\n\n")
}

/// The answer when no fault has the number or name: no output, and the message says so.
fn no_such_fault(alloc: Global) -> Result<Answer, AllocError>
    ensures { IfOk result (λ answer. answer ≡ answer_of [] no_such_fault_line 1) }
{
    let message = copied(alloc, b"bibkeep: 13 NoSuchFault\n")?;
    Ok(refused(alloc, message))
}

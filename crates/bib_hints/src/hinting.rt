//! Hints about a run.

ghost use Rattle.std.specs.Prelude.{IfOk};
ghost use Rattle.bib_hints.specs.Hints.{AreHints};

use crate::asking::{Asked, Ended, Trouble};
use crate::edits::{Edit, hint_edit};
use crate::faults::{hint_fault, hint_storing, hint_trouble};
use crate::inputs::{hint_import, hint_script};
use crate::insertions::hint_insert;
use crate::keys::hint_unknown_keys;
use crate::lines::Lines;
use crate::notes::note;
use crate::parts::Part;
use crate::said::{Said, said_in};
use crate::script::{line_in, words_in};
use crate::usages::hint_usage;
use bib_text::Text;
use bib_words::{Command, status};
use std::alloc::{AllocError, Global};

/// The hints about a run that ended so: below the message of a refusal, what it is about and what to type next; and notes
/// on an edit or an import that did something else than it seems to do. They take time and memory in the length of the file
/// and of the input, and only if there is something to say.
pub fn hints(alloc: Global, asked: &Asked<'_>, ended: &Ended<'_>) -> Result<Text, AllocError>
    ensures { IfOk result AreHints }
{
    let mut lines = Lines::new(alloc);
    let present = ended.file.unwrap_or(asked.file);
    match ended.status {
        status::DONE => note(&mut lines, asked, present)?,
        status::REFUSED => hint_refusal(&mut lines, asked, ended.message, present)?,
        _ => {}
    }
    lines.laid_out()
}

/// The hints about a call that failed.
pub fn hints_of_trouble(
    alloc: Global,
    command: &Command,
    trouble: Trouble<'_>,
) -> Result<Text, AllocError>
    ensures { IfOk result AreHints }
{
    let mut lines = Lines::new(alloc);
    hint_trouble(&mut lines, command, trouble)?;
    lines.laid_out()
}

/// The hints about a file or a journal that could not be stored.
pub fn hints_of_storing(alloc: Global, trouble: Trouble<'_>) -> Result<Text, AllocError>
    ensures { IfOk result AreHints }
{
    let mut lines = Lines::new(alloc);
    hint_storing(&mut lines, trouble)?;
    lines.laid_out()
}

/// The hints about words that are no command.
pub fn hints_of_usage(alloc: Global, words: &[String]) -> Result<Text, AllocError>
    ensures { IfOk result AreHints }
{
    let mut lines = Lines::new(alloc);
    hint_usage(&mut lines, words)?;
    lines.laid_out()
}

/// What a command waits for that reads its input from a terminal.
pub fn invitation(alloc: Global, command: &Command) -> Result<Text, AllocError>
    ensures { IfOk result AreHints }
{
    let mut lines = Lines::new(alloc);
    if command.is_named(b"edit") {
        lines.say(
            b"type the lines of a script, their words separated by tabs, and end with Ctrl-D",
            &[],
        )?;
    } else if command.is_named(b"import") {
        lines.say(b"type or paste RIS records, and end with Ctrl-D", &[])?;
    } else if command.is_named(b"insert") {
        lines.say(b"type or paste BibTeX entries, and end with Ctrl-D", &[])?;
    } else {
        lines.say(b"type or paste a BibTeX file, and end with Ctrl-D", &[])?;
    }
    lines.laid_out()
}

fn hint_refusal(
    lines: &mut Lines,
    asked: &Asked<'_>,
    message: &[u8],
    present: &[u8],
) -> Result<(), AllocError> {
    let said = said_in(message);
    if said.fault == 0 {
        return Ok(());
    }
    hint_said(lines, asked, said, present)?;
    let number = [Part::Count(said.fault)];
    lines.say(b"bibkeep explain % says more", &number)
}

fn hint_said(
    lines: &mut Lines,
    asked: &Asked<'_>,
    said: Said,
    present: &[u8],
) -> Result<(), AllocError> {
    let command = asked.command;
    if said.fault == 11 {
        return hint_unknown_keys(lines, asked);
    }
    if command.is_named(b"insert") {
        return hint_insert(lines, asked, said);
    }
    if said.fault < 31 || (51..=54).contains(&said.fault) {
        return hint_fault(lines, asked, said);
    }
    if command.is_named(b"import") {
        return hint_import(lines, asked, said);
    }
    if command.is_named(b"edit") {
        return hint_edit_said(lines, asked, said, present);
    }
    Ok(())
}

/// The hints about an edit that was refused: the words after the file, or a line of the script.
fn hint_edit_said(
    lines: &mut Lines,
    asked: &Asked<'_>,
    said: Said,
    present: &[u8],
) -> Result<(), AllocError> {
    let alloc = lines.alloc();
    if said.line == 0 {
        let words = words_after_file(alloc, asked)?;
        return hint_words(lines, asked, said, words.as_slice(), present);
    }
    let line = line_in(asked.input, said.line);
    if said.fault == 71 {
        return hint_script(lines, asked, line);
    }
    let words = words_in(alloc, line)?;
    hint_words(lines, asked, said, words.as_slice(), present)
}

fn hint_words(
    lines: &mut Lines,
    asked: &Asked<'_>,
    said: Said,
    words: &[&[u8]],
    present: &[u8],
) -> Result<(), AllocError> {
    let edit = Edit {
        name: asked.name(),
        words,
        file: present,
    };
    hint_edit(lines, &edit, said.fault)
}

fn words_after_file<'a>(alloc: Global, asked: &Asked<'a>) -> Result<Vec<&'a [u8]>, AllocError> {
    let mut words = Vec::new(alloc);
    let mut is_file = true;
    'words: for word in asked.command.words.as_slice() {
        if !is_file {
            words.push(word.as_slice())?;
        }
        is_file = false;
    }
    Ok(words)
}

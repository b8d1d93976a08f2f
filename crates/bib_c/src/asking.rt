//! A command as C gives it.

ghost use Rattle.std.specs.Prelude.{◌≡◌, IfOk};
ghost use Rattle.bib_c.specs.Asking.{command_of, asked_of, asked_among};

use crate::words::words_of;
use bib_run::Command;
use bib_text::{Seq, Text, copied};
use std::alloc::{AllocError, Global};

/// The number, the depth and the options of a command, each 0 or `false` if it is not given.
#[repr(C)]
pub struct Options {
    pub n: u32,
    pub depth: u8,
    pub print: bool,
    pub new_journal: bool,
    pub no_journal: bool,
    pub all_or_nothing: bool,
    pub dropped: bool,
    pub at: bool,
    pub strict: bool,
    pub latex: bool,
    pub raw: bool,
    pub skipped: bool,
    pub plain: bool,
    pub bibtex: bool,
}

/// The command with this name, these arguments and aux files, each as one text and lengths, and these options. There is none if a
/// text is too short for its lengths.
pub fn asked_of(
    alloc: Global,
    name: &[u8],
    words: &[u8],
    lens: &[usize],
    aux: &[u8],
    aux_lens: &[usize],
    options: &Options,
) -> Result<Option<Command>, AllocError>
    ensures { IfOk result (λ command. command ≡ asked_of name.now words.now lens.now aux.now aux_lens.now options.now) }
{
    match (
        words_of(alloc, words, lens)?,
        words_of(alloc, aux, aux_lens)?,
    ) {
        (Some(words), Some(aux)) => Ok(Some(command_of(
            alloc,
            copied(alloc, name)?,
            words,
            aux,
            Seq::empty(alloc),
            options,
        ))),
        _ => Ok(None),
    }
}

/// The same command over files with these names, each name as one text and lengths too.
pub fn asked_among(
    alloc: Global,
    name: &[u8],
    words: &[u8],
    lens: &[usize],
    aux: &[u8],
    aux_lens: &[usize],
    names: &[u8],
    name_lens: &[usize],
    options: &Options,
) -> Result<Option<Command>, AllocError>
    ensures { IfOk result (λ command. command ≡ asked_among name.now words.now lens.now aux.now aux_lens.now names.now name_lens.now options.now) }
{
    match (
        words_of(alloc, words, lens)?,
        words_of(alloc, aux, aux_lens)?,
        words_of(alloc, names, name_lens)?,
    ) {
        (Some(words), Some(aux), Some(names)) => Ok(Some(command_of(
            alloc,
            copied(alloc, name)?,
            words,
            aux,
            names,
            options,
        ))),
        _ => Ok(None),
    }
}

/// The command with this name, these arguments, aux files, other files and options.
fn command_of(
    alloc: Global,
    name: Text,
    words: Seq<Text>,
    aux: Seq<Text>,
    others: Seq<Text>,
    options: &Options,
) -> Command
    ensures { result ≡ command_of name words aux others options.now }
{
    Command {
        name,
        words,
        aux,
        before: others,
        after: Seq::empty(alloc),
        cited: Seq::empty(alloc),
        n: options.n,
        depth: options.depth,
        print: options.print,
        new_journal: options.new_journal,
        no_journal: options.no_journal,
        all_or_nothing: options.all_or_nothing,
        dropped: options.dropped,
        at: options.at,
        strict: options.strict,
        latex: options.latex,
        raw: options.raw,
        skipped: options.skipped,
        plain: options.plain,
        bibtex: options.bibtex,
    }
}

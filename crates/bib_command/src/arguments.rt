//! The arguments of the commands.

ghost use Rattle.std.specs.Prelude.{◌≡◌, false, codes};
ghost use Rattle.clap.specs.Words.{rule_of};
ghost use Rattle.bib_command.specs.CommandLine.{any_file, needed, keys, needed_keys, position, aux_files, files_before, files_after, edit_words, switch, bibtex, ignore, count, levels};

use clap::{Arg, ArgAction, value_parser};
use std::alloc::Global;

pub fn any_file<'a>(alloc: Global) -> Arg<'a>
    ensures rule { rule_of result ≡ any_file }
    ensures local { result.global ≡ false }
{
    Arg::new(alloc, "F").help("The BibTeX file; standard input if it is left out")
}

pub fn needed<'a>(alloc: Global, id: &'a str, help: &'a str) -> Arg<'a>
    ensures rule { rule_of result ≡ needed id.entry.now }
    ensures local { result.global ≡ false }
{
    Arg::new(alloc, id).required(true).help(help)
}

pub fn position<'a>(alloc: Global) -> Arg<'a>
    ensures rule { rule_of result ≡ position }
    ensures local { result.global ≡ false }
{
    Arg::new(alloc, "POSITION").help(
        "A number of items, end, before:KEY or after:KEY; end if it is left out",
    )
}

/// Keys, if there are any.
pub fn keys<'a>(alloc: Global) -> Arg<'a>
    ensures rule { rule_of result ≡ keys }
    ensures local { result.global ≡ false }
{
    Arg::new(alloc, "KEY")
        .num_args(1..)
        .help("The keys of entries, or * alone for all")
}

/// Keys, at least one.
pub fn needed_keys<'a>(alloc: Global) -> Arg<'a>
    ensures rule { rule_of result ≡ needed_keys }
    ensures local { result.global ≡ false }
{
    keys(alloc).required(true)
}

/// `--aux`, any number of times.
pub fn aux_files<'a>(alloc: Global, help: &'a str) -> Arg<'a>
    ensures rule { rule_of result ≡ aux_files }
    ensures local { result.global ≡ false }
{
    Arg::new(alloc, "AUX")
        .long("aux")
        .action(ArgAction::Append)
        .help(help)
}

/// `--before`, any number of times.
pub fn files_before<'a>(alloc: Global) -> Arg<'a>
    ensures rule { rule_of result ≡ files_before }
    ensures local { result.global ≡ false }
{
    Arg::new(alloc, "BEFORE")
        .long("before")
        .value_name("FILE")
        .action(ArgAction::Append)
        .help("A BibTeX file that is read before F; may be given several times")
}

/// `--after`, any number of times.
pub fn files_after<'a>(alloc: Global) -> Arg<'a>
    ensures rule { rule_of result ≡ files_after }
    ensures local { result.global ≡ false }
{
    Arg::new(alloc, "AFTER")
        .long("after")
        .value_name("FILE")
        .action(ArgAction::Append)
        .help("A BibTeX file that is read after F; may be given several times")
}

/// The words of an edit, if there are any.
pub fn edit_words<'a>(alloc: Global) -> Arg<'a>
    ensures rule { rule_of result ≡ edit_words }
    ensures local { result.global ≡ false }
{
    Arg::new(alloc, "WORD").num_args(1..).help(
        "One edit, its words as in a script; standard input is not read then",
    )
}

/// An option that is given or not.
pub fn switch<'a>(alloc: Global, name: &'a str, help: &'a str) -> Arg<'a>
    ensures rule { rule_of result ≡ switch name.entry.now }
    ensures local { result.global ≡ false }
{
    Arg::new(alloc, name)
        .long(name)
        .action(ArgAction::SetTrue)
        .help(help)
}

/// `--print`.
pub fn print<'a>(alloc: Global) -> Arg<'a>
    ensures rule { rule_of result ≡ switch (codes "print") }
    ensures local { result.global ≡ false }
{
    switch(
        alloc,
        "print",
        "Writes the new file to standard output, and stores nothing",
    )
}

/// `--new-journal`.
pub fn new_journal<'a>(alloc: Global) -> Arg<'a>
    ensures rule { rule_of result ≡ switch (codes "new-journal") }
    ensures local { result.global ≡ false }
{
    switch(
        alloc,
        "new-journal",
        "Begins a new journal if the old one is not a journal or does not fit the file",
    )
}

/// `--no-journal`.
pub fn no_journal<'a>(alloc: Global) -> Arg<'a>
    ensures rule { rule_of result ≡ switch (codes "no-journal") }
    ensures local { result.global ≡ false }
{
    switch(
        alloc,
        "no-journal",
        "Reads and writes no journal: this change cannot be undone, nor any before it",
    )
}

/// `--bibtex`.
pub fn bibtex<'a>(alloc: Global, help: &'a str) -> Arg<'a>
    ensures rule { rule_of result ≡ bibtex }
    ensures local { result.global ≡ false }
{
    switch(alloc, "bibtex", help)
}

/// `--hints`.
pub fn hints<'a>(alloc: Global) -> Arg<'a>
    ensures rule { rule_of result ≡ switch (codes "hints") }
    ensures local { result.global ≡ false }
{
    switch(
        alloc,
        "hints",
        "Prints hints below a message, as on a terminal",
    )
}

/// `--ignore`.
pub fn ignore<'a>(alloc: Global) -> Arg<'a>
    ensures rule { rule_of result ≡ ignore }
    ensures local { result.global ≡ false }
{
    Arg::new(alloc, "CODE")
        .long("ignore")
        .action(ArgAction::Append)
        .help("Leaves out findings with this code; may be given several times")
}

/// An option with a number, which is `default` if the option is left out.
pub fn count<'a>(alloc: Global, name: &'a str, default: &'a str, help: &'a str) -> Arg<'a>
    ensures rule { rule_of result ≡ count name.entry.now default.entry.now }
    ensures local { result.global ≡ false }
{
    Arg::new(alloc, "N")
        .long(name)
        .default_value(default)
        .value_parser(value_parser!(u32).range(1..=65535))
        .help(help)
}

/// The option with the depth of records, which is 1 if the option is left out.
pub fn levels<'a>(alloc: Global) -> Arg<'a>
    ensures rule { rule_of result ≡ levels }
    ensures local { result.global ≡ false }
{
    Arg::new(alloc, "D")
        .long("depth")
        .default_value("1")
        .value_parser(value_parser!(u8).range(1..=8))
        .help("From how many parents in a chain an entry inherits, from 1 to 8")
}

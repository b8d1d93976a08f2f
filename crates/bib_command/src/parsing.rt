//! The command that the words of the command line name.

ghost use Rattle.std.specs.Prelude.{◌≡◌, ◌⊎◌, ◌++◌, IfOk, IfErr, OnOk, Some, map, string_bytes, [], true};
ghost use Rattle.clap.specs.Words.{fault_of, takes, rows_of, found_of};
ghost use Rattle.bib_command.specs.CommandLine.{bibkeep, values, words_in, number, depth, given, is_from_words, is_said, has_rival, is_in_conflict, command_of, IsCommandOf, asks_for_hints};
ghost use Rattle.bib_command.specs.Usage.{no_memory, MatchNoCommand, IsUsageFor};
ghost use Rattle.bib_words.specs.Command.{IsCommand};

use crate::Usage;
use crate::command_line::command_line;
use crate::usages::{in_conflict, no_memory, usage_of, without_keys};
use bib_text::{Seq, Text, copied};
use bib_words::Command;
use clap::ArgMatches;
use clap::parser::ValueSource;
use std::alloc::{AllocError, Global};

/// A command, and whether its words ask for hints.
#[derive(Drop)]
pub struct Request {
    pub command: Command,
    pub hints: bool,
}

/// The command that the words name, or the text for the user. The first word is the program's own name.
pub fn parse(alloc: Global, words: &[String]) -> Result<Command, Usage>
    ensures ok { IfOk result (IsCommandOf (map string_bytes words.now)) }
    ensures known { IfOk result IsCommand }

    // Only words that clap's exact matching accepts give a command.
    ensures accepted { OnOk result (fault_of bibkeep (map string_bytes words.now) ≡ []) }
    ensures err { IfErr result (IsUsageFor (map string_bytes words.now)) }

    // Words that match are refused only if they lack keys, if their options do not go together, or if memory runs out.
    ensures taken { takes bibkeep (map string_bytes words.now) ≡ true → IfErr result (λ usage. MatchNoCommand (map string_bytes words.now) ⊎ (usage ≡ no_memory)) }
{
    match parse_request(alloc, words) {
        Ok(request) => Ok(request.command),
        Err(usage) => Err(usage),
    }
}

/// The command that the words name, with whether they ask for hints, or the text for the user. The first word is the program's
/// own name.
pub fn parse_request(alloc: Global, words: &[String]) -> Result<Request, Usage>
    ensures ok { IfOk result (λ request. IsCommandOf (map string_bytes words.now) request.command) }
    ensures known { IfOk result (λ request. IsCommand request.command) }
    ensures hints { IfOk result (λ request. request.hints ≡ asks_for_hints (map string_bytes words.now)) }

    // Only words that clap's exact matching accepts give a command.
    ensures accepted { OnOk result (fault_of bibkeep (map string_bytes words.now) ≡ []) }
    ensures err { IfErr result (IsUsageFor (map string_bytes words.now)) }

    // Words that match are refused only if they lack keys, if their options do not go together, or if memory runs out.
    ensures taken { takes bibkeep (map string_bytes words.now) ≡ true → IfErr result (λ usage. MatchNoCommand (map string_bytes words.now) ⊎ (usage ≡ no_memory)) }
{
    let Ok(command) = command_line(alloc) else {
        return Err(no_memory(alloc));
    };
    match command.try_get_matches_from(words) {
        Ok(matches) => match matches.subcommand() {
            Some((name, inner)) => {
                if is_in_conflict(inner) {
                    return Err(in_conflict(alloc, rival_of(inner)));
                }
                match command_of(alloc, name, inner) {
                    Ok(command) => {
                        // the words match and the options go together, so the command lacks nothing but keys
                        if command.is_known() {
                            Ok(Request {
                                command,
                                hints: is_given(inner, "hints"),
                            })
                        } else {
                            Err(without_keys(alloc, command.name.as_slice()))
                        }
                    }
                    Err(_) => Err(no_memory(alloc)),
                }
            }
            None => unreachable!(),
        },
        Err(error) => Err(usage_of(alloc, &error)),
    }
}

/// The command of this name with these matches.
fn command_of(alloc: Global, name: &str, matches: &ArgMatches<'_>) -> Result<Command, AllocError>
    ensures { IfOk result (λ command. command ≡ command_of name.now (rows_of (found_of matches.now))) }
{
    Ok(Command {
        name: copied(alloc, name.as_bytes())?,
        words: words_in(alloc, matches)?,
        aux: values_in(alloc, matches, "AUX")?,
        before: values_in(alloc, matches, "BEFORE")?,
        after: values_in(alloc, matches, "AFTER")?,
        cited: Seq::empty(alloc),
        n: number_of(matches),
        depth: depth_of(matches),
        print: is_given(matches, "print"),
        new_journal: is_given(matches, "new-journal"),
        no_journal: is_given(matches, "no-journal"),
        all_or_nothing: is_given(matches, "all-or-nothing"),
        dropped: is_given(matches, "dropped"),
        at: is_given(matches, "at"),
        strict: is_given(matches, "strict"),
        latex: is_given(matches, "latex"),
        raw: is_given(matches, "raw"),
        skipped: is_given(matches, "skipped"),
        plain: is_given(matches, "plain"),
        bibtex: is_given(matches, "bibtex"),
    })
}

/// The positional words of a command, in order, and after them the codes to ignore.
fn words_in(alloc: Global, matches: &ArgMatches<'_>) -> Result<Seq<Text>, AllocError>
    ensures { IfOk result (λ words. words ≡ words_in (rows_of (found_of matches.now))) }
{
    let mut words = Vec::new(alloc);
    add_values(alloc, &mut words, matches, "F")?;
    add_values(alloc, &mut words, matches, "BASE")?;
    add_values(alloc, &mut words, matches, "OURS")?;
    add_values(alloc, &mut words, matches, "THEIRS")?;
    add_values(alloc, &mut words, matches, "OLD")?;
    add_values(alloc, &mut words, matches, "NEW")?;
    add_values(alloc, &mut words, matches, "KEY")?;
    add_values(alloc, &mut words, matches, "TEMPLATE")?;
    add_values(alloc, &mut words, matches, "WORD")?;
    add_values(alloc, &mut words, matches, "POSITION")?;
    add_values(alloc, &mut words, matches, "FAULT")?;
    add_values(alloc, &mut words, matches, "CODE")?;
    Ok(Seq::from_vec(words))
}

/// The values of an argument, in order.
fn values_in(alloc: Global, matches: &ArgMatches<'_>, id: &str) -> Result<Seq<Text>, AllocError>
    ensures { IfOk result (λ found. found ≡ values id.now (rows_of (found_of matches.now))) }
{
    let mut found = Vec::new(alloc);
    add_values(alloc, &mut found, matches, id)?;
    Ok(Seq::from_vec(found))
}

/// The number of a command, or 0 if it takes none.
fn number_of(matches: &ArgMatches<'_>) -> u32
    ensures { result ≡ number (rows_of (found_of matches.now)) }
{
    matches.get_one::<u32>("N").unwrap_or(0)
}

/// The depth of a command, or 0 if it takes none.
fn depth_of(matches: &ArgMatches<'_>) -> u8
    ensures { result ≡ depth (rows_of (found_of matches.now)) }
{
    matches.get_one::<u8>("D").unwrap_or(0)
}

/// Whether an option was given.
fn is_given(matches: &ArgMatches<'_>, name: &str) -> bool
    ensures { result ≡ given name.now (rows_of (found_of matches.now)) }
{
    matches.get_one::<bool>(name).unwrap_or(false)
}

/// Whether the words give `--bibtex` and an option that does not go with it.
fn is_in_conflict(matches: &ArgMatches<'_>) -> bool
    ensures { result ≡ is_in_conflict (rows_of (found_of matches.now)) }
{
    is_given(matches, "bibtex") && has_rival(matches)
}

/// Whether the words give an option that does not go with `--bibtex`.
fn has_rival(matches: &ArgMatches<'_>) -> bool
    ensures { result ≡ has_rival (rows_of (found_of matches.now)) }
{
    is_said(matches, "D")
        || (is_said(matches, "raw") || (is_said(matches, "BEFORE") || is_said(matches, "AFTER")))
}

/// The option that does not go with `--bibtex`, as help writes it, if the words give one.
fn rival_of(matches: &ArgMatches<'_>) -> &'static [u8] {
    if is_said(matches, "D") {
        return b"--depth <D>";
    }
    if is_said(matches, "raw") {
        return b"--raw";
    }
    if is_said(matches, "BEFORE") {
        return b"--before <FILE>";
    }
    b"--after <FILE>"
}

/// Whether the words themselves give an argument, so that its value is not a default.
fn is_said(matches: &ArgMatches<'_>, id: &str) -> bool
    ensures { result ≡ is_said id.now (rows_of (found_of matches.now)) }
{
    match matches.value_source(id) {
        Some(source) => is_from_words(source),
        None => false,
    }
}

/// Whether a value is from the words themselves.
fn is_from_words(source: ValueSource) -> bool
    ensures { result ≡ is_from_words (Some source) }
{
    matches!(source, ValueSource::CommandLine)
}

/// Adds the values of an argument, in order.
fn add_values(
    alloc: Global,
    texts: &mut Vec<Text>,
    matches: &ArgMatches<'_>,
    id: &str,
) -> Result<(), AllocError>
    ensures { OnOk result (texts.new.items ≡ texts.old.items ++ values id.now (rows_of (found_of matches.now))) }
{
    match matches.get_strs(id) {
        Some(words) => add_words(alloc, texts, words),
        None => Ok(()),
    }
}

fn add_words(alloc: Global, texts: &mut Vec<Text>, words: &[&str]) -> Result<(), AllocError>
    ensures { OnOk result (texts.new.items ≡ texts.old.items ++ map (λ word. word.now) words.now) }
{
    for word in words {
        texts.push(copied(alloc, word.as_bytes())?)?;
    }
    Ok(())
}

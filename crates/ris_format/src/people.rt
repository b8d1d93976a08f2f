//! Names of persons, both ways.

ghost use Rattle.std.specs.Prelude.{◌≡◌, ◌++◌, ◌==◌, ◌&&◌, ◌||◌, not, OnOk, IfOk, map, option_map, length, codes, true, false};
ghost use Rattle.std.specs.List.{slice_range, list_all, flat_map};
ghost use Rattle.ris_format.specs.Lines.{line};
ghost use Rattle.ris_format.specs.People.{word_end, to_last_end, part_text, family, person, ris_name, bib_name, is_somebody, taken_apart, is_broken, written_person, written_name, written_names, written_people, name_pieces, person_of, lacks_and, is_opaque, read_balanced, read_name, read_people, is_plain_person, is_plain_name, are_plain_names};
ghost use Rattle.bib_names.specs.Label.{balances, listed_names};

use crate::braces::Braces;
use crate::keeping::Kept;
use crate::kinds::is;
use crate::text::{
    balances, copy_with_room, has_bytes, in_braces, join, piece_between, with_comma,
};
use bib_names::{Name, NameFault, Word, split_name, split_names};
use bib_text::{Seq, Text, copied, is_space};
use std::alloc::{AllocError, Global};
use std::marker::Model;

/// The parts of a name as texts.
#[derive(Drop)]
pub(crate) struct Person<'a> {
    last: &'a [u8],
    first: &'a [u8],
    suffix: &'a [u8],
}

/// The slice of the text from one place to another, or as much of it as the text has.
fn between(text: &[u8], start: usize, end: usize) -> &[u8]
    ensures { result.now ≡ slice_range text.now start end }
{
    let rest = text.split_at(start.min(text.len())).1;
    rest.split_at(end.saturating_sub(start).min(rest.len())).0
}

/// The slice of a name from a place to where a word ends.
fn to_word_end<'a>(name: &'a [u8], start: usize, word: &Word<'_>) -> &'a [u8]
    ensures { result.now ≡ slice_range name.now start (word_end word.now) }
{
    between(name, start, word.at.saturating_add(word.text.len()))
}

/// The slice of a name from a place to where the last of these words ends.
fn to_last_end<'a>(name: &'a [u8], start: usize, words: &[Word<'_>]) -> &'a [u8]
    ensures { result.now ≡ to_last_end name.now start words.now }
{
    match words {
        [_, ..] => to_word_end(name, start, &words[words.len() - 1]),
        [] => b"",
    }
}

/// The slice of a name from the first of these words to the last.
fn part_text<'a>(name: &'a [u8], words: &[Word<'_>]) -> &'a [u8]
    ensures { result.now ≡ part_text name.now words.now }
{
    match words {
        [first, ..] => to_last_end(name, first.at, words),
        [] => b"",
    }
}

/// The slice of a name with von and Last, empty if Last has no word.
fn family_text<'a>(name: &'a [u8], von: &[Word<'_>], last: &[Word<'_>]) -> &'a [u8]
    ensures { result.now ≡ part_text name.now (family von.now last.now) }
{
    match von {
        [first, ..] => to_last_end(name, first.at, last),
        [] => part_text(name, last),
    }
}

impl<'a> Person<'a> {
    /// The parts of this name as texts.
    fn of(name: &'a [u8], parts: &Name<'_>) -> Self
        ensures { result ≡ person name.now parts.now }
    {
        Person {
            last: family_text(name, parts.von.as_slice(), parts.last.as_slice()),
            first: part_text(name, parts.first.as_slice()),
            suffix: part_text(name, parts.jr.as_slice()),
        }
    }

    /// Whether the name has a word.
    fn is_somebody(&self) -> bool
        ensures { result ≡ is_somebody self.now }
    {
        has_bytes(self.last) || has_bytes(self.first) || has_bytes(self.suffix)
    }

    /// `Last`, `Last, First` or `Last, First, Jr`.
    fn ris_name(&self, alloc: Global) -> Result<Text, AllocError>
        ensures { IfOk result (λ t. t ≡ ris_name self.now) }
    {
        if has_bytes(self.suffix) {
            let given = with_comma(alloc, self.first, self.suffix)?;
            return with_comma(alloc, self.last, given.as_slice());
        }
        if has_bytes(self.first) {
            return with_comma(alloc, self.last, self.first);
        }
        copied(alloc, self.last)
    }

    /// `Last`, `Last, First` or `Last, Jr, First`.
    fn bib_name(&self, alloc: Global) -> Result<Text, AllocError>
        ensures { IfOk result (λ t. t ≡ bib_name self.now) }
    {
        if has_bytes(self.suffix) {
            let first = if has_bytes(self.first) {
                self.first
            } else {
                b"{}"
            };
            let given = with_comma(alloc, self.suffix, first)?;
            return with_comma(alloc, self.last, given.as_slice());
        }
        if has_bytes(self.first) {
            return with_comma(alloc, self.last, self.first);
        }
        copied(alloc, self.last)
    }
}

impl<'a> Model for Person<'a> {
    ghost use Rattle.ris_format.specs.People.{Person as PersonTexts};

    ghost Value = { PersonTexts };

    ghost view = { λ p. record { last = p.last.now; first = p.first.now; suffix = p.suffix.now } };
}

/// The parts of the name as texts, none if the name cannot be taken apart.
fn person_in(alloc: Global, name: &[u8]) -> Result<Option<Person<'_>>, AllocError>
    ensures { IfOk result (λ found. found ≡ option_map (person name.now) (taken_apart name.now)) }
{
    match split_name(alloc, name) {
        Ok(parts) => Ok(Some(Person::of(name, &parts))),
        Err(NameFault::UnbalancedName) => Ok(None),
        Err(NameFault::TooManyCommas) => Ok(None),
        Err(_) => Err(AllocError),
    }
}

/// The names of a list, none if its braces do not balance.
pub(crate) fn listed_names(alloc: Global, list: &[u8]) -> Result<Seq<&[u8]>, AllocError>
    ensures { IfOk result (λ names. map (λ n. n.now) names ≡ listed_names list.now) }
{
    match split_names(alloc, list) {
        Ok(names) => Ok(names),
        Err(NameFault::UnbalancedName) => Ok(Seq::empty(alloc)),
        Err(_) => Err(AllocError),
    }
}

// ---- writing

/// Adds a line for the name if it has a word.
fn push_person<T: Kept>(
    alloc: Global,
    lines: &mut Vec<T>,
    tag: [u8; 2],
    person: &Person<'_>,
) -> Result<(), AllocError>
    ensures { OnOk result (lines.new.items ≡ lines.old.items ++ flat_map T.kept (map (line tag) (written_person person.now))) }
{
    if person.is_somebody() {
        let value = person.ris_name(alloc)?;
        T::keep(alloc, lines, tag, value.as_slice())?;
    }
    Ok(())
}

/// Adds a line for the name if it has a word. Says whether the name can be taken apart.
fn push_name<T: Kept>(
    alloc: Global,
    lines: &mut Vec<T>,
    tag: [u8; 2],
    name: &[u8],
) -> Result<bool, AllocError>
    ensures whole { IfOk result (λ is_whole. is_whole ≡ not (is_broken name.now)) }
    ensures lines { OnOk result (lines.new.items ≡ lines.old.items ++ flat_map T.kept (map (line tag) (written_name name.now))) }
{
    let Some(person) = person_in(alloc, name)? else {
        return Ok(false);
    };
    push_person(alloc, lines, tag, &person)?;
    Ok(true)
}

/// Adds a line for each of these names, or no line if one of them cannot be taken apart.
fn push_names<T: Kept>(
    alloc: Global,
    lines: &mut Vec<T>,
    tag: [u8; 2],
    names: &[&[u8]],
) -> Result<(), AllocError>
    ensures { OnOk result (lines.new.items ≡ lines.old.items ++ flat_map T.kept (map (line tag) (written_names (map (λ n. n.now) names.now)))) }
{
    let before = lines.len();
    'names: for name in names {
        if !push_name(alloc, lines, tag, name)? {
            lines.truncate(before);
            return Ok(());
        }
    }
    Ok(())
}

/// Adds a line for each name of a list, or no line if the list is refused.
#[tactic(auto, using(crate::proofs::TakenApart::written_listed))]
pub(crate) fn push_people<T: Kept>(
    alloc: Global,
    lines: &mut Vec<T>,
    tag: [u8; 2],
    list: &[u8],
) -> Result<(), AllocError>
    ensures { OnOk result (lines.new.items ≡ lines.old.items ++ flat_map T.kept (map (line tag) (written_people list.now))) }
{
    push_names(alloc, lines, tag, listed_names(alloc, list)?.as_slice())
}

// ---- reading

/// Whether a name is cut at this byte.
pub(crate) fn is_cut(braces: Braces, byte: u8) -> bool
    ensures { result ≡ (braces.opened == braces.closed && byte == 44) }
{
    braces.are_level() && byte == b','
}

/// The texts between the commas of a value at depth 0, without white space at their ends.
fn name_pieces(alloc: Global, value: &[u8]) -> Result<Vec<&[u8]>, AllocError>
    ensures { IfOk result (λ pieces. map (λ p. p.now) pieces.items ≡ name_pieces value.now) }
{
    let mut pieces = Vec::new(alloc);
    let mut start = 0;
    let mut braces = Braces::none();
    for (place, &byte) in value.iter().enumerate() {
        if is_cut(braces, byte) {
            pieces.push(piece_between(value, start, place))?;
            start = place + 1;
        }
        braces = braces.and(byte);
    }
    pieces.push(piece_between(value, start, value.len()))?;
    Ok(pieces)
}

/// The person that these pieces of a value name.
fn person_of<'a>(pieces: &[&'a [u8]]) -> Person<'a>
    ensures { result ≡ person_of (map (λ p. p.now) pieces.now) }
{
    match pieces {
        [last, first, suffix, ..] => Person {
            last,
            first,
            suffix,
        },
        [last, first] => Person {
            last,
            first,
            suffix: b"",
        },
        [last] => Person {
            last,
            first: b"",
            suffix: b"",
        },
        [] => Person {
            last: b"",
            first: b"",
            suffix: b"",
        },
    }
}

/// Whether no word after white space begins with an `a`: then no word is `and`.
fn lacks_and(text: &[u8]) -> bool
    ensures { result ≡ lacks_and false text.now }
{
    let mut after_space = false;
    for byte in text {
        if after_space && byte.to_ascii_lowercase() == b'a' {
            return false;
        }
        after_space = is_space(*byte);
    }
    true
}

/// Whether a value whose braces balance, and which has `pieces` pieces, would be read as another name than it says.
/// Most values need not be taken apart, and take no memory.
fn is_opaque(alloc: Global, value: &[u8], pieces: usize) -> Result<bool, AllocError>
    requires balanced { balances value.now ≡ true }
    requires count { pieces ≡ length (name_pieces value.now) }
    ensures { IfOk result (λ b. b ≡ is_opaque value.now) }
{
    if pieces > 3 {
        return Ok(true);
    }
    if lacks_and(value) {
        return Ok(false);
    }
    Ok(listed_names(alloc, value)?.as_slice().len() > 1)
}

/// A value whose braces balance, as a name of a list.
fn read_balanced(alloc: Global, value: &[u8]) -> Result<Text, AllocError>
    requires { balances value.now ≡ true }
    ensures { IfOk result (λ name. name ≡ read_balanced value.now) }
{
    let pieces = name_pieces(alloc, value)?;
    if is_opaque(alloc, value, pieces.len())? {
        return in_braces(copy_with_room(alloc, value)?);
    }
    person_of(pieces.as_slice()).bib_name(alloc)
}

/// A value as a name of a list.
fn read_name(alloc: Global, value: &[u8]) -> Result<Text, AllocError>
    ensures { IfOk result (λ name. name ≡ read_name value.now) }
{
    if balances(value) {
        read_balanced(alloc, value)
    } else {
        copied(alloc, value)
    }
}

/// Adds a value to a list as one more name.
fn push_read(alloc: Global, list: &mut Vec<u8>, value: &[u8]) -> Result<(), AllocError>
    ensures { OnOk result (list.new.items ≡ list.old.items ++ (codes " and " ++ read_name value.now)) }
{
    list.extend_from_slice(b" and ")?;
    list.extend_from_slice(read_name(alloc, value)?.as_slice())
}

/// The values as a list of names.
pub(crate) fn read_people(alloc: Global, values: &[&[u8]]) -> Result<Text, AllocError>
    ensures { IfOk result (λ list. list ≡ read_people (map (λ v. v.now) values.now)) }
{
    let [first, rest @ ..] = values else {
        return Ok(Seq::empty(alloc));
    };
    let mut list = read_name(alloc, first)?.into_vec();
    for value in rest {
        push_read(alloc, &mut list, value)?;
    }
    Ok(Seq::from_vec(list))
}

// ---- the profile

/// Whether the name is written as these parts of it say, with a Last.
fn is_plain_person(alloc: Global, name: &[u8], person: &Person<'_>) -> Result<bool, AllocError>
    ensures { IfOk result (λ b. b ≡ is_plain_person name.now person.now) }
{
    if !has_bytes(person.last) {
        return Ok(false);
    }
    Ok(is(person.bib_name(alloc)?.as_slice(), name))
}

/// Whether the name is written as its parts say, with a Last.
fn is_plain_name(alloc: Global, name: &[u8]) -> Result<bool, AllocError>
    ensures { IfOk result (λ b. b ≡ is_plain_name name.now) }
{
    match person_in(alloc, name)? {
        Some(person) => is_plain_person(alloc, name, &person),
        None => Ok(false),
    }
}

/// Whether all names are written as their parts say, with a Last.
fn are_all_plain(alloc: Global, names: &[&[u8]]) -> Result<bool, AllocError>
    ensures { IfOk result (λ b. b ≡ list_all is_plain_name (map (λ n. n.now) names.now)) }
{
    for name in names {
        if !is_plain_name(alloc, name)? {
            return Ok(false);
        }
    }
    Ok(true)
}

/// Whether the list is names that are written as their parts say, with a Last, joined by ` and `.
pub(crate) fn are_plain_names(alloc: Global, list: &[u8]) -> Result<bool, AllocError>
    ensures { IfOk result (λ b. b ≡ are_plain_names list.now) }
{
    if !balances(list) {
        return Ok(false);
    }
    let names = listed_names(alloc, list)?;
    let whole = join(alloc, b" and ", names.as_slice())?;
    if !is(whole.as_slice(), list) {
        return Ok(false);
    }
    are_all_plain(alloc, names.as_slice())
}

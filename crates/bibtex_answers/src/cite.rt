//! `cite --bibtex`: the keys that BibTeX lists.

ghost use Rattle.std.specs.Prelude.{◌≡◌, ◌++◌, [], codes, IfOk, OnOk};
ghost use Rattle.std.specs.List.{flat_map};
ghost use Rattle.std.specs.Option.{option_map_or};
ghost use Rattle.bib_store.specs.Readings.{OfReading};
ghost use Rattle.bib_answers.specs.Cite.{unknown_line, cite_status};
ghost use Rattle.bib_answers.specs.Marks.{ArePlaces};
ghost use Rattle.bib_answers.specs.Outcome.{answer_of};
ghost use Rattle.bibtex_answers.specs.Cite.{cite_answer};
ghost use Rattle.bibtex_answers.specs.Entries.{entry_line};
ghost use Rattle.bibtex_answers.specs.Opened.{AnswersAsBibtex};

use crate::lines::add_all;
use crate::messages::too_deep;
use crate::opening::answer_file;
use bib_answers::{Answer, outcome_of};
use bib_store::{Database, Paged};
use bib_text::Text;
use bib_words::status;
use bibtex_lists::{BibtexEntry, BibtexFault, BibtexList, listed_as_bibtex};
use std::alloc::{AllocError, Global};

/// The keys that BibTeX lists for these, and those of them that no entry has. A parent that is not cited is listed if at least `min`
/// entries name it. If `strict`, the status is 1 if no entry has a key.
pub fn answer_cite_as_bibtex(
    alloc: Global,
    file: Vec<u8>,
    keys: &[Text],
    min: u32,
    strict: bool,
) -> Result<Answer, AllocError>
    ensures { IfOk result (AnswersAsBibtex (cite_answer strict keys.now min) file.items) }
{
    answer_file(alloc, file, |db| cite_in(alloc, db, keys, min, strict))
}

/// What is answered for a plain file that is open after the macros of the style.
fn cite_in(
    alloc: Global,
    db: &Database<Paged>,
    keys: &[Text],
    min: u32,
    strict: bool,
) -> Result<Answer, AllocError>
    ensures { IfOk result (λ answer. OfReading db.now (λ r. answer ≡ cite_answer strict keys.now min r)) }
{
    match listed_as_bibtex(alloc, db, keys, min) {
        Ok(list) => {
            db.opens();
            cited(alloc, keys, &list, strict)
        }
        Err(BibtexFault::TooDeep) => too_deep(alloc),
        Err(BibtexFault::Memory) => Err(AllocError),
    }
}

/// The answer with a line for each entry of the list, and then one for each key without an entry.
fn cited(
    alloc: Global,
    keys: &[Text],
    list: &BibtexList,
    strict: bool,
) -> Result<Answer, AllocError>
    requires { ArePlaces keys.now list.now.unknown }
    ensures { IfOk result (λ answer. answer ≡ answer_of (flat_map entry_line list.now.listed ++ flat_map (unknown_line keys.now) list.now.unknown) [] (cite_status strict list.now.unknown)) }
{
    let unknown = list.unknown.as_slice();
    let mut lines = Vec::new(alloc);
    add_entries(&mut lines, list.listed.as_slice())?;
    add_unknown(&mut lines, keys, unknown)?;
    Ok(Answer {
        output: Text::from_vec(lines),
        outcome: outcome_of(Text::empty(alloc), status_of(strict, unknown)),
    })
}

/// The status, if no entry has the keys at these positions.
fn status_of(strict: bool, unknown: &[usize]) -> u8
    ensures { result ≡ cite_status strict unknown.now }
{
    match unknown {
        [_, ..] if strict => status::REFUSED,
        _ => status::DONE,
    }
}

/// Adds a line for each entry of the list.
fn add_entries(out: &mut Vec<u8>, list: &[BibtexEntry]) -> Result<(), AllocError>
    ensures { OnOk result (out.new.items ≡ out.old.items ++ flat_map entry_line list.now) }
{
    'entries: for entry in list {
        add_entry(out, entry)?;
    }
    Ok(())
}

fn add_entry(out: &mut Vec<u8>, entry: &BibtexEntry) -> Result<(), AllocError>
    ensures { OnOk result (out.new.items ≡ out.old.items ++ entry_line entry.now) }
{
    out.extend_from_slice(entry.key.as_slice())?;
    add_named(out, &entry.named)?;
    out.extend_from_slice(b"\n")
}

/// Adds a tab and the key, if there is one.
fn add_named(out: &mut Vec<u8>, named: &Option<Text>) -> Result<(), AllocError>
    ensures { OnOk result (out.new.items ≡ out.old.items ++ option_map_or (λ text. codes "\t" ++ text) named.now []) }
{
    let Some(key) = named else {
        return Ok(());
    };
    out.extend_from_slice(b"\t")?;
    out.extend_from_slice(key.as_slice())
}

/// Adds a line for each of the keys at these positions.
fn add_unknown(out: &mut Vec<u8>, keys: &[Text], places: &[usize]) -> Result<(), AllocError>
    requires { ArePlaces keys.now places.now }
    ensures { OnOk result (out.new.items ≡ out.old.items ++ flat_map (unknown_line keys.now) places.now) }
{
    'unknown: for place in places {
        add_unknown_key(out, keys[*place].as_slice())?;
    }
    Ok(())
}

fn add_unknown_key(out: &mut Vec<u8>, key: &[u8]) -> Result<(), AllocError>
    ensures { OnOk result (out.new.items ≡ out.old.items ++ codes "? " ++ (key.now ++ codes "\n")) }
{
    add_all(out, &[b"? ", key, b"\n"])
}
